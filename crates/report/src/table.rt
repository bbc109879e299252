// The text of a report as a table. No function here is an entry point: each requires room for its text. The bound on the report's numbers
// is for the year, which is counted from 2000.
#![tactic(auto, using(card::proofs::Writing::appending))]

ghost use Rattle.std.specs.Prelude.{◌+◌, ◌*◌, ◌^◌, ◌≤◌, ◌<◌, length};
ghost use Rattle.card.specs.Text.{Appends};
ghost use Rattle.report.specs.Window.{pumps};
ghost use Rattle.report.specs.inner.Room.{Countable, longest_number, longest_date, longest_counts, longest_row, longest_last, longest_table};
ghost use Rattle.report.specs.Table.{two_digits, date_text, count_fields, row_line, pump_line, pump_lines, last_lines, table_text};

use crate::row::{Date, ROW, Row, row_of};
use crate::window::{BLANK, MORE, REFUSED};
use card::listing::put_more;
use card::text::Text;

// Writes n's digits, with a zero before a single one.
#[tactic(auto, using(card::proofs::Writing::appending, card::proofs::Writing::length_one), unfolding(crate::specs::Table::two_digits))]
pub(crate) fn put_two(out: &mut Text, n: u64)
    requires { longest_number ≤ out.old.room }
    ensures text { Appends out.old (two_digits n) out.new }
    ensures upper_bound { out.old.room ≤ longest_number + out.new.room }
{
    if n < 10 {
        out.put_byte(b'0');
    }
    out.put_decimal(n);
}

// Writes a date.
#[tactic(auto, using(card::proofs::Writing::appending), unfolding(crate::specs::Table::date_text))]
fn put_date(out: &mut Text, d: Date)
    requires { (longest_date ≤ out.old.room) × (d.year ≤ 2 ^ 63) }
    ensures text { Appends out.old (date_text d) out.new }
    ensures upper_bound { out.old.room ≤ longest_date + out.new.room }
{
    out.put_field(d.year + 2000, b'-');
    put_two(out, d.month);
    out.put_byte(b'-');
    put_two(out, d.day);
}

// Writes the first five columns of pump p, which has the row r.
#[tactic(auto, using(card::proofs::Writing::appending), unfolding(crate::specs::Table::count_fields))]
fn put_counts(out: &mut Text, p: u64, r: Row)
    requires { longest_counts ≤ out.old.room }
    ensures text { Appends out.old (count_fields p r) out.new }
    ensures upper_bound { out.old.room ≤ longest_counts + out.new.room }
{
    out.put_field(p, b' ');
    out.put_field(r.sheets, b' ');
    out.put_field(r.sum, b' ');
    out.put_field(r.full, b' ');
    out.put_field(r.peak.count, b' ');
}

// Writes the line of pump p, which has the row r.
#[tactic(auto, using(card::proofs::Writing::appending), unfolding(crate::specs::Table::row_line))]
fn put_line(out: &mut Text, p: u64, r: Row)
    requires { (longest_row ≤ out.old.room) × (r.peak.date.year ≤ 2 ^ 63) }
    ensures { Appends out.old (row_line p r) out.new }
{
    put_counts(out, p, r);
    put_date(out, r.peak.date);
    out.put_byte(b' ');
    out.put_field(r.quotient, b' ');
    out.put_field(r.remainder, b'\n');
}

// Writes the line of pump p, if it has sheets.
fn put_pump(out: &mut Text, report: &[u64], p: usize)
    requires { (longest_row ≤ out.old.room) × (p < pumps) × Countable (2 ^ 63) report.now }
    ensures { Appends out.old (pump_line report.now p) out.new }
{
    let from = p * ROW;
    let row = row_of(&report[from..from + ROW]);
    if row.sheets != 0 {
        put_line(out, p as u64, row);
    }
}

// Writes the lines of all pumps.
fn put_pumps(out: &mut Text, report: &[u64])
    requires { (pumps * longest_row ≤ out.old.room) × Countable (2 ^ 63) report.now }
    ensures { Appends out.old (pump_lines report.now pumps) out.new }
{
    for p in 0..128 {
        put_pump(out, report, p);
    }
}

// Writes the lines behind those of the pumps.
#[tactic(auto, using(card::proofs::Writing::appending), unfolding(crate::specs::Table::last_lines))]
fn put_last(out: &mut Text, report: &[u64])
    requires { (longest_last ≤ out.old.room) × Countable (2 ^ 63) report.now }
    ensures { Appends out.old (last_lines report.now) out.new }
{
    out.put_bytes(b"refused ");
    out.put_field(report[REFUSED], b'\n');
    out.put_bytes(b"blank ");
    out.put_field(report[BLANK], b'\n');
    if report[MORE] != 0 {
        put_more(out);
    }
}

// Writes the whole table. No entry point: it requires room for it, and numbers to which 2000 can be added.
#[tactic(auto, using(card::proofs::Writing::appending, crate::proofs::Tables::pumps_short), unfolding(crate::specs::Table::table_text))]
pub fn put_table(out: &mut Text, report: &[u64])
    requires { (longest_table ≤ out.old.room) × Countable (2 ^ 63) report.now }
    ensures { Appends out.old (table_text report.now) out.new }
{
    out.put_bytes(b"pump sheets starts full highest date quotient remainder\n");
    put_pumps(out, report);
    put_last(out, report);
}
