// The text of a card's day sheets, slot by slot. No function here is an entry point: each requires room for its text.
#![tactic(auto, using(card::proofs::Writing::appending))]

ghost use Rattle.std.specs.Prelude.{◌≡◌, ◌+◌, ◌^◌, ◌≤◌, length};
ghost use Rattle.card.specs.Text.{Appends};
ghost use Rattle.sheet.specs.Demands.{SheetSymbols};
ghost use Rattle.report.specs.Day.{day_of};
ghost use Rattle.card_csv.specs.Text.{sheet_line, day_line, slot_sheet, one_sheet, one_other, blank_tally, day_counted, slot_tallied};
ghost use Rattle.card_csv.specs.Text.{part_sheets, part_counts, tally_line};
ghost use Rattle.card_csv.specs.Batch.{sheet_batch, longest_sheet, longest_sheets};
ghost use Rattle.card_csv.specs.inner.Room.{longest_tally, TallyWithin};

use crate::Counts;
use crate::columns::{put_columns, put_date, put_small};
use card::cards::{is_blank, record_count, record_from};
use card::records::RECORD;
use card::text::Text;
use report::day::read_day;
use sheet::PUMP;

// A batch has at most so many slots.
pub const BATCH_SLOTS: usize = 100;

// The bytes of a batch.
pub const BATCH: usize = BATCH_SLOTS * RECORD;

// The room that its text needs: no line is longer than 424 bytes.
pub const BATCH_TEXT: usize = BATCH_SLOTS * 424;

// The room that the line of the counts needs.
pub const COUNTS_TEXT: usize = 88;

// Writes the line of a sheet, of which restoring changed so many places.
#[tactic(auto, using(card::proofs::Writing::appending), unfolding(crate::specs::Text::sheet_columns))]
fn put_sheet(out: &mut Text, number: u64, changed: u8, symbols: &[u8])
    requires { (longest_sheet ≤ out.old.room) × SheetSymbols symbols.now }
    ensures text { Appends out.old (sheet_line number changed symbols.now) out.new }
    ensures upper_bound { out.old.room ≤ longest_sheet + out.new.room }
{
    out.put_field(number, b',');
    put_date(out, symbols);
    out.put_byte(b',');
    put_small(out, symbols[PUMP]);
    out.put_byte(b',');
    put_small(out, changed);
    put_columns(out, symbols);
    out.put_byte(b'\n');
}

// One more sheet.
fn count_sheet(s: Counts) -> Counts
    requires { TallyWithin (2 ^ 63) s }
    ensures { result ≡ one_sheet s }
{
    Counts {
        next: s.next + 1,
        sheets: s.sheets + 1,
        ..s
    }
}

// One more record that is no sheet.
fn count_other(s: Counts) -> Counts
    requires { TallyWithin (2 ^ 63) s }
    ensures { result ≡ one_other s }
{
    Counts {
        next: s.next + 1,
        others: s.others + 1,
        ..s
    }
}

// One more blank slot.
fn count_blank(s: Counts) -> Counts
    requires { TallyWithin (2 ^ 63) s }
    ensures { result ≡ blank_tally s }
{
    Counts {
        next: s.next + 1,
        blanks: s.blanks + 1,
        ..s
    }
}

// A record has a line as a day sheet, or is counted alone.
fn list_record(bytes: &[u8], s: Counts, out: &mut Text) -> Counts
    requires { (longest_sheet ≤ out.old.room) × TallyWithin (2 ^ 63) s }
    ensures text { Appends out.old (day_line s.next (day_of bytes.now)) out.new }
    ensures counts { result ≡ day_counted s (day_of bytes.now) }
    ensures upper_bound { out.old.room ≤ longest_sheet + out.new.room }
{
    match read_day(bytes) {
        Ok(day) => {
            put_sheet(out, s.next, day.changed, &day.symbols);
            count_sheet(s)
        }
        Err(_) => count_other(s),
    }
}

// A slot: a blank one, or a record.
fn list_slot(slot: &[u8], s: Counts, out: &mut Text) -> Counts
    requires { (longest_sheet ≤ out.old.room) × TallyWithin (2 ^ 63) s }
    ensures text { Appends out.old (slot_sheet s.next slot.now) out.new }
    ensures counts { result ≡ slot_tallied s slot.now }
    ensures upper_bound { out.old.room ≤ longest_sheet + out.new.room }
{
    if is_blank(slot) {
        count_blank(s)
    } else {
        list_record(slot, s, out)
    }
}

// Writes the lines of a batch, whole slots and a shorter last piece, where s has been counted before it. The bound on the counts keeps every
// sum within 64 bits.
pub fn list_sheets(batch: &[u8], s: Counts, out: &mut Text) -> Counts
    requires { (length batch.now ≤ sheet_batch) × (longest_sheets ≤ out.old.room) × TallyWithin (2 ^ 62) s }
    ensures text { Appends out.old (part_sheets s batch.now) out.new }
    ensures counts { result ≡ part_counts s batch.now }
{
    let mut done = s;
    for i in 0..record_count(batch.len()) {
        done = list_slot(record_from(batch, i * RECORD), done, out);
    }
    done
}

// Writes what is said of the counts.
pub fn put_counts(out: &mut Text, s: Counts)
    requires { longest_tally ≤ out.old.room }
    ensures { Appends out.old (tally_line s) out.new }
{
    out.put_bytes(b"sheets ");
    out.put_field(s.sheets, b',');
    out.put_bytes(b" no sheets ");
    out.put_field(s.others, b',');
    out.put_bytes(b" blank ");
    out.put_field(s.blanks, b'\n');
}
