// Columns of a line. No function here is an entry point: each requires room for its text.
#![tactic(auto, using(card::proofs::Writing::appending))]

ghost use Rattle.std.specs.Prelude.{◌≡◌, ◌∷◌, ◌+◌, ◌*◌, ◌≤◌, ◌<◌, length, take};
ghost use Rattle.card.specs.Listing.{decimal};
ghost use Rattle.card.specs.Text.{Appends};
ghost use Rattle.sheet.specs.Sheet.{quarters};
ghost use Rattle.sheet.specs.Demands.{SheetSymbols};
ghost use Rattle.report.specs.Table.{two_digits, date_text};
ghost use Rattle.report.specs.Quarter.{clock_text};
ghost use Rattle.report.specs.Window.{date_of};
ghost use Rattle.card_csv.specs.Text.{separator, time_columns, count_columns};
ghost use Rattle.card_csv.specs.inner.Room.{small_size, clock_size, time_size, count_size, date_size};

use card::text::Text;
use sheet::{DAY, MONTH, QUARTERS, YEAR};

// Writes the two digits of a number below 100.
#[tactic(auto, using(card::proofs::Writing::appending, crate::proofs::Digits::two_digits_lem))]
pub(crate) fn put_two(out: &mut Text, n: u8)
    requires { (2 ≤ out.old.room) × (n < 100) }
    ensures text { Appends out.old (two_digits n) out.new }
    ensures upper_bound { out.old.room ≤ 2 + out.new.room }
{
    out.put_byte(48 + n / 10);
    out.put_byte(48 + n % 10);
}

// Writes the one to three digits of a number: each goes over a leading zero. Which digits there are is hard to foresee.
pub(crate) fn put_small(out: &mut Text, n: u8)
    requires { small_size ≤ out.old.room }
    ensures text { Appends out.old (decimal n) out.new }
    ensures upper_bound { out.old.room ≤ small_size + out.new.room }
{
    out.put_byte_if(48 + n / 100, n >= 100);
    out.put_byte_if(48 + n / 10 % 10, n >= 10);
    out.put_byte(48 + n % 10);
}

// Writes the time hh:mm at which quarter hour n begins.
#[tactic(auto, using(card::proofs::Writing::appending), unfolding(report::specs::Quarter::clock_text))]
pub fn put_clock(out: &mut Text, n: u8)
    requires { (clock_size ≤ out.old.room) × (n < quarters) }
    ensures text { Appends out.old (clock_text n) out.new }
    ensures upper_bound { out.old.room ≤ clock_size + out.new.room }
{
    put_two(out, n / 4);
    out.put_byte(b':');
    put_two(out, n % 4 * 15);
}

// Writes a separator and the time at which quarter hour n begins.
fn put_time(out: &mut Text, n: u8)
    requires { (time_size ≤ out.old.room) × (n < quarters) }
    ensures text { Appends out.old (separator ∷ clock_text n) out.new }
    ensures upper_bound { out.old.room ≤ time_size + out.new.room }
{
    out.put_byte(b',');
    put_clock(out, n);
}

// Writes the times of all quarter hours.
#[tactic(auto, using(crate::proofs::SheetColumns::times_steps))]
pub(crate) fn put_times(out: &mut Text)
    requires { quarters * time_size ≤ out.old.room }
    ensures text { Appends out.old (time_columns quarters) out.new }
    ensures upper_bound { out.old.room ≤ quarters * time_size + out.new.room }
{
    for n in 0..QUARTERS as u8 {
        put_time(out, n);
    }
}

// Writes the year, which is given less 2000, month and day of a sheet.
#[tactic(auto, using(card::proofs::Writing::appending, crate::proofs::Digits::dates), unfolding(report::specs::Table::date_text))]
pub fn put_date(out: &mut Text, symbols: &[u8])
    requires { (date_size ≤ out.old.room) × SheetSymbols symbols.now }
    ensures text { Appends out.old (date_text (date_of symbols.now)) out.new }
    ensures upper_bound { out.old.room ≤ date_size + out.new.room }
{
    put_year(out, symbols[YEAR]);
    out.put_byte(b'-');
    put_two(out, symbols[MONTH]);
    out.put_byte(b'-');
    put_two(out, symbols[DAY]);
}

// Writes the four digits of a year, which is given less 2000.
#[tactic(auto, using(card::proofs::Writing::appending, crate::proofs::Digits::year_digits))]
fn put_year(out: &mut Text, year: u8)
    requires { 4 ≤ out.old.room }
    ensures text { Appends out.old (decimal (year + 2000)) out.new }
    ensures upper_bound { out.old.room ≤ 4 + out.new.room }
{
    put_two(out, 20 + year / 100);
    put_two(out, year % 100);
}

// Writes a separator and a count.
fn put_column(out: &mut Text, n: u8)
    requires { count_size ≤ out.old.room }
    ensures text { Appends out.old (separator ∷ decimal n) out.new }
    ensures upper_bound { out.old.room ≤ count_size + out.new.room }
{
    out.put_byte(b',');
    put_small(out, n);
}

// Writes the counts of all quarter hours.
#[tactic(auto, using(crate::proofs::SheetColumns::columns_steps))]
pub(crate) fn put_columns(out: &mut Text, symbols: &[u8])
    requires { (quarters * count_size ≤ out.old.room) × (quarters ≤ length symbols.now) }
    ensures text { Appends out.old (count_columns (take quarters symbols.now)) out.new }
    ensures upper_bound { out.old.room ≤ quarters * count_size + out.new.room }
{
    for count in &symbols[..QUARTERS] {
        put_column(out, *count);
    }
}
