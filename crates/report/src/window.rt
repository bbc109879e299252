// Starts in a window of the day, counted over a card for each pump, in a lent report of 1,155 numbers: nine for each pump, then the refused
// records, the blank slots, and whether the card goes on.
ghost use Rattle.std.specs.Prelude.{◌≡◌, true, ◌+◌, ◌*◌, ◌^◌, ◌≤◌, ◌<◌, length, replicate};
ghost use Rattle.code.specs.Word.{at};
ghost use Rattle.card.specs.Record.{record_size};
ghost use Rattle.card.specs.Listing.{most_records};
ghost use Rattle.sheet.specs.Sheet.{pump_at};
ghost use Rattle.sheet.specs.Demands.{SheetSymbols};
ghost use Rattle.report.specs.Day.{day_of};
ghost use Rattle.report.specs.Window.{is_window, row_with, with_row, row_of, one_more, day_added, slot_added, part_added, finished, report_of, report_size};
ghost use Rattle.report.specs.Window.{more_at, window_asked, ReportsWindow};
ghost use Rattle.report.specs.inner.Room.{Countable};

use crate::day::read_day;
use crate::row::{ROW, Window, is_window, put_row, row_of, with_sheet};
use card::cards::{is_blank, record_count, record_from};
use card::records::RECORD;
use field::Question;
use sheet::PUMP;

// Behind the rows of 128 pumps.
pub(crate) const REFUSED: usize = 1152;

pub(crate) const BLANK: usize = 1153;

pub(crate) const MORE: usize = 1154;

pub const REPORT: usize = 1155;

// No more records than this are looked at, blank ones among them.
pub const MOST: usize = 1000000;

// A sheet enters the row of its pump.
fn add_sheet(symbols: &[u8], w: Window, report: &mut [u64])
    requires { (is_window w ≡ true) × SheetSymbols symbols.now × Countable (2 ^ 63) report.old }
    ensures { report.new
        ≡ with_row report.old (at symbols.now pump_at)
        (row_with w (row_of report.old (at symbols.now pump_at)) symbols.now) }
{
    let from = symbols[PUMP] as usize * ROW;
    let row = &mut report[from..from + ROW];
    put_row(row, with_sheet(row_of(row), symbols, w));
}

// One more in a number of the report.
fn add_one(report: &mut [u64], i: usize)
    requires { (i < length report.old) × (at report.old i + 1 < 2 ^ 64) }
    ensures { report.new ≡ one_more i report.old }
{
    report[i] += 1;
}

// A record enters as a day sheet, or counts as refused.
fn add_record(slot: &[u8], w: Window, report: &mut [u64])
    requires { (is_window w ≡ true) × Countable (2 ^ 63) report.old }
    ensures { report.new ≡ day_added w report.old (day_of slot.now) }
{
    match read_day(slot) {
        Ok(day) => add_sheet(&day.symbols, w, report),
        Err(_) => add_one(report, REFUSED),
    }
}

// A slot: a blank one, or a record.
fn add_slot(slot: &[u8], w: Window, report: &mut [u64])
    requires { (is_window w ≡ true) × Countable (2 ^ 63) report.old }
    ensures { report.new ≡ slot_added w report.old slot.now }
{
    if is_blank(slot) {
        add_one(report, BLANK);
    } else {
        add_record(slot, w, report);
    }
}

// The slots of a part of a card, whole ones and a shorter last piece, enter a report that has come to some state before. The bound on its
// numbers keeps every sum within 64 bits. No entry point: it requires a window, at most 1,000,000 slots, and that bound.
pub fn add_part(part: &[u8], w: Window, report: &mut [u64])
    requires { (is_window w ≡ true) × (length part.now ≤ most_records * record_size) × Countable (2 ^ 62) report.old }
    ensures { report.new ≡ part_added w report.old part.now }
{
    for i in 0..record_count(part.len()) {
        add_slot(record_from(part, i * RECORD), w, report);
    }
}

// A report of nothing: every number is 0.
pub fn begin(report: &mut [u64])
    ensures { report.new ≡ replicate (length report.old) 0 }
{
    report.fill(0);
}

// Says in the report whether the card goes on behind the records that were looked at. No entry point: it requires a report that is long
// enough.
pub fn finish(report: &mut [u64], more: bool)
    requires { more_at < length report.old }
    ensures { report.new ≡ finished report.old more }
{
    report[MORE] = u64::from(more);
}

// The report of a card: of its first 1,000,000 slots.
fn write_report(card: &[u8], w: Window, report: &mut [u64])
    requires { (is_window w ≡ true) × (length report.old ≡ report_size) }
    ensures { report.new ≡ report_of w card.now }
{
    begin(report);
    let most = MOST * RECORD;
    add_part(&card[..card.len().min(most)], w, report);
    finish(report, most < card.len());
}

// Question 21, then question 2, put to a report of n numbers.
fn ask_window(w: Window, n: usize) -> Result<(), Question>
    ensures { result ≡ window_asked w n }
{
    if !is_window(w) {
        return Err(Question::Window);
    }
    if n == REPORT {
        Ok(())
    } else {
        Err(Question::Length)
    }
}

// Reports the starts in the window over a card.
pub fn window(card: &[u8], w: Window, report: &mut [u64]) -> Result<(), Question>
    ensures { ReportsWindow w card.now report.old result report.new }
{
    ask_window(w, report.len())?;
    write_report(card, w, report);
    Ok(())
}
