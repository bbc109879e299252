// A window of the day, the counts of a sheet in it, and the row of a pump: its numbers in a report.
ghost use Rattle.std.specs.Prelude.{◌≡◌, true, ◌+◌, ◌^◌, ◌≤◌, ◌<◌, length};
ghost use Rattle.sheet.specs.Sheet.{quarters, sheet_size};
ghost use Rattle.sheet.specs.Demands.{SheetSymbols};
ghost use Rattle.report.specs.Window.{is_window, counts_of, date_of, peak_of, row_after, row_with, row_from, row_numbers, row_size};
ghost use Rattle.report.specs.inner.Room.{Most};

use sheet::{DAY, MONTH, QUARTERS, YEAR};

// The numbers of a pump.
pub(crate) const ROW: usize = 9;

// A window of the day: quarter hours from the first up to the end, which is not included.
#[derive(Clone, Copy)]
pub struct Window {
    pub first: u8,
    pub end: u8,
}

// A date: the year less 2000, the month, the day.
#[derive(Clone, Copy, PartialEq, Eq, PartialOrd, Ord)]
pub(crate) struct Date {
    pub year: u64,
    pub month: u64,
    pub day: u64,
}

// The highest count of one quarter hour, and its earliest date.
#[derive(Clone, Copy)]
pub(crate) struct Peak {
    pub count: u64,
    pub date: Date,
}

// What is reported of a pump: sheets read; in the window the sum of starts, the number of counts of 127, the highest count; the sum's mean per
// sheet as quotient and remainder.
#[derive(Clone, Copy)]
pub(crate) struct Row {
    pub sheets: u64,
    pub sum: u64,
    pub full: u64,
    pub peak: Peak,
    pub quotient: u64,
    pub remainder: u64,
}

// Of some counts: their sum, how many are 127, the highest.
#[derive(Clone, Copy)]
struct Counts {
    sum: u64,
    full: u64,
    highest: u64,
}

fn counts_of(xs: &[u8]) -> Counts
    requires { length xs.now ≤ quarters }
    ensures { result ≡ counts_of xs.now }
{
    Counts {
        sum: xs.iter().map(|x| u64::from(*x)).sum(),
        full: xs.iter().filter(|x| **x == 127).count() as u64,
        highest: u64::from(xs.iter().copied().max().unwrap_or(0)),
    }
}

// The highest count with its earliest date: that of so many sheets, or that of a further one.
fn peak_of(sheets: u64, old: Peak, new: Peak) -> Peak
    ensures { result ≡ peak_of sheets old new }
{
    if sheets == 0 || old.count < new.count {
        return new;
    }
    if old.count == new.count && new.date < old.date {
        return new;
    }
    old
}

// The date among the symbols.
pub(crate) fn date_of(symbols: &[u8]) -> Date
    requires { length symbols.now ≡ sheet_size }
    ensures { result ≡ date_of symbols.now }
{
    Date {
        year: u64::from(symbols[YEAR]),
        month: u64::from(symbols[MONTH]),
        day: u64::from(symbols[DAY]),
    }
}

// The row of a pump with a further sheet, which has these counts and this date.
fn row_after(row: Row, c: Counts, date: Date) -> Row
    requires { (row.sheets + 1 < 2 ^ 64) × (row.sum + c.sum < 2 ^ 64) × (row.full + c.full < 2 ^ 64) }
    ensures { result ≡ row_after row c date }
{
    let sheets = row.sheets + 1;
    let sum = row.sum + c.sum;
    let old = row.peak;
    let new = Peak {
        count: c.highest,
        date,
    };
    Row {
        sheets,
        sum,
        full: row.full + c.full,
        peak: peak_of(row.sheets, old, new),
        quotient: sum / sheets,
        remainder: sum % sheets,
    }
}

// The row of a pump with a further sheet, which has these symbols.
pub(crate) fn with_sheet(row: Row, symbols: &[u8], w: Window) -> Row
    requires { (is_window w ≡ true) × SheetSymbols symbols.now × Most (2 ^ 63) row }
    ensures { result ≡ row_with w row symbols.now }
{
    let counts = counts_of(&symbols[w.first as usize..w.end as usize]);
    row_after(row, counts, date_of(symbols))
}

// The row that stands in nine numbers.
pub(crate) fn row_of(xs: &[u64]) -> Row
    requires { length xs.now ≡ row_size }
    ensures { result ≡ row_from xs.now }
{
    let date = Date {
        year: xs[4],
        month: xs[5],
        day: xs[6],
    };
    let peak = Peak { count: xs[3], date };
    Row {
        sheets: xs[0],
        sum: xs[1],
        full: xs[2],
        peak,
        quotient: xs[7],
        remainder: xs[8],
    }
}

pub(crate) fn put_row(xs: &mut [u64], r: Row)
    requires { length xs.old ≡ row_size }
    ensures { xs.new ≡ row_numbers r }
{
    xs.copy_from_slice(&[
        r.sheets,
        r.sum,
        r.full,
        r.peak.count,
        r.peak.date.year,
        r.peak.date.month,
        r.peak.date.day,
        r.quotient,
        r.remainder,
    ]);
}

// Is the window's first quarter hour below its end, and that at most 96?
pub fn is_window(w: Window) -> bool
    ensures { result ≡ is_window w }
{
    w.first < w.end && w.end as usize <= QUARTERS
}
