// A line of the text, read.
ghost use Rattle.std.specs.Prelude.{◌≡◌, ◌++◌, ◌+◌, MatchResult, replicate};
ghost use Rattle.sheet.specs.Sheet.{quarters};
ghost use Rattle.card_csv.specs.Reading.{read_counts, counts_rest, columns_of, symbols_read, read_line};
ghost use Rattle.card_csv.specs.inner.Numbered.{behind_number};

use crate::Fault;
use crate::fields::{SheetDate, commas, cut, date_in, is_number, symbol_in, trimmed};
use sheet::{DAY, MONTH, PUMP, QUARTERS, SHEET, YEAR};

// The columns behind a number, whichever it is, where there is that column.
fn behind_number(text: &[u8], full: bool) -> Result<&[u8], Fault>
    ensures { MatchResult result (λ x. behind_number full text.now ≡ Ok x.now) (λ f. behind_number full text.now ≡ Err f) }
{
    if !full {
        return Ok(text);
    }
    let (number, others) = cut(text);
    if is_number(number, 20) {
        Ok(others)
    } else {
        Err(Fault::Number)
    }
}

// The symbols of a sheet with this date and pump, and no counts yet.
fn day_symbols(date: SheetDate, pump: u8) -> [u8; SHEET]
    ensures { result ≡ replicate quarters 0 ++ symbols_read date pump }
{
    let mut symbols = [0u8; SHEET];
    symbols[YEAR] = date.year;
    symbols[MONTH] = date.month;
    symbols[DAY] = date.day;
    symbols[PUMP] = pump;
    symbols
}

// Reads the counts of a sheet with this date and pump.
fn read_counts(text: &[u8], date: SheetDate, pump: u8) -> Result<[u8; SHEET], Fault>
    ensures { result ≡ counts_rest date pump (read_counts quarters text.now) }
{
    let mut symbols = day_symbols(date, pump);
    let mut rest = text;
    for i in 0..QUARTERS {
        let (count, others) = cut(rest);
        symbols[i] = symbol_in(count, Fault::Count)?;
        rest = others;
    }
    Ok(symbols)
}

// The columns of a line, less one.
fn commas_of(full: bool) -> usize
    ensures { result + 1 ≡ columns_of full }
{
    if full { 99 } else { 97 }
}

// Reads a line, with the columns slot and changed or without.
pub fn read_line(line: &[u8], full: bool) -> Result<[u8; SHEET], Fault>
    ensures { result ≡ read_line full line.now }
{
    let text = trimmed(line);
    if commas(text) != commas_of(full) {
        return Err(Fault::Columns);
    }
    let day = behind_number(text, full)?;
    let (date, others) = cut(day);
    let date = date_in(date).ok_or(Fault::Date)?;
    let (pump, others) = cut(others);
    let pump = symbol_in(pump, Fault::Pump)?;
    let counts = behind_number(others, full)?;
    read_counts(counts, date, pump)
}
