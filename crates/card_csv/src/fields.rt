// The columns of a line that is read: where they end, and the numbers and dates that stand in them.
ghost use Rattle.std.specs.Prelude.{◌≡◌, true, ◌==◌, ◌+◌, ◌<◌, length, position};
ghost use Rattle.std.specs.Char.{is_ascii_digit};
ghost use Rattle.std.specs.List.{list_all};
ghost use Rattle.code.specs.Demands.{occurs};
ghost use Rattle.card_csv.specs.Text.{separator};
ghost use Rattle.card_csv.specs.Reading.{trimmed, first_column, other_columns, is_decimal, value_of, symbol_in};
ghost use Rattle.card_csv.specs.Reading.{two_at, year_in, date_from, has_hyphens, date_in};

use crate::Fault;
use sheet::calendar::date_exists;

// A date, the year less 2000.
#[derive(Clone, Copy)]
pub(crate) struct SheetDate {
    pub year: u8,
    pub month: u8,
    pub day: u8,
}

// The line without the carriage return at its end.
pub(crate) fn trimmed(line: &[u8]) -> &[u8]
    ensures { result.now ≡ trimmed line.now }
{
    line.strip_suffix(b"\r").unwrap_or(line)
}

// The number of commas.
pub(crate) fn commas(text: &[u8]) -> usize
    ensures { result ≡ occurs separator text.now }
{
    let mut n = 0;
    for b in text {
        if *b == b',' {
            n += 1;
        }
    }
    n
}

// The place of the first such byte.
pub(crate) fn find(text: &[u8], byte: u8) -> Option<usize>
    ensures { result ≡ position (λ b. b == byte) text.now }
{
    text.iter().position(|b| *b == byte)
}

// The first column, and the others behind it.
pub(crate) fn cut(text: &[u8]) -> (&[u8], &[u8])
    ensures first { result.0.now ≡ first_column text.now }
    ensures others { result.1.now ≡ other_columns text.now }
{
    match find(text, b',') {
        Some(end) => (&text[..end], &text[end + 1..]),
        None => (text, &[]),
    }
}

// Is every byte a digit?
fn all_digits(text: &[u8]) -> bool
    ensures { result ≡ list_all is_ascii_digit text.now }
{
    text.iter().all(u8::is_ascii_digit)
}

// Is it a decimal number of at most so many digits?
pub(crate) fn is_number(text: &[u8], most: usize) -> bool
    ensures { result ≡ is_decimal most text.now }
{
    !text.is_empty() && text.len() <= most && all_digits(text)
}

// The number that at most three digits stand for.
fn value_of(text: &[u8]) -> u16
    requires { is_decimal 3 text.now ≡ true }
    ensures { result ≡ value_of text.now }
{
    let mut value = 0;
    for digit in text {
        value = value * 10 + u16::from(*digit - b'0');
    }
    value
}

// The symbol that a column stands for. A number above 127 is the fault that is given.
pub(crate) fn symbol_in(text: &[u8], fault: Fault) -> Result<u8, Fault>
    ensures { result ≡ symbol_in fault text.now }
{
    if !is_number(text, 3) {
        return Err(Fault::Number);
    }
    let v = value_of(text);
    if v < 128 { Ok(v as u8) } else { Err(fault) }
}

// The two digits at a place as a number.
fn two_at(text: &[u8], i: usize) -> Option<u8>
    requires { i + 1 < length text.now }
    ensures { result ≡ two_at text.now i }
{
    let tens = text[i];
    let ones = text[i + 1];
    if tens.is_ascii_digit() && ones.is_ascii_digit() {
        Some((tens - b'0') * 10 + (ones - b'0'))
    } else {
        None
    }
}

// The first four digits as a number.
fn year_in(text: &[u8]) -> Option<u16>
    requires { 3 < length text.now }
    ensures { result ≡ year_in text.now }
{
    let hundreds = two_at(text, 0)?;
    let rest = two_at(text, 2)?;
    Some(u16::from(hundreds) * 100 + u16::from(rest))
}

// The date of these numbers.
fn date_from(year: u16, month: u8, day: u8) -> Option<SheetDate>
    ensures { result ≡ date_from year month day }
{
    if year < 2000 || 2128 <= year {
        return None;
    }
    let year = (year - 2000) as u8;
    date_exists(year, month, day).then_some(SheetDate { year, month, day })
}

// Are there ten bytes, with two hyphens where they stand in a date?
fn has_hyphens(text: &[u8]) -> bool
    ensures { result ≡ has_hyphens text.now }
{
    text.len() == 10 && text[4] == b'-' && text[7] == b'-'
}

// The date that a column stands for.
pub(crate) fn date_in(text: &[u8]) -> Option<SheetDate>
    ensures { result ≡ date_in text.now }
{
    if !has_hyphens(text) {
        return None;
    }
    date_from(year_in(text)?, two_at(text, 5)?, two_at(text, 8)?)
}
