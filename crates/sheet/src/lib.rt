// Day sheets: the compressor starts of a day, its date and its pump, as a codeword of width 7.
#![tactic(auto)]

ghost use Rattle.std.specs.Prelude.{◌≡◌, ◌<◌, length};
ghost use Rattle.code.specs.Word.{places};
ghost use Rattle.code.specs.Call.{done};
ghost use Rattle.sheet.specs.Sheet.{day_at, sheet_size, is_dated, sheet_data};
ghost use Rattle.sheet.specs.Call.{write_sheet_asked, WritesSheet, content_asked, read_sheet_asked, ReadsSheet};

pub mod calendar;

use calendar::date_exists;
use code::validation::{all_zero, below};
use field::Question;
use field::arithmetic::order_of;

// The width of a day sheet.
pub const SHEET_WIDTH: u8 = 7;

// Symbols 0 to 95 are the starts in each quarter hour of the day.
pub const QUARTERS: usize = 96;

// The year less 2000.
pub const YEAR: usize = 96;

pub const MONTH: usize = 97;

pub const DAY: usize = 98;

pub const PUMP: usize = 99;

// The number of symbols that are written and read.
pub const SHEET: usize = 100;

// In a word they stand behind the five check symbols.
pub const FIRST: usize = 5;

const END: usize = FIRST + SHEET;

// Question 12: does the date among the symbols exist?
fn is_dated(symbols: &[u8]) -> bool
    requires { day_at < length symbols.now }
    ensures { result ≡ is_dated symbols.now }
{
    date_exists(symbols[YEAR], symbols[MONTH], symbols[DAY])
}

// Questions 1, 2, 7, 11 and 12, put to the symbols and a word of n bytes.
fn ask_write(width: u8, symbols: &[u8], n: usize) -> Result<(), Question>
    ensures { result ≡ write_sheet_asked width symbols.now n }
{
    let q = order_of(width);
    if q == 0 {
        return Err(Question::Width);
    }
    if n != q as usize + 4 {
        return Err(Question::Length);
    }
    if symbols.len() != SHEET {
        return Err(Question::Length);
    }
    if !below(symbols, q) {
        return Err(Question::Symbol);
    }
    if width != SHEET_WIDTH {
        return Err(Question::SheetWidth);
    }
    if is_dated(symbols) {
        Ok(())
    } else {
        Err(Question::Date)
    }
}

// The data of the day sheet: the symbols, then zeros.
fn padded(symbols: &[u8]) -> [u8; 127]
    requires { length symbols.now ≡ sheet_size }
    ensures { result ≡ sheet_data symbols.now }
{
    let mut message = [0u8; 127];
    message[..SHEET].copy_from_slice(symbols);
    message
}

// Writes the day sheet that has these symbols.
pub fn write_sheet(width: u8, symbols: &[u8], word: &mut [u8]) -> Result<(), Question>
    ensures { WritesSheet width symbols.now word.old result word.new }
{
    ask_write(width, symbols, word.len())?;
    let message = padded(symbols);
    code::encode(width, &message, word)
}

// Questions 11, 12 and 13, put to a codeword. No entry point: it requires the word's length.
pub fn ask_content(width: u8, word: &[u8]) -> Result<(), Question>
    requires { length word.now ≡ places width }
    ensures { result ≡ content_asked width word.now }
{
    if width != SHEET_WIDTH {
        return Err(Question::SheetWidth);
    }
    if !is_dated(&word[FIRST..END]) {
        return Err(Question::Date);
    }
    if all_zero(&word[END..]) {
        Ok(())
    } else {
        Err(Question::Unused)
    }
}

// All questions of the reader, put to the word and a slice of n symbols.
fn ask_read(width: u8, word: &[u8], n: usize) -> Result<(), Question>
    ensures { done result ≡ done (read_sheet_asked width word.now n) }
{
    if order_of(width) == 0 {
        return Err(Question::Width);
    }
    if n != SHEET {
        return Err(Question::Length);
    }
    if code::is_codeword(width, word)? {
        ask_content(width, word)
    } else {
        Err(Question::Syndrome)
    }
}

// Reads the symbols of a day sheet.
pub fn read_sheet(width: u8, word: &[u8], symbols: &mut [u8]) -> Result<(), Question>
    ensures { ReadsSheet width word.now symbols.old result symbols.new }
{
    ask_read(width, word, symbols.len())?;
    symbols.copy_from_slice(&word[FIRST..END]);
    Ok(())
}
