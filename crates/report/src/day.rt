// The slots of a card by their numbers, and a record read as a day sheet.
ghost use Rattle.std.specs.Prelude.{◌≡◌};
ghost use Rattle.report.specs.Day.{has_record, restored_day, day_of};
ghost use Rattle.report.specs.inner.Parts.{SlotPart, Whole, day_in};

use card::cards::{is_number, record_count, record_from};
use card::records::{HEADER, RECORD, restored_copy};
use code::word_length;
use field::Question;
use sheet::{FIRST, SHEET, ask_content};

// A record read as a day sheet: the number of places that restoring changed, and the symbols.
#[derive(Clone, Copy)]
pub struct Reading {
    pub changed: u8,
    pub symbols: [u8; SHEET],
}

// Has the card a record of this number, counted from 1?
pub(crate) fn has_record(card: &[u8], number: usize) -> bool
    ensures { result ≡ has_record card.now number }
{
    is_number(number, record_count(card.len()))
}

// The slot with this number, as it stands on the card, or nothing where the card has none.
pub(crate) fn slot(card: &[u8], number: usize) -> &[u8]
    ensures { SlotPart card.entry number result }
{
    if has_record(card, number) {
        record_from(card, (number - 1) * RECORD)
    } else {
        &card[0..0]
    }
}

// Reads the day sheet of a restored record, of which so many places were changed. Its word is a codeword, so that only the questions about
// its content are put.
fn read_restored(bytes: &[u8], changed: u8) -> Result<Reading, Question>
    requires { Whole bytes.now }
    ensures { day_in result ≡ restored_day changed bytes.now }
{
    let width = bytes[0];
    let from = HEADER;
    let end = HEADER + word_length(width);
    ask_content(width, &bytes[from..end])?;
    let first = HEADER + FIRST;
    let last = first + SHEET;
    let mut symbols = [0u8; SHEET];
    symbols.copy_from_slice(&bytes[first..last]);
    Ok(Reading { changed, symbols })
}

// Restores a record in a copy and reads it as a day sheet; the record stays as it is.
pub fn read_day(bytes: &[u8]) -> Result<Reading, Question>
    ensures { day_in result ≡ day_of bytes.now }
{
    let restored = restored_copy(bytes)?;
    read_restored(&restored.bytes, restored.changed)
}
