// Restoring a card as a walk of steps, and a look at a record in between.
#![tactic(auto)]

pub mod counting;

ghost use Rattle.std.specs.Prelude.{◌≡◌, length};
ghost use Rattle.walk.specs.Walk.{begun, step_asked, Steps};
ghost use Rattle.walk.specs.Look.{look_size, look_asked, Looks, LooksAt};
ghost use Rattle.walk.specs.inner.Parts.{ShowsRecord};

use card::cards::{is_number, record_count, record_from};
use card::records::{LONGEST_REACH, RECORD, restored_copy};
use card::{Progress, Totals};
use field::Question;

// So many records are treated in a step, fewer only at the end.
pub(crate) const STEP: usize = 16;

// A row has room for the longest word.
pub const ROW: usize = 132;

// The state of a walk: the length of the card that it began with, and the next record, counted from 1.
#[derive(Clone, Copy)]
pub struct Walk {
    pub length: usize,
    pub next: usize,
}

impl Walk {
    // A walk over the card begins with its first record.
    pub fn begin(card: &[u8]) -> Self
        ensures { result ≡ begun (length card.now) }
    {
        Self {
            length: card.len(),
            next: 1,
        }
    }

    // Has the card, of n bytes, the length that the walk began with, and is the next record 1 to N + 1?
    pub(crate) fn ask(self, n: usize) -> Result<(), Question>
        ensures { result ≡ step_asked self n }
    {
        if n != self.length {
            return Err(Question::Length);
        }
        if is_number(self.next, record_count(n) + 1) {
            Ok(())
        } else {
            Err(Question::RecordNumber)
        }
    }

    // One step: up to 16 records are restored, and the state that it gives tells the next one. A refused step leaves the card and the walk.
    pub fn step(self, card: &mut [u8]) -> Result<Self, Question>
        ensures { Steps self card.old result card.new }
    {
        let uncounted = Progress {
            next: 1,
            totals: Totals {
                accepted: 0,
                refused: 0,
                changed: 0,
            },
        };
        let counted = self.step_counting(card, LONGEST_REACH, uncounted)?;
        Ok(counted.walk)
    }
}

// Is the number that of a record of the card, which has n bytes, and has the row its exact length?
fn ask_look(n: usize, number: usize, row: usize) -> Result<(), Question>
    ensures { result ≡ look_asked n number row }
{
    if !is_number(number, record_count(n)) {
        return Err(Question::RecordNumber);
    }
    if row == ROW {
        Ok(())
    } else {
        Err(Question::Length)
    }
}

// The symbols of a record, which is restored in a copy.
fn show(bytes: &[u8], row: &mut [u8]) -> Result<(), Question>
    requires { length row.old ≡ look_size }
    ensures { ShowsRecord bytes.now row.old result row.new }
{
    let restored = restored_copy(bytes)?;
    row.copy_from_slice(&restored.bytes[RECORD - ROW..]);
    Ok(())
}

// A look at the record of that number, counted from 1, into a lent row.
pub fn look_into(card: &[u8], number: usize, row: &mut [u8]) -> Result<(), Question>
    ensures { Looks card.now number row.old result row.new }
{
    ask_look(card.len(), number, row.len())?;
    show(record_from(card, (number - 1) * RECORD), row)
}

// A look at the record of that number, counted from 1: its symbols with 0 behind them.
pub fn look(card: &[u8], number: usize) -> Result<[u8; ROW], Question>
    ensures { LooksAt card.now number result }
{
    let mut row = [0u8; ROW];
    look_into(card, number, &mut row)?;
    Ok(row)
}
