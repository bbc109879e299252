// Restoring a card, or the records of a step, and counting its slots: how far it has come is a listing's progress, as a listing of the card as lent
// counts them. Each record is restored with a reach of at most `most`.
ghost use Rattle.std.specs.Prelude.{[], ◌∷◌, ◌++◌, ◌+◌, ◌*◌, ◌^◌, ◌≤◌, ◌<◌, length};
ghost use Rattle.card.specs.Slots.{record_count};
ghost use Rattle.card.specs.Listing.{decimal};
ghost use Rattle.card.specs.inner.Room.{longest_field, Within};
ghost use Rattle.walk.specs.inner.Parts.{CountsSlot, CountsFrom, StepsCounting, Sound, longest_restored};
ghost use Rattle.walk.specs.Counting.{CountsCard, restored_line};
ghost use Rattle.card.specs.Text.{Appends};

use crate::{STEP, Walk};
use card::Progress;
use card::cards::{is_blank, record_count};
use card::listing::advance;
use card::records::{RECORD, restore_record_up_to};
use card::text::Text;
use field::Question;

// The state for the next step, and how far the counting has come.
#[derive(Clone, Copy)]
pub struct Counted {
    pub walk: Walk,
    pub progress: Progress,
}

// A slot is restored in its place and counted. A blank one stays as it is.
fn count_slot(slot: &mut [u8], most: u8, s: Progress) -> Progress
    requires { Within (2 ^ 63) s }
    ensures { CountsSlot most s slot.old result slot.new }
{
    if is_blank(slot) {
        return Progress {
            next: s.next + 1,
            ..s
        };
    }
    advance(s, restore_record_up_to(slot, most))
}

// Slot i of the card, counted from 0.
fn count_at(card: &mut [u8], i: usize, most: u8, s: Progress) -> Progress
    requires { (i < record_count (length card.old)) × Within (2 ^ 63) s }
    ensures { CountsFrom most i 1 s card.old result card.new }
{
    let start = i * RECORD;
    let end = start + RECORD.min(card.len() - start);
    count_slot(&mut card[start..end], most, s)
}

// The `count` slots behind the first ones.
fn count_from(card: &mut [u8], first: usize, count: usize, most: u8, s: Progress) -> Progress
    requires { (first + count ≤ record_count (length card.old)) × Within (3 * 2 ^ 61) s }
    ensures { CountsFrom most first count s card.old result card.new }
{
    let mut progress = s;
    for i in 0..count {
        progress = count_at(card, first + i, most, progress);
    }
    progress
}

impl Walk {
    // One step that counts. No entry point: it requires counts that do not overflow.
    pub fn step_counting(self, card: &mut [u8], most: u8, s: Progress) -> Result<Counted, Question>
        requires { Within (3 * 2 ^ 61) s }
        ensures { StepsCounting most self s card.old result card.new }
    {
        let n = card.len();
        self.ask(n)?;
        let first = self.next - 1;
        let count = STEP.min(record_count(n) - first);
        let progress = count_from(card, first, count, most, s);
        Ok(Counted {
            walk: Walk {
                next: self.next + count,
                ..self
            },
            progress,
        })
    }
}

// The whole card is restored, and its slots are counted. No entry point: it requires counts that do not overflow.
pub fn restore_counting(card: &mut [u8], most: u8, s: Progress) -> Progress
    requires { Within (2 ^ 62) s }
    ensures { CountsCard most s card.old result card.new }
{
    let count = record_count(card.len());
    count_from(card, 0, count, most, s)
}

// Writes a word, a number and the byte that ends both.
#[tactic(auto, using(card::proofs::Writing::appending))]
fn put_item(out: &mut Text, word: &[u8], n: u64, end: u8)
    requires { length word.now + longest_field ≤ out.old.room }
    ensures text { Appends out.old (word.now ++ (decimal n ++ end ∷ [])) out.new }
    ensures upper_bound { out.old.room ≤ length word.now + longest_field + out.new.room }
{
    out.put_bytes(word);
    out.put_field(n, end);
}

// Writes the line that says what was done: records restored, places changed, records refused, blank slots. No entry point: it requires room
// for the line, and counts that do not exceed the slots.
#[tactic(auto, using(card::proofs::Writing::appending))]
pub fn put_restored(out: &mut Text, s: Progress)
    requires { (longest_restored ≤ out.old.room) × Sound s }
    ensures { Appends out.old (restored_line s) out.new }
{
    let t = s.totals;
    let blank = s.next - 1 - t.accepted - t.refused;
    put_item(out, b"restored ", t.accepted, b',');
    put_item(out, b" changed ", t.changed, b',');
    put_item(out, b" refused ", t.refused, b',');
    put_item(out, b" blank ", blank, b'\n');
}
