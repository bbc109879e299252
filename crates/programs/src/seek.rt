// The slot of a card with a number that an argument names. The card is read batch by batch up to the slot, which alone is kept.
ghost use Rattle.std.specs.Prelude.{◌≡◌, ◌≤◌, IfSome, length};
ghost use Rattle.card.specs.Record.{record_size};
ghost use Rattle.card.specs.Slots.{record_at};
ghost use Rattle.card.specs.Batch.{batch_size};
ghost use Rattle.programs.specs.Seek.{number_in};
ghost use Rattle.programs.specs.inner.Turns.{CanRead};
ghost use Rattle.programs.specs.inner.Seeks.{kept, SeeksBatch, SeeksSlot};

use crate::arguments::argument;
use crate::files::Card;
use crate::input::{Input, read_batch};
use crate::message::{say, say_name};
use card::cards::{record_count, record_from};
use card::records::RECORD;
use card::text::Text;
use card::words::put_refusal;
use card::{BATCH, BATCH_SLOTS, MOST_BATCHES};
use field::Question;

// The length of the slot, where one was found, and what was read.
#[derive(Clone, Copy)]
pub struct Sought {
    pub len: Option<usize>,
    pub input: Input,
}

impl Sought {
    // The slot at the front of the row; an empty one where none was found.
    pub(crate) fn slot(self, row: &[u8]) -> &[u8]
        requires { IfSome self.len (λ n. n ≤ length row.now) }
        ensures { result.now ≡ kept self.len row.now }
    {
        match self.len {
            Some(n) => &row[..n],
            None => &[],
        }
    }
}

// No digit is taken behind a larger number.
const MOST_BEFORE: u64 = 100000000000000;

// The number of a record that the text names. Records are counted from 1.
fn number_in(text: &[u8]) -> Option<u64>
    ensures { result ≡ number_in text.now }
{
    let mut v: u64 = 0;
    for b in text {
        if !b.is_ascii_digit() || MOST_BEFORE < v {
            return None;
        }
        v = v * 10 + (b - b'0') as u64;
    }
    if v > 0 { Some(v) } else { None }
}

// The number of a record that argument i names. One of more than 16 bytes names none, as an empty one.
pub(crate) fn number_at(rt: &HostRuntime, i: usize) -> Option<u64>
    ensures { IfSome result (λ n. 1 ≤ n) }
{
    number_in(argument(rt, i, &mut [0; 16]))
}

// Copies slot k of a batch, counted from 0, to the front of the row, and answers its length, where the batch has that slot.
fn keep_slot(batch: &[u8], k: u64, row: &mut [u8]) -> Option<usize>
    requires { (length batch.now ≤ batch_size) × (length row.old ≡ record_size) }
    ensures slot { kept result row.new ≡ record_at batch.now k }
    ensures room { IfSome result (λ n. n ≤ length row.new) }
{
    if record_count(batch.len()) as u64 <= k {
        return None;
    }
    let slot = record_from(batch, k as usize * RECORD);
    row[..slot.len()].copy_from_slice(slot);
    Some(slot.len())
}

// Reads a batch, and keeps slot k of it.
fn seek_batch(rt: &HostRuntime, card: &Card, i: Input, k: u64, row: &mut [u8]) -> Sought
    requires { CanRead i × (length row.old ≡ record_size) }
    ensures { SeeksBatch k i result row.new }
{
    let mut batch = [0u8; BATCH];
    let input = read_batch(rt, card, i, &mut batch);
    let len = keep_slot(&batch[..input.count()], k, row);
    Sought { len, input }
}

// Reads batch after batch up to slot k of the card, counted from 0.
pub(crate) fn seek(rt: &HostRuntime, card: &Card, k: u64, row: &mut [u8]) -> Sought
    requires { length row.old ≡ record_size }
    ensures { SeeksSlot k result row.new }
{
    let mut input = Input::new();
    for i in 0..MOST_BATCHES {
        let next = seek_batch(rt, card, input, k - i * BATCH_SLOTS as u64, row);
        if next.len.is_some() || !next.input.going() {
            return next;
        }
        input = next.input;
    }
    Sought { len: None, input }
}

// Says that record n of the card is refused.
pub(crate) fn say_refused(rt: &HostRuntime, card: &Card, n: u64, q: Question) {
    let mut out = [0u8; 105];
    let mut line = Text::new(&mut out);
    put_refusal(&mut line, n, q);
    say_name(rt, card.program);
    say(rt, card.name);
    say(rt, b": ");
    say(rt, line.as_bytes());
}
