// The card check of a card that comes in batches, as a line of text.
ghost use Rattle.std.specs.Prelude.{◌^◌, ◌≤◌, length};
ghost use Rattle.card.specs.Record.{record_of};
ghost use Rattle.card.specs.Card.{searched};
ghost use Rattle.card.specs.Batch.{batch_size};
ghost use Rattle.card.specs.Text.{Appends};
ghost use Rattle.card.specs.inner.Room.{longest_refusal};
ghost use Rattle.card.specs.Checked.{outcome_line, Finds};

use crate::cards::{check, record_from};
use crate::records::{RECORD, probe};
use crate::text::Text;
use crate::words::put_refusal;

// Writes the line of a record that would be refused, and nothing for another.
fn put_outcome(bytes: &[u8], number: u64, out: &mut Text)
    requires { longest_refusal ≤ out.old.room }
    ensures { Appends out.old (outcome_line number (record_of bytes.now)) out.new }
{
    if let Err(q) = probe(bytes) {
        put_refusal(out, number, q);
    }
}

// Checks a batch, where so many slots of the card stand before it: the line of the first record that would be refused is written, if there
// is one, and the answer is whether there is. No entry point: it requires at most a batch, a number that does not overflow, and room for
// the line.
pub fn check_batch(batch: &[u8], before: u64, out: &mut Text) -> bool
    requires { (length batch.now ≤ batch_size) × (before ≤ 2 ^ 62) × (longest_refusal ≤ out.old.room) }
    ensures { Finds (searched before batch.now) out.old result out.new }
{
    match check(batch) {
        None => false,
        Some(k) => {
            let record = record_from(batch, (k - 1) * RECORD);
            put_outcome(record, before + k as u64, out);
            true
        }
    }
}
