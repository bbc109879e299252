// Old cards into new, new into old. The functions below the two calls take the numbers k and j of erasure bytes of a record in the card and
// in the output.
ghost use Rattle.std.specs.Prelude.{◌≡◌, [], ◌∷◌, ◌++◌, ◌*◌, ◌≤◌, min, eqb, length, take};
ghost use Rattle.card.specs.Record.{header_of, size_of, erasure_bytes};
ghost use Rattle.card.specs.Conversion.{old_erasure_bytes, converted, card_asked, four_asked, Converts, to_new_asked, to_old_asked};
ghost use Rattle.card.specs.inner.Leading.{converted_slots};

use crate::parts::{nothing_found, see_part};
use crate::records::{ERASURE_BYTES, OLD_ERASURE_BYTES, size_of, verdict_of};
use code::word::copy;
use field::Question;

// Do m bytes make n slots?
fn are_slots(m: usize, j: usize, n: usize) -> bool
    requires { j ≤ erasure_bytes }
    ensures { result ≡ eqb m (n * size_of j) }
{
    let size = size_of(j);
    if m / size == n { m % size == 0 } else { false }
}

// All questions, put to the card and an output of m bytes.
fn ask_card(card: &[u8], k: usize, m: usize, j: usize) -> Result<(), Question>
    requires { (k ≤ erasure_bytes) × (j ≤ erasure_bytes) }
    ensures { result ≡ card_asked k j card.now m (four_asked k card.now) }
{
    let size = size_of(k);
    if card.len() % size != 0 {
        return Err(Question::Length);
    }
    let n = card.len() / size;
    if are_slots(m, j, n) {
        let found = see_part(nothing_found(), card, k);
        verdict_of(found.passed)
    } else {
        Err(Question::Length)
    }
}

// The bytes of the header that both editions have, and the added erasure byte.
fn new_header(from: &[u8]) -> [u8; 7]
    requires { header_of old_erasure_bytes ≤ length from.now }
    ensures { result ≡ take (header_of old_erasure_bytes) from.now ++ 255 ∷ [] }
{
    let mut header = [255u8; 7];
    copy(&mut header[..6], &from[..6]);
    header
}

// Writes a slot in the other edition.
fn convert_slot(from: &[u8], k: usize, to: &mut [u8], j: usize)
    requires j_value { (min k j ≡ old_erasure_bytes) × (k ≤ erasure_bytes) × (j ≤ erasure_bytes) }
    requires from_len { (length from.now ≡ size_of k) × (length to.old ≡ size_of j) }
    ensures { to.new ≡ converted k j from.now }
{
    let header = new_header(from);
    let a = 2 + k;
    let b = 2 + j;
    copy(&mut to[..b], &header[..b]);
    copy(&mut to[b..], &from[a..]);
}

// Writes n slots in the other edition.
fn convert_slots(card: &[u8], k: usize, out: &mut [u8], j: usize, n: usize)
    requires j_value { (min k j ≡ old_erasure_bytes) × (k ≤ erasure_bytes) × (j ≤ erasure_bytes) }
    requires card_len { (length card.now ≡ n * size_of k) × (length out.old ≡ n * size_of j) }
    ensures { out.new ≡ converted_slots k j card.now n }
{
    let size = size_of(k);
    let other = size_of(j);
    for i in 0..n {
        let at = i * size;
        let end = at + size;
        let to = i * other;
        let stop = to + other;
        convert_slot(&card[at..end], k, &mut out[to..stop], j);
    }
}

// Asks the whole card before a byte is written.
fn convert(card: &[u8], k: usize, out: &mut [u8], j: usize) -> Result<(), Question>
    requires { (min k j ≡ old_erasure_bytes) × (k ≤ erasure_bytes) × (j ≤ erasure_bytes) }
    ensures { Converts k j (card_asked k j card.now (length out.old) (four_asked k card.now))
        card.now out.old result out.new }
{
    ask_card(card, k, out.len(), j)?;
    let n = card.len() / size_of(k);
    convert_slots(card, k, out, j, n);
    Ok(())
}

// A card of the old edition, written in today's. Question 15 is never answered no: question 3 has allowed four erasures at most.
pub fn card_to_new(card: &[u8], out: &mut [u8]) -> Result<(), Question>
    ensures { Converts old_erasure_bytes erasure_bytes (to_new_asked card.now (length out.old)) card.now
        out.old result out.new }
{
    convert(card, OLD_ERASURE_BYTES, out, ERASURE_BYTES)
}

// A card of today's edition, written in the old one.
pub fn card_to_old(card: &[u8], out: &mut [u8]) -> Result<(), Question>
    ensures { Converts erasure_bytes old_erasure_bytes (to_old_asked card.now (length out.old)) card.now
        out.old result out.new }
{
    convert(card, ERASURE_BYTES, out, OLD_ERASURE_BYTES)
}
