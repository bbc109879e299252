// Slots of a card, and the card check.
ghost use Rattle.std.specs.Prelude.{◌≡◌, ◌≤◌, length};
ghost use Rattle.card.specs.Record.{erasure_bytes};
ghost use Rattle.card.specs.Slots.{record_count, blank_in, is_blank};
ghost use Rattle.card.specs.inner.Parts.{SlotFrom};
ghost use Rattle.card.specs.Card.{is_number, passes, fine, check_of, first_refused};

use crate::records::{ERASURE_BYTES, RECORD, all_are, probe, size_of};

// The number of slots of a card of n bytes; a shorter last piece counts as one.
pub fn record_count(n: usize) -> usize
    ensures { result ≡ record_count n }
{
    if n % RECORD == 0 {
        n / RECORD
    } else {
        n / RECORD + 1
    }
}

// Is the number 1 to n?
pub fn is_number(number: usize, n: usize) -> bool
    ensures { result ≡ is_number n number }
{
    if number < 1 { false } else { number <= n }
}

// The slot of the card that begins at byte `at`; the last may be shorter. No entry point: it requires a place inside the card.
pub fn record_from(card: &[u8], at: usize) -> &[u8]
    requires { at ≤ length card.now }
    ensures { SlotFrom card.entry at result }
{
    if card.len() - at < RECORD {
        return &card[at..];
    }
    let end = at + RECORD;
    &card[at..end]
}

// Is the slot blank, where records have k erasure bytes? The first byte that is not 255 says no, and a record's first byte is its width.
pub(crate) fn blank_in(slot: &[u8], k: usize) -> bool
    requires { k ≤ erasure_bytes }
    ensures { result ≡ blank_in k slot.now }
{
    if slot.len() != size_of(k) {
        return false;
    }
    all_are(slot, 255)
}

// Is the slot blank?
pub fn is_blank(slot: &[u8]) -> bool
    ensures { result ≡ is_blank slot.now }
{
    blank_in(slot, ERASURE_BYTES)
}

// Would the record be accepted?
fn would_pass(bytes: &[u8]) -> bool
    ensures { result ≡ passes bytes.now }
{
    probe(bytes).is_ok()
}

// Is the slot blank, or would its record be accepted?
fn is_fine(slot: &[u8]) -> bool
    ensures { result ≡ fine slot.now }
{
    if is_blank(slot) {
        return true;
    }
    would_pass(slot)
}

// The number of the first record that would be refused, counted from 1. Blank slots are passed over, and counted.
pub fn check(card: &[u8]) -> Option<usize>
    ensures { check_of result ≡ first_refused card.now }
{
    let mut at = 0;
    let mut i = 0;
    while at < card.len() {
        if !is_fine(record_from(card, at)) {
            return Some(i + 1);
        }
        if card.len() - at <= RECORD {
            return None;
        }
        at += RECORD;
        i += 1;
    }
    None
}
