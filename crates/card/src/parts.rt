// The questions of a conversion, put to a card that may come in parts: it can be asked whole before a byte of it is written, and need not be
// held whole. k is the number of erasure bytes of a record of the card.
ghost use Rattle.std.specs.Prelude.{◌≡◌, ◌+◌, ◌^◌, ◌≤◌, ◌<◌, length};
ghost use Rattle.card.specs.Record.{size_of, erasure_bytes};
ghost use Rattle.card.specs.Leading.{slot_passes};
ghost use Rattle.card.specs.Findings.{nothing_found, slot_found, part_found, found_verdict, found_number};

use crate::cards::blank_in;
use crate::records::{OLD_ERASURE_BYTES, passed, size_of, verdict_of};
use field::Question;

// What the questions have found: the number of slots seen, how many of the questions 1, 3, 4 and 15 all of them pass, and the number of the
// first slot that passes no more; 0 where all of them pass all four.
#[derive(Clone, Copy)]
pub struct Findings {
    pub slots: u64,
    pub passed: u8,
    pub first: u64,
}

// Before the first slot.
pub fn nothing_found() -> Findings
    ensures { result ≡ nothing_found }
{
    Findings {
        slots: 0,
        passed: 4,
        first: 0,
    }
}

// How many of the questions 1, 3, 4 and 15 a slot passes before the first that it does not: a blank one is asked nothing.
fn slot_passed(slot: &[u8], k: usize) -> u8
    requires { (k ≤ erasure_bytes) × (length slot.now ≡ size_of k) }
    ensures { result ≡ slot_passes k slot.now }
{
    if blank_in(slot, k) {
        return 4;
    }
    passed(slot, k, OLD_ERASURE_BYTES)
}

// Puts the questions to one slot more.
fn see_slot(s: Findings, slot: &[u8], k: usize) -> Findings
    requires { (k ≤ erasure_bytes) × (length slot.now ≡ size_of k) × (s.slots + 1 < 2 ^ 64) }
    ensures { result ≡ slot_found k s slot.now }
{
    let slots = s.slots + 1;
    let passed = slot_passed(slot, k);
    if passed < s.passed {
        Findings {
            slots,
            passed,
            first: slots,
        }
    } else {
        Findings {
            slots,
            passed: s.passed,
            first: s.first,
        }
    }
}

// Puts the questions to the slots of a part, where they have found s before it. A piece of a slot behind them is left out. No entry point: it
// requires an edition of at most five erasure bytes, and a count that does not overflow.
pub fn see_part(s: Findings, part: &[u8], k: usize) -> Findings
    requires { (k ≤ erasure_bytes) × (s.slots + length part.now < 2 ^ 64) }
    ensures { result ≡ part_found k s part.now }
{
    let size = size_of(k);
    let n = part.len() / size;
    let mut found = s;
    for i in 0..n {
        let at = i * size;
        let end = at + size;
        found = see_slot(found, &part[at..end], k);
    }
    found
}

// The verdict on a card behind whose slots a piece of `rest` bytes is left: its length is asked before all else.
pub fn found_verdict(s: Findings, rest: usize) -> Result<(), Question>
    ensures { result ≡ found_verdict s rest }
{
    if rest != 0 {
        return Err(Question::Length);
    }
    verdict_of(s.passed)
}

// The number of its first offending record: a piece is the one behind the last slot. No entry point: it requires a count that does not
// overflow.
pub fn found_number(s: Findings, rest: usize) -> u64
    requires { s.slots + 1 < 2 ^ 64 }
    ensures { result ≡ found_number s rest }
{
    if rest != 0 {
        return s.slots + 1;
    }
    s.first
}
