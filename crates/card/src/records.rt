// One record: width, number of erasures, erasure bytes, symbols, zeros.
ghost use Rattle.std.specs.Prelude.{Ok};
ghost use Rattle.std.specs.Prelude.{◌≡◌, ◌&&◌, ◌∷◌, ◌++◌, ◌+◌, ◌-◌, ◌≤◌, min, length, take, drop, replicate};
ghost use Rattle.code.specs.Near.{radius};
ghost use Rattle.code.specs.Call.{max_erasures, repair};
ghost use Rattle.card.specs.Record.{size_of, erasure_bytes, record_size, all_are, record_asked, record_of, RestoresRecordWithin, RestoresRecord};
ghost use Rattle.card.specs.inner.Parts.{header_size};
ghost use Rattle.card.specs.Record.{RestoresRecordUpTo, RestoresCopy};
ghost use Rattle.card.specs.inner.Leading.{record_passes};
ghost use Rattle.card.specs.Leading.{verdict_at};

use crate::RestoredCopy;
use code::word::copy;
use code::{max_erasures, radius_of, word_length};
use field::Question;

// The layout of a record. Functions that conversions use too take the number k of erasure bytes of the edition.
pub const ERASURE_BYTES: usize = 5;

// Those of the old edition.
pub const OLD_ERASURE_BYTES: usize = 4;

// The symbols start here.
pub const HEADER: usize = 2 + ERASURE_BYTES;

pub const RECORD: usize = HEADER + 132;

// No record has a longer reach: that of an odd width without erasures.
pub const LONGEST_REACH: u8 = 2;

// The number of bytes of a record. No entry point: it requires an edition of at most five erasure bytes.
pub fn size_of(k: usize) -> usize
    requires { k ≤ erasure_bytes }
    ensures { result ≡ size_of k }
{
    2 + k + 132
}

// Is every byte x?
pub(crate) fn all_are(xs: &[u8], x: u8) -> bool
    ensures { result ≡ all_are x xs.now }
{
    for b in xs {
        if *b != x {
            return false;
        }
    }
    true
}

// Question 4: are the unused erasure bytes 255, and is the tail, from byte `end` on, 0?
fn padded(bytes: &[u8], k: usize, count: usize, end: usize) -> bool
    requires { (k ≤ erasure_bytes) × (length bytes.now ≡ size_of k) × (count ≤ k) × (end ≤ size_of k) }
    ensures { result ≡ (all_are 255 (take (k - count) (drop (2 + count) bytes.now)) && all_are 0 (drop end bytes.now)) }
{
    let from = 2 + count;
    let to = 2 + k;
    if all_are(&bytes[from..to], 255) {
        all_are(&bytes[end..], 0)
    } else {
        false
    }
}

// Question 3's bound: the erasures that the width allows, as far as there are bytes for them.
fn allowed(width: u8, k: usize) -> usize
    ensures { result ≡ min k (max_erasures width) }
{
    let most = max_erasures(width);
    if k < most { k } else { most }
}

// How many of the questions 1, 3, 4 and 15 a record of the right length passes, put in this order, before the first that it does not.
// Question 15 allows `most` erasures.
pub(crate) fn passed(bytes: &[u8], k: usize, most: usize) -> u8
    requires { (k ≤ erasure_bytes) × (length bytes.now ≡ size_of k) }
    ensures { result ≡ record_passes k most bytes.now }
{
    let width = bytes[0];
    let n = word_length(width);
    if n == 0 {
        return 0;
    }
    let count = bytes[1] as usize;
    if allowed(width, k) < count {
        return 1;
    }
    if !padded(bytes, k, count, 2 + k + n) {
        return 2;
    }
    if most < count { 3 } else { 4 }
}

// The verdict where so many of them are passed.
pub(crate) fn verdict_of(count: u8) -> Result<(), Question>
    ensures { result ≡ verdict_at count }
{
    match count {
        0 => Err(Question::Width),
        1 => Err(Question::ErasureCount),
        2 => Err(Question::Padding),
        3 => Err(Question::FourErasures),
        _ => Ok(()),
    }
}

// A record's length, then questions 1, 3 and 4. Question 15, with as many erasures as there are bytes for, is passed after question 3.
fn ask_record(bytes: &[u8]) -> Result<(), Question>
    ensures { result ≡ record_asked bytes.now }
{
    if bytes.len() != RECORD {
        return Err(Question::Length);
    }
    verdict_of(passed(bytes, ERASURE_BYTES, ERASURE_BYTES))
}

// The erasure bytes.
fn erasure_row(bytes: &[u8]) -> [u8; ERASURE_BYTES]
    requires { header_size ≤ length bytes.now }
    ensures { result ≡ take erasure_bytes (drop 2 bytes.now) }
{
    [bytes[2], bytes[3], bytes[4], bytes[5], bytes[6]]
}

// No erasures: the header of a restored record. No entry point: it requires room for a header.
pub fn clear_header(bytes: &mut [u8], width: u8)
    requires { header_size ≤ length bytes.old }
    ensures { bytes.new ≡ (width ∷ 0 ∷ replicate erasure_bytes 255) ++ drop header_size bytes.old }
{
    let header = [width, 0, 255, 255, 255, 255, 255];
    copy(&mut bytes[..7], &header);
}

// The word of a record that passed is restored in its place, if the reach allows.
fn restore_asked(bytes: &mut [u8], reach: u8) -> Result<u8, Question>
    requires { record_asked bytes.old ≡ (Ok tt) }
    ensures { RestoresRecordWithin bytes.old reach result bytes.new }
{
    let width = bytes[0];
    let count = bytes[1] as usize;
    let erasures = erasure_row(bytes);
    let end = HEADER + word_length(width);
    let from = HEADER;
    let changed = code::restore_within(width, &mut bytes[from..end], &erasures[..count], reach)?;
    clear_header(bytes, width);
    Ok(changed)
}

// Restores a record: its word becomes the codeword within the reach, and it has no erasures any more.
pub fn restore_record_within(bytes: &mut [u8], reach: u8) -> Result<u8, Question>
    ensures { RestoresRecordWithin bytes.old reach result bytes.new }
{
    ask_record(bytes)?;
    restore_asked(bytes, reach)
}

// The reach that so many erasures leave, but no longer one than `most`.
fn reach_up_to(most: u8, width: u8, count: usize) -> u8
    ensures { result ≡ min most (radius width count) }
{
    let reach = radius_of(width, count);
    if most < reach { most } else { reach }
}

// Restores a record with the longest reach that its erasures leave, but no longer one than `most`.
pub fn restore_record_up_to(bytes: &mut [u8], most: u8) -> Result<u8, Question>
    ensures { RestoresRecordUpTo most bytes.old result bytes.new }
{
    ask_record(bytes)?;
    let reach = reach_up_to(most, bytes[0], bytes[1] as usize);
    restore_asked(bytes, reach)
}

// Restores a record with the longest reach that its erasures leave.
pub fn restore_record(bytes: &mut [u8]) -> Result<u8, Question>
    ensures { RestoresRecord bytes.old result bytes.new }
{
    restore_record_up_to(bytes, LONGEST_REACH)
}

// A record in a row of its own.
fn copied(bytes: &[u8]) -> [u8; RECORD]
    requires { length bytes.now ≡ record_size }
    ensures { result ≡ bytes.now }
{
    let mut row = [0u8; RECORD];
    copy(&mut row, bytes);
    row
}

// A record is restored in a copy; it stays as it is.
pub fn restored_copy(bytes: &[u8]) -> Result<RestoredCopy, Question>
    ensures { RestoresCopy bytes.now result }
{
    if bytes.len() != RECORD {
        return Err(Question::Length);
    }
    let mut row = copied(bytes);
    let changed = restore_record(&mut row)?;
    Ok(RestoredCopy {
        changed,
        bytes: row,
    })
}

// The number of places that restoring the record would change; the record stays as it is.
pub(crate) fn probe(bytes: &[u8]) -> Result<u8, Question>
    ensures { repair result ≡ record_of bytes.now }
{
    let copy = restored_copy(bytes)?;
    Ok(copy.changed)
}
