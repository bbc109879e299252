// One dock, four bays: a bay restores a record while a rewrite is left to it.
#![tactic(auto)]

ghost use Rattle.std.specs.Prelude.{◌≡◌, true, ◌<◌, length, None, Some};
ghost use Rattle.dock.specs.Dock.{bays, charged, any_left, spent, call_on, Serves};
ghost use Rattle.dock.specs.inner.Parts.{RestoresAt, Settles};

use card::records::{RECORD, restore_record, restore_record_within};
use field::Question;

// Bays, and what a charge gives to each and to whoever comes first.
const BAYS: usize = 4;

const OWN: u16 = 100;

const COMMON: u16 = 600;

// The rewrites left: those of each bay, and the common ones.
#[derive(Clone, Copy)]
pub struct Rewrites {
    pub own: [u16; BAYS],
    pub common: u16,
}

// What a bay's call gives: the number of changed places, and the rewrites left for the next one.
#[derive(Clone, Copy)]
pub struct Served {
    pub changed: u8,
    pub left: Rewrites,
}

// A new charge sets all counts afresh.
pub fn charge() -> Rewrites
    ensures { result ≡ charged }
{
    Rewrites {
        own: [OWN; BAYS],
        common: COMMON,
    }
}

// Is a rewrite left to the bay?
fn any_left(left: Rewrites, bay: usize) -> bool
    requires { bay < bays }
    ensures { result ≡ any_left left bay }
{
    0 < left.own[bay] || 0 < left.common
}

// One rewrite less: a bay uses its own before the common ones.
fn spend(mut left: Rewrites, bay: usize) -> Rewrites
    requires { (bay < bays) × (any_left left bay ≡ true) }
    ensures { result ≡ spent left bay }
{
    if 0 < left.own[bay] {
        left.own[bay] -= 1;
    } else {
        left.common -= 1;
    }
    left
}

// Restoring the record was accepted and gives `restored`, which is written where it is the same or a rewrite is left.
fn settle(
    left: Rewrites,
    bay: usize,
    bytes: &mut [u8],
    restored: &[u8],
) -> Result<Rewrites, Question>
    requires { (bay < bays) × (length bytes.old ≡ length restored.now) }
    ensures { Settles left bay bytes.old restored.now result bytes.new }
{
    if *bytes == *restored {
        return Ok(left);
    }
    if !any_left(left, bay) {
        return Err(Question::Rewrite);
    }
    bytes.copy_from_slice(restored);
    Ok(spend(left, bay))
}

// The record is restored, at the reach that is named or else at the longest that its erasures leave.
fn restore_at(bytes: &mut [u8], reach: Option<u8>) -> Result<u8, Question>
    ensures { RestoresAt reach bytes.old result bytes.new }
{
    match reach {
        None => restore_record(bytes),
        Some(k) => restore_record_within(bytes, k),
    }
}

// A bay's call: restores a record as without bays, unless a byte of it would change and no rewrite is left to the bay. With no reach named it is
// the longest that the record's erasures leave.
pub fn bay_restore_at(
    bay: u8,
    left: Rewrites,
    bytes: &mut [u8],
    reach: Option<u8>,
) -> Result<Served, Question>
    ensures { Serves left (call_on bay reach bytes.old) result bytes.new }
{
    let b = bay as usize;
    if BAYS <= b {
        return Err(Question::Bay);
    }
    if bytes.len() != RECORD {
        return Err(Question::Length);
    }
    let mut restored = [0u8; RECORD];
    restored.copy_from_slice(bytes);
    let changed = restore_at(&mut restored, reach)?;
    let rest = settle(left, b, bytes, &restored)?;
    Ok(Served {
        changed,
        left: rest,
    })
}

// A bay's call with the longest reach that the record's erasures leave.
pub fn bay_restore(bay: u8, left: Rewrites, bytes: &mut [u8]) -> Result<Served, Question>
    ensures { Serves left (call_on bay None bytes.old) result bytes.new }
{
    bay_restore_at(bay, left, bytes, None)
}

// A bay's call with a reach.
pub fn bay_restore_within(
    bay: u8,
    left: Rewrites,
    bytes: &mut [u8],
    reach: u8,
) -> Result<Served, Question>
    ensures { Serves left (call_on bay (Some reach) bytes.old) result bytes.new }
{
    bay_restore_at(bay, left, bytes, Some(reach))
}
