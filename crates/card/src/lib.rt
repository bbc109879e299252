// Records and cards: restoring a record, checking a card, the text of a listing, and conversion from and to the old edition.
#![tactic(auto)]

pub mod cards;
pub mod checked;
pub mod conversion;
pub mod listing;
pub mod parts;
pub mod records;
pub mod text;
pub mod words;

use crate::records::RECORD;

// A card is read in batches of so many slots.
pub const BATCH_SLOTS: usize = 400;

// The bytes of a batch.
pub const BATCH: usize = BATCH_SLOTS * RECORD;

// The batches of 1,000,000 slots: no more are listed, or looked at for a report.
pub const LISTED_BATCHES: u64 = 2500;

// A loop must end, and no card has so many batches: they would be 3.9 * 10^18 bytes.
pub const MOST_BATCHES: u64 = 70368744177664;

// A record restored in a copy: the number of changed places, and the bytes of the record.
#[derive(Clone, Copy)]
pub struct RestoredCopy {
    pub changed: u8,
    pub bytes: [u8; RECORD],
}

// What a listing has counted: accepted records, refused records, changed places.
#[derive(Clone, Copy)]
pub struct Totals {
    pub accepted: u64,
    pub refused: u64,
    pub changed: u64,
}

// How far a listing has come: the number of the next slot, and the totals.
#[derive(Clone, Copy)]
pub struct Progress {
    pub next: u64,
    pub totals: Totals,
}
