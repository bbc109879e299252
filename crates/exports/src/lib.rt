// The calls for C and Rust. Each returns refusal + 256 * value, the card check a record number, as its contract says by the same
// definitions as the call behind it.
// A slice is passed as its pointer, then its length.
#![tactic(auto)]

ghost use Rattle.std.specs.Prelude.{◌≡◌, None, Some};
ghost use Rattle.field.specs.Answer.{sum_of, product_of, power_of, inverse_of};
ghost use Rattle.code.specs.Call.{syndromes_of, syndromes_given, within_of, within_written};
ghost use Rattle.code.specs.Call.{encode_of, encode_written, is_codeword_of, read_data_of, read_data_written, restore_of, restore_written};
ghost use Rattle.card.specs.Record.{record_of, record_written, record_within_of, record_within_written};
ghost use Rattle.card.specs.Card.{first_refused};
ghost use Rattle.card.specs.Conversion.{to_new_of, to_new_written, to_old_of, to_old_written};
ghost use Rattle.walk.specs.Walk.{walk_at, step_of, step_state, step_written};
ghost use Rattle.walk.specs.Look.{look_of, look_written};
ghost use Rattle.sheet.specs.Call.{write_sheet_of, write_sheet_written, read_sheet_of, read_sheet_written};
ghost use Rattle.report.specs.Compare.{compare_of, into_of, into_total, into_written};
ghost use Rattle.report.specs.Window.{window_from, window_of, window_written};
ghost use Rattle.exports.specs.Packed.{packed, packed_bytes, packed_totals, checked};
ghost use Rattle.exports.specs.Part.{part_offset, part_size};
ghost use Rattle.exports.specs.Counts.{charge_of, charge_written, bay_of, bay_counts, bay_written};

mod answers;
mod bays;

use answers::{pack, pack_bytes, pack_choice, pack_membership, pack_totals, pack_verdict};
use bays::{COUNTS, restore_in_bay, write_counts};
use card::cards::check;
use card::conversion::{card_to_new, card_to_old};
use card::records::{RECORD, restore_record, restore_record_within};
use dock::charge;
use field::{Exponent, Question};
use report::compare::{Side, compare_into, compare_part};
use report::row::Window;
use report::window::window;
use sheet::{read_sheet, write_sheet};
use walk::{Walk, look_into};

#[unsafe(no_mangle)]
pub extern "C" fn xrs_sum(width: u8, a: u8, b: u8) -> u32
    ensures { result ≡ packed (sum_of width a b) }
{
    pack(field::sum(width, a, b))
}

#[unsafe(no_mangle)]
pub extern "C" fn xrs_product(width: u8, a: u8, b: u8) -> u32
    ensures { result ≡ packed (product_of width a b) }
{
    pack(field::product(width, a, b))
}

#[unsafe(no_mangle)]
pub extern "C" fn xrs_power(width: u8, a: u8, e: u16) -> u32
    ensures { result ≡ packed (power_of width a e) }
{
    pack(field::power(width, a, Exponent(e)))
}

#[unsafe(no_mangle)]
pub extern "C" fn xrs_inverse(width: u8, a: u8) -> u32
    ensures { result ≡ packed (inverse_of width a) }
{
    pack(field::inverse(width, a))
}

// Writes the codeword of the message into the word.
#[unsafe(no_mangle)]
pub extern "C" fn xrs_encode(width: u8, message: &[u8], word: &mut [u8]) -> u32
    ensures answer { result ≡ packed (encode_of width message.now word.old) }
    ensures written { word.new ≡ encode_written width message.now word.old }
{
    pack_verdict(code::encode(width, message, word))
}

// Is the word a codeword?
#[unsafe(no_mangle)]
pub extern "C" fn xrs_is_codeword(width: u8, word: &[u8]) -> u32
    ensures { result ≡ packed (is_codeword_of width word.now) }
{
    pack_membership(code::is_codeword(width, word))
}

// Writes the data of the codeword into the message.
#[unsafe(no_mangle)]
pub extern "C" fn xrs_read_data(width: u8, word: &[u8], message: &mut [u8]) -> u32
    ensures answer { result ≡ packed (read_data_of width word.now message.old) }
    ensures written { message.new ≡ read_data_written width word.now message.old }
{
    pack_verdict(code::read_data(width, word, message))
}

// The syndromes of the word without its erasures, in the bytes above the refusal's.
#[unsafe(no_mangle)]
pub extern "C" fn xrs_syndromes(width: u8, word: &[u8], erasures: &[u8]) -> u64
    ensures { result
        ≡ packed_bytes (packed (syndromes_of width word.now erasures.now))
        (syndromes_given width word.now erasures.now) }
{
    match code::syndromes(width, word, erasures) {
        Ok(sums) => pack_bytes(0, sums),
        Err(q) => pack_bytes(pack(Err(q)), [0; 5]),
    }
}

// Writes the near codeword in place of the word.
#[unsafe(no_mangle)]
pub extern "C" fn xrs_restore_word(width: u8, word: &mut [u8], erasures: &[u8]) -> u32
    ensures answer { result ≡ packed (restore_of width word.old erasures.now) }
    ensures written { word.new ≡ restore_written width word.old erasures.now }
{
    pack(code::restore(width, word, erasures))
}

// The same with a reach: the codeword differs from the word, outside the erasures, at no more places.
#[unsafe(no_mangle)]
pub extern "C" fn xrs_restore_word_within(
    width: u8,
    word: &mut [u8],
    erasures: &[u8],
    reach: u8,
) -> u32
    ensures answer { result ≡ packed (within_of width word.old erasures.now reach) }
    ensures written { word.new ≡ within_written width word.old erasures.now reach }
{
    pack(code::restore_within(width, word, erasures, reach))
}

// The same as `xrs_restore_word`, by trials.
#[unsafe(no_mangle)]
pub extern "C" fn xrs_restore_word_by_trials(width: u8, word: &mut [u8], erasures: &[u8]) -> u32
    ensures answer { result ≡ packed (restore_of width word.old erasures.now) }
    ensures written { word.new ≡ restore_written width word.old erasures.now }
{
    pack(code::restore_by_trials(width, word, erasures))
}

// The same with a reach.
#[unsafe(no_mangle)]
pub extern "C" fn xrs_restore_word_by_trials_within(
    width: u8,
    word: &mut [u8],
    erasures: &[u8],
    reach: u8,
) -> u32
    ensures answer { result ≡ packed (within_of width word.old erasures.now reach) }
    ensures written { word.new ≡ within_written width word.old erasures.now reach }
{
    pack(code::restore_by_trials_within(width, word, erasures, reach))
}

// Writes the near codeword in place of the record's word, and no erasures.
#[unsafe(no_mangle)]
pub extern "C" fn xrs_restore_record(bytes: &mut [u8]) -> u32
    ensures answer { result ≡ packed (record_of bytes.old) }
    ensures written { bytes.new ≡ record_written bytes.old }
{
    pack(restore_record(bytes))
}

// The same with a reach.
#[unsafe(no_mangle)]
pub extern "C" fn xrs_restore_record_within(bytes: &mut [u8], reach: u8) -> u32
    ensures answer { result ≡ packed (record_within_of bytes.old reach) }
    ensures written { bytes.new ≡ record_within_written bytes.old reach }
{
    pack(restore_record_within(bytes, reach))
}

// The card check: 0 where every record would be accepted, else the number of the first that would not be.
#[unsafe(no_mangle)]
pub extern "C" fn xrs_check_card(card: &[u8]) -> u64
    ensures { result ≡ checked (first_refused card.now) }
{
    match check(card) {
        None => 0,
        Some(k) => k as u64,
    }
}

// Writes the card of the old edition in today's edition into `out`.
#[unsafe(no_mangle)]
pub extern "C" fn xrs_card_to_new(card: &[u8], out: &mut [u8]) -> u32
    ensures answer { result ≡ packed (to_new_of card.now out.old) }
    ensures written { out.new ≡ to_new_written card.now out.old }
{
    pack_verdict(card_to_new(card, out))
}

// Writes the card in the old edition into `out`.
#[unsafe(no_mangle)]
pub extern "C" fn xrs_card_to_old(card: &[u8], out: &mut [u8]) -> u32
    ensures answer { result ≡ packed (to_old_of card.now out.old) }
    ensures written { out.new ≡ to_old_written card.now out.old }
{
    pack_verdict(card_to_old(card, out))
}

// Writes the day sheet that has these symbols into the word.
#[unsafe(no_mangle)]
pub extern "C" fn xrs_write_sheet(width: u8, symbols: &[u8], word: &mut [u8]) -> u32
    ensures answer { result ≡ packed (write_sheet_of width symbols.now word.old) }
    ensures written { word.new ≡ write_sheet_written width symbols.now word.old }
{
    pack_verdict(write_sheet(width, symbols, word))
}

// Writes the symbols of the day sheet into `symbols`.
#[unsafe(no_mangle)]
pub extern "C" fn xrs_read_sheet(width: u8, word: &[u8], symbols: &mut [u8]) -> u32
    ensures answer { result ≡ packed (read_sheet_of width word.now symbols.old) }
    ensures written { symbols.new ≡ read_sheet_written width word.now symbols.old }
{
    pack_verdict(read_sheet(width, word, symbols))
}

// One step of a walk that began with a card of `length` bytes; the next record is lent.
#[unsafe(no_mangle)]
pub extern "C" fn xrs_walk_step(length: u64, next: &mut u64, card: &mut [u8]) -> u32
    ensures answer { result ≡ packed (step_of (walk_at length next.old) card.old) }
    ensures state { next.new ≡ (step_state (walk_at length next.old) card.old).next }
    ensures written { card.new ≡ step_written (walk_at length next.old) card.old }
{
    let walk = Walk {
        length: length as usize,
        next: *next as usize,
    };
    match walk.step(card) {
        Ok(walk) => {
            *next = walk.next as u64;
            0
        }
        Err(q) => pack(Err(q)),
    }
}

// A look at the record of that number, counted from 1: its symbols and zeros behind them, 132 in all, are written into the row.
#[unsafe(no_mangle)]
pub extern "C" fn xrs_look(card: &[u8], number: u64, row: &mut [u8]) -> u32
    ensures answer { result ≡ packed (look_of card.now number row.old) }
    ensures written { row.new ≡ look_written card.now number row.old }
{
    pack_verdict(look_into(card, number as usize, row))
}

// A new charge sets the five counts afresh.
#[unsafe(no_mangle)]
pub extern "C" fn xrs_charge(left: &mut [u16]) -> u32
    ensures answer { result ≡ packed (charge_of left.old) }
    ensures written { left.new ≡ charge_written left.old }
{
    if left.len() != COUNTS {
        return pack(Err(Question::Length));
    }
    write_counts(left, charge());
    0
}

// A bay's call: a record of which a byte would change is restored only where a rewrite is left to the bay, and counted.
#[unsafe(no_mangle)]
pub extern "C" fn xrs_bay_restore(bay: u8, left: &mut [u16], bytes: &mut [u8]) -> u32
    ensures answer { result ≡ packed (bay_of bay None left.old bytes.old) }
    ensures counts { left.new ≡ bay_counts bay None left.old bytes.old }
    ensures written { bytes.new ≡ bay_written bay None left.old bytes.old }
{
    pack(restore_in_bay(bay, left, bytes, None))
}

// The same with a reach.
#[unsafe(no_mangle)]
pub extern "C" fn xrs_bay_restore_within(
    bay: u8,
    left: &mut [u16],
    bytes: &mut [u8],
    reach: u8,
) -> u32
    ensures answer { result ≡ packed (bay_of bay (Some reach) left.old bytes.old) }
    ensures counts { left.new ≡ bay_counts bay (Some reach) left.old bytes.old }
    ensures written { bytes.new ≡ bay_written bay (Some reach) left.old bytes.old }
{
    pack(restore_in_bay(bay, left, bytes, Some(reach)))
}

// Compares two day sheets, and writes the sign of each quarter hour into `signs`; above the choice stand the three totals.
#[unsafe(no_mangle)]
pub extern "C" fn xrs_compare_sheets<'a>(
    controller: &'a [u8],
    i: u64,
    cupboard: &'a [u8],
    j: u64,
    signs: &mut [u8],
) -> u64
    ensures answer { result
        ≡ packed_totals (packed (into_of controller.now i cupboard.now j signs.old))
        (into_total controller.now i cupboard.now j signs.old 0)
        (into_total controller.now i cupboard.now j signs.old 1)
        (into_total controller.now i cupboard.now j signs.old 2) }
    ensures written { signs.new ≡ into_written controller.now i cupboard.now j signs.old }
{
    match compare_into(controller, i as usize, cupboard, j as usize, signs) {
        Ok(c) => pack_totals(pack_choice(c.choice), c.equal, c.controller, c.cupboard),
        Err(q) => pack_totals(pack(Err(q)), 0, 0, 0),
    }
}

// Where the part of the chosen record stands: on the controller's card for 1, on the cupboard's for 2, so many bytes from the offset on, as lent.
#[unsafe(no_mangle)]
pub extern "C" fn xrs_compare_part<'a>(
    controller: &'a [u8],
    i: u64,
    cupboard: &'a [u8],
    j: u64,
    offset: &mut u64,
    size: &mut u64,
) -> u32
    ensures answer { result ≡ packed (compare_of controller.now i cupboard.now j) }
    ensures begins { offset.new ≡ part_offset (compare_of controller.now i cupboard.now j) i j offset.old }
    ensures lasts { size.new ≡ part_size (compare_of controller.now i cupboard.now j) size.old }
{
    match compare_part(controller, i as usize, cupboard, j as usize) {
        Ok(told) => {
            let number = match told.choice {
                Side::Controller => i,
                Side::Cupboard => j,
            };
            *offset = (number - 1) * RECORD as u64;
            *size = told.size as u64;
            pack_choice(told.choice)
        }
        Err(q) => pack(Err(q)),
    }
}

// Writes the report of the compressor starts in a window of the day, over the card, into `report`.
#[unsafe(no_mangle)]
pub extern "C" fn xrs_window(card: &[u8], first: u8, end: u8, report: &mut [u64]) -> u32
    ensures answer { result ≡ packed (window_of (window_from first end) report.old) }
    ensures written { report.new ≡ window_written (window_from first end) card.now report.old }
{
    pack_verdict(window(card, Window { first, end }, report))
}
