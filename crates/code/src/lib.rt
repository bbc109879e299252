// The five times extended Reed-Solomon code of document 003: encoder, codeword test, reader of data and restorer. A message is the data of a
// word.
#![tactic(auto)]

ghost use Rattle.std.specs.Prelude.{◌≡◌};
ghost use Rattle.code.specs.Word.{word_length};
ghost use Rattle.code.specs.Near.{radius};
ghost use Rattle.code.specs.Call.{Encodes, membership, is_codeword_of, ReadsData, max_erasures, syndromes_shown, RestoresWithin, Restores};

mod beside;
mod candidates;
mod erasures;
mod errors;
mod restorer;
mod roots;
mod solver;
pub mod validation;
pub mod word;

use erasures::Trial;
use field::Question;
use field::arithmetic::order_of;
use restorer::{Method, restore_with};
use validation::{ask_is_codeword, ask_read_data, ask_restore, ask_slices, zero_syndromes};
use word::{copy, write_codeword};

// The length of a word of the width, or 0 where the field has no such width.
pub fn word_length(width: u8) -> usize
    ensures { result ≡ word_length width }
{
    let q = order_of(width);
    if q == 0 { 0 } else { q as usize + 4 }
}

// The word that holds the data and has five zero syndromes.
pub fn encode(width: u8, message: &[u8], word: &mut [u8]) -> Result<(), Question>
    ensures { Encodes width message.now word.old result word.new }
{
    ask_slices(width, word.len(), message.len(), message)?;
    write_codeword(width, message, word);
    Ok(())
}

// Is the word a codeword?
pub fn is_codeword(width: u8, word: &[u8]) -> Result<bool, Question>
    ensures { membership result ≡ is_codeword_of width word.now }
{
    ask_is_codeword(width, word)?;
    Ok(zero_syndromes(width, word))
}

// Reads the data of a codeword.
pub fn read_data(width: u8, word: &[u8], message: &mut [u8]) -> Result<(), Question>
    ensures { ReadsData width word.now message.old result message.new }
{
    ask_read_data(width, word, message.len())?;
    copy(message, &word[5..]);
    Ok(())
}

// The number of erasures that question 3 allows.
pub fn max_erasures(width: u8) -> usize
    ensures { result ≡ max_erasures width }
{
    3 + 2 * (width % 2) as usize
}

// The syndromes over the places outside the erasures.
pub fn syndromes(width: u8, word: &[u8], erasures: &[u8]) -> Result<[u8; 5], Question>
    ensures { result ≡ syndromes_shown width word.now erasures.now }
{
    ask_restore(width, word, erasures)?;
    Ok(Trial::of_erasures(width, word, erasures).sums)
}

// r, the number of silent wrong symbols that are restored beside s erasures.
pub fn radius_of(width: u8, s: usize) -> u8
    ensures { result ≡ radius width s }
{
    let most = 3 + (width % 2) as usize;
    if s < most { ((most - s) / 2) as u8 } else { 0 }
}

// Restores a word and answers the number of changed places outside the erasures: the codeword that differs from it, outside the erasures, at no more places than the reach is written in its place.
pub fn restore_within(
    width: u8,
    word: &mut [u8],
    erasures: &[u8],
    reach: u8,
) -> Result<u8, Question>
    ensures { RestoresWithin width word.old erasures.now reach result word.new }
{
    restore_with(Method::Syndromes, width, word, erasures, reach)
}

// Restores a word with the longest reach that its erasures leave.
pub fn restore(width: u8, word: &mut [u8], erasures: &[u8]) -> Result<u8, Question>
    ensures { Restores width word.old erasures.now result word.new }
{
    restore_within(width, word, erasures, radius_of(width, erasures.len()))
}

// The same as `restore_within`, by trials.
pub fn restore_by_trials_within(
    width: u8,
    word: &mut [u8],
    erasures: &[u8],
    reach: u8,
) -> Result<u8, Question>
    ensures { RestoresWithin width word.old erasures.now reach result word.new }
{
    restore_with(Method::Trials, width, word, erasures, reach)
}

// The same as `restore`, by trials.
pub fn restore_by_trials(width: u8, word: &mut [u8], erasures: &[u8]) -> Result<u8, Question>
    ensures { Restores width word.old erasures.now result word.new }
{
    restore_by_trials_within(width, word, erasures, radius_of(width, erasures.len()))
}
