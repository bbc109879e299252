// The questions of the calls, in their order, and the tests over lists of bytes that answer them, eight bytes at a time. `below` and `all_zero`
// serve the crates above too.
ghost use Rattle.std.specs.Prelude.{Ok};
ghost use Rattle.std.specs.Prelude.{◌≡◌, true, ℕ, ◌+◌, ◌≤◌, ◌<◌, length};
ghost use Rattle.field.specs.Sum.{at};
ghost use Rattle.field.specs.Question.{all_below, is_width, ask};
ghost use Rattle.field.specs.Field.{order};
ghost use Rattle.field.specs.inner.Operand.{order_of};
ghost use Rattle.field.specs.declared.Question.TheVariants.{Symbol};
ghost use Rattle.code.specs.Call.{all_zero, zero_syndromes};
ghost use Rattle.code.specs.Call.{word_asked, data_asked, is_codeword_asked, read_data_asked, erasures_asked, restore_asked, within_asked};
ghost use Rattle.code.specs.Erasure.{distinct, symbols_from};
ghost use Rattle.code.specs.Word.{checks, places, longest};
ghost use Rattle.code.specs.inner.Block.{Run};

use crate::word::word_syndromes;
use crate::{max_erasures, radius_of};
use field::Question;
use field::arithmetic::order_of;
use field::lanes::eight;

// Have the eight bytes from place i on no digit in common with 256 - q? Then each is below q, for 256 - q and a byte without a common
// digit have a sum of 8 digits. Where q is a power of two, the answer is yes just then.
fn block_below(xs: &[u8], i: usize, q: u8) -> bool
    requires { i + 8 ≤ length xs.now }
    ensures { result ≡ true → (j : ℕ) → j < 8 → at xs.now (i + j) < q }
{
    if q == 0 {
        return false;
    }
    eight(xs, i) & (0x0101010101010101 * (256 - q as u64)) == 0
}

// Is every byte below q? A yes holds; a no is given also where the list has fewer than eight. The last eight bytes come first, so that no byte
// is left over, and what is found is looked at once.
fn all_below(xs: &[u8], q: u8) -> bool
    ensures { result ≡ true → (p : ℕ) → p < length xs.now → at xs.now p < q }
{
    let n = xs.len();
    if n < 8 {
        return false;
    }
    if q == 0 {
        return false;
    }
    let mask = 0x0101010101010101 * (256 - q as u64);
    let mut found = eight(xs, n - 8) & mask;
    let mut p: usize = 0;
    while 8 <= n - p {
        found |= eight(xs, p) & mask;
        p += 8;
    }
    found == 0
}

// A place, from i on, before which every byte from i on is below q: after the last block of eight that is.
fn pass_below(xs: &[u8], i: usize, q: u8) -> usize
    requires { i ≤ length xs.now }
    ensures { Run (λ p. at xs.now p < q) i (length xs.now) result }
{
    let mut p = i;
    while 8 <= xs.len() - p && block_below(xs, p, q) {
        p += 8;
    }
    p
}

// The same from the first byte on: the end, where every byte is below q.
fn pass_all_below(xs: &[u8], q: u8) -> usize
    ensures { Run (λ p. at xs.now p < q) 0 (length xs.now) result }
{
    if all_below(xs, q) {
        return xs.len();
    }
    pass_below(xs, 0, q)
}

// Is every symbol below n?
pub fn below(xs: &[u8], n: u8) -> bool
    ensures { result ≡ all_below n xs.now }
{
    let i = pass_all_below(xs, n);
    xs[i..].iter().all(|x| *x < n)
}

// Is every number 0?
pub fn all_zero(xs: &[u8]) -> bool
    ensures { result ≡ all_zero xs.now }
{
    below(xs, 1)
}

// Are the numbers all different?
fn all_different(xs: &[u8]) -> bool
    ensures { result ≡ distinct xs.now }
{
    for (i, x) in xs.iter().enumerate() {
        if xs[i + 1..].contains(x) {
            return false;
        }
    }
    true
}

// Is every symbol outside the erasures below q?
fn symbols_below(word: &[u8], erasures: &[u8], q: u8) -> bool
    requires { length word.now ≤ 256 }
    ensures { result ≡ symbols_from q erasures.now 0 word.now }
{
    let mut i = pass_all_below(word, q);
    while i < word.len() {
        if q <= word[i] && !erasures.contains(&(i as u8)) {
            return false;
        }
        i = pass_below(word, i + 1, q);
    }
    true
}

// Are the five syndromes of a word zero? It is right for symbols of a width of the field.
pub(crate) fn zero_syndromes(width: u8, word: &[u8]) -> bool
    requires { checks ≤ length word.now }
    ensures { is_width width ≡ true → length word.now ≡ places width → all_below (order width) word.now ≡ true
        → result ≡ zero_syndromes width word.now }
{
    let s = word_syndromes(width, word);
    all_zero(&s)
}

// Questions 1 and 2, put to a word of n bytes.
fn ask_word(width: u8, n: usize) -> Result<(), Question>
    ensures { result ≡ word_asked width n (Ok tt) }
{
    let q = order_of(width);
    if q == 0 {
        return Err(Question::Width);
    }
    if n == q as usize + 4 {
        Ok(())
    } else {
        Err(Question::Length)
    }
}

// Question 7, put to a list of symbols.
fn ask_symbols(width: u8, symbols: &[u8]) -> Result<(), Question>
    ensures { result ≡ ask (all_below (order_of width) symbols.now) Symbol (Ok tt) }
{
    if below(symbols, order_of(width)) {
        Ok(())
    } else {
        Err(Question::Symbol)
    }
}

// Questions 1, 2 and 7: a word and data of these lengths, and symbols of the word or the data.
pub(crate) fn ask_slices(
    width: u8,
    word: usize,
    message: usize,
    symbols: &[u8],
) -> Result<(), Question>
    ensures { result ≡ word_asked width word (data_asked width message symbols.now (Ok tt)) }
{
    ask_word(width, word)?;
    if message == word - 5 {
        ask_symbols(width, symbols)
    } else {
        Err(Question::Length)
    }
}

// Questions 1, 2 and 7, put to a word.
pub(crate) fn ask_is_codeword(width: u8, word: &[u8]) -> Result<(), Question>
    ensures { result ≡ is_codeword_asked width word.now }
{
    ask_word(width, word.len())?;
    ask_symbols(width, word)
}

// Questions 1, 2, 7 and 9.
pub(crate) fn ask_read_data(width: u8, word: &[u8], message: usize) -> Result<(), Question>
    ensures { result ≡ read_data_asked width word.now message }
{
    ask_slices(width, word.len(), message, word)?;
    if zero_syndromes(width, word) {
        Ok(())
    } else {
        Err(Question::Syndrome)
    }
}

// Questions 3, 5, 6 and 7, put to the erasures and a word of the right length.
fn ask_erasures(width: u8, word: &[u8], erasures: &[u8]) -> Result<(), Question>
    requires { length word.now ≤ longest }
    ensures { is_width width ≡ true → length word.now ≡ places width
        → result ≡ erasures_asked width word.now erasures.now }
{
    if max_erasures(width) < erasures.len() {
        return Err(Question::ErasureCount);
    }
    if !below(erasures, word.len() as u8) {
        return Err(Question::ErasurePlace);
    }
    if !all_different(erasures) {
        return Err(Question::ErasureDistinct);
    }
    if !symbols_below(word, erasures, order_of(width)) {
        return Err(Question::Symbol);
    }
    Ok(())
}

// All questions before question 8.
pub(crate) fn ask_restore(width: u8, word: &[u8], erasures: &[u8]) -> Result<(), Question>
    ensures { result ≡ restore_asked width word.now erasures.now }
{
    ask_word(width, word.len())?;
    ask_erasures(width, word, erasures)
}

// All questions before question 8, with that about the reach.
pub(crate) fn ask_within(width: u8, word: &[u8], erasures: &[u8], reach: u8) -> Result<(), Question>
    ensures { result ≡ within_asked width word.now erasures.now reach }
{
    ask_restore(width, word, erasures)?;
    if reach <= radius_of(width, erasures.len()) {
        Ok(())
    } else {
        Err(Question::Reach)
    }
}
