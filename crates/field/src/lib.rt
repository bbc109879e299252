// The field of 2^m symbols at the widths m = 3, 4, 5 and 7, and the questions that every call puts to its input.
#![tactic(auto)]

ghost use Rattle.std.specs.Prelude.{◌≡◌, ◌∷◌, []};
ghost use Rattle.field.specs.Question.{refusal};
ghost use Rattle.field.specs.Answer.{outcome, operands, sum_of, product_of, power_of, inverse_of};

pub mod arithmetic;
mod folds;
mod horner;
pub mod lanes;
pub mod parity;
pub mod row;
pub mod shift;
pub mod table;
pub mod trace;

use arithmetic::{multiply, order_of, raise};

// The questions of document 01, in its order, then those of document 02. What they call marks are the erasures here. A call that answers
// one of them no is refused by it.
#[derive(Clone, Copy, Debug, PartialEq, Eq)]
pub enum Question {
    // Is the width 3, 4, 5 or 7?
    Width,
    // Has each lent slice its exact length?
    Length,
    // Are there at most five erasures, or three at an even width?
    ErasureCount,
    // Are the record's unused erasure bytes 255 and its tail bytes 0?
    Padding,
    // Is every erasure a place below n?
    ErasurePlace,
    // Are the erasures all different?
    ErasureDistinct,
    // Is every symbol outside the erasures below q?
    Symbol,
    // Is there a near codeword?
    Correctable,
    // Are the five syndromes zero?
    Syndrome,
    // Is the symbol to be inverted other than 0?
    Nonzero,
    // Has the day sheet width 7?
    SheetWidth,
    // Does the day sheet's date exist?
    Date,
    // Are the day sheet's unused symbols zero?
    Unused,
    // Is there just one near codeword?
    Unique,
    // Has every record of the card at most four erasures?
    FourErasures,
    // Is the reach that the caller names at most r?
    Reach,
    // Is the number that of a record of the card, or of the next one of a walk?
    RecordNumber,
    // Is the bay below 4?
    Bay,
    // Is a rewrite left to the bay, its own or a common one?
    Rewrite,
    // Are the two day sheets of one pump and date?
    SameDay,
    // Is the window's first quarter hour below its end, and that at most 96?
    Window,
}

// An exponent. A place of a word is a type of its own.
#[derive(Clone, Copy)]
pub struct Exponent(pub u16);

// The number by which the documents name the refusal.
pub fn refusal_number(q: Question) -> u8
    ensures { result ≡ refusal q }
{
    match q {
        Question::Width => 1,
        Question::Length => 2,
        Question::ErasureCount => 3,
        Question::Padding => 8,
        Question::ErasurePlace => 4,
        Question::ErasureDistinct => 5,
        Question::Symbol => 6,
        Question::Correctable => 7,
        Question::Syndrome => 9,
        Question::Nonzero => 10,
        Question::SheetWidth => 11,
        Question::Date => 12,
        Question::Unused => 13,
        Question::Unique => 14,
        Question::FourErasures => 15,
        Question::Reach => 16,
        Question::RecordNumber => 17,
        Question::Bay => 18,
        Question::Rewrite => 19,
        Question::SameDay => 20,
        Question::Window => 21,
    }
}

// Questions 1 and 7, put to one operand.
fn ask_symbol(width: u8, a: u8) -> Result<(), Question>
    ensures { result ≡ operands width (a ∷ []) }
{
    let q = order_of(width);
    if q == 0 {
        return Err(Question::Width);
    }
    if a < q { Ok(()) } else { Err(Question::Symbol) }
}

// Questions 1 and 7, put to two operands.
fn ask_symbols(width: u8, a: u8, b: u8) -> Result<(), Question>
    ensures { result ≡ operands width (a ∷ b ∷ []) }
{
    ask_symbol(width, a)?;
    ask_symbol(width, b)
}

pub fn sum(width: u8, a: u8, b: u8) -> Result<u8, Question>
    ensures { outcome result ≡ sum_of width a b }
{
    ask_symbols(width, a, b)?;
    Ok(a ^ b)
}

pub fn product(width: u8, a: u8, b: u8) -> Result<u8, Question>
    ensures { outcome result ≡ product_of width a b }
{
    ask_symbols(width, a, b)?;
    Ok(multiply(width, a, b))
}

pub fn power(width: u8, a: u8, e: Exponent) -> Result<u8, Question>
    ensures { outcome result ≡ power_of width a e.0 }
{
    ask_symbol(width, a)?;
    Ok(raise(width, a, e))
}

pub fn inverse(width: u8, a: u8) -> Result<u8, Question>
    ensures { outcome result ≡ inverse_of width a }
{
    ask_symbol(width, a)?;
    if a == 0 {
        return Err(Question::Nonzero);
    }
    Ok(arithmetic::invert(width, a))
}
