// Refusals in plain words.
#![tactic(auto, using(crate::proofs::Writing::appending))]

ghost use Rattle.std.specs.Prelude.{◌≡◌, ◌≤◌, length};
ghost use Rattle.field.specs.Question.{refusal};
ghost use Rattle.card.specs.Words.{words, refusal_line};
ghost use Rattle.card.specs.inner.Room.{longest_words, longest_refusal};
ghost use Rattle.card.specs.Text.{Appends};

use crate::text::Text;
use field::{Question, refusal_number};

// What was wrong in plain words, as docs/FORMAT.md has it.
#[tactic(auto, unfolding(crate::specs::Words::words))]
fn words_of(q: Question) -> &'static [u8]
    ensures text { result.now ≡ words (refusal q) }
    ensures upper_bound { length result.now ≤ longest_words }
{
    match q {
        Question::Width => b"the width is not 3, 4, 5 or 7",
        Question::Length => b"the length is not the right one",
        Question::ErasureCount => b"there are too many erasures",
        Question::ErasurePlace => b"an erasure is no place of the word",
        Question::ErasureDistinct => b"an erasure is given twice",
        Question::Symbol => b"a symbol outside the erasures is not below 2^width",
        Question::Correctable => b"no codeword is near",
        Question::Padding => b"an unused erasure byte is not 255, or the tail is not 0",
        Question::Syndrome => b"a syndrome is not zero",
        Question::Nonzero => b"the symbol 0 has no inverse",
        Question::SheetWidth => b"the width of a day sheet is not 7",
        Question::Date => b"the date of a day sheet does not exist",
        Question::Unused => b"an unused symbol of a day sheet is not 0",
        Question::Unique => b"several codewords agree outside the five erasures",
        Question::FourErasures => b"there are five erasures, and the old edition has room for four",
        Question::Reach => b"the reach is longer than r",
        Question::RecordNumber => b"the card has no record of that number",
        Question::Bay => b"the bay is not 0 to 3",
        Question::Rewrite => b"no rewrite is left to the bay",
        Question::SameDay => b"the two day sheets have not the same pump and date",
        Question::Window => b"the window has no quarter hour, or its end is above 96",
    }
}

// Writes the line that names a refused record: its number, its refusal number, and the words. No entry point: it requires room for it.
pub fn put_refusal(out: &mut Text, number: u64, q: Question)
    requires { longest_refusal ≤ out.old.room }
    ensures { Appends out.old (refusal_line number (refusal q)) out.new }
{
    out.put_field(number, b' ');
    out.put_field(refusal_number(q) as u64, b' ');
    out.put_bytes(words_of(q));
    out.put_byte(b'\n');
}
