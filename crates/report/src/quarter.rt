// A quarter hour of the day as people write it: its number, 0 to 96, or the time at which it begins, hh:mm.
#![tactic(auto, using(card::proofs::Writing::appending))]

ghost use Rattle.std.specs.Prelude.{◌≡◌, ◌+◌, ◌≤◌, ◌<◌, length};
ghost use Rattle.card.specs.Listing.{decimal};
ghost use Rattle.card.specs.Text.{Appends};
ghost use Rattle.code.specs.Call.{same_bytes};
ghost use Rattle.report.specs.Quarter.{clock_text, is_quarter, quarter_of};
ghost use Rattle.report.specs.inner.Room.{longest_clock};

use crate::table::put_two;
use card::text::Text;
use check::same;

// Writes the time at which quarter hour n begins.
#[tactic(auto, using(card::proofs::Writing::appending), unfolding(crate::specs::Quarter::clock_text))]
fn put_clock(out: &mut Text, n: u64)
    requires { longest_clock ≤ out.old.room }
    ensures { Appends out.old (clock_text n) out.new }
{
    put_two(out, n / 4);
    out.put_byte(b':');
    put_two(out, n % 4 * 15);
}

// Is the text the number n?
fn is_number(text: &[u8], n: u64) -> bool
    ensures { result ≡ same_bytes text.now (decimal n) }
{
    let mut out = [0u8; 20];
    let mut number = Text::new(&mut out);
    number.put_decimal(n);
    same(text, number.as_bytes())
}

// Is the text the time at which quarter hour n begins?
fn is_clock(text: &[u8], n: u64) -> bool
    ensures { result ≡ same_bytes text.now (clock_text n) }
{
    let mut out = [0u8; 41];
    let mut clock = Text::new(&mut out);
    put_clock(&mut clock, n);
    same(text, clock.as_bytes())
}

// Does the text stand for quarter hour n?
#[tactic(auto, unfolding(crate::specs::Quarter::is_quarter))]
fn is_quarter(text: &[u8], n: u8) -> bool
    ensures { result ≡ is_quarter text.now n }
{
    is_number(text, u64::from(n)) || is_clock(text, u64::from(n))
}

// The quarter hour that the text stands for, if it stands for one.
pub fn quarter(text: &[u8]) -> Option<u8>
    ensures { result ≡ quarter_of text.now }
{
    for n in (0..97).rev() {
        if is_quarter(text, n) {
            return Some(n);
        }
    }
    None
}
