// Weighted sums in one pass from the last symbol to the first (Horner's rule): each sum is multiplied by its power of α, and the next symbol
// is added to all of them. No power of α is raised for a symbol.
ghost use Rattle.std.specs.Prelude.{◌≡◌, ℕ, ◌<◌};
ghost use Rattle.field.specs.Polynomial.{add};
ghost use Rattle.field.specs.Field.{order, product, power, α};
ghost use Rattle.field.specs.inner.Bytes.{width_for, symbol_for, sums_for};
ghost use Rattle.field.specs.Sum.{five, at};

use crate::Exponent;
use crate::arithmetic::symbol_of;
use crate::shift::shift;

// The sums with one more symbol in front. The power 0 of α leaves the first as it is.
fn step(width: u8, s: [u8; 5], c: u8) -> [u8; 5]
    ensures { ((k : ℕ) → k < 5 → at s k < order (width_for width))
        → result ≡ five (λ k. add (product (width_for width) (power (width_for width) α k) (at s k)) (symbol_for width c)) }
{
    let x = symbol_of(width, c);
    [
        s[0] ^ x,
        shift(width, s[1], Exponent(1)) ^ x,
        shift(width, s[2], Exponent(2)) ^ x,
        shift(width, s[3], Exponent(3)) ^ x,
        shift(width, s[4], Exponent(4)) ^ x,
    ]
}

// For k from 0 to 4 the field sum over i of α^(k·i) times symbol i.
pub fn one_by_one(width: u8, symbols: &[u8]) -> [u8; 5]
    ensures { result ≡ sums_for width symbols.now }
{
    let mut s = [0; 5];
    for c in symbols.iter().rev() {
        let next = step(width, s, *c);
        s = next;
    }
    s
}
