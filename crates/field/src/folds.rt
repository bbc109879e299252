// The five sums over the 127 data symbols of width 7, by folds: sixteen numbers hold eight neighbouring symbols each. The upper numbers are
// added at lower places, by a relation between the powers of α, until seven or eight are left; these are cut into halves, and so on until
// each is one symbol. A byte that is no symbol is cut at the end alone: exclusive or treats its digits apart.
ghost use Rattle.std.specs.Prelude.{◌≡◌, length, slice_index, ℕ, ◌+◌, ◌*◌, ◌%◌, ◌<◌, ◌≤◌};
ghost use Rattle.field.specs.Sum.{five, weighted, at};
ghost use Rattle.field.specs.inner.Lanes.{lanes, Block};
ghost use Rattle.field.specs.inner.Folds.{Obeys, Folded, Halved, Packed};

use crate::Exponent;
use crate::lanes::{eight, weighted_sum};
use std::array;

// The symbols, eight to a number; the 128th is 0.
fn words(cs: &[u8]) -> [u64; 16]
    requires { length cs.now ≡ 127 }
    ensures { (i : ℕ) → i < 16 → Block 8 cs.now (8 * i) (at result i) }
{
    array::from_fn(|i| if i < 15 {
        eight(cs, 8 * i)
    } else {
        eight(cs, 119) / 256
    })
}

// Each number's part below p, then its part above, of the first eight.
fn halves(w: [u64; 16], p: u64) -> [u64; 16]
    requires { 0 < p }
    ensures { Halved p w result }
{
    array::from_fn(|i| if i % 2 == 0 {
        w[i / 2] % p
    } else {
        w[i / 2] / p
    })
}

// The symbol of a number that holds one.
fn symbol(x: u64) -> u8
    ensures { result ≡ x % 128 }
{
    (x % 128) as u8
}

// Eight symbols in one number.
fn pack(w: [u64; 16]) -> u64
    ensures { result ≡ lanes 8 (λ i. at w i % 128) }
{
    u64::from_le_bytes([
        symbol(w[0]),
        symbol(w[1]),
        symbol(w[2]),
        symbol(w[3]),
        symbol(w[4]),
        symbol(w[5]),
        symbol(w[6]),
        symbol(w[7]),
    ])
}

// A relation between the powers of y, a power of α: y^degree is the sum of the powers of y at the places.
#[derive(Clone, Copy)]
struct Relation<const N: usize> {
    degree: usize,
    places: [usize; N],
}

// y^7 = y^3 + 1, which α and its squares obey.
const SEVENTH: Relation<2> = Relation {
    degree: 7,
    places: [3, 0],
};

// y^8 = y^7 + y^4 + 1, which 1, α^3 and its squares obey.
const EIGHTH: Relation<3> = Relation {
    degree: 8,
    places: [7, 4, 0],
};

impl<const N: usize> Relation<N> {
    // Each number from the degree on goes to lower places, the highest first, and leaves 0.
    fn fold(&self, mut w: [u64; 16]) -> [u64; 16]
        requires degree { self.now.degree ≤ 8 }
        requires places { (i : ℕ) → i < N → slice_index self.now.places i < self.now.degree }
        ensures { Folded (Obeys self.now.degree self.now.places) w result }
    {
        for top in (self.degree..16).rev() {
            let x = w[top];
            w[top] = 0;
            for place in &self.places {
                w[top - self.degree + *place] ^= x;
            }
        }
        w
    }

    // The sixteen numbers folded into one of eight symbols.
    fn packed(&self, w: [u64; 16]) -> u64
        requires degree { self.now.degree ≤ 8 }
        requires places { (i : ℕ) → i < N → slice_index self.now.places i < self.now.degree }
        ensures { Packed (Obeys self.now.degree self.now.places) w result }
    {
        let a = halves(self.fold(w), 4294967296);
        let b = halves(self.fold(a), 65536);
        let c = halves(self.fold(b), 256);
        pack(self.fold(c))
    }
}

// For k from 0 to 4 the field sum over i of α^(k·i) times symbol i.
pub fn by_folds(cs: &[u8]) -> [u8; 5]
    requires { length cs.now ≡ 127 }
    ensures { result ≡ five (weighted 7 127 (λ i. at cs.now i % 128)) }
{
    let w = words(cs);
    let a = SEVENTH.packed(w);
    let b = EIGHTH.packed(w);
    [
        weighted_sum(b, Exponent(0)),
        weighted_sum(a, Exponent(1)),
        weighted_sum(a, Exponent(2)),
        weighted_sum(b, Exponent(3)),
        weighted_sum(a, Exponent(4)),
    ]
}
