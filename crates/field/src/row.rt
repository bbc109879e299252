// Rows of eight symbols of width 7, as a linear system has them, in eight lanes: a row is one number, and multiplied by shifts alone, where
// each product by the tables would read three of them. These functions are no entry points.
ghost use Rattle.std.specs.Prelude.{◌≡◌, ◌+◌, ◌*◌, ◌%◌, ◌<◌};
ghost use Rattle.field.specs.Polynomial.{add};
ghost use Rattle.field.specs.Sum.{at};
ghost use Rattle.field.specs.inner.Lanes.{lanes, lane, Below, eight, Multiples, named};

use crate::Exponent;
use crate::lanes::times;
use std::array;

// The symbols that the bytes of a row stand for, in lanes.
fn symbols(row: [u8; 8]) -> u64
    ensures { result ≡ lanes 8 (λ j. at row j % 128) }
{
    u64::from_le_bytes(row) & 0x7f7f7f7f7f7f7f7f
}

// The row in lanes, times each of the first seven powers of α: from these every multiple of the row is added up.
pub fn multiples(row: [u8; 8]) -> [u64; 7]
    ensures { Multiples (λ j. at row j % 128) result }
{
    let a = symbols(row);
    array::from_fn(|i| times(a, Exponent(i as u16)))
}

// The row times k, in lanes: those of its multiples are added up that the digits of k name.
fn scaled(k: u8, ms: [u64; 7]) -> u64
    ensures { result ≡ named k ms }
{
    let mut sum = 0;
    for (i, m) in ms.iter().enumerate() {
        if (k >> i) % 2 == 1 {
            sum ^= *m;
        }
    }
    sum
}

// The row with those of the seven numbers added that the digits of k name: k times another row, where its multiples are given (`multiple-row`).
pub fn add_multiple(row: [u8; 8], k: u8, ms: [u64; 7]) -> [u8; 8]
    ensures { result ≡ eight (λ j. add (at row j) (lane (named k ms) j)) }
{
    (u64::from_le_bytes(row) ^ scaled(k, ms)).to_le_bytes()
}
