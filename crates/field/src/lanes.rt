// Lanes: a number of 64 bits holds a symbol of width 7 in each of its bytes, so that one operation works on eight symbols.
ghost use Rattle.std.specs.Prelude.{◌≡◌, length, ℕ, ◌+◌, ◌%◌, ◌≤◌, ◌<◌};
ghost use Rattle.field.specs.Sum.{weighted, at};
ghost use Rattle.field.specs.inner.Lanes.{lanes, Below, Times, Block};

use crate::Exponent;

// Each lane times the power k of α: its low 7 - k digits move up, the k above them come back at x^0 and at x^3.
pub(crate) fn shift(a: u64, k: Exponent) -> u64
    requires { k.0 ≤ 4 }
    ensures { Times k.0 a result }
{
    let n = k.0 as u64;
    let low = 127 >> n;
    let top = (a & (0x0101010101010101 * (127 - low))) >> (7 - n);
    ((a & (0x0101010101010101 * low)) << n) ^ top ^ (top << 3)
}

// Each lane times the power k of α.
pub(crate) fn times(a: u64, k: Exponent) -> u64
    ensures { Times k.0 a result }
{
    let mut r = a;
    for _ in 0..k.0 / 4 {
        r = shift(r, Exponent(4));
    }
    shift(r, Exponent(k.0 % 4))
}

// The sum over the lanes, lane j times the power e·j of α.
pub(crate) fn weighted_sum(a: u64, e: Exponent) -> u8
    requires { e.0 ≤ 4 }
    ensures { (f : ℕ → ℕ) → Below 128 8 f → a ≡ lanes 8 f → result ≡ weighted 7 8 f e.0 }
{
    let b = (a % 4294967296) ^ times(a / 4294967296, Exponent(e.0 * 4));
    let c = (b % 65536) ^ times(b / 65536, Exponent(e.0 * 2));
    (((c % 256) ^ times(c / 256, e)) % 256) as u8
}

// Eight neighbouring bytes in lanes.
pub fn eight(xs: &[u8], i: usize) -> u64
    requires { i + 8 ≤ length xs.now }
    ensures { Block 8 xs.now i result }
{
    u64::from_le_bytes([
        xs[i],
        xs[i + 1],
        xs[i + 2],
        xs[i + 3],
        xs[i + 4],
        xs[i + 5],
        xs[i + 6],
        xs[i + 7],
    ])
}
