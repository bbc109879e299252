// Arithmetic below the questions: plain bytes in and out. These functions are no entry points: they ask nothing, and their contracts say
// what they give on every byte. A byte that is no width stands for width 7, and one that is no symbol for its lowest digits.
ghost use Rattle.std.specs.Prelude.{◌≡◌, true, ℕ, ◌%◌, ◌≤◌, ◌<◌};
ghost use Rattle.field.specs.Field.{order, polynomial, double as doubleM, product as product_m, power as power_m, α};
ghost use Rattle.field.specs.Question.{is_width};
ghost use Rattle.field.specs.inner.Operand.{Operand, order_of};
ghost use Rattle.field.specs.inner.Bytes.{Small, symbol_for, multiplied, raised, inverted, unit_for};

use crate::Exponent;
use crate::table::{logarithm, power_of_alpha};

// The number of symbols, or 0 where the width is none of the field's.
pub fn order_of(width: u8) -> u8
    ensures { result ≡ order_of width }
{
    match width {
        3 => 8,
        4 => 16,
        5 => 32,
        7 => 128,
        _ => 0,
    }
}

// The symbol that a byte stands for: its lowest digits.
pub(crate) fn symbol_of(width: u8, a: u8) -> u8
    ensures { result ≡ symbol_for width a }
{
    match width {
        3 => a % 8,
        4 => a % 16,
        5 => a % 32,
        _ => a % 128,
    }
}

// The number of symbols at width 3, 4 or 5.
fn small_order(width: u8) -> u8
    ensures { (2 ≤ result) × (Small width → result ≡ order width) }
{
    match width {
        3 => 8,
        4 => 16,
        _ => 32,
    }
}

// The polynomial of width 3, 4 or 5.
fn small_polynomial(width: u8) -> u8
    ensures { Small width → result ≡ polynomial width }
{
    match width {
        3 => 11,
        4 => 19,
        _ => 37,
    }
}

// a times α, where q and p are the order and the polynomial of a width.
fn double(q: u8, p: u8, a: u8) -> u8
    ensures { (m : ℕ) → is_width m ≡ true → q ≡ order m → p ≡ polynomial m → a < q → result ≡ doubleM m a }
{
    let d = a % 128 * 2;
    if d < q { d } else { d ^ p }
}

// The product at width 3, 4 or 5: b is added for each digit of a, doubled in between.
fn multiply_by_digits(width: u8, a: u8, b: u8) -> u8
    ensures { Small width → result ≡ multiplied width a b }
{
    let q = small_order(width);
    let p = small_polynomial(width);
    let mut r: u8 = 0;
    let mut x = b % q;
    let mut y = a % q;
    while 0 < y {
        if y % 2 == 1 {
            r ^= x;
        }
        x = double(q, p, x);
        y /= 2;
    }
    r
}

// The product at width 7: the exponents of α add up.
fn multiply7(a: u8, b: u8) -> u8
    ensures { result ≡ product_m 7 (a % 128) (b % 128) }
{
    if a % 128 == 0 || b % 128 == 0 {
        return 0;
    }
    power_of_alpha(Exponent(logarithm(a).0 + logarithm(b).0))
}

pub fn multiply(width: u8, a: u8, b: u8) -> u8
    ensures { result ≡ multiplied width a b }
{
    match width {
        3..=5 => multiply_by_digits(width, a, b),
        _ => multiply7(a, b),
    }
}

// The exponent of α at which its power times the unit of a is the unit of b, at width 7. There is one below 127 (`ratio-unique`).
pub fn ratio_exponent(a: u8, b: u8) -> Exponent
    ensures { (result.0 < 127) × (product_m 7 (power_m 7 α result.0) (unit_for a) ≡ unit_for b) }
{
    Exponent((logarithm(b).0 + 127 - logarithm(a).0) % 127)
}

// A power at width 7: the exponent of α is multiplied, and counts modulo 127.
fn raise7(a: u8, e: Exponent) -> u8
    ensures { result ≡ power_m 7 (a % 128) e.0 }
{
    if e.0 == 0 {
        return 1;
    }
    if a % 128 == 0 {
        return 0;
    }
    let k = logarithm(a).0 as u32 * e.0 as u32 % 127;
    power_of_alpha(Exponent(k as u16))
}

// A power at any width, by squares.
fn raise_by_squares(width: u8, a: u8, e: Exponent) -> u8
    ensures { Operand width a → result ≡ power_m width a e.0 }
{
    let mut r: u8 = 1;
    let mut x = a;
    let mut n = e.0;
    while 0 < n {
        if n % 2 == 1 {
            r = multiply(width, r, x);
        }
        x = multiply(width, x, x);
        n /= 2;
    }
    r
}

pub fn raise(width: u8, a: u8, e: Exponent) -> u8
    ensures { result ≡ raised width a e.0 }
{
    match width {
        3..=5 => raise_by_squares(width, a % small_order(width), e),
        _ => raise7(a, e),
    }
}

// The inverse of a symbol other than 0: at width 7 by the exponent of α that makes q-1 with its own, at the others the power q-2.
pub fn invert(width: u8, a: u8) -> u8
    ensures { result ≡ inverted width a }
{
    match width {
        3..=5 => raise(width, a, Exponent((small_order(width) - 2) as u16)),
        _ => {
            if a % 128 == 0 {
                return 0;
            }
            power_of_alpha(Exponent(127 - logarithm(a).0))
        }
    }
}
