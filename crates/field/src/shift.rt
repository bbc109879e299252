// Products with the first powers of α, the same steps for every symbol: a branch for each digit would be guessed wrong half the time. The
// polynomial of a width is x^width + x^middle + 1, so a digit that leaves at x^width comes back at x^0 and at x^middle. These functions are
// no entry points.
ghost use Rattle.std.specs.Prelude.{◌≡◌, ◌+◌, ◌^◌, ◌≤◌};
ghost use Rattle.field.specs.Field.{order, polynomial, product as product_m, power as power_m, α};
ghost use Rattle.field.specs.inner.Operand.{Operand};
ghost use Rattle.field.specs.inner.Bytes.{shifted};

use crate::Exponent;

// a times the power k of α, where the digits that come back stay below x^width.
fn wrap(width: u8, middle: u8, a: u8, k: Exponent) -> u8
    requires { (k.0 ≤ width) × (width ≤ 7) × (middle ≤ 7) }
    ensures { Operand width a → polynomial width ≡ order width + 2 ^ middle + 1 → k.0 + middle ≤ width
        → result ≡ product_m width (power_m width α k.0) a }
{
    let n = k.0 as u8;
    let top = a >> (width - n);
    let low = (a << n) & (127 >> (7 - width));
    low ^ top ^ (top << middle)
}

// a times the power k of α, at once where there is room, or else in two steps.
fn shift_at(width: u8, middle: u8, a: u8, k: Exponent) -> u8
    requires { (k.0 ≤ 4) × (2 + middle ≤ width) × (width ≤ 7) }
    ensures { Operand width a → polynomial width ≡ order width + 2 ^ middle + 1 → result ≡ product_m width (power_m width α k.0) a }
{
    if k.0 + middle as u16 <= width as u16 {
        wrap(width, middle, a, k)
    } else {
        wrap(
            width,
            middle,
            wrap(width, middle, a, Exponent(2)),
            Exponent(k.0 - 2),
        )
    }
}

// a times the power k of α. No entry point: it requires that k is at most four.
pub fn shift(width: u8, a: u8, k: Exponent) -> u8
    requires { k.0 ≤ 4 }
    ensures { result ≡ shifted width a k.0 }
{
    match width {
        3 => shift_at(3, 1, a % 8, k),
        4 => shift_at(4, 1, a % 16, k),
        5 => shift_at(5, 2, a % 32, k),
        _ => shift_at(7, 3, a % 128, k),
    }
}
