// Roots of linear and quadratic functions among the powers of α: the data places at which they are 0. These functions are no entry points.
ghost use Rattle.std.specs.Prelude.{◌≡◌, true, IfSome, Some, ℕ, ◌≤◌, ◌<◌};
ghost use Rattle.field.specs.Field.{order};
ghost use Rattle.field.specs.Question.{is_width};
ghost use Rattle.code.specs.Word.{items};
ghost use Rattle.code.specs.inner.Scan.{Carried, FirstRoot, Scanned, LinearRatio, TwoRoots};

use field::Exponent;
use field::arithmetic::{invert, multiply, ratio_exponent};
use field::shift::shift;
use field::trace::half_trace;

// Where a search for roots stands: an exponent of α, and the quadratic's first two terms there.
#[derive(Clone, Copy)]
pub struct Scan {
    pub at: Exponent,
    pub square: u8,
    pub linear: u8,
}

// The first root from an exponent on, below n.
fn root_from(
    width: u8,
    from: Exponent,
    square: u8,
    linear: u8,
    constant: u8,
    n: u16,
) -> Option<Scan>
    requires { from.0 ≤ n }
    ensures { IfSome result (λ r. (from.0 ≤ r.at.0) × (r.at.0 < n))
        × ((a b : ℕ) → is_width width ≡ true → Carried width a b from.0 square linear → Scanned width a b constant from.0 n result) }
{
    let mut d = square;
    let mut e = linear;
    for i in from.0..n {
        if d ^ e == constant {
            return Some(Scan {
                at: Exponent(i),
                square: d,
                linear: e,
            });
        }
        d = shift(width, d, Exponent(2));
        e = shift(width, e, Exponent(1));
    }
    None
}

// Is there just one root among the powers of α at width 7, for the function is linear and its terms are symbols other than 0?
fn has_ratio(width: u8, square: u8, linear: u8, constant: u8, n: u16) -> bool
    ensures { result ≡ true → LinearRatio width square linear constant n }
{
    width == 7 && n == 127 && square == 0 && linear != 0 && 0 < constant && constant < 128
}

// The first root, below n. The one root of a linear function at width 7 is told by its logarithms.
pub fn first_root(width: u8, square: u8, linear: u8, constant: u8, n: u16) -> Option<Exponent>
    ensures { IfSome result (λ e. e.0 < n)
        × ((a b : ℕ) → is_width width ≡ true → Carried width a b 0 square linear → FirstRoot width a b constant 0 n result) }
{
    if has_ratio(width, square, linear, constant, n) {
        return Some(ratio_exponent(linear, constant));
    }
    let root = root_from(width, Exponent(0), square, linear, constant, n)?;
    Some(root.at)
}

// Two exponents, the lower first: the roots of a quadratic that has two.
#[derive(Clone, Copy)]
pub struct RootPair {
    pub low: Exponent,
    pub high: Exponent,
}

// The two roots below n, by a search.
fn scanned_roots(width: u8, square: u8, linear: u8, constant: u8, n: u16) -> Option<RootPair>
    ensures { is_width width ≡ true → square < order width → linear < order width → n ≡ items width
        → TwoRoots width square linear constant n result }
{
    let low = root_from(width, Exponent(0), square, linear, constant, n)?;
    let d = shift(width, low.square, Exponent(2));
    let e = shift(width, low.linear, Exponent(1));
    let high = root_from(width, Exponent(low.at.0 + 1), d, e, constant, n)?;
    Some(RootPair {
        low: low.at,
        high: high.at,
    })
}

// The exponents in rising order.
fn sorted(i: Exponent, j: Exponent) -> RootPair
    ensures { (i.0 < j.0 → (result.low.0 ≡ i.0) × (result.high.0 ≡ j.0)) × (j.0 < i.0 → (result.low.0 ≡ j.0) × (result.high.0 ≡ i.0)) }
{
    if i.0 < j.0 {
        return RootPair { low: i, high: j };
    }
    RootPair { low: j, high: i }
}

// The two roots at width 7. With x = y·linear/square the quadratic becomes y² + y = constant·square/linear².
fn halved_roots(square: u8, linear: u8, constant: u8) -> RootPair
    ensures { square < 128 → linear < 128 → constant < 128 → TwoRoots 7 square linear constant 127 (Some result) }
{
    let inverse = invert(7, linear);
    let ratio = multiply(7, square, inverse);
    let rest = multiply(7, constant, inverse);
    let y = half_trace(multiply(7, rest, ratio));
    sorted(ratio_exponent(ratio, y), ratio_exponent(ratio, y ^ 1))
}

// The two roots below n.
pub fn two_roots(width: u8, square: u8, linear: u8, constant: u8, n: u16) -> Option<RootPair>
    ensures { is_width width ≡ true → square < order width → linear < order width → constant < order width → n ≡ items width
        → TwoRoots width square linear constant n result }
{
    if width == 7 {
        return Some(halved_roots(square, linear, constant));
    }
    scanned_roots(width, square, linear, constant, n)
}
