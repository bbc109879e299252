// Wrong places of a word without erasures: what is to be added at the places that the syndromes name. These functions are no entry points.
ghost use Rattle.std.specs.Prelude.{◌≡◌, true, cond, List, [], ◌∷◌, ℕ, ◌+◌, ◌≤◌, ◌<◌, eqb, length};
ghost use Rattle.field.specs.Polynomial.{add};
ghost use Rattle.field.specs.Field.{order, product, inverse};
ghost use Rattle.field.specs.Question.{is_width};
ghost use Rattle.field.specs.inner.Operand.{Operand};
ghost use Rattle.code.specs.Word.{checks, places, longest, at};
ghost use Rattle.code.specs.inner.Place.{column as columnM};
ghost use Rattle.code.specs.inner.Correction.{places_of, Ready, Searched, NoneWithin};
ghost use Rattle.code.specs.inner.Locate.{without, full, Lists, AddsAt, NoRatio, NoPair, NoPairs, PairValues};

use crate::erasures::{Correction, Trial};
use crate::roots::{first_root, two_roots};
use crate::solver::Solutions;
use crate::validation::all_zero;
use crate::word::{Place, column, items_of, masked, place_of};
use field::arithmetic::{invert, multiply};

// Places, the highest first; of more than two only the first two are kept.
#[derive(Clone, Copy)]
pub struct FirstTwo {
    pub count: usize,
    pub first: Place,
    pub second: Place,
}

// The places with k in front, if x is not 0.
fn with_nonzero(f: FirstTwo, k: Place, x: u8) -> FirstTwo
    requires { f.count < checks }
    ensures { (result.count ≤ f.count + 1) × ((ls : List ℕ) → Lists f ls → Lists result (cond (eqb x 0) ls (k.0 ∷ ls))) }
{
    if x == 0 {
        return f;
    }
    FirstTwo {
        count: f.count + 1,
        first: k,
        second: f.first,
    }
}

// The check places at which the syndromes are not 0.
fn nonzeros(sums: [u8; 5]) -> FirstTwo
    ensures { (result.count ≤ checks) × Lists result (full checks (at sums)) }
{
    let mut f = FirstTwo {
        count: 0,
        first: Place(0),
        second: Place(0),
    };
    for k in 0..5 {
        f = with_nonzero(f, Place(k), sums[k as usize]);
    }
    f
}

// The byte at a place; 0 behind the last.
fn byte_at(bytes: &[u8], p: Place) -> u8
    ensures { result ≡ at bytes.now p.0 }
{
    bytes.get(p.0 as usize).copied().unwrap_or(0)
}

// The correction that adds y at the first of the places and z at the second.
fn correction_of(word: &[u8], f: FirstTwo, y: u8, z: u8) -> Correction
    requires { f.count ≤ 2 }
    ensures { (ls : List ℕ) (e : ℕ → ℕ) → Lists f ls → y ≡ e f.first.0 → z ≡ e f.second.0 → AddsAt word.now ls e result }
{
    let a = byte_at(word, f.first) ^ y;
    let b = byte_at(word, f.second) ^ z;
    Correction {
        count: f.count,
        places: [f.first, f.second, Place(0), Place(0), Place(0)],
        values: [a, b, 0, 0, 0],
    }
}

// Check places alone are wrong, where no more syndromes than the reach are not 0.
fn correct_checks(word: &[u8], t: Trial, reach: usize) -> Solutions<Correction>
    requires { reach ≤ 2 }
    ensures { (m : ℕ) → Ready m word.now t → places_of t ≡ []
        → Searched m word.now [] reach (reach < length (full checks (at t.sums))) result }
{
    let js = nonzeros(t.sums);
    if reach < js.count {
        return Solutions::None;
    }
    let y = byte_at(&t.sums, js.first);
    let z = byte_at(&t.sums, js.second);
    Solutions::One(correction_of(word, js, y, z))
}

// The data place p is wrong by y, and so are the check places at which the syndromes without y at p are not 0.
fn correct_beside(
    width: u8,
    word: &[u8],
    t: Trial,
    p: Place,
    y: u8,
    reach: usize,
) -> Solutions<Correction>
    requires { reach ≤ 2 }
    ensures { Ready width word.now t → places_of t ≡ [] → checks ≤ p.0 → p.0 < places width → y < order width
        → Searched width word.now [] reach (reach ≤ length (full checks (without width (at t.sums) p.0 y))) result }
{
    let rest = masked(width, t.sums, p, y);
    let js = nonzeros(rest);
    if reach <= js.count {
        return Solutions::None;
    }
    let f = FirstTwo {
        count: js.count + 1,
        first: p,
        second: js.first,
    };
    let z = byte_at(&rest, js.first);
    Solutions::One(correction_of(word, f, y, z))
}

// What is to be added at the data place p to make syndrome a, which is x.
fn value_from(width: u8, x: u8, a: u8, p: Place) -> u8
    ensures { is_width width ≡ true → x < order width → result ≡ product width x (inverse width (columnM width p.0 a)) }
{
    multiply(width, x, invert(width, column(width, p, a)))
}

// The data place that the ratio of the syndromes a and a + 1 tells is wrong, and perhaps check places are.
fn correct_ratio(width: u8, word: &[u8], t: Trial, a: u8, reach: usize) -> Solutions<Correction>
    requires { (reach ≤ 2) × (a + 1 < checks) × (checks ≤ length word.now) × (length word.now ≤ longest) }
    ensures { Ready width word.now t → places_of t ≡ []
        → Searched width word.now [] reach (NoRatio width (at t.sums) reach a) result }
{
    let k = a as usize;
    let x = t.sums[k];
    if x == 0 {
        return Solutions::None;
    }
    let n = items_of(word);
    let Some(root) = first_root(width, 0, x, t.sums[k + 1], n) else {
        return Solutions::None;
    };
    let p = place_of(root);
    correct_beside(width, word, t, p, value_from(width, x, a, p), reach)
}

// What is to be added at the second of two data places, with the points x and y, to make the syndromes s and next, which are 0 and 1.
fn second_value(width: u8, x: u8, y: u8, s: u8, next: u8) -> u8
    ensures { Operand width x → Operand width y → Operand width s → Operand width next
        → result ≡ product width (add next (product width x s)) (inverse width (add x y)) }
{
    let d = next ^ multiply(width, x, s);
    multiply(width, d, invert(width, x ^ y))
}

// What is to be added at two data places.
#[derive(Clone, Copy)]
pub struct Pair {
    pub first: u8,
    pub second: u8,
}

// What is to be added at the data places p and q, if the syndromes come from there.
fn pair_values(width: u8, s: [u8; 5], p: Place, q: Place) -> Pair
    ensures { is_width width ≡ true → ((k : ℕ) → k < checks → at s k < order width) → checks ≤ q.0 → q.0 < p.0 → p.0 < places width
        → PairValues width (at s) p.0 q.0 result }
{
    let x = column(width, p, 1);
    let y = column(width, q, 1);
    let second = second_value(width, x, y, s[0], s[1]);
    let first = s[0] ^ second;
    Pair { first, second }
}

// The data places p and q are wrong, if what is to be added there makes all five syndromes.
fn correct_pair(width: u8, word: &[u8], t: Trial, p: Place, q: Place) -> Solutions<Correction>
    ensures { Ready width word.now t → places_of t ≡ [] → checks ≤ q.0 → q.0 < p.0 → p.0 < places width
        → Searched width word.now [] 2 (NoPair width (at t.sums) p.0 q.0) result }
{
    let y = pair_values(width, t.sums, p, q);
    let rest = masked(width, masked(width, t.sums, p, y.first), q, y.second);
    if !all_zero(&rest) {
        return Solutions::None;
    }
    let f = FirstTwo {
        count: 2,
        first: p,
        second: q,
    };
    Solutions::One(correction_of(word, f, y.first, y.second))
}

// Syndrome i times syndrome j plus syndrome k times syndrome l: a coefficient of the locator.
fn coefficient(width: u8, s: [u8; 5], i: usize, j: usize, k: usize, l: usize) -> u8
    requires { (i < checks) × (j < checks) × (k < checks) × (l < checks) }
    ensures { is_width width ≡ true → ((h : ℕ) → h < checks → at s h < order width)
        → result ≡ add (product width (at s i) (at s j)) (product width (at s k) (at s l)) }
{
    let a = multiply(width, s[i], s[j]);
    let b = multiply(width, s[k], s[l]);
    a ^ b
}

// The two data places at which the locator, square·x² + linear·x + constant, is 0 are wrong.
fn correct_roots(width: u8, word: &[u8], t: Trial) -> Solutions<Correction>
    requires { (checks ≤ length word.now) × (length word.now ≤ longest) }
    ensures { Ready width word.now t → places_of t ≡ []
        → Searched width word.now [] 2 (NoPairs width (at t.sums)) result }
{
    let square = coefficient(width, t.sums, 1, 1, 0, 2);
    if square == 0 {
        return Solutions::None;
    }
    let linear = coefficient(width, t.sums, 1, 2, 0, 3);
    let constant = coefficient(width, t.sums, 2, 2, 1, 3);
    let n = items_of(word);
    let Some(r) = two_roots(width, square, linear, constant, n) else {
        return Solutions::None;
    };
    if r.high.0 <= r.low.0 || n <= r.high.0 {
        return Solutions::None;
    }
    correct_pair(width, word, t, place_of(r.high), place_of(r.low))
}

// A correction with at most one place.
pub fn find_single(width: u8, word: &[u8], t: Trial) -> Solutions<Correction>
    requires { (checks ≤ length word.now) × (length word.now ≤ longest) }
    ensures { Ready width word.now t → places_of t ≡ []
        → Searched width word.now [] 1 (NoneWithin width word.now [] 1) result }
{
    correct_checks(word, t, 1).or_else(|| correct_ratio(width, word, t, 0, 1))
}

// A correction with at most two places.
pub fn find_pair(width: u8, word: &[u8], t: Trial) -> Solutions<Correction>
    requires { (checks ≤ length word.now) × (length word.now ≤ longest) }
    ensures { Ready width word.now t → places_of t ≡ []
        → Searched width word.now [] 2 (NoneWithin width word.now [] 2) result }
{
    correct_checks(word, t, 2)
        .or_else(|| correct_roots(width, word, t))
        .or_else(|| correct_ratio(width, word, t, 0, 2))
        .or_else(|| correct_ratio(width, word, t, 2, 2))
}
