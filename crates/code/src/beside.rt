// One wrong place beside one or two erasures: a place that is named is tried. These functions are no entry points.
ghost use Rattle.std.specs.Prelude.{◌≡◌, true, List, [], ◌∷◌, ℕ, ◌≤◌, ◌<◌, length};
ghost use Rattle.field.specs.Polynomial.{add};
ghost use Rattle.field.specs.Field.{order, product, power};
ghost use Rattle.field.specs.Question.{is_width, all_below};
ghost use Rattle.code.specs.Word.{checks, longest, at};
ghost use Rattle.code.specs.inner.Matrix.{unknowns};
ghost use Rattle.code.specs.inner.Correction.{NoneAt, places_of, Ready, NoneBeside, Searched, NoneWithin};
ghost use Rattle.code.specs.inner.Locate.{point as pointM};
ghost use Rattle.code.specs.inner.Beside.{Injective, Arranged, NoneRoot, NoneCheck, NoneOutside, NoneData, Only, Between, Apart, Eliminated};

use crate::candidates::{CheckRange, candidate_checks, eliminated_rows, erasures_excluded};
use crate::erasures::{Correction, Trial};
use crate::roots::first_root;
use crate::solver::Solutions;
use crate::word::{Place, entry_times, items_of, place_of};

// The trial with the extra place p.
fn try_place(width: u8, word: &[u8], t: Trial, p: Place) -> Solutions<Correction>
    requires { t.count < unknowns }
    ensures { Ready width word.now t
        → Searched width word.now (places_of t) 1 (NoneBeside width word.now p.0 (places_of t)) result }
{
    let i = p.0 as usize;
    if word.len() <= i || t.contains(p) {
        return Solutions::None;
    }
    t.extended(width, p, word[i]).solve(width)
}

// The trial with the extra data place at which the quadratic is 0.
fn try_root(
    width: u8,
    word: &[u8],
    t: Trial,
    square: u8,
    linear: u8,
    constant: u8,
) -> Solutions<Correction>
    requires { (t.count < unknowns) × (checks ≤ length word.now) × (length word.now ≤ longest) }
    ensures { Ready width word.now t
        → Searched width word.now (places_of t) 1 (NoneRoot width word.now (places_of t) square linear constant) result }
{
    let n = items_of(word);
    match first_root(width, square, linear, constant, n) {
        Some(root) => try_place(width, word, t, place_of(root)),
        None => Solutions::None,
    }
}

// The trial with an extra check place of the range.
fn try_checks(width: u8, word: &[u8], t: Trial, f: CheckRange) -> Solutions<Correction>
    requires { t.count < unknowns }
    ensures { Ready width word.now t → NoneOutside width word.now (places_of t) f.low.0 f.high.0
        → Searched width word.now (places_of t) 1 (NoneCheck width word.now (places_of t)) result }
{
    for p in f.low.0..f.high.0 {
        let c = try_place(width, word, t, Place(p));
        if c.exist() {
            return c;
        }
    }
    Solutions::None
}

// Rows `from` and `from` + gap.
#[derive(Clone, Copy)]
pub struct Span {
    pub gap: u8,
    pub from: u8,
}

// Rows beside the erased check places c and d, c not above d; one alone is both.
fn rows_between(c: Place, d: Place) -> Span
    requires { c.0 ≤ d.0 }
    ensures { Between c.0 d.0 result }
{
    if 2 <= c.0 {
        return Span { gap: 1, from: 0 };
    }
    if d.0 <= 2 {
        return Span { gap: 1, from: 3 };
    }
    if c.0 == 0 {
        return Span { gap: 1, from: 1 };
    }
    if d.0 == 4 {
        return Span { gap: 1, from: 2 };
    }
    Span { gap: 2, from: 0 }
}

// Rows from which a data place is eliminated, the gap apart, beside the erased check place c.
fn rows_beside(c: Place) -> Span
    ensures { Apart c.0 result }
{
    match c.0 {
        0 => Span { gap: 1, from: 1 },
        1 => Span { gap: 1, from: 2 },
        2 => Span { gap: 3, from: 0 },
        _ => Span { gap: 1, from: 0 },
    }
}

// The trial with the extra data place of which the syndromes tell, beside the erased check places c and d.
fn try_data_beside_checks(
    width: u8,
    word: &[u8],
    t: Trial,
    c: Place,
    d: Place,
) -> Solutions<Correction>
    requires { (c.0 ≤ d.0) × (t.count < unknowns) × (checks ≤ length word.now) × (length word.now ≤ longest) }
    ensures { Ready width word.now t → all_below checks (places_of t) ≡ true → Only (places_of t) c.0 d.0
        → Searched width word.now (places_of t) 1 (NoneData width word.now (places_of t) (at t.sums)) result }
{
    let s = rows_between(c, d);
    let low = t.sums[s.from as usize];
    let high = t.sums[(s.gap + s.from) as usize];
    if s.gap == 1 {
        try_root(width, word, t, 0, low, high)
    } else {
        try_root(width, word, t, low, 0, high)
    }
}

// high, with h powers of the point of the data place a times low taken away.
fn eliminated(width: u8, a: Place, h: u8, low: u8, high: u8) -> u8
    ensures { is_width width ≡ true → checks ≤ a.0 → low < order width
        → result ≡ add high (product width (power width (pointM width a.0) h) low) }
{
    high ^ entry_times(width, a, h, low)
}

// The same beside the erased data place a and the erased check place c.
fn try_data_beside_data_and_check(
    width: u8,
    word: &[u8],
    t: Trial,
    a: Place,
    c: Place,
) -> Solutions<Correction>
    requires { (t.count < unknowns) × (checks ≤ length word.now) × (length word.now ≤ longest) }
    ensures { Ready width word.now t
        → (cs : List ℕ) → Arranged (places_of t) (a.0 ∷ cs) → checks ≤ a.0 → all_below checks cs ≡ true → Only cs c.0 c.0 → (c.0 ≡ 2 → Injective width 3)
        → Searched width word.now (places_of t) 1 (NoneData width word.now (places_of t) (at t.sums)) result }
{
    let s = rows_beside(c);
    let k = s.from as usize;
    let j = s.gap as usize + k;
    let low = eliminated(width, a, s.gap, t.sums[k], t.sums[j]);
    let high = eliminated(width, a, s.gap, t.sums[k + 1], t.sums[j + 1]);
    try_root(width, word, t, 0, low, high)
}

// The same beside the two erasures p and q, without which `rows` are left. Where a data place and p_2 are erased, cubing has to be one to one.
fn try_data_beside_two(
    width: u8,
    word: &[u8],
    t: Trial,
    rows: [u8; 5],
    p: Place,
    q: Place,
) -> Solutions<Correction>
    requires { (t.count < unknowns) × (checks ≤ length word.now) × (length word.now ≤ longest) }
    ensures { Ready width word.now t → Eliminated width (places_of t) t.sums rows → places_of t ≡ p.0 ∷ q.0 ∷ [] → Injective width 3
        → Searched width word.now (places_of t) 1 (NoneData width word.now (places_of t) (at t.sums)) result }
{
    if p.0 < 5 {
        if 5 <= q.0 {
            return try_data_beside_data_and_check(width, word, t, q, p);
        }
        if p.0 <= q.0 {
            return try_data_beside_checks(width, word, t, p, q);
        }
        return try_data_beside_checks(width, word, t, q, p);
    }
    if q.0 < 5 {
        return try_data_beside_data_and_check(width, word, t, p, q);
    }
    try_root(width, word, t, 0, rows[0], rows[1])
}

// The same beside the erasures, of which there are one or two.
fn try_data(width: u8, word: &[u8], t: Trial, rows: [u8; 5]) -> Solutions<Correction>
    requires { (0 < t.count) × (t.count ≤ 2) × (checks ≤ length word.now) × (length word.now ≤ longest) }
    ensures { Ready width word.now t → Eliminated width (places_of t) t.sums rows → (t.count ≡ 2 → Injective width 3)
        → Searched width word.now (places_of t) 1 (NoneData width word.now (places_of t) (at t.sums)) result }
{
    let p = t.places[0];
    if t.count == 2 {
        return try_data_beside_two(width, word, t, rows, p, t.places[1]);
    }
    if p.0 < 5 {
        return try_data_beside_checks(width, word, t, p, p);
    }
    try_root(width, word, t, 0, rows[0], rows[1])
}

// The trial as it is, unless that is ruled out already.
fn solve_erasures(width: u8, t: Trial, f: CheckRange) -> Solutions<Correction>
    requires { t.count ≤ unknowns }
    ensures { (w : List ℕ) → Ready width w t → NoneOutside width w (places_of t) f.low.0 f.high.0
        → Searched width w (places_of t) 0 (NoneAt width w (places_of t)) result }
{
    if erasures_excluded(t, f) {
        return Solutions::None;
    }
    t.solve(width)
}

// A correction with at most one extra place, beside one or two erasures.
pub fn find_beside(width: u8, word: &[u8], t: Trial) -> Solutions<Correction>
    requires { (0 < t.count) × (t.count ≤ 2) × (checks ≤ length word.now) × (length word.now ≤ longest) }
    ensures { Ready width word.now t → (t.count ≡ 2 → Injective width 3)
        → Searched width word.now (places_of t) 1 (NoneWithin width word.now (places_of t) 1) result }
{
    let rows = eliminated_rows(width, t);
    let f = candidate_checks(t, rows);
    let b = solve_erasures(width, t, f);
    if b.exist() {
        return b;
    }
    let c = try_data(width, word, t, rows);
    if c.exist() {
        return c;
    }
    try_checks(width, word, t, f)
}
