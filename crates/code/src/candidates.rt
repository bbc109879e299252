// The check places that come into question beside one or two erasures: what is left of the syndromes without the erasures tells of them. These
// functions are no entry points.
ghost use Rattle.std.specs.Prelude.{◌≡◌, ◌≢◌, true, List, ℕ, ◌+◌, ◌≤◌, ◌<◌, set};
ghost use Rattle.field.specs.Field.{order};
ghost use Rattle.field.specs.Question.{is_width};
ghost use Rattle.code.specs.Word.{checks, five, at};
ghost use Rattle.code.specs.inner.Matrix.{unknowns};
ghost use Rattle.code.specs.inner.Correction.{NoneAt, places_of, Ready};
ghost use Rattle.code.specs.inner.Locate.{point as pointM};
ghost use Rattle.code.specs.inner.Beside.{eliminate, NoneOutside, Tell, Eliminated};

use crate::erasures::Trial;
use crate::solver::add_times;
use crate::word::{Place, point};

// Check places, from `low` on and below `high`: a place, or 5, where the check places end. Syndromes at which no check place is wrong come
// from the erasures alone, and what is left of them without these is 0: so what is left and is not 0 tells that the wrong one is among its
// syndromes.
#[derive(Clone, Copy)]
pub struct CheckRange {
    pub low: Place,
    pub high: Place,
}

// The range's places among the n from k on, if x is not 0.
fn narrowed(f: CheckRange, k: Place, n: u8, x: u8) -> CheckRange
    requires { k.0 + n ≤ checks }
    ensures { (m : ℕ) (w es : List ℕ) → NoneOutside m w es f.low.0 f.high.0 → (x ≢ 0 → NoneOutside m w es k.0 (k.0 + n))
        → NoneOutside m w es result.low.0 result.high.0 }
{
    if x == 0 {
        return f;
    }
    let end = f.high.0.min(k.0 + n);
    CheckRange {
        low: k,
        high: Place(end),
    }
}

// The check places that are among the n from k on, for each row k that is not 0.
fn range_of(rows: [u8; 5], n: u8) -> CheckRange
    requires { (0 < n) × (n ≤ checks) }
    ensures { (m : ℕ) (w es : List ℕ) → Tell m w es n (at rows) → NoneOutside m w es result.low.0 result.high.0 }
{
    let mut f = CheckRange {
        low: Place(0),
        high: Place(5),
    };
    for k in 0..6 - n {
        f = narrowed(f, Place(k), n, rows[k as usize]);
    }
    f
}

// The rows with the data place a eliminated: to each, times the point of a, the next is added.
fn differences(width: u8, rows: [u8; 5], a: Place) -> [u8; 5]
    requires { checks ≤ a.0 }
    ensures { is_width width ≡ true → checks ≤ a.0 → ((k : ℕ) → k < checks → at rows k < order width)
        → result ≡ five (eliminate width 1 (pointM width a.0) (at rows)) }
{
    let by = [rows[0], rows[1], rows[2], rows[3], rows[4], 0, 0, 0];
    let next = [rows[1], rows[2], rows[3], rows[4], 0, 0, 0, 0];
    let r = add_times(width, next, point(width, a), by);
    [r[0], r[1], r[2], r[3], r[4]]
}

// What is left of the syndromes without the erasure p: of a check place its own tells nothing.
fn without_one(width: u8, t: Trial, p: Place) -> [u8; 5]
    ensures { (w : List ℕ) → Ready width w t
        → (checks ≤ p.0 → result ≡ five (eliminate width 1 (pointM width p.0) (at t.sums))) × (p.0 < checks → result ≡ set t.sums p.0 0) }
{
    let mut rows = t.sums;
    if 5 <= p.0 {
        return differences(width, rows, p);
    }
    rows[p.0 as usize] = 0;
    rows
}

// The same without the erasures p and q, where both are data places.
fn without_two(width: u8, t: Trial, p: Place, q: Place) -> [u8; 5]
    ensures { (w : List ℕ) → Ready width w t → checks ≤ p.0 → checks ≤ q.0
        → result ≡ five (eliminate width 1 (pointM width q.0) (at (five (eliminate width 1 (pointM width p.0) (at t.sums))))) }
{
    if 5 <= p.0 && 5 <= q.0 {
        return differences(width, differences(width, t.sums, p), q);
    }
    t.sums
}

// The same without the erasures.
pub fn eliminated_rows(width: u8, t: Trial) -> [u8; 5]
    requires { (0 < t.count) × (t.count ≤ 2) }
    ensures { (w : List ℕ) → Ready width w t → Eliminated width (places_of t) t.sums result }
{
    let p = t.places[0];
    if t.count == 1 {
        return without_one(width, t, p);
    }
    without_two(width, t, p, t.places[1])
}

// The check places that come into question beside the erasures.
pub fn candidate_checks(t: Trial, rows: [u8; 5]) -> CheckRange
    ensures { (m : ℕ) (w : List ℕ) → Ready m w t → Eliminated m (places_of t) t.sums rows → NoneOutside m w (places_of t) result.low.0 result.high.0 }
{
    let p = t.places[0];
    let q = t.places[1];
    if t.count == 1 {
        if 5 <= p.0 {
            return range_of(rows, 2);
        }
        return range_of(rows, 1);
    }
    if t.count == 2 && 5 <= p.0 && 5 <= q.0 {
        return range_of(rows, 3);
    }
    CheckRange {
        low: Place(0),
        high: Place(5),
    }
}

// Do the erasures alone tell of no codeword? So it is where a check place that is not erased is outside the range: what rules the place
// out rules out that nothing is wrong, too.
pub fn erasures_excluded(t: Trial, f: CheckRange) -> bool
    requires { t.count ≤ unknowns }
    ensures { result ≡ true → (m : ℕ) (w : List ℕ) → Ready m w t → NoneOutside m w (places_of t) f.low.0 f.high.0 → NoneAt m w (places_of t) }
{
    if 0 < f.low.0 {
        return !t.contains(Place(0));
    }
    if f.high.0 < 5 {
        return !t.contains(Place(4));
    }
    false
}
