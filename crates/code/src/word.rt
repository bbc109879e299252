// A word: its places, each with a column and, where it holds data, an exponent of α; its syndromes, and the codeword of some data. `Place` and
// `copy` serve the crates above too.
ghost use Rattle.std.specs.Prelude.{◌≡◌, ◌≢◌, true, ◌+◌, ◌*◌, ◌≤◌, ◌<◌, ◌-◌, length};
ghost use Rattle.field.specs.Field.{order, product};
ghost use Rattle.field.specs.Question.{is_width, all_below};
ghost use Rattle.field.specs.Polynomial.{add};
ghost use Rattle.code.specs.Word.{five, checks, places, longest, at, syndrome, items, encode as encodeM};
ghost use Rattle.code.specs.inner.Place.{exponent_of, place_of, multiple_of, column as columnM};

use field::Exponent;
use field::arithmetic::{multiply, raise, ratio_exponent};
use field::parity::parities;
use field::table::{power_of_alpha, powers_from};

// Place 0 to 4 holds a check symbol, place 5 + i the data symbol i.
#[derive(Clone, Copy, PartialEq, Eq)]
pub struct Place(pub u8);

// The exponent i of place 5 + i.
fn exponent_of(p: Place) -> Exponent
    requires { 5 ≤ p.0 }
    ensures { result ≡ exponent_of p }
{
    Exponent(u16::from(p.0 - 5))
}

// The place 5 + i of the exponent i, the other way.
pub(crate) fn place_of(e: Exponent) -> Place
    requires { e.0 + 5 < 256 }
    ensures { result ≡ place_of e }
{
    Place((e.0 + 5) as u8)
}

// The exponent k times e.
fn multiple(k: u8, e: Exponent) -> Exponent
    requires { k * e.0 < 65536 }
    ensures { result ≡ multiple_of k e }
{
    Exponent(u16::from(k) * e.0)
}

// Row k of the column at place p.
pub(crate) fn column(width: u8, p: Place, k: u8) -> u8
    ensures { is_width width ≡ true → result ≡ columnM width p.0 k }
{
    if p.0 < 5 {
        return u8::from(p.0 == k);
    }
    raise(width, 2, multiple(k, exponent_of(p)))
}

// The point of the data place p, which is row 1 of its column: at width 7 a read of the table of powers.
pub(crate) fn point(width: u8, p: Place) -> u8
    requires { 5 ≤ p.0 }
    ensures { is_width width ≡ true → result ≡ columnM width p.0 1 }
{
    if width == 7 {
        return power_of_alpha(exponent_of(p));
    }
    column(width, p, 1)
}

// x times the column at the data place p: row after row a product with the point.
fn point_times(width: u8, p: Place, x: u8) -> [u8; 5]
    requires { 5 ≤ p.0 }
    ensures { is_width width ≡ true → x < order width → result ≡ five (λ k. product width (columnM width p.0 k) x) }
{
    let a = point(width, p);
    let b = multiply(width, a, x);
    let c = multiply(width, a, b);
    let d = multiply(width, a, c);
    let e = multiply(width, a, d);
    [x, b, c, d, e]
}

// The column at place p whole: at width 7 a data place takes one read of the table of powers.
pub(crate) fn whole_column(width: u8, p: Place) -> [u8; 5]
    ensures { is_width width ≡ true → result ≡ five (columnM width p.0) }
{
    if p.0 < 5 {
        return [
            column(width, p, 0),
            column(width, p, 1),
            column(width, p, 2),
            column(width, p, 3),
            column(width, p, 4),
        ];
    }
    if width == 7 && p.0 < 132 {
        return powers_from(Exponent(0), exponent_of(p));
    }
    point_times(width, p, 1)
}

// Row k of the column at place p, times x.
pub(crate) fn entry_times(width: u8, p: Place, k: u8, x: u8) -> u8
    ensures { is_width width ≡ true → x < order width → result ≡ product width (columnM width p.0 k) x }
{
    multiply(width, column(width, p, k), x)
}

// The column at place p, times x, entry by entry.
fn entries_times(width: u8, p: Place, x: u8) -> [u8; 5]
    ensures { is_width width ≡ true → x < order width → result ≡ five (λ k. product width (columnM width p.0 k) x) }
{
    let a = entry_times(width, p, 0, x);
    let b = entry_times(width, p, 1, x);
    let c = entry_times(width, p, 2, x);
    let d = entry_times(width, p, 3, x);
    let e = entry_times(width, p, 4, x);
    [a, b, c, d, e]
}

// x times the column at the data place p at width 7, x not 0: row after row the exponent grows by that of the place.
fn powers_times(p: Place, x: u8) -> [u8; 5]
    requires { (5 ≤ p.0) × (p.0 < 132) }
    ensures { x < 128 → x ≢ 0 → result ≡ five (λ k. product 7 (columnM 7 p.0 k) x) }
{
    powers_from(ratio_exponent(1, x), exponent_of(p))
}

// The column at place p, times x.
fn column_times(width: u8, p: Place, x: u8) -> [u8; 5]
    ensures { is_width width ≡ true → x < order width → result ≡ five (λ k. product width (columnM width p.0 k) x) }
{
    if p.0 < 5 {
        return entries_times(width, p, x);
    }
    if width == 7 && p.0 < 132 && x != 0 {
        return powers_times(p, x);
    }
    point_times(width, p, x)
}

// The five syndromes of a word.
pub(crate) fn word_syndromes(width: u8, word: &[u8]) -> [u8; 5]
    requires { checks ≤ length word.now }
    ensures { is_width width ≡ true → length word.now ≡ places width → all_below (order width) word.now ≡ true
        → result ≡ five (syndrome width (at word.now)) }
{
    let c = parities(width, &word[5..]);
    [
        word[0] ^ c[0],
        word[1] ^ c[1],
        word[2] ^ c[2],
        word[3] ^ c[3],
        word[4] ^ c[4],
    ]
}

// The syndromes without the symbol x at place p.
pub(crate) fn masked(width: u8, sums: [u8; 5], p: Place, x: u8) -> [u8; 5]
    ensures { is_width width ≡ true → x < order width
        → result ≡ five (λ k. add (at sums k) (product width (columnM width p.0 k) x)) }
{
    let c = column_times(width, p, x);
    [
        sums[0] ^ c[0],
        sums[1] ^ c[1],
        sums[2] ^ c[2],
        sums[3] ^ c[3],
        sums[4] ^ c[4],
    ]
}

// Copies between lent slices of the same length. No entry point: its callers come here with lengths that agree. Nothing tells a compiler that
// slices lent by C lie apart, so that `copy_from_slice` would be a call of memmove, which an archive for C needs for nothing else.
pub fn copy(to: &mut [u8], from: &[u8])
    requires { length to.old ≡ length from.now }
    ensures { to.new ≡ from.now }
{
    for i in 0..from.len() {
        to[i] = from[i];
    }
}

// Writes the codeword of the data: the check symbols, then the data.
pub(crate) fn write_codeword(width: u8, message: &[u8], word: &mut [u8])
    requires { length word.old ≡ checks + length message.now }
    ensures { is_width width ≡ true → length message.now ≡ items width → all_below (order width) message.now ≡ true
        → word.new ≡ encodeM width message.now }
{
    let c = parities(width, message);
    copy(&mut word[..5], &c);
    copy(&mut word[5..], message);
}

// The number of data symbols of a word.
pub(crate) fn items_of(word: &[u8]) -> u16
    requires { (checks ≤ length word.now) × (length word.now ≤ longest) }
    ensures { (result ≡ length word.now - checks) × (result < 128) }
{
    (word.len() - 5) as u16
}
