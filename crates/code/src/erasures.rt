// A trial: places that are taken as erased, and the syndromes of the word without the symbols there. Its linear system gives a correction, the
// symbols that belong at the places, which is written into the word. These functions are no entry points.
ghost use Rattle.std.specs.Prelude.{◌≡◌, true, false, cond, List, ◌∷◌, [], ◌++◌, ℕ, ◌+◌, ◌≤◌, ◌<◌, length, take};
ghost use Rattle.field.specs.Question.{is_width, all_below};
ghost use Rattle.code.specs.Word.{places, longest, at};
ghost use Rattle.code.specs.Erasure.{member, syndromes_without, distinct, differ, changes_below};
ghost use Rattle.code.specs.Call.{all_zero};
ghost use Rattle.code.specs.inner.Place.{numbers};
ghost use Rattle.code.specs.inner.Matrix.{unknowns, rows, column_of};
ghost use Rattle.code.specs.inner.Correction.{Lent, places_of, Ready, Workable, SystemColumns, SystemMatrix};
ghost use Rattle.code.specs.inner.Correction.{corrected_places, corrected, NoneAt, Searched};

use crate::solver::{COLUMNS, ROWS, Solutions, UNKNOWNS, solve};
use crate::validation::all_zero;
use crate::word::{Place, masked, whole_column, word_syndromes};

// Room for as many places as the solver has unknowns.
pub type Places = [Place; UNKNOWNS];

// The places with p in front.
fn prepended(places: &[Place], p: Place) -> Places
    requires { length places.now < unknowns }
    ensures { take (length places.now + 1) (numbers result) ≡ p.0 ∷ numbers places.now }
{
    let mut out = [p; UNKNOWNS];
    out[1..places.len() + 1].copy_from_slice(places);
    out
}

// The word, copied to the front of an array that has room for the longest.
fn copied(word: &[u8]) -> [u8; 132]
    requires { length word.now ≤ longest }
    ensures { take (length word.now) result ≡ word.now }
{
    let mut out = [0; 132];
    out[..word.len()].copy_from_slice(word);
    out
}

// The five syndromes of the word without the symbols at the erasures: zeros take their place.
fn masked_sums(width: u8, word: &[u8], erasures: &[u8]) -> [u8; 5]
    requires { Workable word.now erasures.now }
    ensures { is_width width ≡ true → Lent width word.now erasures.now → result ≡ syndromes_without width erasures.now word.now }
{
    let mut row = copied(word);
    for p in erasures {
        row[*p as usize] = 0;
    }
    word_syndromes(width, &row[..word.len()])
}

// The erasures, which are lent as bytes, made places.
fn row_of_places(erasures: &[u8]) -> Places
    requires { length erasures.now ≤ unknowns }
    ensures { take (length erasures.now) (numbers result) ≡ erasures.now }
{
    let mut out = [Place(0); UNKNOWNS];
    for (i, erasure) in erasures.iter().enumerate() {
        out[i] = Place(*erasure);
    }
    out
}

// The columns at the places, then zeros.
fn columns_of(width: u8, places: &[Place]) -> [[u8; ROWS]; UNKNOWNS]
    requires { length places.now ≤ unknowns }
    ensures { SystemColumns width (numbers places.now) result }
{
    let mut columns = [[0; ROWS]; UNKNOWNS];
    for (j, place) in places.iter().enumerate() {
        columns[j] = whole_column(width, *place);
    }
    columns
}

// The row with a right-hand side, row k of the columns, and zeros.
fn row_at(sum: u8, columns: [[u8; ROWS]; UNKNOWNS], k: usize) -> [u8; COLUMNS]
    requires { k < rows }
    ensures { result ≡ sum ∷ column_of columns k ++ 0 ∷ 0 ∷ [] }
{
    [
        sum,
        columns[0][k],
        columns[1][k],
        columns[2][k],
        columns[3][k],
        columns[4][k],
        0,
        0,
    ]
}

// Places taken as erased, the first `count` of them, and the five syndromes of the other places.
#[derive(Clone, Copy)]
pub struct Trial {
    pub places: Places,
    pub count: usize,
    pub sums: [u8; 5],
}

impl Trial {
    // The trial of the erasures alone.
    pub fn of_erasures(width: u8, word: &[u8], erasures: &[u8]) -> Trial
        requires { Workable word.now erasures.now }
        ensures { (result.count ≡ length erasures.now)
            × (places_of result ≡ erasures.now)
            × (is_width width ≡ true → Lent width word.now erasures.now → Ready width word.now result) }
    {
        let places = row_of_places(erasures);
        let sums = if erasures.is_empty() {
            word_syndromes(width, word)
        } else {
            masked_sums(width, word, erasures)
        };
        Trial {
            places,
            count: erasures.len(),
            sums,
        }
    }

    // The trial with one more place p, where the word holds x.
    pub fn extended(self, width: u8, p: Place, x: u8) -> Trial
        requires { self.count < unknowns }
        ensures { (result.count ≡ self.count + 1)
            × ((w : List ℕ) → Ready width w self → p.0 < places width → member p.0 (places_of self) ≡ false → x ≡ at w p.0 → (places_of result ≡ p.0 ∷ places_of self) × Ready width w result) }
    {
        let places = prepended(&self.places[..self.count], p);
        let sums = masked(width, self.sums, p, x);
        Trial {
            places,
            count: self.count + 1,
            sums,
        }
    }

    // Is p one of the places?
    pub fn contains(self, p: Place) -> bool
        requires { self.count ≤ unknowns }
        ensures { result ≡ member p.0 (places_of self) }
    {
        self.places[..self.count].contains(&p)
    }

    // Are there no places, and are the syndromes zero? Then the word is a codeword.
    pub fn is_clean(self) -> bool
        ensures { result ≡ true → (self.count ≡ 0) × (all_zero self.sums ≡ true) }
    {
        self.count == 0 && all_zero(&self.sums)
    }

    // The system: the columns at the places, and the syndromes on the right.
    fn matrix(self, width: u8) -> [[u8; COLUMNS]; ROWS]
        requires { self.count ≤ unknowns }
        ensures { SystemMatrix width (numbers self.places) self.count self.sums result }
    {
        let columns = columns_of(width, &self.places[..self.count]);
        [
            row_at(self.sums[0], columns, 0),
            row_at(self.sums[1], columns, 1),
            row_at(self.sums[2], columns, 2),
            row_at(self.sums[3], columns, 3),
            row_at(self.sums[4], columns, 4),
        ]
    }

    // The codeword that agrees with the word outside the places, if there is just one.
    pub fn solve(self, width: u8) -> Solutions<Correction>
        requires { self.count ≤ unknowns }
        ensures { (w : List ℕ) → Ready width w self → Searched width w (places_of self) 0 (NoneAt width w (places_of self)) result }
    {
        let places = self.places;
        let count = self.count;
        match solve(width, self.matrix(width), count) {
            Solutions::None => Solutions::None,
            Solutions::One(values) => Solutions::One(Correction {
                count,
                places,
                values,
            }),
            Solutions::Several => Solutions::Several,
        }
    }
}

// 1 where the symbols at place p differ and p is not erased, else 0.
fn change_at(erasures: &[u8], p: Place, x: u8, y: u8) -> u8
    ensures { result ≡ cond (member p.0 erasures.now) 0 (differ x y) }
{
    u8::from(x != y && !erasures.contains(&p.0))
}

// The symbols that belong at the first `count` places.
#[derive(Clone, Copy)]
pub struct Correction {
    pub count: usize,
    pub places: Places,
    pub values: [u8; UNKNOWNS],
}

impl Correction {
    // Writes the corrected word, at the places of the correction alone, and counts the changes outside the erasures.
    pub fn apply(self, word: &mut [u8], erasures: &[u8]) -> u8
        requires { (self.count ≤ unknowns) × (length word.old ≤ longest) × (all_below (length word.old) (corrected_places self) ≡ true)
            × (distinct (corrected_places self) ≡ true) }
        ensures { (word.new ≡ corrected word.old self)
            × (result ≡ changes_below (length word.old) erasures.now word.old (corrected word.old self)) }
    {
        let mut k: u8 = 0;
        for i in (0..self.count).rev() {
            let place = self.places[i];
            let p = place.0 as usize;
            let old = word[p];
            k += change_at(erasures, place, old, self.values[i]);
            word[p] = self.values[i];
        }
        k
    }
}
