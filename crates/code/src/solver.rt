// A solver of linear systems over the field: Gauss-Jordan elimination with a search for each pivot. These functions are no entry points:
// each is safe on all bytes, and says what it gives for symbols at a width of the field.
ghost use Rattle.std.specs.Prelude.{◌≡◌, true, MatchOption, ◌≤◌, ◌<◌, take};
ghost use Rattle.field.specs.Polynomial.{add};
ghost use Rattle.field.specs.Field.{product};
ghost use Rattle.field.specs.Question.{is_width};
ghost use Rattle.field.specs.inner.Operand.{Operand};
ghost use Rattle.field.specs.inner.Lanes.{Below, Multiples};
ghost use Rattle.code.specs.Word.{at};
ghost use Rattle.code.specs.inner.Matrix.{rows, unknowns, columns, Matrix, Operands, row_add, scale, Cleared, swapped, Pivot, column_of, Means, is_solved, OrElse};

use field::arithmetic::{invert, multiply};
use field::row::{add_multiple, multiples};

// The shape of a matrix: a row for each equation, with the right-hand side in column 0 and then a column for each unknown. Two columns more
// make a row eight bytes long, which is one number.
pub const ROWS: usize = 5;

pub const UNKNOWNS: usize = 5;

pub const COLUMNS: usize = 8;

// The solutions of a system, or the codewords that a search finds: none, the one, or several, of which none is told.
#[derive(Clone, Copy)]
pub enum Solutions<T> {
    None,
    One(T),
    Several,
}

impl<T> Solutions<T> {
    // Is there one, or are there several?
    pub fn exist(&self) -> bool
        ensures { result ≡ is_solved self.now }
    {
        !matches!(self, Solutions::None)
    }

    // What is found next, if nothing is found here.
    pub fn or_else<F: FnOnce() -> Solutions<T>>(self, next: F) -> Solutions<T>
        requires { F.IsAlwaysCallable next }
        ensures { OrElse self (F.post next) result }
    {
        match self {
            Solutions::None => next(),
            found => found,
        }
    }
}

// x with k times y added; a product with 0 is not made.
fn add_product(width: u8, x: u8, k: u8, y: u8) -> u8
    ensures { Operand width k → Operand width y → result ≡ add x (product width k y) }
{
    if y == 0 {
        return x;
    }
    x ^ multiply(width, k, y)
}

// The row with k times the row `by` added, product by product.
fn add_products(width: u8, row: [u8; COLUMNS], k: u8, by: [u8; COLUMNS]) -> [u8; COLUMNS]
    ensures { Operand width k → Operands width by → result ≡ row_add width row k by }
{
    let mut out = row;
    for j in 0..COLUMNS {
        out[j] = add_product(width, row[j], k, by[j]);
    }
    out
}

// The row with k times the row `by` added: at width 7 from the multiples of that row.
fn add_row(width: u8, row: [u8; COLUMNS], k: u8, by: [u8; COLUMNS], ms: [u64; 7]) -> [u8; COLUMNS]
    ensures { Operand width k → Operands width by → (width ≡ 7 → Below 128 8 (at by) → Multiples (at by) ms)
        → result ≡ row_add width row k by }
{
    if width == 7 {
        return add_multiple(row, k, ms);
    }
    add_products(width, row, k, by)
}

// The same for a row of which no multiples are given.
pub fn add_times(width: u8, row: [u8; COLUMNS], k: u8, by: [u8; COLUMNS]) -> [u8; COLUMNS]
    ensures { Operand width k → Operands width by → result ≡ row_add width row k by }
{
    if width == 7 {
        return add_multiple(row, k, multiples(by));
    }
    add_products(width, row, k, by)
}

// k times the row.
fn scale_row(width: u8, k: u8, row: [u8; COLUMNS]) -> [u8; COLUMNS]
    ensures { Operand width k → Operands width row → result ≡ scale width k row }
{
    add_times(width, [0; COLUMNS], k, row)
}

// Column c becomes 1 in row p, whose symbol there is not 0, and 0 in every other row.
fn clear_column(width: u8, a: [[u8; COLUMNS]; ROWS], c: usize, p: usize) -> [[u8; COLUMNS]; ROWS]
    requires { (c < columns) × (p < rows) }
    ensures { is_width width ≡ true → Matrix width a → Cleared width a c p result }
{
    let pivot = a[p];
    let k = invert(width, pivot[c]);
    let unit = scale_row(width, k, pivot);
    let ms = multiples(unit);
    let mut out = a;
    for i in 0..ROWS {
        let row = a[i];
        out[i] = add_row(width, row, row[c], unit, ms);
    }
    out[p] = unit;
    out
}

// The first row, from row r on, whose symbol in column c is not 0.
fn find_pivot(a: [[u8; COLUMNS]; ROWS], c: usize, r: usize) -> Option<usize>
    requires { (c < columns) × (r ≤ rows) }
    ensures { MatchOption result (Pivot a c r rows) (λ p. (p < rows) × Pivot a c r p) }
{
    for p in r..ROWS {
        if a[p][c] != 0 {
            return Some(p);
        }
    }
    None
}

// The matrix with rows i and p exchanged.
fn swap_rows(a: [[u8; COLUMNS]; ROWS], i: usize, p: usize) -> [[u8; COLUMNS]; ROWS]
    requires { (i < rows) × (p < rows) }
    ensures { result ≡ swapped a i p }
{
    let mut out = a;
    out.swap(i, p);
    out
}

// The right-hand sides of as many rows as there can be unknowns: at the end of the elimination, the values of the unknowns.
fn first_column(a: [[u8; COLUMNS]; ROWS]) -> [u8; UNKNOWNS]
    ensures { result ≡ take unknowns (column_of a 0) }
{
    let mut out = [0; UNKNOWNS];
    for i in 0..UNKNOWNS {
        out[i] = a[i][0];
    }
    out
}

// Solves the system a in its first s unknowns. Column after column, a row from row r on whose symbol there is not 0 becomes row r, and the
// column is cleared from all the others; a column with no such row is passed over. At the end the rows from r on have no unknown, so that
// their right-hand sides have to be 0, and a column that was passed over leaves its unknown free. The values of the one solution are the first
// s of those given.
pub fn solve(width: u8, a: [[u8; COLUMNS]; ROWS], s: usize) -> Solutions<[u8; UNKNOWNS]>
    requires { s ≤ unknowns }
    ensures { is_width width ≡ true → Matrix width a → Means width result a s }
{
    let mut t = a;
    let mut r = 0;
    for c in 0..s {
        if let Some(p) = find_pivot(t, c + 1, r) {
            t = clear_column(width, swap_rows(t, r, p), c + 1, r);
            r += 1;
        }
    }
    if find_pivot(t, 0, r).is_some() {
        return Solutions::None;
    }
    if r < s {
        return Solutions::Several;
    }
    Solutions::One(first_column(t))
}
