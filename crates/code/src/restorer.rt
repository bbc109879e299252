// The restorer: the questions, a correction by one of two methods, and the word corrected. The one method finds the wrong places from the
// syndromes. Whatever places a test on some of them names, all five are looked at before there is a correction: so no test has to be right by
// itself, and what is to be shown is that the places of each near codeword are named. The other tries each choice of extra places. These
// functions are no entry points.
ghost use Rattle.std.specs.Prelude.{◌≤◌, ◌+◌, length};
ghost use Rattle.code.specs.Word.{checks, longest};
ghost use Rattle.code.specs.Near.{radius};
ghost use Rattle.code.specs.Call.{RestoresWithin};
ghost use Rattle.code.specs.Demands.{PassesWithin};
ghost use Rattle.code.specs.inner.Matrix.{unknowns};
ghost use Rattle.code.specs.inner.Correction.{places_of, Ready, Searched, NoneWithin, NoneFrom};

use crate::beside::find_beside;
use crate::erasures::{Correction, Trial};
use crate::errors::{find_pair, find_single};
use crate::solver::Solutions;
use crate::validation::ask_within;
use crate::word::Place;
use field::Question;

// How a correction is sought: the wrong places are found from the syndromes, or each choice of extra places is tried.
#[derive(Clone, Copy)]
pub enum Method {
    Syndromes,
    Trials,
}

// A correction with at most `reach` extra places.
fn find_near(width: u8, word: &[u8], t: Trial, reach: usize) -> Solutions<Correction>
    requires { (t.count ≤ unknowns) × (reach ≤ radius width t.count) × (checks ≤ length word.now) × (length word.now ≤ longest) }
    ensures { Ready width word.now t
        → Searched width word.now (places_of t) reach (NoneWithin width word.now (places_of t) reach) result }
{
    if reach == 0 {
        return t.solve(width);
    }
    if 0 < t.count {
        return find_beside(width, word, t);
    }
    if reach == 1 {
        return find_single(width, word, t);
    }
    find_pair(width, word, t)
}

// A correction with at most `left` extra places in rising order, the first of them the place `from` or a later one.
fn search(width: u8, word: &[u8], t: Trial, from: Place, left: usize) -> Solutions<Correction>
    requires { (t.count + left ≤ unknowns) × (length word.now ≤ longest) }
    ensures { Ready width word.now t
        → Searched width word.now (places_of t) left (NoneFrom width word.now (places_of t) from.0 left) result }
{
    let c = t.solve(width);
    if c.exist() || left == 0 {
        return c;
    }
    for p in from.0 as usize..word.len() {
        let place = Place(p as u8);
        if !t.contains(place) {
            let u = t.extended(width, place, word[p]);
            let d = search(width, word, u, Place((p + 1) as u8), left - 1);
            if d.exist() {
                return d;
            }
        }
    }
    Solutions::None
}

// A correction with at most `reach` extra places.
fn find_correction(
    method: Method,
    width: u8,
    word: &[u8],
    t: Trial,
    reach: u8,
) -> Solutions<Correction>
    requires { (t.count ≤ unknowns) × (reach ≤ radius width t.count) × (checks ≤ length word.now) × (length word.now ≤ longest) }
    ensures { Ready width word.now t
        → Searched width word.now (places_of t) reach (NoneWithin width word.now (places_of t) reach) result }
{
    match method {
        Method::Syndromes => find_near(width, word, t, reach as usize),
        Method::Trials => search(width, word, t, Place(0), reach as usize),
    }
}

// Question 8, and whether there is just one codeword within the reach: then it is written.
fn correct_word(
    method: Method,
    width: u8,
    word: &mut [u8],
    erasures: &[u8],
    reach: u8,
) -> Result<u8, Question>
    requires { PassesWithin width word.old erasures.now reach }
    ensures { RestoresWithin width word.old erasures.now reach result word.new }
{
    let t = Trial::of_erasures(width, word, erasures);
    if t.is_clean() {
        return Ok(0);
    }
    match find_correction(method, width, word, t, reach) {
        Solutions::None => Err(Question::Correctable),
        Solutions::One(c) => Ok(c.apply(word, erasures)),
        Solutions::Several => Err(Question::Unique),
    }
}

// All questions, and the word corrected.
pub fn restore_with(
    method: Method,
    width: u8,
    word: &mut [u8],
    erasures: &[u8],
    reach: u8,
) -> Result<u8, Question>
    ensures { RestoresWithin width word.old erasures.now reach result word.new }
{
    ask_within(width, word, erasures, reach)?;
    correct_word(method, width, word, erasures, reach)
}
