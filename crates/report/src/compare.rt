// Two day sheets of the same pump and date, the controller's and the meter cupboard's, set side by side.
ghost use Rattle.std.specs.Prelude.{◌≡◌, ◌≤◌, length};
ghost use Rattle.field.specs.Question.{accepted};
ghost use Rattle.code.specs.Demands.{occurs};
ghost use Rattle.sheet.specs.Sheet.{quarters, sheet_size};
ghost use Rattle.report.specs.Day.{sheet};
ghost use Rattle.report.specs.inner.Parts.{choice_in, PartFrom};
ghost use Rattle.report.specs.Compare.{sign_of, sheet_signs, same_day, chosen_of, compared_of, choice, Shows, TellsPart};
ghost use Rattle.report.specs.Compare.{numbers_asked, Compares, ComparesSheets, into_asked, ComparesInto};

use crate::day::{Reading, has_record, read_day, slot};
use crate::row::date_of;
use field::Question;
use sheet::{PUMP, QUARTERS};

// Whose sheet is chosen.
#[derive(Clone, Copy, PartialEq, Eq)]
pub enum Side {
    Controller,
    Cupboard,
}

// The choice; for each quarter hour 0 where the counts are equal, 1 where the controller's is higher, 2 where the cupboard's is; and how
// many quarter hours are of each kind.
#[derive(Clone, Copy)]
pub struct Comparison {
    pub choice: Side,
    pub signs: [u8; QUARTERS],
    pub equal: u8,
    pub controller: u8,
    pub cupboard: u8,
}

// The comparison, beside the slot of the chosen sheet, as it was lent.
#[derive(Clone, Copy)]
pub struct Compared<'a> {
    pub part: &'a [u8],
    pub comparison: Comparison,
}

// The choice, and how many bytes the part has that was handed back.
#[derive(Clone, Copy)]
pub struct PartTold {
    pub choice: Side,
    pub size: usize,
}

// The sign of a quarter hour.
fn sign(controller: u8, cupboard: u8) -> u8
    ensures { result ≡ sign_of controller cupboard }
{
    if cupboard < controller {
        return 1;
    }
    if controller < cupboard {
        return 2;
    }
    0
}

// The signs of all quarter hours.
fn sign_row(controller: &[u8], cupboard: &[u8]) -> [u8; QUARTERS]
    requires { (length controller.now ≡ sheet_size) × (length cupboard.now ≡ sheet_size) }
    ensures { result ≡ sheet_signs controller.now cupboard.now }
{
    let mut signs = [0u8; QUARTERS];
    for i in 0..QUARTERS {
        signs[i] = sign(controller[i], cupboard[i]);
    }
    signs
}

// How often the sign s stands there.
fn count(signs: &[u8], s: u8) -> u8
    requires { length signs.now ≤ quarters }
    ensures { result ≡ occurs s signs.now }
{
    let mut n = 0;
    for x in signs {
        if *x == s {
            n += 1;
        }
    }
    n
}

// Are pump and date the same?
fn same_day(a: &[u8], b: &[u8]) -> bool
    requires { (length a.now ≡ sheet_size) × (length b.now ≡ sheet_size) }
    ensures { result ≡ same_day a.now b.now }
{
    date_of(a) == date_of(b) && a[PUMP] == b[PUMP]
}

// The one with fewer changed places; where both have as many, the controller's.
fn choose(controller: u8, cupboard: u8) -> Side
    ensures { choice result ≡ accepted (chosen_of controller cupboard) }
{
    if controller <= cupboard {
        Side::Controller
    } else {
        Side::Cupboard
    }
}

// Two sheets.
fn side_by_side(a: Reading, b: Reading) -> Result<Comparison, Question>
    ensures { Shows (compared_of (sheet a.changed a.symbols) (sheet b.changed b.symbols)) a.symbols b.symbols result }
{
    if !same_day(&a.symbols, &b.symbols) {
        return Err(Question::SameDay);
    }
    let signs = sign_row(&a.symbols, &b.symbols);
    Ok(Comparison {
        choice: choose(a.changed, b.changed),
        signs,
        equal: count(&signs, 0),
        controller: count(&signs, 1),
        cupboard: count(&signs, 2),
    })
}

// Is each number that of a record of its card?
pub fn ask_numbers<'a>(
    controller: &'a [u8],
    i: usize,
    cupboard: &'a [u8],
    j: usize,
) -> Result<(), Question>
    ensures { result ≡ numbers_asked controller.now i cupboard.now j }
{
    if has_record(controller, i) && has_record(cupboard, j) {
        Ok(())
    } else {
        Err(Question::RecordNumber)
    }
}

// Compares record i of the controller's card and record j of the cupboard's, each restored in a copy and read as a day sheet. The controller's
// refusal comes first.
pub fn compare<'a>(
    controller: &'a [u8],
    i: usize,
    cupboard: &'a [u8],
    j: usize,
) -> Result<Comparison, Question>
    ensures { Compares controller.now i cupboard.now j result }
{
    ask_numbers(controller, i, cupboard, j)?;
    let a = read_day(slot(controller, i))?;
    let b = read_day(slot(cupboard, j))?;
    side_by_side(a, b)
}

// The slot of the sheet that a comparison chooses; nothing on a refusal.
pub fn chosen_part<'a>(
    controller: &'a [u8],
    i: usize,
    cupboard: &'a [u8],
    j: usize,
    side: Result<Side, Question>,
) -> &'a [u8]
    ensures { PartFrom (choice_in side) controller.entry i cupboard.entry j result }
{
    match side {
        Ok(Side::Controller) => slot(controller, i),
        Ok(Side::Cupboard) => slot(cupboard, j),
        Err(_) => &controller[..0],
    }
}

// Compares the two records, and hands back the chosen one's part of its card, as it was lent.
pub fn compare_sheets<'a>(
    controller: &'a [u8],
    i: usize,
    cupboard: &'a [u8],
    j: usize,
) -> Result<Compared<'a>, Question>
    ensures { ComparesSheets controller.entry i cupboard.entry j result }
{
    let comparison = compare(controller, i, cupboard, j)?;
    let part = chosen_part(controller, i, cupboard, j, Ok(comparison.choice));
    Ok(Compared { part, comparison })
}

// compare_sheets for a caller that can be handed no part of a card: the choice, and how many bytes the chosen part has.
pub fn compare_part<'a>(
    controller: &'a [u8],
    i: usize,
    cupboard: &'a [u8],
    j: usize,
) -> Result<PartTold, Question>
    ensures { TellsPart controller.now i cupboard.now j result }
{
    let compared = compare_sheets(controller, i, cupboard, j)?;
    Ok(PartTold {
        choice: compared.comparison.choice,
        size: compared.part.len(),
    })
}

// Is each number that of a record of its card, and have the lent signs, m of them, their exact length?
fn ask_into<'a>(
    controller: &'a [u8],
    i: usize,
    cupboard: &'a [u8],
    j: usize,
    m: usize,
) -> Result<(), Question>
    ensures { result ≡ into_asked controller.now i cupboard.now j m }
{
    ask_numbers(controller, i, cupboard, j)?;
    if m == QUARTERS {
        Ok(())
    } else {
        Err(Question::Length)
    }
}

// Compares the two records, and writes the signs into a lent row.
pub fn compare_into<'a>(
    controller: &'a [u8],
    i: usize,
    cupboard: &'a [u8],
    j: usize,
    signs: &mut [u8],
) -> Result<Comparison, Question>
    ensures { ComparesInto controller.now i cupboard.now j signs.old result signs.new }
{
    ask_into(controller, i, cupboard, j, signs.len())?;
    let c = compare(controller, i, cupboard, j)?;
    signs.copy_from_slice(&c.signs);
    Ok(c)
}
