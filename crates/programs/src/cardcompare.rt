// Compares two day sheets of one pump and date, one of each of two cards. The text is the show crate's; here the slots are sought, and the
// text is written, or a refusal said.
ghost use Rattle.std.specs.Prelude.{◌≡◌, cond, ◌-◌, ◌≤◌};
ghost use Rattle.code.specs.Call.{repair};
ghost use Rattle.field.specs.Question.{refused, refusal};
ghost use Rattle.report.specs.Compare.{choice};
ghost use Rattle.show.specs.inner.Comparison.{AcceptedSlots};
ghost use Rattle.programs.specs.declared.status.Status.TheVariants.{NotDone};
ghost use Rattle.programs.specs.Seek.{FindsSlot};
ghost use Rattle.programs.specs.Compare.{sheet_answer, said_by, said, both_read, compared_status, ComparesCards};
ghost use Rattle.programs.specs.inner.Seeks.{SeeksSlot};
ghost use Rattle.programs.specs.inner.Compares.{WritesAccepted};

use crate::answer::say_ended;
use crate::arguments::{Asked, Role, Takes, argument, is_standard, place_of};
use crate::files::{Card, buffer, close_output, open_card};
use crate::help::{explain, run_asked};
use crate::input::Input;
use crate::message::{Program, ok_or_said, say_wrong};
use crate::output::{Output, print_part};
use crate::seek::{Sought, number_at, say_refused, seek};
use crate::status::Status;
use crate::stream::{Stream, check_open};
use card::records::RECORD;
use card::text::Text;
use field::Question;
use report::compare::{Comparison, compare};
use report::day::read_day;
use sheet::QUARTERS;
use show::comparison::{COMPARISON_TEXT, put_comparison};

// Whose record a message names, with the question that was answered no.
#[derive(Clone, Copy)]
pub enum Refusal {
    Nobody,
    Controller(Question),
    Cupboard(Question),
}

// What was read of both cards and written, how the comparison ended, and what is to be said.
#[derive(Clone, Copy)]
pub struct CardsCompared {
    pub controller: Input,
    pub cupboard: Input,
    pub output: Output,
    pub status: Status,
    pub refusal: Refusal,
}

// What the record in the slot answers by itself, read as a day sheet. An empty slot is none.
fn answer_of(slot: &[u8]) -> Result<u8, Question>
    ensures { repair result ≡ sheet_answer slot.now }
{
    if slot.is_empty() {
        return Err(Question::RecordNumber);
    }
    let reading = read_day(slot)?;
    Ok(reading.changed)
}

// The refusal to say where the comparison is refused with q: the controller's record is asked first, by itself, then the cupboard's, and then
// whether they can be compared. The refusal of two day sheets names the cupboard's.
fn refusal_of(a: &[u8], b: &[u8], q: Question) -> Refusal
    ensures { said result ≡ said_by (sheet_answer a.now) (sheet_answer b.now) (refused (refusal q)) }
{
    match answer_of(a) {
        Err(own) => Refusal::Controller(own),
        Ok(_) => match answer_of(b) {
            Err(own) => Refusal::Cupboard(own),
            Ok(_) => Refusal::Cupboard(q),
        },
    }
}

// How the comparison ended, where no read failed.
fn status_of(x: Comparison, o: Output) -> Status
    ensures { result ≡ cond o.ok (compared_status (choice x.choice) x.equal) NotDone }
{
    if !o.ok() {
        return Status::NotDone;
    }
    if x.equal as usize == QUARTERS {
        Status::Done
    } else {
        Status::AnsweredNo
    }
}

// Has no read of either card failed?
fn both_read(i: Input, j: Input) -> bool
    ensures { result ≡ both_read i j }
{
    !i.failed() && !j.failed()
}

// Writes the comparison x of slot a with the number n, of the card read as i, and slot b with the number m, of that read as j.
fn write_comparison<'a>(
    rt: &HostRuntime,
    i: Input,
    n: u64,
    a: &'a [u8],
    j: Input,
    m: u64,
    b: &'a [u8],
    x: Comparison,
) -> Output
    requires { FindsSlot n i a.now × FindsSlot m j b.now × AcceptedSlots a.now b.now x }
    ensures { WritesAccepted a.now b.now result }
{
    let mut out = [0u8; COMPARISON_TEXT];
    let mut text = Text::new(&mut out);
    put_comparison(&mut text, x, a, b);
    print_part(rt, Program::Compare, Output::new(), text.as_bytes())
}

// Compares the slots that were sought; nothing where a read failed.
fn answer<'a>(
    rt: &HostRuntime,
    n: u64,
    s: Sought,
    row: &'a [u8],
    m: u64,
    t: Sought,
    other: &'a [u8],
) -> CardsCompared
    requires { SeeksSlot (n - 1) s row.now × SeeksSlot (m - 1) t other.now }
    ensures { ComparesCards n m result }
{
    let controller = s.input;
    let cupboard = t.input;
    if !both_read(controller, cupboard) {
        return CardsCompared {
            controller,
            cupboard,
            output: Output::new(),
            status: Status::NotDone,
            refusal: Refusal::Nobody,
        };
    }
    let a = s.slot(row);
    let b = t.slot(other);
    match compare(a, 1, b, 1) {
        Ok(x) => {
            let output = write_comparison(rt, controller, n, a, cupboard, m, b, x);
            CardsCompared {
                controller,
                cupboard,
                output,
                status: status_of(x, output),
                refusal: Refusal::Nobody,
            }
        }
        Err(q) => CardsCompared {
            controller,
            cupboard,
            output: Output::new(),
            status: Status::NotDone,
            refusal: refusal_of(a, b, q),
        },
    }
}

// Compares the slot with the number n of the controller's card and that with the number m of the cupboard's.
fn compare_cards(rt: &HostRuntime, card: &Card, n: u64, other: &Card, m: u64) -> CardsCompared
    requires { (1 ≤ n) × (1 ≤ m) }
    ensures { ComparesCards n m result }
{
    let mut row = [0u8; RECORD];
    let s = seek(rt, card, n - 1, &mut row);
    let mut other_row = [0u8; RECORD];
    let t = seek(rt, other, m - 1, &mut other_row);
    answer(rt, n, s, &row, m, t, &other_row)
}

// Says what is to be said of record n of the controller's card and m of the cupboard's, and closes the output.
fn end_comparing(
    rt: &HostRuntime,
    c: CardsCompared,
    card: &Card,
    n: u64,
    other: &Card,
    m: u64,
) -> Status {
    match c.refusal {
        Refusal::Nobody => {}
        Refusal::Controller(q) => say_refused(rt, card, n, q),
        Refusal::Cupboard(q) => say_refused(rt, other, m, q),
    }
    say_ended(rt, c.controller, card);
    say_ended(rt, c.cupboard, other);
    close_output(rt, Program::Compare, c.status)
}

// Compares the slots with the numbers n and m of the cards that the arguments `place` and `other_place` name.
fn compare_named(rt: &HostRuntime, n: u64, place: usize, m: u64, other_place: usize) -> Status
    requires { (1 ≤ n) × (1 ≤ m) }
{
    let mut name = buffer();
    let Some(card) = open_card(rt, Program::Compare, Some(place), &mut name) else {
        return Status::NotDone;
    };
    let mut other_name = buffer();
    let Some(other) = open_card(rt, Program::Compare, Some(other_place), &mut other_name) else {
        return Status::NotDone;
    };
    let compared = compare_cards(rt, &card, n, &other, m);
    end_comparing(rt, compared, &card, n, &other, m)
}

// Is argument `place` a hyphen, which names standard input? A name of more than 16 bytes is none.
fn is_hyphen(rt: &HostRuntime, place: usize) -> bool {
    is_standard(Some(place), argument(rt, place, &mut [0; 16]))
}

// Is standard input open, as far as that can be asked? Where it is closed, a file that is opened gets its descriptor, and would be read in its
// place.
fn has_input(rt: &HostRuntime) -> bool {
    let open = check_open(rt, &Stream::StandardInput);
    ok_or_said(rt, Program::Compare, b"standard input", open).is_some()
}

// Compares slot n of one card and slot m of another, unless both are standard input.
fn compare_places(rt: &HostRuntime, n: u64, place: usize, m: u64, other_place: usize) -> Status
    requires { (1 ≤ n) × (1 ≤ m) }
{
    let first = is_hyphen(rt, place);
    let second = is_hyphen(rt, other_place);
    if first && second {
        return explain(rt, Program::Compare, Asked::Wrong(other_place));
    }
    if (first || second) && !has_input(rt) {
        return Status::NotDone;
    }
    compare_named(rt, n, place, m, other_place)
}

// Compares the records that the arguments with these roles ask for.
fn compare_asked(rt: &HostRuntime, roles: &[Role]) -> Status {
    let operand = |n| place_of(roles, Role::Operand, n);
    let (Some(first), Some(second), Some(third), Some(fourth)) = (
        operand(1),
        operand(2),
        operand(3),
        operand(4),
    ) else {
        return explain(rt, Program::Compare, Asked::Missing);
    };
    let Some(n) = number_at(rt, first) else {
        say_wrong(rt, Program::Compare, b"N is no number of a record: ", first);
        return Status::NotDone;
    };
    let Some(m) = number_at(rt, third) else {
        say_wrong(rt, Program::Compare, b"M is no number of a record: ", third);
        return Status::NotDone;
    };
    compare_places(rt, n, second, m, fourth)
}

// The program.
pub fn run(rt: &HostRuntime) -> Status {
    run_asked(
        rt,
        Program::Compare,
        Takes::operands(4, 4),
        |roles| compare_asked(rt, roles),
    )
}
