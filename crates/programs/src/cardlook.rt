// Shows one record of a card as a mechanic wants it. The text is the show crate's; here the slot is sought, and the text is written.
ghost use Rattle.std.specs.Prelude.{◌≡◌, ◌-◌, ◌^◌, ◌≤◌, length};
ghost use Rattle.card.specs.Record.{record_size};
ghost use Rattle.show.specs.Look.{look_text};
ghost use Rattle.programs.specs.Stream.{Wrote};
ghost use Rattle.programs.specs.Seek.{FindsSlot};
ghost use Rattle.programs.specs.Look.{LooksCard, look_status};
ghost use Rattle.programs.specs.inner.Turns.{CanWrite};
ghost use Rattle.programs.specs.inner.Seeks.{SeeksSlot};

use crate::answer::{Answered, answer_from};
use crate::arguments::{Asked, Role, Takes, place_of};
use crate::files::Card;
use crate::help::{explain, run_asked};
use crate::input::Input;
use crate::message::{Program, say_wrong};
use crate::output::{Output, is_well, print_part};
use crate::seek::{Sought, number_at, say_refused, seek};
use crate::status::Status;
use card::cards::check;
use card::records::RECORD;
use card::text::Text;
use field::Question;
use show::record::put_look;

// Writes the look at the slot with the number n.
fn write_look(rt: &HostRuntime, i: Input, o: Output, n: u64, slot: &[u8]) -> Output
    requires { CanWrite o (2 ^ 16) × FindsSlot n i slot.now }
    ensures { Wrote o (length (look_text n slot.now)) result }
{
    let mut out = [0u8; 12000];
    let mut text = Text::new(&mut out);
    put_look(&mut text, n, slot);
    print_part(rt, Program::Look, o, text.as_bytes())
}

// How the look ended.
fn status_of(slot: &[u8], i: Input, o: Output) -> Status
    requires { length slot.now ≤ record_size }
    ensures { result ≡ look_status slot.now i o }
{
    if !is_well(i, o) {
        return Status::NotDone;
    }
    if slot.is_empty() {
        return Status::NotDone;
    }
    match check(slot) {
        None => Status::Done,
        Some(_) => Status::AnsweredNo,
    }
}

// Writes the look at the slot that was sought, and nothing where a read failed or the card has none.
fn answer(rt: &HostRuntime, card: &Card, n: u64, s: Sought, row: &[u8]) -> Answered
    requires { SeeksSlot (n - 1) s row.now }
    ensures { LooksCard n result }
{
    let input = s.input;
    let slot = s.slot(row);
    let o = Output::new();
    if input.failed() {
        return Answered {
            input,
            output: o,
            status: status_of(slot, input, o),
        };
    }
    if slot.is_empty() {
        say_refused(rt, card, n, Question::RecordNumber);
        return Answered {
            input,
            output: o,
            status: status_of(slot, input, o),
        };
    }
    let output = write_look(rt, input, o, n, slot);
    Answered {
        input,
        output,
        status: status_of(slot, input, output),
    }
}

// Looks at the slot with the number n of the card.
fn look_card(rt: &HostRuntime, card: &Card, n: u64) -> Answered
    requires { 1 ≤ n }
    ensures { LooksCard n result }
{
    let mut row = [0u8; RECORD];
    let sought = seek(rt, card, n - 1, &mut row);
    answer(rt, card, n, sought, &row)
}

// Looks at the record that the arguments with these roles ask for.
fn look_asked(rt: &HostRuntime, roles: &[Role]) -> Status {
    let Some(place) = place_of(roles, Role::Operand, 1) else {
        return explain(rt, Program::Look, Asked::Missing);
    };
    let Some(n) = number_at(rt, place) else {
        say_wrong(rt, Program::Look, b"N is no number of a record: ", place);
        return Status::NotDone;
    };
    answer_from(
        rt,
        Program::Look,
        place_of(roles, Role::Operand, 2),
        |card| { look_card(rt, card, n) },
    )
}

// The program.
pub fn run(rt: &HostRuntime) -> Status {
    run_asked(
        rt,
        Program::Look,
        Takes::operands(1, 2),
        |roles| look_asked(rt, roles),
    )
}
