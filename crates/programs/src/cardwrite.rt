// Makes a card of day sheets from CSV: a clean record of width 7 for each line below the header. What a text stands for, and its records, are
// the csv crate's. An input that can be read twice is, first to ask all lines, so that a text that is refused leaves nothing.
ghost use Rattle.std.specs.Prelude.{◌≡◌, true};
ghost use Rattle.programs.specs.Write.{TakesText, all_taken, EndsWriting};

use crate::arguments::{Role, Takes, place_of};
use crate::files::{Card, Target, buffer, discard, open_card, open_target, publish};
use crate::help::run_asked;
use crate::intake::{Taken, goes_on, take_text};
use crate::message::{Program, ok_or_said, say, say_decimal, say_name};
use crate::status::{Status, done_where};
use crate::stream::{place, return_to};
use card_csv::{Fault, TextFault};

// Says which line is refused.
fn say_line(rt: &HostRuntime, file: &[u8], line: u64) {
    say_name(rt, Program::Write);
    say(rt, file);
    say(rt, b": line ");
    say_decimal(rt, line);
}

// Says what is wrong with a line.
fn say_fault(rt: &HostRuntime, file: &[u8], line: u64, fault: Fault) {
    say_line(rt, file, line);
    match fault {
        Fault::Columns => say(rt, b": the number of columns is not that of the header\n"),
        Fault::Number => say(rt, b": a column is no number\n"),
        Fault::Date => say(
            rt,
            b": the date does not exist, or no day sheet can hold it\n",
        ),
        Fault::Pump => say(rt, b": the pump is above 127\n"),
        Fault::Count => say(rt, b": a count is above 127\n"),
    }
}

// Says that a line is no header.
fn say_header(rt: &HostRuntime, file: &[u8], line: u64) {
    say_line(rt, file, line);
    say(rt, b": this is no header of day sheets\n");
}

// Says which line is refused, and why; a text without lines has no header. Where a write failed that is said instead.
fn say_verdict(rt: &HostRuntime, t: Taken, file: &[u8]) {
    let lines = t.state.lines;
    if !t.output.ok() {
        return;
    }
    match t.state.verdict {
        Ok(()) => {
            if lines == 0 && t.input.ended() {
                say_header(rt, file, 1);
            }
        }
        Err(TextFault::NoHeader) => say_header(rt, file, lines),
        Err(TextFault::Wrong(fault)) => say_fault(rt, file, lines, fault),
        Err(TextFault::TooLong) => {
            say_line(rt, file, lines);
            say(rt, b": the line is longer than that of any sheet\n");
        }
    }
}

// Has the text ended, has it a header, and was no line refused and every record written?
fn is_accepted(t: Taken) -> bool
    ensures { result ≡ all_taken t }
{
    if !t.input.ended() {
        return false;
    }
    t.state.lines > 0 && goes_on(t)
}

// Ends the card: the file gets its name where all lines were taken and written, and is removed where not.
fn end_writing(rt: &HostRuntime, t: Taken, to: Target) -> Status
    requires { TakesText true t }
    ensures { EndsWriting t result }
{
    if !is_accepted(t) {
        discard(rt, to);
        return Status::NotDone;
    }
    done_where(publish(rt, t.input, t.output, to))
}

// Writes the card of the text that is open into the file that argument `to` names.
fn write_card(rt: &HostRuntime, card: &Card, to: Option<usize>) -> Status {
    let mut name = buffer();
    let mut temporary = buffer();
    let Some(target) = open_target(rt, Program::Write, to, &mut name, &mut temporary) else {
        return Status::NotDone;
    };
    let t = take_text(rt, card, Some(&target));
    say_verdict(rt, t, card.name);
    end_writing(rt, t, target)
}

// Reads the text a first time where it can be read twice, and goes back to where it began; answers whether its card may be written.
fn is_asked(rt: &HostRuntime, card: &mut Card) -> bool {
    let Ok(start) = place(rt, &card.stream) else {
        return true;
    };
    let asked = take_text(rt, card, None);
    say_verdict(rt, asked, card.name);
    if !is_accepted(asked) {
        return false;
    }
    let back = return_to(rt, &mut card.stream, start);
    ok_or_said(rt, Program::Write, card.name, back).is_some()
}

// Writes the card of the text that argument `place` names.
fn write_named(rt: &HostRuntime, place: Option<usize>, to: Option<usize>) -> Status {
    let mut name = buffer();
    let Some(mut card) = open_card(rt, Program::Write, place, &mut name) else {
        return Status::NotDone;
    };
    if !is_asked(rt, &mut card) {
        return Status::NotDone;
    }
    write_card(rt, &card, to)
}

// The program.
pub fn run(rt: &HostRuntime) -> Status {
    let takes = Takes {
        out: true,
        ..Takes::operands(0, 1)
    };
    run_asked(
        rt,
        Program::Write,
        takes,
        |roles| write_named(
            rt,
            place_of(roles, Role::Operand, 1),
            place_of(roles, Role::OutValue, 1),
        ),
    )
}
