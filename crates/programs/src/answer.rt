// A program that answers from one card, on standard output.
use crate::files::{Card, buffer, close_output, open_card};
use crate::input::Input;
use crate::message::{Program, say_old};
use crate::output::Output;
use crate::status::Status;

// What was read and written, and how the program ended.
#[derive(Clone, Copy)]
pub struct Answered {
    pub input: Input,
    pub output: Output,
    pub status: Status,
}

// Says that a card which was read to its end looks like one of the old edition, where it does.
pub fn say_ended(rt: &HostRuntime, i: Input, card: &Card) {
    if i.ended() {
        say_old(rt, card.program, card.name, i.total());
    }
}

// Gives the card that argument `place` names to the body, and ends the program with the status of what it answered.
pub fn answer_from<F: FnOnce(&Card) -> Answered>(
    rt: &HostRuntime,
    p: Program,
    place: Option<usize>,
    body: F,
) -> Status
    requires { F.IsAlwaysCallable body }
{
    let mut name = buffer();
    let Some(card) = open_card(rt, p, place, &mut name) else {
        return Status::NotDone;
    };
    let answered = body(&card);
    say_ended(rt, answered.input, &card);
    close_output(rt, p, answered.status)
}
