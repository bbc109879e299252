// Checks a card: one line, "ok", or the number of the first record that would be refused, its refusal number and the words for it. The check
// and its line are the card crate's; here the card is read batch by batch, and the line is written.
ghost use Rattle.std.specs.Prelude.{◌≡◌, [], ◌^◌, ◌≤◌, length};
ghost use Rattle.card.specs.inner.Room.{longest_refusal};
ghost use Rattle.programs.specs.Stream.{Wrote};
ghost use Rattle.programs.specs.Check.{LineOf, ChecksCard, check_status};
ghost use Rattle.programs.specs.inner.Turns.{CanRead, CanWrite};
ghost use Rattle.programs.specs.inner.Checks.{SearchesBatch, Searches};

use crate::answer::{Answered, answer_from};
use crate::arguments::{Role, Takes, place_of};
use crate::files::Card;
use crate::help::run_asked;
use crate::input::{Input, read_batch};
use crate::message::Program;
use crate::output::{Output, is_well, print_part};
use crate::status::{Status, done_where};
use card::checked::check_batch;
use card::text::Text;
use card::{BATCH, BATCH_SLOTS, MOST_BATCHES};

// Whether a record that would be refused was found so far, and what was read.
#[derive(Clone, Copy)]
pub struct Searching {
    pub found: bool,
    pub input: Input,
}

// Checks a batch of at most 400 slots, where so many slots stand before it.
fn check_next(rt: &HostRuntime, card: &Card, i: Input, slots: u64, out: &mut Text) -> Searching
    requires { CanRead i × (slots ≤ 2 ^ 62) × (longest_refusal ≤ out.old.room) }
    ensures { SearchesBatch slots i out.old result out.new }
{
    let mut batch = [0u8; BATCH];
    let input = read_batch(rt, card, i, &mut batch);
    let found = check_batch(&batch[..input.count()], slots, out);
    Searching { found, input }
}

// Checks batch after batch until a record would be refused, the input ends or a read fails. Its line is written, where there is one.
fn check_batches(rt: &HostRuntime, card: &Card, out: &mut Text) -> Searching
    requires { (out.old.bytes ≡ []) × (out.old.room ≡ longest_refusal) }
    ensures { Searches result out.new.bytes }
{
    let mut input = Input::new();
    for i in 0..MOST_BATCHES {
        let next = check_next(rt, card, input, i * BATCH_SLOTS as u64, out);
        if next.found || !next.input.going() {
            return next;
        }
        input = next.input;
    }
    Searching {
        found: false,
        input,
    }
}

// Writes the line of the card that was read.
fn write_line(rt: &HostRuntime, i: Input, o: Output, line: &[u8]) -> Output
    requires { CanWrite o (length line.now) × LineOf i line.now }
    ensures { Wrote o (length line.now) result }
{
    print_part(rt, Program::Check, o, line)
}

// How the check ended.
fn status_of(found: bool, i: Input, o: Output) -> Status
    ensures { result ≡ check_status found i o }
{
    if !is_well(i, o) {
        return Status::NotDone;
    }
    if found {
        return Status::AnsweredNo;
    }
    done_where(i.ended())
}

// What was read and written, and the status of that.
fn with_status(found: bool, i: Input, o: Output) -> Answered
    ensures { result ≡ record { input = i; output = o; status = check_status found i o } }
{
    Answered {
        input: i,
        output: o,
        status: status_of(found, i, o),
    }
}

// Writes the line of the card where a record is named or the input has ended, and nothing where a read failed or neither is so.
fn answer(rt: &HostRuntime, s: Searching, line: &[u8]) -> Answered
    requires { Searches s line.now }
    ensures { ChecksCard result }
{
    let Searching { found, input } = s;
    let o = Output::new();
    if input.failed() {
        return with_status(found, input, o);
    }
    if found {
        return with_status(found, input, write_line(rt, input, o, line));
    }
    if input.ended() {
        return with_status(found, input, write_line(rt, input, o, b"ok\n"));
    }
    with_status(found, input, o)
}

// Checks the card.
fn check_card(rt: &HostRuntime, card: &Card) -> Answered
    ensures { ChecksCard result }
{
    let mut out = [0u8; 105];
    let mut line = Text::new(&mut out);
    let searching = check_batches(rt, card, &mut line);
    answer(rt, searching, line.as_bytes())
}

// The program.
pub fn run(rt: &HostRuntime) -> Status {
    run_asked(rt, Program::Check, Takes::operands(0, 1), |roles| {
        answer_from(
            rt,
            Program::Check,
            place_of(roles, Role::Operand, 1),
            |card| { check_card(rt, card) },
        )
    })
}
