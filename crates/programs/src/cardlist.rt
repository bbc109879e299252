// Lists the records of a card: a line for each, up to 1,000,000, then the totals. The text is the card crate's; here it is read, called and
// written.
ghost use Rattle.std.specs.Prelude.{◌≡◌, true, length};
ghost use Rattle.card.specs.Listing.{more_line, total_line};
ghost use Rattle.programs.specs.Stream.{Wrote};
ghost use Rattle.programs.specs.List.{Lines, ListsBatch, ListsCard, list_status};
ghost use Rattle.programs.specs.inner.Lists.{ListsBatches};
ghost use Rattle.programs.specs.inner.Turns.{BatchReady, CanWrite, can_go_on};

use crate::answer::{Answered, answer_from};
use crate::arguments::{Role, Takes, place_of};
use crate::files::Card;
use crate::help::run_asked;
use crate::input::read_batch;
use crate::message::Program;
use crate::output::{Output, is_well, print_part};
use crate::status::{Status, done_where};
use crate::turn::{Turn, begin};
use card::listing::{list_records, put_more, put_total};
use card::text::Text;
use card::{BATCH, LISTED_BATCHES, Progress, Totals};

// Writes some lines of a listing.
fn write_lines(rt: &HostRuntime, o: Output, lines: &[u8]) -> Output
    requires { CanWrite o (length lines.now) × Lines lines.now }
    ensures { Wrote o (length lines.now) result }
{
    print_part(rt, Program::List, o, lines)
}

// Lists a batch of at most 400 records.
fn list_batch(rt: &HostRuntime, card: &Card, t: Turn<Progress>) -> Turn<Progress>
    requires { BatchReady t }
    ensures { ListsBatch t result }
{
    let mut batch = [0u8; BATCH];
    let mut out = [0u8; 33600];
    let input = read_batch(rt, card, t.input, &mut batch);
    let mut lines = Text::new(&mut out);
    let counts = list_records(&batch[..input.count()], t.counts, &mut lines);
    let output = write_lines(rt, t.output, lines.as_bytes());
    Turn {
        counts,
        input,
        output,
    }
}

// Lists batch after batch until the input ends, a read or write fails, or 1,000,000 records are listed.
fn list_batches(rt: &HostRuntime, card: &Card) -> Turn<Progress>
    ensures { ListsBatches result }
{
    let mut t = begin();
    for _ in 0..LISTED_BATCHES {
        if !t.goes_on() {
            return t;
        }
        t = list_batch(rt, card, t);
    }
    t
}

// Writes the line that says that the card goes on behind the records listed.
fn write_more(rt: &HostRuntime, o: Output) -> Output
    requires { CanWrite o 8 }
    ensures { Wrote o (length more_line) result }
{
    let mut out = [0u8; 8];
    let mut text = Text::new(&mut out);
    put_more(&mut text);
    print_part(rt, Program::List, o, text.as_bytes())
}

// Writes the last line.
fn write_total(rt: &HostRuntime, o: Output, t: Totals) -> Output
    requires { CanWrite o 80 }
    ensures { Wrote o (length (total_line t)) result }
{
    let mut out = [0u8; 80];
    let mut text = Text::new(&mut out);
    put_total(&mut text, t);
    print_part(rt, Program::List, o, text.as_bytes())
}

// Ends a listing of 1,000,000 records: the line "more" where the card goes on, and the totals.
fn end_full(rt: &HostRuntime, card: &Card, t: Turn<Progress>) -> Turn<Progress>
    requires { ListsBatches t × (can_go_on t ≡ true) }
    ensures { ListsCard result }
{
    let mut one = [0u8; 1];
    let input = read_batch(rt, card, t.input, &mut one);
    if input.count() == 0 {
        return Turn {
            input,
            output: write_total(rt, t.output, t.counts.totals),
            ..t
        };
    }
    let output = write_more(rt, t.output);
    if !output.ok() {
        return Turn { input, output, ..t };
    }
    Turn {
        input,
        output: write_total(rt, output, t.counts.totals),
        ..t
    }
}

// Ends a listing. Where a write has failed nothing more is written; where a read has failed the card is taken to end there.
fn end_listing(rt: &HostRuntime, card: &Card, t: Turn<Progress>) -> Turn<Progress>
    requires { ListsBatches t }
    ensures { ListsCard result }
{
    if !t.output.ok() {
        return t;
    }
    if t.input.going() {
        return end_full(rt, card, t);
    }
    Turn {
        output: write_total(rt, t.output, t.counts.totals),
        ..t
    }
}

// Lists the card.
fn list_card(rt: &HostRuntime, card: &Card) -> Turn<Progress>
    ensures { ListsCard result }
{
    end_listing(rt, card, list_batches(rt, card))
}

// How the listing ended.
fn status_of(t: Turn<Progress>) -> Status
    ensures { result ≡ list_status t }
{
    done_where(is_well(t.input, t.output))
}

// What was read and written, and how that ended.
fn answer(t: Turn<Progress>) -> Answered
    ensures { result ≡ record { input = t.input; output = t.output; status = list_status t } }
{
    Answered {
        input: t.input,
        output: t.output,
        status: status_of(t),
    }
}

// The program.
pub fn run(rt: &HostRuntime) -> Status {
    run_asked(rt, Program::List, Takes::operands(0, 1), |roles| {
        answer_from(
            rt,
            Program::List,
            place_of(roles, Role::Operand, 1),
            |card| { answer(list_card(rt, card)) },
        )
    })
}
