// Reports the starts of each pump in a window of the day, over a card, as a table. The report and its text are the report crate's; here the
// arguments and the card are read, and the table is written.
ghost use Rattle.std.specs.Prelude.{◌≡◌, true, length, ◌^◌};
ghost use Rattle.report.specs.Window.{is_window, no_report, report_size};
ghost use Rattle.report.specs.Table.{table_text};
ghost use Rattle.report.specs.inner.Room.{Countable};
ghost use Rattle.programs.specs.Stream.{Wrote};
ghost use Rattle.programs.specs.Starts.{ReportOf, Tabled, TablesCard, starts_status};
ghost use Rattle.programs.specs.inner.Turns.{CanRead, CanWrite};
ghost use Rattle.programs.specs.inner.Reports.{AddsBatch, AddsBatches};

use crate::answer::{Answered, answer_from};
use crate::arguments::{Asked, Role, Takes, WindowError, argument, place_of, window_of};
use crate::files::Card;
use crate::help::{explain, run_asked};
use crate::input::{Input, read_batch};
use crate::message::{Program, say_wrong};
use crate::output::{Output, is_well, print_part};
use crate::status::{Status, done_where};
use card::text::Text;
use card::{BATCH, LISTED_BATCHES};
use report::quarter::quarter;
use report::row::Window;
use report::table::put_table;
use report::window::{add_part, begin, finish};

// Adds a batch of at most 400 records to the report.
fn add_batch(rt: &HostRuntime, card: &Card, i: Input, w: Window, report: &mut [u64]) -> Input
    requires { CanRead i × (is_window w ≡ true) × Countable (2 ^ 62) report.old }
    ensures { AddsBatch w i report.old result report.new }
{
    let mut batch = [0u8; BATCH];
    let input = read_batch(rt, card, i, &mut batch);
    add_part(&batch[..input.count()], w, report);
    input
}

// Adds batch after batch to a report of nothing, until the input ends, a read fails or 1,000,000 records are looked at.
fn add_batches(rt: &HostRuntime, card: &Card, w: Window, report: &mut [u64]) -> Input
    requires { (is_window w ≡ true) × (report.old ≡ no_report) }
    ensures { AddsBatches w result report.new }
{
    let mut input = Input::new();
    for _ in 0..LISTED_BATCHES {
        input = add_batch(rt, card, input, w, report);
        if !input.going() {
            return input;
        }
    }
    input
}

// Makes the report of the card; behind 1,000,000 records one byte more is read.
fn fill(rt: &HostRuntime, card: &Card, w: Window, report: &mut [u64]) -> Input
    requires { (is_window w ≡ true) × (length report.old ≡ report_size) }
    ensures { ReportOf w result report.new }
{
    begin(report);
    let before = add_batches(rt, card, w, report);
    if !before.going() {
        finish(report, false);
        return before;
    }
    let mut one = [0u8; 1];
    let input = read_batch(rt, card, before, &mut one);
    finish(report, input.count() > 0);
    input
}

// Writes the table of the card that was read.
fn write_table(rt: &HostRuntime, i: Input, o: Output, w: Window, report: &[u64]) -> Output
    requires { CanWrite o (2 ^ 16) × Tabled w i report.now }
    ensures { Wrote o (length (table_text report.now)) result }
{
    let mut out = [0u8; 27000];
    let mut text = Text::new(&mut out);
    put_table(&mut text, report);
    print_part(rt, Program::Starts, o, text.as_bytes())
}

// How the program ended.
fn status_of(i: Input, o: Output) -> Status
    ensures { result ≡ starts_status i o }
{
    done_where(is_well(i, o))
}

// Reports the starts in the window over the card. Where it could not be read, nothing is written.
fn report_card(rt: &HostRuntime, card: &Card, w: Window) -> Answered
    requires { is_window w ≡ true }
    ensures { TablesCard w result }
{
    let mut report = [0u64; 1155];
    let input = fill(rt, card, w, &mut report);
    let o = Output::new();
    if input.failed() {
        return Answered {
            input,
            output: o,
            status: status_of(input, o),
        };
    }
    let output = write_table(rt, input, o, w, &report);
    Answered {
        input,
        output,
        status: status_of(input, output),
    }
}

// The quarter hour that argument i stands for. One that is missing or has more than eight bytes stands for none, as an empty one.
fn time_at(rt: &HostRuntime, i: usize) -> Option<u8> {
    quarter(argument(rt, i, &mut [0; 8]))
}

// Says what is wrong with the two times, of which the arguments `first` and `end` are.
fn say_window(rt: &HostRuntime, e: WindowError, first: usize, end: usize) {
    match e {
        WindowError::First => say_wrong(
            rt,
            Program::Starts,
            b"FIRST is no quarter hour from 0 to 96, and no time of one: ",
            first,
        ),
        WindowError::End => say_wrong(
            rt,
            Program::Starts,
            b"END is no quarter hour from 0 to 96, and no time of one: ",
            end,
        ),
        WindowError::Order => say_wrong(rt, Program::Starts, b"FIRST is not before END: ", end),
    }
}

// Reports by the arguments that have these roles.
fn report_asked(rt: &HostRuntime, roles: &[Role]) -> Status {
    let operand = |n| place_of(roles, Role::Operand, n);
    let (Some(first), Some(end)) = (operand(1), operand(2)) else {
        return explain(rt, Program::Starts, Asked::Missing);
    };
    match window_of(time_at(rt, first), time_at(rt, end)) {
        Ok(w) => answer_from(rt, Program::Starts, operand(3), |card| {
            report_card(rt, card, w)
        }),
        Err(e) => {
            say_window(rt, e, first, end);
            Status::NotDone
        }
    }
}

// The program.
pub fn run(rt: &HostRuntime) -> Status {
    run_asked(
        rt,
        Program::Starts,
        Takes::operands(2, 3),
        |roles| report_asked(rt, roles),
    )
}
