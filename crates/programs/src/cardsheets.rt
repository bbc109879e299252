// Prints the day sheets of a card as CSV: a header, a line for each sheet, and one line on standard error. The text is the csv crate's; here
// the card is read, and the text written, batch by batch.
ghost use Rattle.std.specs.Prelude.{◌≡◌, true, ◌+◌, ◌≤◌, length};
ghost use Rattle.card_csv.specs.Text.{sheets_header};
ghost use Rattle.card_csv.specs.inner.Room.{header_room};
ghost use Rattle.programs.specs.Stream.{Wrote};
ghost use Rattle.programs.specs.Sheets.{SheetLines, TellsBatch, TellsCard, sheets_status, EndsSheets};
ghost use Rattle.programs.specs.Batches.{is_whole};
ghost use Rattle.programs.specs.inner.Turns.{CanWrite};
ghost use Rattle.programs.specs.inner.Tells.{TellsNothing, TellReady};

use crate::arguments::{Role, Takes, place_of};
use crate::files::{Card, buffer, close_output, open_card};
use crate::help::run_asked;
use crate::input::{Input, read_batch};
use crate::message::{Program, say, say_old};
use crate::output::{Output, print_part};
use crate::status::Status;
use crate::turn::Turn;
use card::MOST_BATCHES;
use card::text::Text;
use card_csv::Counts;
use card_csv::headers::{HEADER_TEXT, put_header};
use card_csv::lines::{BATCH, BATCH_TEXT, COUNTS_TEXT, list_sheets, put_counts};

// Writes some lines of day sheets.
fn write_lines(rt: &HostRuntime, o: Output, lines: &[u8]) -> Output
    requires { CanWrite o (length lines.now) × SheetLines lines.now }
    ensures { Wrote o (length lines.now) result }
{
    print_part(rt, Program::Sheets, o, lines)
}

// Writes the header.
fn write_header(rt: &HostRuntime, o: Output) -> Output
    requires { CanWrite o header_room }
    ensures wrote { Wrote o (length sheets_header) result }
    ensures sheets_header_len_bound { length sheets_header ≤ header_room }
{
    let mut out = [0u8; HEADER_TEXT];
    let mut text = Text::new(&mut out);
    put_header(&mut text);
    print_part(rt, Program::Sheets, o, text.as_bytes())
}

// The header is written, and nothing has been read.
fn begin(rt: &HostRuntime) -> Turn<Counts>
    ensures { TellsNothing result }
{
    Turn {
        counts: Counts {
            next: 1,
            sheets: 0,
            others: 0,
            blanks: 0,
        },
        input: Input::new(),
        output: write_header(rt, Output::new()),
    }
}

// Prints the sheets of a batch of at most 100 slots.
fn tell_batch(rt: &HostRuntime, card: &Card, t: Turn<Counts>) -> Turn<Counts>
    requires { TellReady t }
    ensures { TellsBatch t result }
{
    let mut batch = [0u8; BATCH];
    let mut out = [0u8; BATCH_TEXT];
    let input = read_batch(rt, card, t.input, &mut batch);
    let mut lines = Text::new(&mut out);
    let counts = list_sheets(&batch[..input.count()], t.counts, &mut lines);
    let output = write_lines(rt, t.output, lines.as_bytes());
    Turn {
        counts,
        input,
        output,
    }
}

// Prints the sheets batch after batch until the input ends, or a read or write fails.
fn tell_card(rt: &HostRuntime, card: &Card) -> Turn<Counts>
    ensures { TellsCard result }
{
    let mut t = begin(rt);
    for _ in 0..MOST_BATCHES {
        if !t.goes_on() {
            return t;
        }
        t = tell_batch(rt, card, t);
    }
    t
}

// Says what was counted, once the sheets of the whole card are written.
fn say_counts(rt: &HostRuntime, t: Turn<Counts>)
    requires { is_whole t ≡ true }
{
    let mut out = [0u8; COUNTS_TEXT];
    let mut text = Text::new(&mut out);
    put_counts(&mut text, t.counts);
    say(rt, text.as_bytes());
}

// How the printing of a whole card ended.
fn status_of(t: Turn<Counts>) -> Status
    requires { is_whole t ≡ true }
    ensures { result ≡ sheets_status t }
{
    if t.counts.others == 0 {
        Status::Done
    } else {
        Status::AnsweredNo
    }
}

// Ends the printing: what was counted is said where every read and write succeeded.
fn end_telling(rt: &HostRuntime, t: Turn<Counts>, file: &[u8]) -> Status
    ensures { EndsSheets t result }
{
    if !t.is_whole() {
        return Status::NotDone;
    }
    let status = close_output(rt, Program::Sheets, status_of(t));
    if !matches!(status, Status::NotDone) {
        say_old(rt, Program::Sheets, file, t.input.total());
        say_counts(rt, t);
    }
    status
}

// Prints the sheets of the card that argument `place` names.
fn tell_named(rt: &HostRuntime, place: Option<usize>) -> Status {
    let mut name = buffer();
    let Some(card) = open_card(rt, Program::Sheets, place, &mut name) else {
        return Status::NotDone;
    };
    end_telling(rt, tell_card(rt, &card), card.name)
}

// The program.
pub fn run(rt: &HostRuntime) -> Status {
    run_asked(
        rt,
        Program::Sheets,
        Takes::operands(0, 1),
        |roles| tell_named(rt, place_of(roles, Role::Operand, 1)),
    )
}
