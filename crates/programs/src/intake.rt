// A text of day sheets taken part by part: it is read into a buffer, the csv crate makes records of the lines that end there, and these are
// written at once, where records are written. The piece of a line behind them is kept for the next part.
ghost use Rattle.std.specs.Prelude.{◌≡◌, true, ◌+◌, ◌^◌, ◌≤◌, length, is_some};
ghost use Rattle.card_csv.specs.inner.Room.{text_size, records_room};
ghost use Rattle.programs.specs.Stream.{has_ended, Wrote};
ghost use Rattle.programs.specs.Write.{PartOfCard, TakesText};
ghost use Rattle.programs.specs.inner.Turns.{CanRead, CanWrite};
ghost use Rattle.programs.specs.inner.Cuts.{ReadsOn, TakesParts, goes_further, is_open, refused_long};

use crate::files::{Card, Target};
use crate::input::{Input, read_batch};
use crate::output::{Output, write_part};
use card::text::Text;
use card_csv::making::{RECORDS, TEXT, is_fine, make_last, make_records};
use card_csv::{TextFault, TextState};

// No text has more parts: 2^42 of them.
const MOST_PARTS: u64 = 4398046511104;

// How the text stands behind the lines that were taken, what was read and written, and how many bytes are kept of a line that has begun.
#[derive(Clone, Copy)]
pub struct Taken {
    pub state: TextState,
    pub input: Input,
    pub output: Output,
    pub kept: usize,
}

// Writes records of the card, behind those that were written.
fn write_records(rt: &HostRuntime, to: &Target, o: Output, bytes: &[u8]) -> Output
    requires { CanWrite o (length bytes.now) × PartOfCard o bytes.now }
    ensures { Wrote o (length bytes.now) result }
{
    write_part(rt, to, o, bytes)
}

// The same, where records are written.
fn put_records(rt: &HostRuntime, to: Option<&Target>, o: Output, bytes: &[u8]) -> Output
    requires { is_some to ≡ true → CanWrite o (length bytes.now) × PartOfCard o bytes.now }
    ensures { is_some to.entry ≡ true → Wrote o (length bytes.now) result }
{
    match to {
        Some(to) => write_records(rt, to, o, bytes),
        None => o,
    }
}

// Reads on behind what is kept of a line.
fn read_on(rt: &HostRuntime, card: &Card, i: Input, buf: &mut [u8], kept: usize) -> Input
    requires { CanRead i × (length buf.old ≡ text_size) × (kept ≤ text_size) }
    ensures { ReadsOn i kept buf.old result buf.new }
{
    read_batch(rt, card, i, &mut buf[kept..])
}

// Was no line refused, and has every write succeeded?
pub fn goes_on(t: Taken) -> bool
    ensures { result ≡ goes_further t }
{
    is_fine(t.state) && t.output.ok()
}

// Can more be read, and what is made of it be written?
fn is_open(t: Taken) -> bool
    ensures { result ≡ is_open t }
{
    if t.kept >= TEXT {
        return false;
    }
    t.input.going() && goes_on(t)
}

// Reads a part of the text, takes the lines that end there, and keeps the piece behind them.
fn take_part(rt: &HostRuntime, card: &Card, to: Option<&Target>, buf: &mut [u8], t: Taken) -> Taken
    requires { TakesParts (is_some to) (2 ^ 55) (2 ^ 62) t buf.old × (is_open t ≡ true) }
    ensures { TakesParts (is_some to.entry) (t.input.read + text_size) (t.output.written + records_room) result buf.new }
{
    let input = read_on(rt, card, t.input, buf, t.kept);
    let end = t.kept + input.count();
    let mut out = [0u8; RECORDS];
    let mut records = Text::new(&mut out);
    let made = make_records(&buf[..end], t.state, &mut records);
    let output = put_records(rt, to, t.output, records.as_bytes());
    buf.copy_within(made.taken..end, 0);
    Taken {
        state: made.state,
        input,
        output,
        kept: end - made.taken,
    }
}

// Takes the text part by part until it ends, a line is refused or has no end, or a read or write fails.
fn take_parts(
    rt: &HostRuntime,
    card: &Card,
    to: Option<&Target>,
    buf: &mut [u8],
    begun: Taken,
) -> Taken
    requires { TakesParts (is_some to) 0 0 begun buf.old }
    ensures { TakesParts (is_some to.entry) (2 ^ 55) (2 ^ 62) result buf.new }
{
    let mut t = begun;
    for _ in 0..MOST_PARTS {
        if !is_open(t) {
            return t;
        }
        t = take_part(rt, card, to, buf, t);
    }
    t
}

// Takes the last line of a text that has ended: it may come without its end.
fn take_last(rt: &HostRuntime, to: Option<&Target>, buf: &[u8], t: Taken) -> Taken
    requires { TakesParts (is_some to) (2 ^ 55) (2 ^ 62) t buf.now × (goes_further t ≡ true) × (has_ended t.input ≡ true) }
    ensures { TakesText (is_some to.entry) result }
{
    let mut out = [0u8; RECORDS];
    let mut records = Text::new(&mut out);
    let made = make_last(&buf[..t.kept], t.state, &mut records);
    let output = put_records(rt, to, t.output, records.as_bytes());
    Taken {
        state: made.state,
        input: t.input,
        output,
        kept: 0,
    }
}

// A line that has no end in the whole buffer is none.
fn refuse_long(t: Taken) -> Taken
    requires { t.state.lines ≤ 2 ^ 62 }
    ensures { result ≡ refused_long t }
{
    Taken {
        state: TextState {
            lines: t.state.lines + 1,
            verdict: Err(TextFault::TooLong),
            ..t.state
        },
        ..t
    }
}

// Takes what is kept behind the last part: the last line, a line that is too long, or nothing.
fn take_rest(rt: &HostRuntime, to: Option<&Target>, buf: &[u8], t: Taken) -> Taken
    requires { TakesParts (is_some to) (2 ^ 55) (2 ^ 62) t buf.now }
    ensures { TakesText (is_some to.entry) result }
{
    if !goes_on(t) {
        return t;
    }
    if t.input.ended() {
        return take_last(rt, to, buf, t);
    }
    if t.kept == TEXT {
        return refuse_long(t);
    }
    t
}

// Takes the text; records are written where there is a file for them.
pub fn take_text(rt: &HostRuntime, card: &Card, to: Option<&Target>) -> Taken
    ensures { TakesText (is_some to.entry) result }
{
    let mut buf = [0u8; TEXT];
    let begun = Taken {
        state: TextState {
            full: false,
            lines: 0,
            verdict: Ok(()),
        },
        input: Input::new(),
        output: Output::new(),
        kept: 0,
    };
    let t = take_parts(rt, card, to, &mut buf, begun);
    take_rest(rt, to, &buf, t)
}
