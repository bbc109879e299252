// Converts a card into the other edition. The file is read twice, first to ask and then to convert, so that a card that is refused leaves
// nothing, and no card is held whole. The calls are the card crate's; here the file is read, and what they answer is written and said. k is
// the number of erasure bytes of a record of the card, 4 or 5.
ghost use Rattle.std.specs.Prelude.{◌≡◌, ◌*◌, ◌^◌, ◌≤◌, ◌<◌, IfOk, IfSome, length};
ghost use Rattle.card.specs.Record.{size_of, erasure_bytes};
ghost use Rattle.card.specs.Conversion.{old_erasure_bytes, Converts, to_new_asked, to_old_asked};
ghost use Rattle.card.specs.Batch.{batch_records, batch_size, most_batches};
ghost use Rattle.programs.specs.Stream.{Wrote};
ghost use Rattle.programs.specs.Convert.{other_edition, Converted, AsksCard, Accepted, CopiesCard, EndsConverting};
ghost use Rattle.programs.specs.inner.Turns.{CanRead, CanWrite};
ghost use Rattle.programs.specs.inner.Copies.{AsksBatch, CopiesBatch, CopiesSlots, copy_slots, copy_size, Fine};

use crate::arguments::{Asked, Role, Takes, argument, edition_of, place_of};
use crate::files::{Card, Target, buffer, discard, open_card, open_target, publish};
use crate::help::{explain, run_asked};
use crate::input::{Input, read_batch};
use crate::message::{Program, ok_or_said, say, say_decimal, say_name, say_wrong};
use crate::output::{Output, write_part};
use crate::status::{Status, done_where};
use crate::stream::{place, return_to};
use card::conversion::{card_to_new, card_to_old};
use card::parts::{Findings, found_number, found_verdict, nothing_found, see_part};
use card::records::{ERASURE_BYTES, OLD_ERASURE_BYTES, size_of};
use card::text::Text;
use card::words::put_refusal;
use card::{BATCH, BATCH_SLOTS, MOST_BATCHES};
use field::Question;

// So many slots are converted at a time: two buffers are held.
const COPY_SLOTS: usize = 200;

// The bytes of either buffer.
const COPY: usize = 27800;

// What the questions have found, how many bytes are left behind the slots, and what was read.
#[derive(Clone, Copy)]
pub struct Inquiry {
    pub findings: Findings,
    pub rest: usize,
    pub input: Input,
}

// What was read and written in the second reading. Each step answers how far it came, as an error where it could not go on.
#[derive(Clone, Copy)]
pub struct Copying {
    pub input: Input,
    pub output: Output,
}

// Reads a batch into the buffer and asks it, where the questions have found s before it.
fn ask_into(
    rt: &HostRuntime,
    card: &Card,
    buf: &mut [u8],
    i: Input,
    k: usize,
    s: Findings,
) -> Inquiry
    requires { (length buf.old ≡ batch_size) × CanRead i × (k ≤ erasure_bytes) × (s.slots ≤ 2 ^ 62) }
    ensures { AsksBatch k s i result }
{
    let size = size_of(k);
    let n = BATCH_SLOTS * size;
    let input = read_batch(rt, card, i, &mut buf[..n]);
    let count = input.count();
    let findings = see_part(s, &buf[..count], k);
    Inquiry {
        findings,
        rest: count % size,
        input,
    }
}

// The same with a buffer of its own: the proof above speaks of any buffer, and not of 55,600 zeros.
fn ask_batch(rt: &HostRuntime, card: &Card, i: Input, k: usize, s: Findings) -> Inquiry
    requires { CanRead i × (k ≤ erasure_bytes) × (s.slots ≤ 2 ^ 62) }
    ensures { AsksBatch k s i result }
{
    let mut buf = [0u8; BATCH];
    ask_into(rt, card, &mut buf, i, k, s)
}

// Reads the card batch by batch to its end, or until a read fails, and asks all of it.
fn ask_card(rt: &HostRuntime, card: &Card, k: usize) -> Inquiry
    requires { k ≤ erasure_bytes }
    ensures { AsksCard k result }
{
    let mut input = Input::new();
    let mut s = nothing_found();
    for _ in 0..MOST_BATCHES {
        let inquiry = ask_batch(rt, card, input, k, s);
        if !inquiry.input.going() {
            return inquiry;
        }
        input = inquiry.input;
        s = inquiry.findings;
    }
    Inquiry {
        findings: s,
        rest: 0,
        input,
    }
}

// Converts a batch by the call of its edition.
fn convert(batch: &[u8], k: usize, out: &mut [u8]) -> Result<(), Question>
    ensures converts { k ≡ old_erasure_bytes
        → Converts old_erasure_bytes erasure_bytes (to_new_asked batch.now (length out.old)) batch.now
        out.old result out.new }
    ensures converts_2 { k ≡ erasure_bytes
        → Converts erasure_bytes old_erasure_bytes (to_old_asked batch.now (length out.old)) batch.now
        out.old result out.new }
{
    if k == OLD_ERASURE_BYTES {
        card_to_new(batch, out)
    } else {
        card_to_old(batch, out)
    }
}

// Writes the conversion of some slots.
fn write_converted(rt: &HostRuntime, to: &Target, o: Output, slots: &[u8], k: usize) -> Output
    requires { CanWrite o (length slots.now) × Converted k slots.now }
    ensures { Wrote o (length slots.now) result }
{
    write_part(rt, to, o, slots)
}

// Fills the buffer with slots again and writes them in the other edition. A batch that is short or refused has changed since it was asked.
fn copy_slots(
    rt: &HostRuntime,
    card: &Card,
    to: &Target,
    buf: &mut [u8],
    other: &mut [u8],
    c: Copying,
    k: usize,
) -> Result<Copying, Copying>
    requires { Fine c × (old_erasure_bytes ≤ k) × (k ≤ erasure_bytes) × (length buf.old ≤ copy_size) × (length other.old ≤ copy_size) }
    ensures { IfOk result (CopiesBatch (length buf.old) (length other.old) c) }
{
    let input = read_batch(rt, card, c.input, buf);
    if !input.going() || convert(buf, k, other).is_err() {
        return Err(Copying { input, ..c });
    }
    let output = write_converted(rt, to, c.output, other, k);
    let copied = Copying { input, output };
    if output.ok() { Ok(copied) } else { Err(copied) }
}

// Lends the parts of the buffers that `want` slots take.
fn copy_part(
    rt: &HostRuntime,
    card: &Card,
    to: &Target,
    buf: &mut [u8],
    other: &mut [u8],
    c: Copying,
    k: usize,
    want: usize,
) -> Result<Copying, Copying>
    requires buf_len { (length buf.old ≡ copy_size) × (length other.old ≡ copy_size) }
    requires fine { Fine c × (old_erasure_bytes ≤ k) × (k ≤ erasure_bytes) × (want ≤ copy_slots) }
    ensures { IfOk result (CopiesBatch (want * size_of k) (want * size_of (other_edition k)) c) }
{
    let n = want * size_of(k);
    let m = want * size_of(OLD_ERASURE_BYTES + ERASURE_BYTES - k);
    copy_slots(rt, card, to, &mut buf[..n], &mut other[..m], c, k)
}

// Reads `want` slots again and writes them, with buffers of its own.
fn copy_batch(
    rt: &HostRuntime,
    card: &Card,
    to: &Target,
    c: Copying,
    k: usize,
    want: usize,
) -> Result<Copying, Copying>
    requires { Fine c × (old_erasure_bytes ≤ k) × (k ≤ erasure_bytes) × (want ≤ copy_slots) }
    ensures { IfOk result (CopiesBatch (want * size_of k) (want * size_of (other_edition k)) c) }
{
    let mut buf = [0u8; COPY];
    let mut other = [0u8; COPY];
    copy_part(rt, card, to, &mut buf, &mut other, c, k, want)
}

// The slots of the next batch, where so many are left.
fn next_batch(left: u64) -> usize
    ensures { (result ≤ copy_slots) × (result ≤ left) × (0 < left → 0 < result) }
{
    if left < COPY_SLOTS as u64 {
        left as usize
    } else {
        COPY_SLOTS
    }
}

// Reads so many slots again and writes them in the other edition, batch by batch.
fn copy_all(
    rt: &HostRuntime,
    card: &Card,
    to: &Target,
    k: usize,
    slots: u64,
) -> Result<Copying, Copying>
    requires { (old_erasure_bytes ≤ k) × (k ≤ erasure_bytes) × (slots ≤ most_batches * batch_records) }
    ensures { IfOk result (CopiesSlots k slots) }
{
    let mut c = Copying {
        input: Input::new(),
        output: Output::new(),
    };
    let mut left = slots;
    while left > 0 {
        let want = next_batch(left);
        c = copy_batch(rt, card, to, c, k, want)?;
        left -= want as u64;
    }
    Ok(c)
}

// The same, and the card must end there: one that goes on has changed too.
fn copy_card(
    rt: &HostRuntime,
    card: &Card,
    to: &Target,
    k: usize,
    slots: u64,
) -> Result<Copying, Copying>
    requires { (old_erasure_bytes ≤ k) × (k ≤ erasure_bytes) × (slots ≤ most_batches * batch_records) }
    ensures { IfOk result (CopiesCard k slots) }
{
    let c = copy_all(rt, card, to, k, slots)?;
    let mut one = [0u8; 1];
    let input = read_batch(rt, card, c.input, &mut one);
    let copied = Copying { input, ..c };
    if input.ended() && input.count() == 0 {
        Ok(copied)
    } else {
        Err(copied)
    }
}

// Says which record is refused, and why. A length is refused where the card ends inside a record: so many bytes of it are there.
fn say_refused(rt: &HostRuntime, number: u64, q: Question, rest: usize) {
    let mut out = [0u8; 128];
    let mut line = Text::new(&mut out);
    put_refusal(&mut line, number, q);
    say_name(rt, Program::Convert);
    say(rt, b"nothing is written; the first record refused: ");
    say(rt, line.as_bytes());
    if rest > 0 {
        say_name(rt, Program::Convert);
        say(
            rt,
            b"the card ends inside that record; bytes of it that are there: ",
        );
        say_decimal(rt, rest as u64);
        say(rt, b"\n");
    }
}

// Says that the card is not what it was when it was asked, where no read or write has said so.
fn say_changed(rt: &HostRuntime, c: Copying, file: &[u8]) {
    if c.output.ok() && !c.input.failed() {
        say_name(rt, Program::Convert);
        say(rt, file);
        say(rt, b": the card changed while it was converted\n");
    }
}

// Ends the conversion: the file gets its name where the whole card was written, and is removed where not.
fn end_converting(
    rt: &HostRuntime,
    copied: Result<Copying, Copying>,
    k: usize,
    slots: u64,
    card: &Card,
    to: Target,
) -> Status
    requires { IfOk copied (CopiesCard k slots) }
    ensures { EndsConverting copied result }
{
    match copied {
        Ok(c) => done_where(publish(rt, c.input, c.output, to)),
        Err(c) => {
            say_changed(rt, c, card.name);
            discard(rt, to);
            Status::NotDone
        }
    }
}

// Reads a card that no question refuses again from where it began, converts it, and ends the file that argument `to` names.
fn convert_again(
    rt: &HostRuntime,
    card: &mut Card,
    start: u64,
    k: usize,
    asked: Inquiry,
    to: Option<usize>,
) -> Status
    requires { (old_erasure_bytes ≤ k) × (k ≤ erasure_bytes) × Accepted k asked }
{
    let back = return_to(rt, &mut card.stream, start);
    if ok_or_said(rt, Program::Convert, card.name, back).is_none() {
        return Status::NotDone;
    }
    let mut name = buffer();
    let mut temporary = buffer();
    let Some(target) = open_target(rt, Program::Convert, to, &mut name, &mut temporary) else {
        return Status::NotDone;
    };
    let slots = asked.findings.slots;
    let copied = copy_card(rt, card, &target, k, slots);
    end_converting(rt, copied, k, slots, card, target)
}

// Asks the card, and converts it where no question refuses it.
fn convert_card(rt: &HostRuntime, card: &mut Card, k: usize, to: Option<usize>) -> Status
    requires { (old_erasure_bytes ≤ k) × (k ≤ erasure_bytes) }
{
    let Some(start) = ok_or_said(rt, Program::Convert, card.name, place(rt, &card.stream)) else {
        return Status::NotDone;
    };
    let inquiry = ask_card(rt, card, k);
    let s = inquiry.findings;
    let rest = inquiry.rest;
    if !inquiry.input.ended() {
        return Status::NotDone;
    }
    match found_verdict(s, rest) {
        Ok(()) => convert_again(rt, card, start, k, inquiry, to),
        Err(q) => {
            say_refused(rt, found_number(s, rest), q, rest);
            Status::NotDone
        }
    }
}

// Converts the card that argument `place` names into the file that argument `to` names.
fn convert_named(rt: &HostRuntime, k: usize, place: Option<usize>, to: Option<usize>) -> Status
    requires { (old_erasure_bytes ≤ k) × (k ≤ erasure_bytes) }
{
    let mut name = buffer();
    let Some(mut card) = open_card(rt, Program::Convert, place, &mut name) else {
        return Status::NotDone;
    };
    convert_card(rt, &mut card, k, to)
}

// The erasure bytes of a record of the card that argument `place` says to convert, where it says so.
fn edition_at(rt: &HostRuntime, place: usize) -> Option<usize>
    ensures { IfSome result (λ k. (old_erasure_bytes ≤ k) × (k ≤ erasure_bytes)) }
{
    edition_of(argument(rt, place, &mut [0; 8]))
}

// Converts by the arguments that have these roles.
fn convert_asked(rt: &HostRuntime, roles: &[Role]) -> Status {
    let Some(place) = place_of(roles, Role::Operand, 1) else {
        return explain(rt, Program::Convert, Asked::Missing);
    };
    let Some(k) = edition_at(rt, place) else {
        say_wrong(
            rt,
            Program::Convert,
            b"the conversion is to-new or to-old, not ",
            place,
        );
        return Status::NotDone;
    };
    convert_named(
        rt,
        k,
        place_of(roles, Role::Operand, 2),
        place_of(roles, Role::OutValue, 1),
    )
}

// The program.
pub fn run(rt: &HostRuntime) -> Status {
    let takes = Takes {
        out: true,
        ..Takes::operands(1, 2)
    };
    run_asked(
        rt,
        Program::Convert,
        takes,
        |roles| convert_asked(rt, roles),
    )
}
