// The card that a program reads, and the file that it writes: named by arguments, or standard input and output.
ghost use Rattle.std.specs.Prelude.{◌≡◌, ◌⊎◌, true, ◌≤◌, length, take, IfSome, None};
ghost use Rattle.programs.specs.Stream.{has_ended};
ghost use Rattle.programs.specs.declared.status.Status.TheVariants.{NotDone};

use crate::arguments::{argument_or, is_device, is_standard};
use crate::input::Input;
use crate::message::{Program, ok_or_said, say, say_name};
use crate::output::Output;
use crate::status::Status;
use crate::stream::{Stream, close, create, flush, open_read, rename, unlink};
use card::text::Text;
use std::{io, process};

// A card that a program reads: what messages about it name, and the stream that is read.
#[derive(Drop)]
pub struct Card<'a> {
    pub program: Program,
    pub name: &'a [u8],
    pub stream: Stream,
}

// A file that a program writes: what messages about it name, the name that it has until it is whole, which standard output has none of, and
// the stream that is written.
#[derive(Drop)]
pub struct Target<'a> {
    pub program: Program,
    pub name: &'a [u8],
    pub temporary: Option<&'a [u8]>,
    pub stream: Stream,
}

// The longest name of a file that is made beside another: a full stop and 20 digits more than the other's.
const LONGEST_NAME: usize = 4000;

fn standard_input(program: Program) -> Card<'static>
    ensures { length result.name.now ≤ 4096 }
{
    Card {
        program,
        name: b"standard input",
        stream: Stream::StandardInput,
    }
}

// Opens the card that argument `place` names; its name goes into the buffer. Where it can't be opened that is said.
pub fn open_card<'a>(
    rt: &HostRuntime,
    program: Program,
    place: Option<usize>,
    buf: &'a mut [u8],
) -> Option<Card<'a>>
    requires { length buf.old ≡ 4096 }
    ensures { IfSome result (λ c. length c.name.now ≤ 4096) }
{
    let Some(at) = place else {
        return Some(standard_input(program));
    };
    let name = ok_or_said(
        rt,
        program,
        b"the name of the card",
        argument_or(rt, at, buf),
    )?;
    if is_standard(place, name) {
        return Some(standard_input(program));
    }
    let stream = ok_or_said(rt, program, name, open_read(rt, name))?;
    Some(Card {
        program,
        name,
        stream,
    })
}

pub(crate) fn standard_output(program: Program) -> Target<'static>
    ensures { (length result.name.now ≤ 4096) × (result.temporary ≡ None) }
{
    Target {
        program,
        name: b"standard output",
        temporary: None,
        stream: Stream::StandardOutput,
    }
}

// The name that a file has until it is whole: its own, a full stop and the number of the process.
#[tactic(auto, using(card::proofs::Writing::appending))]
fn put_temporary<'a>(rt: &HostRuntime, buf: &'a mut [u8], name: &[u8]) -> &'a [u8]
    requires { (length buf.old ≡ 4096) × (length name.now ≤ 4000) }
    ensures { length result.now ≤ 4096 }
{
    let mut text = Text::new(buf);
    text.put_bytes(name);
    text.put_byte(b'.');
    text.put_decimal(process_number(rt));
    let n = text.as_bytes().len();
    &text.into_lent()[..n]
}

// The number of this process.
fn process_number(rt: &HostRuntime) -> u64 {
    process::id(rt.process()) as u64
}

// Makes a new file beside the named one, to take its name once it is whole. Where it can't be made that is said.
fn make_beside<'a>(
    rt: &HostRuntime,
    program: Program,
    name: &'a [u8],
    buf: &'a mut [u8],
) -> Option<Target<'a>>
    requires { (length name.now ≤ 4096) × (length buf.old ≡ 4096) }
    ensures { IfSome result (λ t. (length t.name.now ≤ 4096) × IfSome t.temporary (λ n. length n.now ≤ 4096)) }
{
    if is_device(name) {
        say_name(rt, program);
        say(rt, name);
        say(
            rt,
            b": -o makes a new file, and does not replace a device\n",
        );
        return None;
    }
    if name.len() > LONGEST_NAME {
        say_name(rt, program);
        say(rt, name);
        say(rt, b": the name is too long\n");
        return None;
    }
    let temporary = put_temporary(rt, buf, name);
    let stream = ok_or_said(rt, program, temporary, create(rt, temporary))?;
    Some(Target {
        program,
        name,
        temporary: Some(temporary),
        stream,
    })
}

// Opens the file to write: a new one beside that which argument `place` names, or standard output where there is none, or a hyphen. Its names
// go into the buffers.
pub fn open_target<'a>(
    rt: &HostRuntime,
    program: Program,
    place: Option<usize>,
    buf: &'a mut [u8],
    temporary: &'a mut [u8],
) -> Option<Target<'a>>
    requires { (length buf.old ≡ 4096) × (length temporary.old ≡ 4096) }
    ensures { IfSome result (λ t. (length t.name.now ≤ 4096) × IfSome t.temporary (λ n. length n.now ≤ 4096)) }
{
    let Some(at) = place else {
        return Some(standard_output(program));
    };
    let name = ok_or_said(
        rt,
        program,
        b"the name of the output",
        argument_or(rt, at, buf),
    )?;
    if is_standard(place, name) {
        return Some(standard_output(program));
    }
    make_beside(rt, program, name, temporary)
}

// Flushes a new file to the disk and gives it its name. Whatever fails, the file that had the name is as it was.
fn give_name(rt: &HostRuntime, to: Stream, name: &[u8], temporary: &[u8]) -> io::Result<()> {
    flush(&to)?;
    close(rt, to)?;
    rename(rt, temporary, name)
}

// Ends a file that is whole: the input has ended, and every read and write succeeded. Answers whether it stands under its name.
pub fn publish(rt: &HostRuntime, i: Input, o: Output, to: Target) -> bool
    requires { (has_ended i ≡ true) × (o.ok ≡ true) }
{
    let Target {
        program,
        name,
        temporary,
        stream,
    } = to;
    let ended = match temporary {
        Some(temporary) => give_name(rt, stream, name, temporary),
        None => close(rt, stream),
    };
    if ok_or_said(rt, program, name, ended).is_some() {
        return true;
    }
    if let Some(temporary) = temporary {
        let _ = unlink(rt, temporary);
    }
    false
}

// Removes a file that is not whole. What was written on standard output stays there.
pub fn discard(rt: &HostRuntime, to: Target) {
    let temporary = to.temporary;
    drop(to);
    if let Some(temporary) = temporary {
        let _ = unlink(rt, temporary);
    }
}

// The status of a program that has written to standard output: not done where that can't be closed, since some systems tell of a failed
// write only then.
pub fn close_output(rt: &HostRuntime, p: Program, s: Status) -> Status
    ensures { (result ≡ s) ⊎ (result ≡ NotDone) }
{
    if let Status::NotDone = s {
        return Status::NotDone;
    }
    let closed = close(rt, Stream::StandardOutput);
    match ok_or_said(rt, p, b"standard output", closed) {
        Some(()) => s,
        None => Status::NotDone,
    }
}

// 4,096 zeros, which hold any name of a file.
pub fn buffer() -> [u8; 4096]
    ensures { 4096 ≡ length result }
{
    [0; 4096]
}

// The first n bytes of a buffer.
pub fn front(bytes: &[u8], n: usize) -> &[u8]
    requires { n ≤ length bytes.now }
    ensures { result.now ≡ take n bytes.now }
{
    &bytes[..n]
}
