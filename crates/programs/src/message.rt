// What the programs say on standard error.
ghost use Rattle.std.specs.Prelude.{◌≡◌, ◌≤◌, length};
ghost use Rattle.std.specs.Result.{result_ok};
ghost use Rattle.programs.specs.Stream.{looks_old};

use crate::arguments::argument;
use crate::files::{buffer, front};
use card::text::Text;
use std::io;
use std::io::{Cursor, Write};

// The programs.
#[derive(Clone, Copy)]
pub enum Program {
    List,
    Restore,
    Check,
    Convert,
    Starts,
    Sheets,
    Write,
    Look,
    Compare,
}

impl Program {
    pub fn name(self) -> &'static [u8]
        ensures { length result.now ≤ 11 }
    {
        match self {
            Program::List => b"cardlist",
            Program::Restore => b"cardrestore",
            Program::Check => b"cardcheck",
            Program::Convert => b"cardconvert",
            Program::Starts => b"cardstarts",
            Program::Sheets => b"cardsheets",
            Program::Write => b"cardwrite",
            Program::Look => b"cardlook",
            Program::Compare => b"cardcompare",
        }
    }
}

// Writes a text on standard error. Where that fails there is nobody left to tell.
pub fn say(rt: &HostRuntime, text: &[u8]) {
    let _ = rt.stderr().write_all(text);
}

// The program's name, which each message begins with.
#[tactic(auto, using(card::proofs::Writing::appending))]
pub fn say_name(rt: &HostRuntime, p: Program) {
    let mut out = [0u8; 13];
    let mut text = Text::new(&mut out);
    text.put_bytes(p.name());
    text.put_bytes(b": ");
    say(rt, text.as_bytes());
}

// Says that a call on the file has failed, and why.
pub fn say_failure(rt: &HostRuntime, p: Program, file: &[u8], cause: io::Error) {
    say_name(rt, p);
    say(rt, file);
    say(rt, b": ");
    say_cause(rt, cause);
    say(rt, b"\n");
}

// What a call on the file answered; where it has failed that is said.
pub(crate) fn ok_or_said<T>(
    rt: &HostRuntime,
    p: Program,
    file: &[u8],
    answer: io::Result<T>,
) -> Option<T>
    ensures { result ≡ result_ok answer }
{
    match answer {
        Ok(x) => Some(x),
        Err(e) => {
            say_failure(rt, p, file, e);
            None
        }
    }
}

// Says the system's words for a cause, without its number.
fn say_cause(rt: &HostRuntime, cause: io::Error) {
    let mut words = Cursor::new([0u8; 256]);
    let _ = write!(words, "{cause}");
    let n = words.position() as usize;
    let text = words.into_inner();
    if n > text.len() {
        return;
    }
    let Ok(all) = str::from_utf8(front(&text, n)) else {
        return;
    };
    let reason = match all.split_once(" (os error ") {
        Some((reason, _)) => reason,
        None => all,
    };
    say(rt, reason.as_bytes());
}

// Says a number.
#[tactic(auto, using(card::proofs::Writing::appending))]
pub(crate) fn say_decimal(rt: &HostRuntime, n: u64) {
    let mut out = [0u8; 20];
    let mut digits = Text::new(&mut out);
    digits.put_decimal(n);
    say(rt, digits.as_bytes());
}

// Says how the program is called: the first line of its help.
pub fn say_usage(rt: &HostRuntime, p: Program) {
    if let Some(usage) = p.help().split_inclusive('\n').next() {
        say(rt, usage.as_bytes());
    }
}

// Says what is wrong with argument i.
pub fn say_wrong(rt: &HostRuntime, p: Program, what: &[u8], i: usize) {
    say_name(rt, p);
    say(rt, what);
    say(rt, argument(rt, i, &mut buffer()));
    say(rt, b"\n");
    say_usage(rt, p);
}

// Says that a card of so many bytes looks like one of the old edition, where it does.
pub fn say_old(rt: &HostRuntime, p: Program, file: &[u8], bytes: u64) {
    if looks_old(bytes) {
        say_name(rt, p);
        say(rt, file);
        say(
            rt,
            b": no whole number of slots of 139 bytes, but one of 138: an old card? see cardconvert\n",
        );
    }
}

// Is a card of so many bytes no whole number of slots, but one of slots of the old edition?
fn looks_old(bytes: u64) -> bool
    ensures { result ≡ looks_old bytes }
{
    bytes % 139 != 0 && bytes % 138 == 0
}
