// Writing. An `Output` is made by `Output::new` and `write_part` alone, and a write requires that the one before it succeeded: a failed write
// cannot be forgotten.
ghost use Rattle.std.specs.Prelude.{◌≡◌, true, ◌+◌, ◌<◌, ◌^◌, length};
ghost use Rattle.programs.specs.Stream.{unwritten, Wrote, is_well};

use crate::files::{Target, standard_output};
use crate::input::Input;
use crate::message::{Program, say_failure};
use crate::stream::{no_cause, write};

// How many bytes were written in all, and whether every write succeeded.
#[derive(Clone, Copy)]
pub struct Output {
    written: u64,
    ok: bool,
}

impl Output {
    // Nothing has been written.
    pub fn new() -> Output
        ensures { result ≡ unwritten }
    {
        Output {
            written: 0,
            ok: true,
        }
    }

    // Has every write succeeded?
    pub fn ok(self) -> bool
        ensures { result ≡ self.ok }
    {
        self.ok
    }
}

// Writes all of the part, or up to a write that fails, which is said.
pub fn write_part(rt: &HostRuntime, to: &Target, o: Output, part: &[u8]) -> Output
    requires { (o.ok ≡ true) × (o.written + length part.now < 2 ^ 64) }
    ensures { Wrote o (length part.now) result }
{
    let mut cause = no_cause();
    let mut done = 0;
    while done < part.len() {
        match write(rt, &to.stream, &part[done..], &mut cause) {
            Ok(n) => done += n,
            Err(e) => {
                say_failure(rt, to.program, to.name, e);
                return Output {
                    written: o.written,
                    ok: false,
                };
            }
        }
    }
    Output {
        written: o.written + done as u64,
        ok: true,
    }
}

// The same on standard output.
pub fn print_part(rt: &HostRuntime, p: Program, o: Output, part: &[u8]) -> Output
    requires { (o.ok ≡ true) × (o.written + length part.now < 2 ^ 64) }
    ensures { Wrote o (length part.now) result }
{
    write_part(rt, &standard_output(p), o, part)
}

// Has every read and write succeeded?
pub fn is_well(i: Input, o: Output) -> bool
    ensures { result ≡ is_well i o }
{
    o.ok() && !i.failed()
}
