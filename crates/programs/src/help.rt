// What the programs say of themselves, on standard output, and what they say of arguments that they do not take.
ghost use Rattle.std.specs.Prelude.{◌≤◌};
ghost use Rattle.programs.specs.Arguments.{Printed, Explained};

use crate::arguments::{Asked, MOST_ARGUMENTS, Role, Takes, ask};
use crate::message::{Program, say, say_name, say_usage, say_wrong};
use crate::output::{Output, print_part};
use crate::status::{Status, done_where};
use card::text::Text;

impl Program {
    // How the program is called, and what it does.
    pub(crate) fn help(self) -> &'static str {
        match self {
            Program::List => {
                "usage: cardlist [FILE]
Lists the records of the card FILE, a line for each: its number, its byte 0, the refusal number or 0,
and the number of changed places. The last line has the totals. No FILE, or -, is standard input.
Status: 0 listed; 2 not all of the card could be read, or not all of the listing written.
"
            }
            Program::Restore => {
                "usage: cardrestore [-o OUT] [--reach 0|1|2] [FILE]
Restores the records of the card FILE, and writes the restored card to standard output, or to the
file OUT, which may be FILE: it is replaced only once the whole card is written. Counts go to
standard error. --reach allows fewer wrong symbols in a record. No FILE, or -, is standard input.
Status: 0 every record restored; 1 done, but some record was refused and is as it was; 2 not done.
"
            }
            Program::Check => {
                "usage: cardcheck [FILE]
Checks the card FILE: prints ok, or the number of the first record that would be refused, its refusal
number and the reason. No FILE, or -, is standard input.
Status: 0 ok; 1 a record would be refused; 2 the card could not be read to its end.
"
            }
            Program::Convert => {
                "usage: cardconvert to-new|to-old [-o OUT] [FILE]
Converts the card FILE into the new or the old edition, and writes it to standard output, or to the
file OUT, which may be FILE: it is replaced only once the whole card is written. FILE is read twice.
A card that is refused leaves nothing. No FILE, or -, is standard input, which must be a file.
Status: 0 converted; 2 not done.
"
            }
            Program::Starts => {
                "usage: cardstarts FIRST END [FILE]
Prints a table of the starts of each pump from the quarter hour FIRST until END (0 to 96, or hh:mm),
over the day sheets of the card FILE. No FILE, or -, is standard input.
Status: 0 done; 2 not done.
"
            }
            Program::Sheets => {
                "usage: cardsheets [FILE]
Prints the day sheets of the card FILE as CSV: a header, then a line for each sheet with its slot, its
date, its pump, the number of changed places, and the starts in each quarter hour. Counts go to
standard error. No FILE, or -, is standard input.
Status: 0 every record is a day sheet; 1 done, but some record is none; 2 not done.
"
            }
            Program::Write => {
                "usage: cardwrite [-o OUT] [FILE]
Makes a card of the day sheets in the CSV text FILE: a header as cardsheets prints it, or without slot
and changed, then a line for each sheet. The card goes to standard output, or to the file OUT, which
is replaced only once the whole card is written. A text of which a line is refused leaves nothing,
but from a pipe to standard output the records before it. No FILE, or -, is standard input.
Status: 0 written; 2 not done.
"
            }
            Program::Look => {
                "usage: cardlook N [FILE]
Shows record N of the card FILE: its width, erasures and syndromes, what restoring would change, place
by place, and where it is a day sheet its date, its pump and the starts by the hour. The card is only
read. No FILE, or -, is standard input.
Status: 0 shown; 1 shown, and the record would be refused; 2 not done.
"
            }
            Program::Compare => {
                "usage: cardcompare N FILE M FILE
Compares two day sheets of one pump and date: record N of the first FILE, the controller's card, and
record M of the second, that of the meter cupboard. Prints the starts of both, in how many quarter
hours the counts are equal or either is higher, which sheet is chosen, and each quarter hour in which
the counts differ. The cards are only read. One FILE may be -, standard input.
Status: 0 compared, all counts are equal; 1 compared, some count differs; 2 not done.
"
            }
        }
    }
}

// Writes a text on standard output.
fn print(rt: &HostRuntime, p: Program, text: &[u8]) -> Status
    ensures { Printed result }
{
    done_where(print_part(rt, p, Output::new(), text).ok())
}

// The program's name and version.
fn print_version(rt: &HostRuntime, p: Program) -> Status
    ensures { Printed result }
{
    let mut out = [0u8; 32];
    let mut text = Text::new(&mut out);
    text.put_bytes(p.name());
    text.put_bytes(b" 0.1.0\n");
    print(rt, p, text.as_bytes())
}

// Answers arguments that ask for no run.
pub fn explain(rt: &HostRuntime, p: Program, asked: Asked) -> Status
    ensures { Explained asked result }
{
    match asked {
        Asked::Help => print(rt, p, p.help().as_bytes()),
        Asked::Version => print_version(rt, p),
        Asked::Wrong(i) => {
            say_wrong(rt, p, b"can't take the argument ", i);
            Status::NotDone
        }
        _ => {
            say_name(rt, p);
            say(rt, b"an argument is missing\n");
            say_usage(rt, p);
            Status::NotDone
        }
    }
}

// Runs a program by its arguments: the body is given their roles where they ask for a run.
pub fn run_asked<F: FnOnce(&[Role]) -> Status>(
    rt: &HostRuntime,
    p: Program,
    takes: Takes,
    body: F,
) -> Status
    requires most { takes.most ≤ 4 }
    requires body { F.IsAlwaysCallable body }
{
    let mut roles = [Role::Name; MOST_ARGUMENTS];
    match ask(rt, &mut roles, takes) {
        Asked::Run => body(&roles),
        asked => explain(rt, p, asked),
    }
}
