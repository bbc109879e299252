// Restores a card: the restored card, of the same length, on standard output or in a file of its own, and one line on standard error. How
// a part of it is restored and counted is the walk crate's; here the card is read and written batch by batch.
ghost use Rattle.std.specs.Prelude.{◌≡◌, true, length, ◌^◌};
ghost use Rattle.walk.specs.Restored.{restored_up_to};
ghost use Rattle.programs.specs.Stream.{Wrote};
ghost use Rattle.programs.specs.Restore.{RestoresBatch, RestoresCard, restore_status, EndsRestoring};
ghost use Rattle.programs.specs.Batches.{is_whole};
ghost use Rattle.programs.specs.inner.Turns.{BatchReady, CanWrite};
ghost use Rattle.programs.specs.inner.Restores.{RestoresPart};
ghost use Rattle.card.specs.inner.Room.{Within};
ghost use Rattle.walk.specs.inner.Parts.{Sound};

use crate::arguments::{Role, Takes, argument, place_of, reach_in};
use crate::files::{Card, Target, buffer, discard, open_card, open_target, publish};
use crate::help::run_asked;
use crate::input::read_batch;
use crate::message::{Program, say, say_old, say_wrong};
use crate::output::{Output, write_part};
use crate::status::Status;
use crate::turn::{Turn, begin};
use card::records::LONGEST_REACH;
use card::text::Text;
use card::{BATCH, MOST_BATCHES, Progress};
use walk::counting::{put_restored, restore_counting};

// Writes a part of a card that was restored: restoring it again would change nothing.
fn write_restored(rt: &HostRuntime, to: &Target, o: Output, part: &[u8], most: u8) -> Output
    requires { CanWrite o (length part.now) × (restored_up_to most part.now ≡ part.now) }
    ensures { Wrote o (length part.now) result }
{
    write_part(rt, to, o, part)
}

// How far the counting has come, and what was written.
#[derive(Clone, Copy)]
pub struct Restored {
    pub progress: Progress,
    pub output: Output,
}

// Restores some slots, goes on with the counts, and writes them.
fn restore_part(
    rt: &HostRuntime,
    to: &Target,
    part: &mut [u8],
    s: Progress,
    o: Output,
    most: u8,
) -> Restored
    requires { Within (2 ^ 62) s × CanWrite o (length part.old) }
    ensures { RestoresPart most s o part.old result }
{
    let progress = restore_counting(part, most, s);
    let output = write_restored(rt, to, o, part, most);
    Restored { progress, output }
}

// Restores a batch of at most 400 slots.
fn restore_batch(
    rt: &HostRuntime,
    card: &Card,
    to: &Target,
    t: Turn<Progress>,
    most: u8,
) -> Turn<Progress>
    requires { BatchReady t }
    ensures { RestoresBatch most t result }
{
    let mut batch = [0u8; BATCH];
    let input = read_batch(rt, card, t.input, &mut batch);
    let part = &mut batch[..input.count()];
    let restored = restore_part(rt, to, part, t.counts, t.output, most);
    Turn {
        counts: restored.progress,
        input,
        output: restored.output,
    }
}

// Restores batch after batch until the input ends, or a read or write fails.
fn restore_card(rt: &HostRuntime, card: &Card, to: &Target, most: u8) -> Turn<Progress>
    ensures { RestoresCard most result }
{
    let mut t = begin();
    for _ in 0..MOST_BATCHES {
        if !t.goes_on() {
            return t;
        }
        t = restore_batch(rt, card, to, t, most);
    }
    t
}

// Says what was done, once the whole card is written.
fn say_restored(rt: &HostRuntime, t: Turn<Progress>)
    requires { (is_whole t ≡ true) × Sound t.counts }
{
    let mut out = [0u8; 118];
    let mut text = Text::new(&mut out);
    put_restored(&mut text, t.counts);
    say(rt, text.as_bytes());
}

// How the restoring of a whole card ended.
fn status_of(t: Turn<Progress>) -> Status
    requires { is_whole t ≡ true }
    ensures { result ≡ restore_status t }
{
    if t.counts.totals.refused == 0 {
        Status::Done
    } else {
        Status::AnsweredNo
    }
}

// Ends the restoring: the file gets its name where every read and write succeeded, and is removed where one failed. Nothing is said before:
// where standard error was closed, its number may be the file's.
fn end_restoring(rt: &HostRuntime, t: Turn<Progress>, card: &Card, to: Target) -> Status
    requires { Sound t.counts }
    ensures { EndsRestoring t result }
{
    if !t.is_whole() {
        discard(rt, to);
        return Status::NotDone;
    }
    if !publish(rt, t.input, t.output, to) {
        return Status::NotDone;
    }
    say_old(rt, Program::Restore, card.name, t.input.total());
    say_restored(rt, t);
    status_of(t)
}

// Restores the card that is open into the file that argument `to` names, with this longest reach.
fn restore_to(rt: &HostRuntime, card: &Card, to: Option<usize>, most: u8) -> Status {
    let mut name = buffer();
    let mut temporary = buffer();
    let Some(target) = open_target(rt, Program::Restore, to, &mut name, &mut temporary) else {
        return Status::NotDone;
    };
    let t = restore_card(rt, card, &target, most);
    end_restoring(rt, t, card, target)
}

// Restores the card that argument `place` names.
fn restore_named(rt: &HostRuntime, place: Option<usize>, to: Option<usize>, most: u8) -> Status {
    let mut name = buffer();
    let Some(card) = open_card(rt, Program::Restore, place, &mut name) else {
        return Status::NotDone;
    };
    restore_to(rt, &card, to, most)
}

// The longest reach that argument `place` names, where it names one.
fn reach_at(rt: &HostRuntime, place: usize) -> Option<u8> {
    reach_in(argument(rt, place, &mut [0; 8]))
}

// Restores by the arguments that have these roles.
fn restore_asked(rt: &HostRuntime, roles: &[Role]) -> Status {
    let mut most = LONGEST_REACH;
    if let Some(place) = place_of(roles, Role::ReachValue, 1) {
        let Some(reach) = reach_at(rt, place) else {
            say_wrong(rt, Program::Restore, b"--reach is 0, 1 or 2, not ", place);
            return Status::NotDone;
        };
        most = reach;
    }
    restore_named(
        rt,
        place_of(roles, Role::Operand, 1),
        place_of(roles, Role::OutValue, 1),
        most,
    )
}

// The program.
pub fn run(rt: &HostRuntime) -> Status {
    let takes = Takes {
        out: true,
        reach: true,
        ..Takes::operands(0, 1)
    };
    run_asked(
        rt,
        Program::Restore,
        takes,
        |roles| restore_asked(rt, roles),
    )
}
