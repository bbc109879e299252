// What the programs read from and write to, and single calls of the system on it.
ghost use Rattle.std.specs.Prelude.{◌≤◌, length, IfOk};

use std::fs::File;
use std::io::{Read, Seek, SeekFrom, Write};
use std::os::fd::{AsFd, AsRawFd};
use std::os::unix::fs::FileTypeExt;
use std::{fs, io};

// A standard stream, or a file that was opened by its name.
#[derive(Drop)]
pub enum Stream {
    StandardInput,
    StandardOutput,
    Named(File),
}

const STDERR_FILENO: i32 = 2;

// Linux's numbers of causes.
const EINTR: i32 = 4;

const EBADF: i32 = 9;

const EINVAL: i32 = 22;

const ESPIPE: i32 = 29;

const ENAMETOOLONG: i32 = 36;

const EILSEQ: i32 = 84;

// The files that are standard input and standard output, and what the system tells of standard input: std seeks on no standard stream, and
// flushes none.
const INPUT: &str = "/proc/self/fd/0";

const OUTPUT: &str = "/proc/self/fd/1";

const ABOUT_INPUT: &str = "/proc/self/fdinfo/0";

// Before the first call that fails.
pub(crate) fn no_cause() -> io::Error {
    io::Error::from_raw_os_error(0)
}

// No such descriptor is open.
fn not_open() -> io::Error {
    io::Error::from_raw_os_error(EBADF)
}

// An argument is missing, and one is too long.
pub(crate) fn missing() -> io::Error {
    io::Error::from_raw_os_error(EINVAL)
}

pub(crate) fn too_long() -> io::Error {
    io::Error::from_raw_os_error(ENAMETOOLONG)
}

// ---- reading and writing

// A call that a signal interrupts is repeated. The loop must end, and so many signals do not come.
const MOST_TRIES: u64 = 1152921504606846976;

// One read, repeated where a signal interrupted it. No bytes are the end of the input.
pub(crate) fn read(rt: &HostRuntime, from: &Stream, buf: &mut [u8]) -> io::Result<usize>
    ensures { IfOk result (λ n. n ≤ length buf.new) }
{
    for _ in 0..MOST_TRIES {
        match read_once(rt, from, buf) {
            Err(e) if e.kind() == io::ErrorKind::Interrupted => {}
            answer => return answer,
        }
    }
    Err(io::Error::from_raw_os_error(EINTR))
}

fn read_once(rt: &HostRuntime, from: &Stream, buf: &mut [u8]) -> io::Result<usize>
    ensures { IfOk result (λ n. n ≤ length buf.new) }
{
    match from {
        Stream::StandardInput => rt.stdin().read(buf),
        Stream::Named(file) => {
            let mut input = file;
            input.read(buf)
        }
        _ => Err(not_open()),
    }
}

// One write, repeated where a signal interrupted it: how many bytes were taken, some at least. One that takes none fails by the cause before it.
pub(crate) fn write(
    rt: &HostRuntime,
    to: &Stream,
    part: &[u8],
    cause: &mut io::Error,
) -> io::Result<usize>
    ensures { IfOk result (λ n. (1 ≤ n) × (n ≤ length part.now)) }
{
    for _ in 0..MOST_TRIES {
        match write_once(rt, to, part) {
            Ok(0) => return Err(*cause),
            Err(e) if e.kind() == io::ErrorKind::Interrupted => *cause = e,
            answer => return answer,
        }
    }
    Err(io::Error::from_raw_os_error(EINTR))
}

fn write_once(rt: &HostRuntime, to: &Stream, part: &[u8]) -> io::Result<usize>
    ensures { IfOk result (λ n. n ≤ length part.now) }
{
    match to {
        Stream::StandardOutput => rt.write_some(part),
        Stream::Named(file) => {
            let mut output = file;
            output.write(part)
        }
        _ => Err(not_open()),
    }
}

// ---- the place in a file

// Where the stream stands in its file; fails where it has no such place.
pub(crate) fn place(rt: &HostRuntime, s: &Stream) -> io::Result<u64> {
    match s {
        Stream::StandardInput => place_of_input(rt),
        Stream::Named(file) => {
            let mut handle = file;
            handle.seek(SeekFrom::Current(0))
        }
        _ => Err(not_open()),
    }
}

// The place of standard input, where it is a file that can be opened again. One file at most is open for that at a time.
fn place_of_input(rt: &HostRuntime) -> io::Result<u64> {
    check_open(rt, &Stream::StandardInput)?;
    let kind = fs::metadata(rt, INPUT)?.file_type();
    if kind.is_fifo() || kind.is_socket() {
        return Err(io::Error::from_raw_os_error(ESPIPE));
    }
    check_seek(rt)?;
    let mut about = fs::open(rt, ABOUT_INPUT)?;
    let mut text = [0u8; 256];
    let n = about.read(&mut text)?;
    place_said(&text[..n]).ok_or(io::Error::from_raw_os_error(ESPIPE))
}

// Fails where standard input can't be opened again, or has no place.
fn check_seek(rt: &HostRuntime) -> io::Result<()> {
    let mut again = fs::open(rt, INPUT)?;
    again.seek(SeekFrom::Current(0))?;
    Ok(())
}

// The place that the first line says.
fn place_said(text: &[u8]) -> Option<u64> {
    let (line, _) = str::from_utf8(text).ok()?.split_once('\n')?;
    line.strip_prefix("pos:")?.trim().parse().ok()
}

// Goes back to this place; that the system puts the stream at another has no cause of its own. Standard input is opened again for that.
pub(crate) fn return_to(rt: &HostRuntime, s: &mut Stream, at: u64) -> io::Result<()> {
    if matches!(s, Stream::StandardInput) {
        *s = Stream::Named(open_again(rt)?);
    }
    match s {
        Stream::Named(file) => {
            if file.seek(SeekFrom::Start(at))? == at {
                Ok(())
            } else {
                Err(no_cause())
            }
        }
        _ => Err(not_open()),
    }
}

// Standard input opened again, under none of the numbers of the standard streams: one that is closed stays closed.
fn open_again(rt: &HostRuntime) -> io::Result<File> {
    let first = fs::open(rt, INPUT)?;
    if first.as_raw_fd() > STDERR_FILENO {
        return Ok(first);
    }
    let second = fs::open(rt, INPUT)?;
    if second.as_raw_fd() > STDERR_FILENO {
        return Ok(second);
    }
    fs::open(rt, INPUT)
}

// ---- standard streams

// Fails where the standard stream is closed. That there is no number left for a copy tells that it is open.
pub(crate) fn check_open(rt: &HostRuntime, s: &Stream) -> io::Result<()> {
    match copied(rt, s) {
        Err(e) if e.raw_os_error() == Some(EBADF) => Err(e),
        _ => Ok(()),
    }
}

// A copy of the standard stream's descriptor is made, and closed again.
fn copied(rt: &HostRuntime, s: &Stream) -> io::Result<()> {
    match s {
        Stream::StandardInput => {
            rt.stdin().as_fd().try_clone_to_owned()?;
            Ok(())
        }
        Stream::StandardOutput => {
            rt.stdout().as_fd().try_clone_to_owned()?;
            Ok(())
        }
        _ => Ok(()),
    }
}

// ---- files by name

// The name as std takes it: one that is no UTF-8 names no file that std could open.
fn name_of(name: &[u8]) -> io::Result<&str> {
    str::from_utf8(name).or(Err(io::Error::from_raw_os_error(EILSEQ)))
}

// Opens a file to read.
pub(crate) fn open_read(rt: &HostRuntime, name: &[u8]) -> io::Result<Stream> {
    Ok(Stream::Named(fs::open(rt, name_of(name)?)?))
}

// Makes a new file to write.
pub(crate) fn create(rt: &HostRuntime, name: &[u8]) -> io::Result<Stream> {
    let file = fs::OpenOptions::new()
        .write(true)
        .create_new(true)
        .open(rt, name_of(name)?)?;
    Ok(Stream::Named(file))
}

// Flushes a file to the disk.
pub(crate) fn flush(s: &Stream) -> io::Result<()> {
    match s {
        Stream::Named(file) => file.sync_all(),
        _ => Err(not_open()),
    }
}

// Closes what was written. std does not say whether that fails, so that standard output is flushed to the disk before where it is a file: a
// write that fails only then is told by that.
pub(crate) fn close(rt: &HostRuntime, s: Stream) -> io::Result<()> {
    match s {
        Stream::StandardOutput => {
            check_open(rt, &Stream::StandardOutput)?;
            flush_output(rt)
        }
        _ => Ok(()),
    }
}

// Flushes standard output to the disk where it is a file that can be opened again and be flushed.
fn flush_output(rt: &HostRuntime) -> io::Result<()> {
    let Ok(about) = fs::metadata(rt, OUTPUT) else {
        return Ok(());
    };
    if !about.is_file() {
        return Ok(());
    }
    let Ok(again) = fs::OpenOptions::new().write(true).open(rt, OUTPUT) else {
        return Ok(());
    };
    match again.sync_all() {
        Err(e) if e.raw_os_error() != Some(EINVAL) => Err(e),
        _ => Ok(()),
    }
}

pub(crate) fn rename(rt: &HostRuntime, from: &[u8], to: &[u8]) -> io::Result<()> {
    fs::rename(rt, name_of(from)?, name_of(to)?)
}

pub(crate) fn unlink(rt: &HostRuntime, name: &[u8]) -> io::Result<()> {
    fs::remove_file(rt, name_of(name)?)
}
