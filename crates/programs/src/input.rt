// Reading a card batch by batch. An `Input` is made by `Input::new` and `read_batch` alone, since its fields are private: one that has ended
// was read to its end.
ghost use Rattle.std.specs.Prelude.{◌≡◌, true, false, ◌+◌, ◌<◌, ◌^◌, length};
ghost use Rattle.programs.specs.Stream.{unread, has_ended, Reads};

use crate::files::Card;
use crate::message::say_failure;
use crate::stream::read;

// How many bytes were read in all and in the last batch, whether the input may go on, and whether a read failed.
#[derive(Clone, Copy)]
pub struct Input {
    read: u64,
    count: usize,
    going: bool,
    failed: bool,
}

impl Input {
    // Nothing has been read.
    pub fn new() -> Input
        ensures { result ≡ unread }
    {
        Input {
            read: 0,
            count: 0,
            going: true,
            failed: false,
        }
    }

    // The bytes of the last batch.
    pub fn count(self) -> usize
        ensures { result ≡ self.count }
    {
        self.count
    }

    // The bytes of all batches.
    pub fn total(self) -> u64
        ensures { result ≡ self.read }
    {
        self.read
    }

    // May the card go on?
    pub fn going(self) -> bool
        ensures { result ≡ self.going }
    {
        self.going
    }

    // Has a read failed?
    pub fn failed(self) -> bool
        ensures { result ≡ self.failed }
    {
        self.failed
    }

    // Has the input ended without a read that failed?
    pub fn ended(self) -> bool
        ensures { result ≡ has_ended self }
    {
        !self.going && !self.failed
    }
}

// Reads until the buffer is full, the input ends or a read fails, which is said.
pub fn read_batch(rt: &HostRuntime, card: &Card, i: Input, buf: &mut [u8]) -> Input
    requires { (i.going ≡ true) × (i.failed ≡ false) × (i.read + length buf.old < 2 ^ 64) }
    ensures { Reads i buf.old result buf.new }
{
    let mut count = 0;
    let mut failed = false;
    while count < buf.len() {
        match read(rt, &card.stream, &mut buf[count..]) {
            Ok(0) => break,
            Ok(n) => count += n,
            Err(e) => {
                say_failure(rt, card.program, card.name, e);
                failed = true;
                break;
            }
        }
    }
    Input {
        read: i.read + count as u64,
        count,
        going: count == buf.len(),
        failed,
    }
}
