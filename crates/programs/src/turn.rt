// From batch to batch: what a program carries that counts slots.
ghost use Rattle.std.specs.Prelude.{◌≡◌};
ghost use Rattle.programs.specs.Batches.{is_whole};
ghost use Rattle.programs.specs.inner.Turns.{Begun, can_go_on};

use crate::input::Input;
use crate::output::Output;
use card::{Progress, Totals};

// What has been counted over the slots, and what was read and written.
#[derive(Clone, Copy)]
pub struct Turn<T> {
    pub counts: T,
    pub input: Input,
    pub output: Output,
}

impl<T: Copy> Turn<T> {
    // Can another batch be read, and what is made of it be written?
    pub fn goes_on(self) -> bool
        ensures { result ≡ can_go_on self }
    {
        self.input.going() && self.output.ok()
    }

    // Has the input ended, and every write succeeded?
    pub fn is_whole(self) -> bool
        ensures { result ≡ is_whole self }
    {
        self.input.ended() && self.output.ok()
    }
}

// Before the first slot.
pub fn begin() -> Turn<Progress>
    ensures { Begun result }
{
    Turn {
        counts: Progress {
            next: 1,
            totals: Totals {
                accepted: 0,
                refused: 0,
                changed: 0,
            },
        },
        input: Input::new(),
        output: Output::new(),
    }
}
