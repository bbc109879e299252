// How a program ends.
ghost use Rattle.std.specs.Prelude.{◌≡◌, cond, ◌≤◌};
ghost use Rattle.programs.specs.Status.{status_number};
ghost use Rattle.programs.specs.declared.status.Status.TheVariants.{Done, NotDone};

#[derive(Clone, Copy)]
pub enum Status {
    // done
    Done = 0,
    // done, and what was asked is answered no
    AnsweredNo = 1,
    // not done
    NotDone = 2,
}

// The number that the process ends with.
pub fn status_number(s: Status) -> u8
    ensures value { result ≡ status_number s }
    ensures upper_bound { result ≤ 2 }
{
    s as u8
}

// Done, or not.
pub fn done_where(done: bool) -> Status
    ensures { result ≡ cond done Done NotDone }
{
    if done { Status::Done } else { Status::NotDone }
}
