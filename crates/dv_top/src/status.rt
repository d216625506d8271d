// The exit status of a call.
ghost use Rattle.std.specs.Prelude.{◌≡◌};

use dv_defs::{End, Ending};

/// The exit status of a call, with the number that the system sees. 7 and 8 were other endings once, and aren't used again.
#[derive(Clone, Copy, PartialEq, Eq, Debug)]
pub enum Status {
    /// The run ended, and its first thread returned; or the program was listed, or accepted.
    Done = 0,
    /// The run ended, and its first thread died of an exception.
    Uncaught = 1,
    /// The words aren't read.
    Usage = 2,
    /// The source failed.
    ReadFault = 3,
    /// The sink failed.
    WriteFault = 4,
    /// Reading, assembling or linking refused the text.
    BadText = 5,
    /// The verifier refused the program.
    Refused = 6,
    /// No thread is runnable.
    Blocked = 9,
    /// The budget of steps or of printed bytes is spent.
    Spent = 10,
    /// Memory is wanting.
    NoMemory = 11,
    /// The given schedule is refused.
    Schedule = 12,
    /// The text is too large.
    TooLarge = 13,
}

impl Status {
    ghost use Rattle.dv_top.specs.Runs.{status_by, status_by_end};
    ghost use Rattle.dv_top.specs.Status.{code_of};

    /// The number of the status.
    pub fn code(self) -> u8
        ensures { result ≡ code_of self }
    {
        self as u8
    }

    /// The status of a run that ended so, by how its first thread ended.
    pub fn of(ending: Ending, first: Option<End>) -> Status
        ensures { result ≡ status_by ending first }
    {
        match ending {
            Ending::Done => Status::by_end(first),
            Ending::NoRunnable => Status::Blocked,
            Ending::Steps | Ending::Output => Status::Spent,
        }
    }

    /// The status of a run of which no thread is left, by how its first one ended.
    fn by_end(first: Option<End>) -> Status
        ensures { result ≡ status_by_end first }
    {
        match first {
            Some(End::Died(_)) => Status::Uncaught,
            _ => Status::Done,
        }
    }
}
