ghost use Rattle.std.specs.Prelude.{◌≡◌};
ghost use Rattle.seh.specs.Statuses.{code_of, status_of, meaning_status, verdict_status, entries_status};

use seh_num::end::RunEnd;
use source_meaning::ended::Ended;
use unwind_check::Verdict;

/// What the program ended with.
#[derive(Clone, Copy, Debug, PartialEq, Eq)]
pub enum Status {
    /// The command was carried out, and a run returned.
    Done,
    /// The words are no line of the command set.
    Usage,
    /// The text was refused.
    Refused,
    /// The image, or its load, was refused.
    Image,
    /// The source had a fault.
    ReadFault,
    /// A sink had a fault.
    WriteFault,
    /// No memory was left.
    NoMemory,
    /// The source holds too much.
    TooLong,
    /// Nobody handled an exception.
    Unhandled,
    /// The guard below the stack was accessed.
    StackLimit,
    /// The turns were used up.
    OutOfTurns,
    /// The run couldn't continue.
    Stopped,
    /// A byte was accessed of which the language says nothing.
    Undefined,
    /// The depth of the meaning would have risen above 1,000.
    Deep,
    /// A rule on unwind tables fails in an image.
    No,
}

impl Status {
    /// The number that the process ends with.
    pub fn code(self) -> u8
        ensures { result ≡ code_of self }
    {
        match self {
            Status::Done => 0,
            Status::Usage => 1,
            Status::Refused => 2,
            Status::Image => 3,
            Status::ReadFault => 4,
            Status::WriteFault => 5,
            Status::NoMemory => 6,
            Status::TooLong => 7,
            Status::Unhandled => 10,
            Status::StackLimit => 11,
            Status::OutOfTurns => 12,
            Status::Stopped => 13,
            Status::Undefined => 14,
            Status::Deep => 15,
            Status::No => 16,
        }
    }

    /// The status of a run's end.
    pub fn of(end: &RunEnd) -> Status
        ensures { result ≡ status_of end.now }
    {
        match end {
            RunEnd::Exit(_) => Status::Done,
            RunEnd::Unhandled(_) => Status::Unhandled,
            RunEnd::StackLimit { .. } => Status::StackLimit,
            RunEnd::OutOfTurns { .. } => Status::OutOfTurns,
            RunEnd::Stopped { .. } => Status::Stopped,
        }
    }

    /// The status of the end of a program's meaning.
    pub fn of_meaning(ended: &Ended) -> Status
        ensures { result ≡ meaning_status ended.now }
    {
        match ended {
            Ended::Exit(_) => Status::Done,
            Ended::Unhandled(_) => Status::Unhandled,
            Ended::OutOfSteps { .. } => Status::OutOfTurns,
            Ended::Undefined { .. } => Status::Undefined,
            Ended::Deep { .. } => Status::Deep,
        }
    }

    /// The status of a verdict on a function table.
    pub fn of_verdict(verdict: &Verdict) -> Status
        ensures { result ≡ verdict_status verdict.now }
    {
        match verdict {
            Verdict::Yes { .. } => Status::Done,
            Verdict::No { .. } => Status::No,
        }
    }

    /// The status of the entries of a function table, so many of which are without a fault.
    pub fn of_entries(kept: u64, entries: u64) -> Status
        ensures { result ≡ entries_status kept entries }
    {
        if kept == entries {
            Status::Done
        } else {
            Status::No
        }
    }
}
