//! What commands come to.

ghost use Rattle.std.specs.Prelude.{◌≡◌};
ghost use Rattle.seh.specs.Statuses.{outcome_status};

use crate::status::Status;
use seh_num::end::RunEnd;
use source_meaning::ended::Ended;
use unwind_check::Verdict;

/// What a command that was carried out came to.
#[derive(Clone, Copy, Debug, PartialEq, Eq)]
pub enum CommandOutcome {
    /// A text was compiled, and its image written.
    Compiled,
    /// An image was run, and ended so.
    Ran(RunEnd),
    /// A text was run as its meaning says, and ended so.
    Meant(Ended),
    /// The function table of an image was shown.
    Viewed,
    /// The function table of an image was checked, with this verdict.
    Checked(Verdict),
    /// The entries of the function table of an image were checked, one by one.
    CheckedEntries {
        /// How many are without a fault.
        kept: u64,
        /// How many there are.
        entries: u64,
    },
}

impl CommandOutcome {
    /// The status of what was carried out.
    pub fn status(&self) -> Status
        ensures { result ≡ outcome_status self.now }
    {
        match self {
            CommandOutcome::Compiled | CommandOutcome::Viewed => Status::Done,
            CommandOutcome::Ran(end) => Status::of(end),
            CommandOutcome::Meant(ended) => Status::of_meaning(ended),
            CommandOutcome::Checked(verdict) => Status::of_verdict(verdict),
            CommandOutcome::CheckedEntries { kept, entries } => {
                Status::of_entries(*kept, *entries)
            }
        }
    }
}
