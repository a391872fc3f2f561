use seh_walk::stop_cause::StopCause;
use x64_machine::context::Context;

/// What an unwinding comes to.
#[derive(Clone, Copy, Debug, PartialEq, Eq)]
pub enum UnwindResult {
    /// A `__finally` block to be run: its address, the establisher frame, the next scope record and
    /// the state at that frame.
    Finally {
        handler: u64,
        frame: u64,
        row: u64,
        walk: Context,
    },
    /// The target's frame is reached, in this state.
    Land {
        context: Context,
    },
    /// The walk can't continue, or has lost the target's frame.
    Stop(StopCause),
}
