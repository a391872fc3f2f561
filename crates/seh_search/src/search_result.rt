use seh_walk::stop_cause::StopCause;
use x64_machine::context::Context;

/// What a search comes to.
#[derive(Clone, Copy, Debug, PartialEq, Eq)]
pub enum SearchResult {
    /// A filter to be asked: its address, the establisher frame, the next scope record and the
    /// state at that frame.
    Filter {
        handler: u64,
        frame: u64,
        row: u64,
        walk: Context,
    },
    /// A handler that always accepts: its frame, and the address where it lands.
    Accept {
        frame: u64,
        target: u64,
    },
    /// No handler is left.
    Nobody,
    /// The walk can't continue.
    Stop(StopCause),
}
