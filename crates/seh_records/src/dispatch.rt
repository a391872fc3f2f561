use seh_num::event::Code;
use seh_num::size::EXCEPTION_MAXIMUM_PARAMETERS;
use x64_machine::context::Context;
use x64_machine::cpu::Cpu;

/// The flag of an exception that can't be continued (Windows headers, `winnt.h`).
pub const EXCEPTION_NONCONTINUABLE: u32 = 1;

/// What a record is kept for.
#[derive(Clone, Copy, Debug, PartialEq, Eq)]
pub enum Kind {
    /// A search for a handler of an exception.
    Search,
    /// The unwinding to the frame that has accepted an exception.
    ExceptionUnwind,
    /// A local unwind.
    LocalUnwind,
    /// A vectored handler, which is asked about an exception before the handlers of frames.
    Vectored,
}

/// A suspended search or unwinding.
#[derive(Clone, Copy, Debug, PartialEq, Eq)]
pub struct DispatchRecord {
    /// What it is kept for.
    pub kind: Kind,
    /// The establisher frame in hand.
    pub frame: u64,
    /// The next scope record at the walk's frame; of a vectored handler that is asked, its place in
    /// their list, from 0.
    pub row: u64,
    /// The frame that an unwinding goes to.
    pub target_frame: u64,
    /// The address at which that frame continues.
    pub target: u64,
    /// ExceptionCode.
    pub code: Code,
    /// ExceptionFlags: 0, or `EXCEPTION_NONCONTINUABLE`.
    pub flags: u32,
    /// How many of the parameters say something.
    pub count: u32,
    /// ExceptionInformation.
    pub parameters: [u64; EXCEPTION_MAXIMUM_PARAMETERS],
    /// The state that search and unwinding begin from.
    pub saved: Cpu,
    /// The state at the frame in hand.
    pub walk: Context,
}
