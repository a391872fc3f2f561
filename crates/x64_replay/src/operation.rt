use flat_memory::access::RefusedAccess;
use seh_num::width::Width;

/// What is asked of memory.
#[derive(Clone, Copy, Debug, PartialEq, Eq)]
pub enum Op {
    /// The number of a width at an address.
    Load { at: u64, width: Width },
    /// The low bytes of a number put at an address.
    Store { at: u64, width: Width, value: u64 },
    /// The rights of the page of the arena that holds an address, by their number: none (0),
    /// reading (1), reading and writing (2).
    Protect { at: u64, mode: i32 },
}

/// What memory answers.
#[derive(Clone, Copy, Debug, PartialEq, Eq)]
pub enum Answer {
    /// The number that was loaded.
    Loaded(u64),
    /// The number was put.
    Stored,
    /// Why nothing was loaded, or put.
    Refused(RefusedAccess),
    /// Whether the rights were set.
    Protected(bool),
}
