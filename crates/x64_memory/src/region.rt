ghost use Rattle.std.specs.Prelude.{◌≡◌};
ghost use Rattle.x64_memory.specs.Regions.{region_mode};

use flat_memory::protection::{Protection, Rights};
use host_layout::range::{ARENA_END, ARENA_START, DATA_STACK_END, DATA_STACK_START};

/// Addresses from `start` to below `end` that are mapped with one protection.
#[derive(Clone, Copy, Debug, PartialEq, Eq)]
pub struct Region {
    /// The first address, a multiple of 4,096.
    pub start: u64,
    /// The address after the last, a multiple of 4,096 that isn't below the first.
    pub end: u64,
    /// Whether the bytes may be read.
    pub read: bool,
    /// Whether they may be written; only where they may be read.
    pub write: bool,
    /// Whether they may be executed.
    pub execute: bool,
}

/// The arena, whose pages begin with no rights.
pub const ARENA: Region = Region {
    start: ARENA_START,
    end: ARENA_END,
    read: false,
    write: false,
    execute: false,
};

/// The data stack, of variables of which an address is taken.
pub const DATA_STACK: Region = Region {
    start: DATA_STACK_START,
    end: DATA_STACK_END,
    read: true,
    write: true,
    execute: false,
};

impl Region {
    /// What may be done with the region's bytes.
    pub fn protection(&self) -> Protection
        ensures { result ≡ region_mode self.now }
    {
        let rights = if self.write {
            Rights::ReadWrite
        } else if self.read {
            Rights::Read
        } else {
            Rights::Nothing
        };
        Protection {
            rights,
            execute: self.execute,
        }
    }
}
