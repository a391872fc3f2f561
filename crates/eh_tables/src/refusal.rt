//! Why a table isn't read.

ghost use Rattle.std.specs.Prelude.{◌≡◌, ◌≤◌, length};
ghost use Rattle.eh_tables.specs.Refusals.{refusal_name};

/// Why a function table isn't read: the first check that fails, in the order in which
/// [`Tables::entry`](crate::Tables::entry) makes them. Addresses are relative to the image base, an
/// `index` is that of an entry.
#[derive(Clone, Copy, Debug, PartialEq, Eq)]
pub enum TableErr {
    /// The unwind info at `rva`, with its codes, its handler's address or parent, and its scope
    /// table, isn't stored whole in the image; or the directory at `rva` isn't, or its size isn't
    /// that of whole entries.
    Truncated { rva: u64 },
    /// The unwind info or the directory at `rva` isn't 4-aligned.
    Misaligned { rva: u64 },
    /// The range of an entry is empty: its begin isn't below its end.
    EmptyRange { index: u64 },
    /// An entry begins below the end of the one before.
    Unsorted { index: u64 },
    /// The version of an unwind info isn't one that is read, which is 1 unless the reader says
    /// otherwise: `found` is what is there.
    Version { index: u64, found: u8 },
    /// The flags of an unwind info are none of those that are defined, or say that it is chained
    /// and has a handler.
    Flags { index: u64 },
    /// The unwind code that begins at that slot has an operation that isn't defined, an info that
    /// its operation doesn't allow, no frame register to set, or operands past the last slot.
    Op { index: u64, slot: u64 },
    /// The unwind code that begins at that slot has a greater prologue offset than the one before.
    CodeOrder { index: u64, slot: u64 },
    /// More than 32 unwind infos are chained.
    ChainLong { index: u64 },
    /// The row of that number in the scope table has an empty range, or an address at or above the
    /// image's size.
    ScopeRange { index: u64, row: u64 },
}

impl TableErr {
    /// The name of the refusal, as its lines give it.
    pub fn name(&self) -> &'static [u8]
        ensures value { result.now ≡ refusal_name self.now }
        ensures len { length result.now ≤ 10 }
    {
        match self {
            TableErr::Truncated { .. } => b"Truncated",
            TableErr::Misaligned { .. } => b"Misaligned",
            TableErr::EmptyRange { .. } => b"EmptyRange",
            TableErr::Unsorted { .. } => b"Unsorted",
            TableErr::Version { .. } => b"Version",
            TableErr::Flags { .. } => b"Flags",
            TableErr::Op { .. } => b"Op",
            TableErr::CodeOrder { .. } => b"CodeOrder",
            TableErr::ChainLong { .. } => b"ChainLong",
            TableErr::ScopeRange { .. } => b"ScopeRange",
        }
    }
}
