ghost use Rattle.std.specs.Prelude.{◌≡◌};
ghost use Rattle.flat_memory.specs.Protections.{is_readable, is_writable, rights_numbered};

/// What may be done with bytes as data. What may be written may be read, as it is of the pages of
/// the processor (Intel manual, volume 3, "Paging").
#[derive(Clone, Copy, Debug, PartialEq, Eq)]
pub enum Rights {
    /// Neither reading nor writing.
    Nothing,
    /// Reading alone.
    Read,
    /// Reading and writing.
    ReadWrite,
}

impl Rights {
    /// Whether bytes may be read.
    pub fn is_readable(self) -> bool
        ensures { result ≡ is_readable self }
    {
        match self {
            Rights::Nothing => false,
            Rights::Read | Rights::ReadWrite => true,
        }
    }

    /// Whether bytes may be written.
    pub fn is_writable(self) -> bool
        ensures { result ≡ is_writable self }
    {
        match self {
            Rights::Nothing | Rights::Read => false,
            Rights::ReadWrite => true,
        }
    }

    /// The rights that the number in a call of `protect` asks for: 0 for none, 1 for reading, 2 for
    /// reading and writing; none for any other number.
    pub fn of_number(number: i32) -> Option<Rights>
        ensures { result ≡ rights_numbered number }
    {
        match number {
            0 => Some(Rights::Nothing),
            1 => Some(Rights::Read),
            2 => Some(Rights::ReadWrite),
            _ => None,
        }
    }
}

/// What may be done with a byte of memory.
#[derive(Clone, Copy, Debug, PartialEq, Eq)]
pub struct Protection {
    /// What may be done with it as data.
    pub rights: Rights,
    /// Whether it may be fetched as a part of an instruction.
    pub execute: bool,
}

/// Bytes that may not be accessed at all.
pub const UNMAPPED: Protection = Protection {
    rights: Rights::Nothing,
    execute: false,
};
