//! What is known of a register.

/// What is known of a general register. S is the RSP at the function's first byte.
#[derive(Clone, Copy, Debug, PartialEq, Eq)]
pub enum Known {
    /// What the register of this number held at the function's first byte.
    Entry(u8),
    /// The address so far from S, modulo 2 to the 64.
    Place(u64),
    /// This number.
    Number(u64),
    /// Nothing.
    Nothing,
}

/// How many bytes below S, and from S up, may be read.
#[derive(Clone, Copy, Debug, PartialEq, Eq)]
pub struct Reach {
    pub below: u64,
    pub above: u64,
}

/// Where an instruction stores, how many bytes, and what.
#[derive(Clone, Copy, Debug, PartialEq, Eq)]
pub struct Store {
    pub to: Known,
    pub size: u64,
    pub value: Known,
}
