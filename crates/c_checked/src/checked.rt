//! Programs.

ghost use Rattle.c_checked.specs.Program.{program_of};
ghost use Rattle.c_checked.specs.Sound.{IsSound};

use crate::function::Function;

/// An accepted program, with the proof that it is sound.
#[derive(Drop)]
pub struct Checked {
    /// In the order of their definitions.
    pub functions: Vec<Function>,
    /// The index of `main`.
    pub main: u64,
    /// The bytes of the globals at the start, from the first address of the data on.
    pub globals: Vec<u8>,
    /// Every name, type and jump is right (C11, 6.2 to 6.8).
    pub ghost sound: { IsSound (program_of functions.items main globals.items) },
}
