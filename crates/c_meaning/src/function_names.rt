//! The names of a program's functions.

ghost use Rattle.c_meaning.specs.FunctionNames.{named_by};

use c_checked::checked::Checked;
use seh_io::names::Names;

/// The names of a program's functions, numbered from 1 in the order of their definitions.
#[derive(Clone, Copy)]
pub struct FunctionNames<'p> {
    /// The program.
    pub program: &'p Checked,
}

impl Names for FunctionNames<'_> {
    ghost named = { named_by };

    fn name(&self, number: u32) -> Option<&[u8]> {
        if number == 0 {
            return None;
        }
        match self.program.functions.get(number as usize - 1) {
            None => None,
            Some(function) => Some(&function.name),
        }
    }
}
