//! Functions.

ghost use Rattle.std.specs.Prelude.{◌≡◌, ◌<◌, ◌^◌};
ghost use Rattle.c_checked.specs.Program.{part_of, declared_locals, frame_surplus, data_surplus, surplus, function as function_view};

use crate::statement::Stmt;
use c_operations::operation::Size;
use seh_num::width::Width;

/// A function with so many locals, parameters aside, weighs 1 (own).
pub const LIGHT_LOCALS: u64 = 256;

/// Beyond these it weighs 1 more for each so many that are begun (own).
pub const LOCALS_BY_WEIGHT: u64 = 1024;

/// How many bytes of the data stack count as much in the depth as one light function (own).
pub const BYTES_BY_WEIGHT: u64 = 4096;

/// A parameter whose address is taken, and where it stands.
#[derive(Clone, Copy)]
pub struct StackedParameter {
    /// Its index among the parameters.
    pub parameter: u64,
    /// Its width.
    pub width: Width,
    /// How many bytes it stands above the base.
    pub offset: u64,
}

/// Where an activation's part of the data stack is.
#[derive(Clone, Copy)]
pub struct DataPart {
    /// The local that keeps its base.
    pub base: u64,
    /// How many bytes it has.
    pub size: u64,
}

/// What an activation of a function has of the data stack: the bytes from its base on, which was
/// the data stack's pointer when the activation began (own).
#[derive(Drop)]
pub struct DataFrame {
    /// The local that keeps the base, the last of the function's.
    pub base: u64,
    /// How many bytes they are, a multiple of 16.
    pub size: u64,
    /// The parameters among the variables that stand there.
    pub parameters: Vec<StackedParameter>,
}

/// A function definition (C11, 6.9.1). A parameter, a local and a result has the size of its
/// numbers.
#[derive(Drop)]
pub struct Function {
    /// The name's bytes.
    pub name: Vec<u8>,
    /// The parameters, which are the first locals.
    pub parameters: Vec<Size>,
    /// The locals that aren't parameters, and after them the local of the base, where it has one.
    pub locals: Vec<Size>,
    /// Its part of the data stack. A function without a `__try` needs none, unless it has a local
    /// array, or a variable whose address is taken.
    pub data_frame: Option<DataFrame>,
    /// None where the function returns nothing.
    pub returns: Option<Size>,
    /// The statements of its block.
    pub body: Vec<Stmt>,
}

impl Function {
    /// Where its activations' parts of the data stack are, if they have any.
    pub fn data_part(&self) -> Option<DataPart>
        ensures { result ≡ part_of (function_view self.now).data_frame }
    {
        match &self.data_frame {
            Some(frame) => Some(DataPart {
                base: frame.base,
                size: frame.size,
            }),
            None => None,
        }
    }

    /// How many locals it declares.
    pub fn declared(&self) -> u64
        ensures { result ≡ declared_locals (function_view self.now) }
    {
        let count = self.locals.len() as u64;
        match &self.data_frame {
            Some(_) => count.saturating_sub(1),
            None => count,
        }
    }

    /// What its frame weighs above 1: up to 256 locals nothing, and beyond them 1 for each 1,024
    /// that are begun.
    pub fn frame_surplus(&self) -> u64
        ensures value { result ≡ frame_surplus (function_view self.now) }
        ensures small { result < 2 ^ 62 }
    {
        (self.declared() + (LOCALS_BY_WEIGHT - 1 - LIGHT_LOCALS)) / LOCALS_BY_WEIGHT
    }

    /// What its part of the data stack weighs: 1 for each 4,096 bytes that are full.
    pub fn data_surplus(&self) -> u64
        ensures value { result ≡ data_surplus (function_view self.now) }
        ensures small { result < 2 ^ 62 }
    {
        match &self.data_frame {
            Some(part) => part.size / BYTES_BY_WEIGHT,
            None => 0,
        }
    }

    /// What the function weighs above 1, by its locals and its part of the data stack: an
    /// activation counts its weight in the depth.
    pub fn surplus(&self) -> u64
        ensures { result ≡ surplus (function_view self.now) }
    {
        self.frame_surplus() + self.data_surplus()
    }
}
