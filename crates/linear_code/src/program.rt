//! The linear code of a whole program.

use crate::instruction::Instruction;
use arrayvec::ArrayVec;

/// What a region does with an exception. Funclets are numbered from 0 on, in the order of the
/// program's.
#[derive(Clone, Copy, Debug, PartialEq, Eq)]
pub enum RegionKind {
    /// A `__try` whose `__finally` block is this funclet.
    Finally { funclet: u64 },
    /// A `__try` whose filter is this funclet, and whose `__except` block begins at the target.
    Filter { funclet: u64, target: u64 },
    /// A `__try` whose `__except` block always takes over.
    Always { target: u64 },
}

/// The body of a `__try`: the instructions from `begin` up to, and without, `end`.
#[derive(Clone, Copy, Debug, PartialEq, Eq)]
pub struct Region {
    /// The label of its first instruction.
    pub begin: u64,
    /// The label after its last instruction, larger than `begin`.
    pub end: u64,
    /// The handler of its `__try`.
    pub kind: RegionKind,
}

/// Instructions of a body that stand apart from it in the image: a cold part.
#[derive(Clone, Copy, Debug, PartialEq, Eq)]
pub struct LabelRange {
    /// The label of its first instruction.
    pub begin: u64,
    /// The label after its last instruction, larger than `begin`.
    pub end: u64,
}

/// The code of a function or a funclet.
#[derive(Drop)]
pub struct IrBody {
    /// How many slots the activation has: parameters, locals, and the codes and flags of `__except`
    /// and `__finally` blocks. A funclet has those of its function.
    pub locals: u64,
    /// How many temporaries the body uses.
    pub temporaries: u64,
    /// How many arguments after the fourth a call of this body passes at most, from 0 to 4.
    pub passed: u64,
    /// The instructions. An instruction's label is its index.
    pub code: Vec<Instruction>,
    /// Inner regions before outer ones.
    pub regions: Vec<Region>,
    /// The cold parts, one after another and apart. A funclet has none.
    pub cold: Vec<LabelRange>,
}

/// A function. Its parameters are its first locals.
#[derive(Drop)]
pub struct IrFunction {
    /// The bytes of its name.
    pub name: Vec<u8>,
    /// How many parameters it has.
    pub parameters: u64,
    /// The numbers of the locals that may stand in registers, rising: those that no filter and no
    /// `__finally` block of it names.
    pub registers: ArrayVec<u64, 7>,
    /// How many parts its frame may have above 1 (own).
    pub surplus: u64,
    /// How much its part of the data stack counts in the depth (own). An activation of it counts
    /// that beside 1 and its surplus. Its code begins with as many separators.
    pub data_surplus: u64,
    /// Its code.
    pub body: IrBody,
}

/// What a funclet is.
#[derive(Clone, Copy, Debug, PartialEq, Eq)]
pub enum FuncletKind {
    /// A filter, which answers a number.
    Filter,
    /// A `__finally` block, and the local that keeps whether it runs in an unwinding.
    Finally { flag: u64 },
}

/// A filter or a `__finally` block.
#[derive(Drop)]
pub struct IrFunclet {
    /// Whether it is a filter or a `__finally` block.
    pub kind: FuncletKind,
    /// The number of the function whose locals it works on.
    pub function: u64,
    /// The number of the funclet whose body has its region, or None where the function's has it.
    pub parent: Option<u64>,
    /// Its code.
    pub body: IrBody,
}

/// The linear code of a program.
#[derive(Drop)]
pub struct IrProgram {
    /// The bytes of the globals, from the first address of data on.
    pub globals: Vec<u8>,
    /// The number of `main`.
    pub main: u64,
    /// In the order of the text. A function's number is its index.
    pub functions: Vec<IrFunction>,
    /// In the order of their numbers in the text, which are larger by 1.
    pub funclets: Vec<IrFunclet>,
}
