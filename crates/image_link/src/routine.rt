//! Routines: what a program has in its text, one after another.

ghost use Rattle.std.specs.Prelude.{◌≡◌, ◌≤◌, ◌+◌, ◌∷◌, ◌++◌, length, not, ◌&&◌, OnOk, IfOk};
ghost use Rattle.linear_code.specs.Program.{linear_body, linear_function, linear_funclet, linear_program};
ghost use Rattle.image_link.specs.Fits.{FitsBody, FitsFunction, FitsFunclet, FitsProgram};
ghost use Rattle.image_link.specs.Routines as spec;

use frame_layout::{Facts, FrameLayout, plan};
use linear_code::instruction::Instruction;
use linear_code::program::{
    FuncletKind, IrBody, IrFunclet, IrFunction, IrProgram, LabelRange, Region,
};
use linear_code::slot::Slot;
use std::alloc::{AllocError, Global};
use std::marker::Model;
use template_code::layout::{Layout, MOST_REGISTERS, NO_REGISTERS};
use template_code::operands::needs_rax_alone;

/// The words of the home space, which a leaf function uses for its slots.
const HOME_WORDS: u64 = 4;

/// The words that a funclet keeps: the base of its function's frame, and the address of its
/// EXCEPTION_POINTERS.
const FUNCLET_WORDS: u64 = 2;

/// What a routine does before its body.
#[derive(Clone, Copy, Debug, PartialEq, Eq)]
pub enum Entry {
    /// Its parameters go to its first locals.
    Function { parameters: u64 },
    /// It keeps the base of its function's frame, which is kept at `parent` in a funclet's frame,
    /// and the address of its EXCEPTION_POINTERS.
    Filter { parent: Option<u64> },
    /// It keeps the base of its function's frame, and its flag goes to a local.
    Finally { parent: Option<u64>, flag: u64 },
}

/// A function, a filter or a `__finally` block, with the places of its slots.
#[derive(Drop)]
pub struct Routine<'a> {
    /// How it is entered.
    pub entry: Entry,
    /// Its frame: a leaf function has none.
    pub frame: Option<FrameLayout>,
    /// The places of its slots.
    pub layout: Layout,
    /// Its instructions.
    pub body: &'a IrBody,
}

impl<'a> Model for Routine<'a> {
    ghost use Rattle.linear_code.specs.Program.{linear_body};
    ghost use Rattle.image_link.specs.Routines.{RoutineView};

    ghost Value = { RoutineView };

    ghost view = { λ r. record {
      entry = r.entry;
      frame = r.frame;
      layout = r.layout;
      body = linear_body r.body.now;
    } };
}

impl<'a> Routine<'a> {
    /// The instructions of its body.
    pub fn code(&self) -> &'a [Instruction]
        ensures { result.now ≡ self.now.body.code }
    {
        &self.body.code
    }

    /// The cold parts of its body.
    pub fn cold(&self) -> &'a [LabelRange]
        ensures { result.now ≡ self.now.body.cold }
    {
        &self.body.cold
    }

    /// The regions of its body.
    pub fn regions(&self) -> &'a [Region]
        ensures { result.now ≡ self.now.body.regions }
    {
        &self.body.regions
    }
}

/// Whether a slot is no parameter, of so many.
fn is_kept(parameters: u64, slot: Slot) -> bool
    ensures { result ≡ spec.is_kept parameters slot }
{
    match slot {
        Slot::Temporary(_) => true,
        Slot::Local(local) => parameters <= local,
    }
}

/// Whether the code of an instruction writes RAX alone, and no parameter, of so many.
fn is_spare(parameters: u64, instruction: &Instruction) -> bool
    ensures { result ≡ spec.is_spare parameters instruction.now }
{
    match *instruction {
        Instruction::Compute { to, operation, .. } => {
            needs_rax_alone(operation) && is_kept(parameters, to)
        }
        Instruction::Jump { .. }
        | Instruction::JumpIfZero { .. }
        | Instruction::Separator
        | Instruction::Return { .. } => true,
        _ => false,
    }
}

fn all_spare(parameters: u64, code: &[Instruction]) -> bool
    ensures { result ≡ spec.all_spare parameters code.now }
{
    for instruction in code {
        if !is_spare(parameters, instruction) {
            return false;
        }
    }
    true
}

/// Whether a function needs no stack of its own: it calls nothing, handles nothing, its parameters
/// can stay in the registers in which they arrive, and its other slots find place in the home
/// space that its caller has made.
fn is_leaf(function: &IrFunction) -> bool
    requires { FitsFunction (linear_function function.now) }
    ensures { result ≡ spec.is_leaf (linear_function function.now) }
{
    let body = &function.body;
    let words = body.locals + body.temporaries;
    function.parameters <= body.locals
        && (words <= HOME_WORDS
            && (body.regions.len() == 0 && all_spare(function.parameters, &body.code)))
}

fn leaf<'a>(function: &'a IrFunction) -> Routine<'a>
    requires { FitsFunction (linear_function function.now) }
    ensures { result ≡ spec.leaf (linear_function function.now) }
{
    Routine {
        entry: Entry::Function {
            parameters: function.parameters,
        },
        frame: None,
        layout: Layout {
            base: None,
            pointers: 0,
            locals: 8,
            temporaries: 8 + 8 * function.body.locals,
            slots: 0,
            frame: 0,
            registers: NO_REGISTERS,
            arrivals: function.parameters,
            size: 0,
            pushes: 0,
            saves: 0,
            framed: false,
        },
        body: &function.body,
    }
}

fn function_frame(function: &IrFunction) -> FrameLayout
    requires { FitsFunction (linear_function function.now) }
    ensures { result ≡ spec.function_frame (linear_function function.now) }
{
    let body = &function.body;
    plan(&Facts {
        passed: body.passed,
        kept: 0,
        temporaries: body.temporaries,
        locals: body.locals,
        registers: function.registers.len() as u64,
        frame_register: true,
        weight: 1 + function.surplus,
    })
}

/// Each register with its local, where one stands in it.
fn placed_locals(locals: &[u64]) -> [Option<u64>; MOST_REGISTERS]
    requires { length locals.now ≤ MOST_REGISTERS }
    ensures { result ≡ spec.placed_locals locals.now }
{
    let mut places = NO_REGISTERS;
    for index in 0..locals.len() {
        places[index] = Some(locals[index]);
    }
    places
}

fn framed<'a>(function: &'a IrFunction) -> Routine<'a>
    requires { FitsFunction (linear_function function.now) }
    ensures { result ≡ spec.framed (linear_function function.now) }
{
    let frame = function_frame(function);
    Routine {
        entry: Entry::Function {
            parameters: function.parameters,
        },
        frame: Some(frame),
        layout: Layout {
            base: None,
            pointers: 0,
            locals: frame.locals,
            temporaries: frame.temporaries,
            slots: frame.slots,
            frame: frame.depth,
            registers: placed_locals(function.registers.as_slice()),
            arrivals: 0,
            size: frame.size,
            pushes: frame.pushes,
            saves: frame.saves,
            framed: frame.framed,
        },
        body: &function.body,
    }
}

/// The routine of a function. `main` always has a frame.
fn function_routine<'a>(function: &'a IrFunction, is_main: bool) -> Routine<'a>
    requires { FitsFunction (linear_function function.now) }
    ensures { result ≡ spec.leaf_if (not is_main && spec.is_leaf (linear_function function.now))
        (linear_function function.now) }
{
    if !is_main && is_leaf(function) {
        leaf(function)
    } else {
        framed(function)
    }
}

fn funclet_frame(body: &IrBody) -> FrameLayout
    requires { FitsBody (linear_body body.now) }
    ensures { result ≡ spec.funclet_frame (linear_body body.now) }
{
    plan(&Facts {
        passed: body.passed,
        kept: FUNCLET_WORDS,
        temporaries: body.temporaries,
        locals: 0,
        registers: 0,
        frame_register: false,
        weight: 1,
    })
}

/// Where the funclet in whose body a region is keeps the base, if there is one.
fn kept_by(program: &IrProgram, parent: Option<u64>) -> Option<u64>
    requires program { FitsProgram (linear_program program.now) }
    requires parent { spec.HasParent (linear_program program.now) parent }
    ensures { result ≡ spec.kept_by (linear_program program.now) parent }
{
    match parent {
        None => None,
        Some(index) => Some(funclet_frame(&program.funclets[index as usize].body).kept),
    }
}

fn entry_of(kind: FuncletKind, parent: Option<u64>) -> Entry
    ensures { result ≡ spec.entry_of kind parent }
{
    match kind {
        FuncletKind::Filter => Entry::Filter { parent },
        FuncletKind::Finally { flag } => Entry::Finally { parent, flag },
    }
}

fn funclet_routine<'a>(program: &IrProgram, funclet: &'a IrFunclet) -> Routine<'a>
    requires program { FitsProgram (linear_program program.now) }
    requires funclet { FitsFunclet (linear_program program.now) (linear_funclet funclet.now) }
    ensures { result ≡ spec.funclet (linear_program program.now) (linear_funclet funclet.now) }
{
    let own = funclet_frame(&funclet.body);
    let function = function_frame(&program.functions[funclet.function as usize]);
    Routine {
        entry: entry_of(funclet.kind, kept_by(program, funclet.parent)),
        frame: Some(own),
        layout: Layout {
            base: Some(own.kept),
            pointers: own.kept + 8,
            locals: function.locals,
            temporaries: own.temporaries,
            slots: own.slots,
            frame: own.depth,
            registers: NO_REGISTERS,
            arrivals: 0,
            size: own.size,
            pushes: own.pushes,
            saves: own.saves,
            framed: own.framed,
        },
        body: &funclet.body,
    }
}

/// The routines of a program in the order in which they are placed: its functions, and then its
/// filters and `__finally` blocks by their numbers.
pub fn routines<'a>(alloc: Global, program: &'a IrProgram) -> Result<Vec<Routine<'a>>, AllocError>
    requires { FitsProgram (linear_program program.now) }
    ensures { IfOk result (λ v. v.items ≡ spec.routines (linear_program program.now)) }
{
    let mut routines = Vec::new(alloc);
    let mut index = 0;
    for function in &program.functions {
        routines.push(function_routine(function, index == program.main))?;
        index += 1;
    }
    for funclet in &program.funclets {
        routines.push(funclet_routine(program, funclet))?;
    }
    Ok(routines)
}
