//! Where a statement is, and what a walk over a function carries along.

ghost use Rattle.std.specs.Prelude.{◌≡◌, ◌+◌, List, IfOk, OnOk};
ghost use Rattle.c_resolved.specs.Statements as definitions;
ghost use Rattle.c_resolved.specs.Scopes.{Scope};
ghost use Rattle.c_resolved.specs.Statements.{filter_names, names_at, with_number};
ghost use Rattle.c_expressions.specs.Kept.{AddsFaults};
ghost use Rattle.c_expressions.specs.Views.{names_of};
ghost use Rattle.c_locals.specs.Views.{reach, environment, numbering, in_loop, in_body};
ghost use Rattle.c_locals.specs.Views.{in_handler, in_finally};

use c_expressions::context::Context;
use c_expressions::least::LeastFault;
use c_expressions::symbol_table::SymbolTable;
use c_operations::operation::Size;
use c_resolved::fault::Fault;
use c_resolved::variable::Variable;
use c_syntax::expression::CType;
use std::alloc::AllocError;

/// What a jump finds.
#[derive(Clone, Copy, Drop)]
pub enum Reach {
    Nowhere,
    /// Beyond a `__finally` block that is around the jump.
    Beyond,
    Near,
}

/// Where a statement is, and what names and jumps mean there.
#[derive(Clone, Copy)]
pub struct Environment<'t> {
    /// The program's text.
    pub text: &'t [u8],
    /// The type that the function returns.
    pub returns: CType,
    /// What `break` and `continue` find.
    pub loops: Reach,
    /// What `__leave` finds.
    pub body: Reach,
    /// What `return` finds.
    pub function: Reach,
    /// Whether GetExceptionCode means something.
    pub code: bool,
    /// Whether AbnormalTermination means something.
    pub abnormal: bool,
}

/// What a walk over a function carries along.
#[derive(Drop)]
pub struct FunctionState {
    /// The sizes of its locals so far, parameters first.
    pub sizes: Vec<Size>,
    /// These variables.
    pub variables: Vec<Variable>,
    /// The number of the next filter or `__finally` block.
    pub number: u32,
    /// The least fault so far.
    pub faults: LeastFault,
}

impl FunctionState {
    /// The number of a filter or a `__finally` block, each once.
    pub fn next_number(&mut self) -> Result<u32, AllocError>
        ensures number { IfOk result (λ n. n ≡ self.old.number) }
        ensures counts { OnOk result (numbering self.new ≡ with_number (numbering self.old)
            (self.old.number + 1)) }
        ensures faults { self.new.faults ≡ self.old.faults }
    {
        let number = self.number;
        match number.checked_add(1) {
            Some(next) => {
                self.number = next;
                Ok(number)
            }
            None => Err(AllocError),
        }
    }
}

/// What is found from inside a `__finally` block.
fn past_finally(found: Reach) -> Reach
    ensures { reach result ≡ definitions.past_finally (reach found) }
{
    match found {
        Reach::Nowhere => Reach::Nowhere,
        Reach::Beyond => Reach::Beyond,
        Reach::Near => Reach::Beyond,
    }
}

/// A jump: a fault where it finds nothing, and another where it leaves a `__finally` block.
pub fn jump(faults: &mut LeastFault, found: Reach, fault: Fault, at: u64)
    ensures { AddsFaults faults.old faults.new (definitions.jump (reach found) fault at) }
{
    match found {
        Reach::Nowhere => faults.add(at, fault),
        Reach::Beyond => faults.add(at, Fault::JumpOutOfFinally),
        Reach::Near => {}
    }
}

/// Inside a loop.
pub fn in_loop<'t>(env: &Environment<'t>) -> Environment<'t>
    ensures { (around : List Scope) → environment result around ≡
        in_loop (environment env.now around) }
{
    Environment {
        loops: Reach::Near,
        ..*env
    }
}

/// Inside the body of a `__try`.
pub fn in_body<'t>(env: &Environment<'t>) -> Environment<'t>
    ensures { (around : List Scope) → environment result around ≡
        in_body (environment env.now around) }
{
    Environment {
        body: Reach::Near,
        ..*env
    }
}

/// Inside the block of an `__except`.
pub fn in_handler<'t>(env: &Environment<'t>) -> Environment<'t>
    ensures { (around : List Scope) → environment result around ≡
        in_handler (environment env.now around) }
{
    Environment { code: true, ..*env }
}

/// Inside a `__finally` block.
pub fn in_finally<'t>(env: &Environment<'t>) -> Environment<'t>
    ensures { (around : List Scope) → environment result around ≡
        in_finally (environment env.now around) }
{
    Environment {
        loops: past_finally(env.loops),
        body: past_finally(env.body),
        function: Reach::Beyond,
        abnormal: true,
        ..*env
    }
}

/// Where an expression of a statement is, with these names.
pub fn context<'t, 's>(env: &Environment<'t>, names: &'s SymbolTable<'t>) -> Context<'t, 's>
    ensures { names_of result ≡
        names_at (environment env.now names.now.around) names.now.block }
{
    Context {
        text: env.text,
        names,
        code: env.code,
        information: false,
        abnormal: env.abnormal,
    }
}

/// Where the expression of a filter is, with these names.
pub fn filter_context<'t, 's>(env: &Environment<'t>, names: &'s SymbolTable<'t>) -> Context<'t, 's>
    ensures { names_of result ≡
        filter_names (environment env.now names.now.around) names.now.block }
{
    Context {
        text: env.text,
        names,
        code: true,
        information: true,
        abnormal: env.abnormal,
    }
}
