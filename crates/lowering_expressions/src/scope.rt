//! What is around a part of a program that is lowered.

ghost use Rattle.std.specs.Prelude.{◌≡◌, ◌+◌, IfOk};
ghost use Rattle.lowering_expressions.specs.Scope as spec;

use c_checked::function::DataPart;
use lowering_sizes::sums::sum;
use std::alloc::AllocError;

/// Where the code of an exception is found.
#[derive(Clone, Copy)]
pub enum ExceptionSource {
    /// There is none.
    NoException,
    /// A filter reads it.
    OfFilter,
    /// An `__except` block keeps it in this local.
    KeptIn(u64),
}

/// What GetExceptionCode and AbnormalTermination mean, and where the data stack's pointer is.
#[derive(Clone, Copy)]
pub struct Names {
    /// Where the code that GetExceptionCode answers is found.
    pub exception: ExceptionSource,
    /// The local of a `__finally` block's flag, or None outside of any.
    pub abnormal: Option<u64>,
    /// The first local that is free for a code, a flag, or the rest of an array.
    pub free: u64,
    /// The function's part of the data stack, if it has one. The data stack's pointer is at the end
    /// of the part while the function's own statements run.
    pub part: Option<DataPart>,
}

/// How a label is reached.
#[derive(Clone, Copy)]
pub enum Way {
    Nowhere,
    Jumps(u64),
    /// By a local unwind, since a `__finally` block lies between.
    Unwinds(u64),
}

/// The names; where `return`, `break`, `continue` and `__leave` lead.
#[derive(Clone, Copy)]
pub struct LoweringContext {
    /// What names mean here.
    pub names: Names,
    /// Where `return` leads: the end of the function.
    pub exit: Way,
    /// Where `break` leads: after the innermost loop.
    pub loop_end: Way,
    /// Where `continue` leads: after the body of the innermost loop.
    pub loop_next: Way,
    /// The label to which `__leave` jumps: the end of the innermost `__try` body.
    pub leave: Option<u64>,
}

/// The names in an `__except` block.
pub fn except_names(names: Names) -> Result<Names, AllocError>
    ensures { IfOk result (λ n. n ≡ spec.except_names names) }
{
    let free = sum(names.free, 1)?;
    Ok(Names {
        exception: ExceptionSource::KeptIn(names.free),
        abnormal: names.abnormal,
        free,
        part: names.part,
    })
}

/// The names in a filter.
pub fn filter_names(names: Names) -> Names
    ensures { result ≡ spec.filter_names names }
{
    Names {
        exception: ExceptionSource::OfFilter,
        abnormal: names.abnormal,
        free: names.free,
        part: names.part,
    }
}

/// What is around the statements of a `__finally` block.
pub fn finally_scope(names: Names) -> Result<LoweringContext, AllocError>
    ensures { IfOk result (λ s. s ≡ spec.finally_scope names) }
{
    let free = sum(names.free, 1)?;
    Ok(LoweringContext {
        names: Names {
            exception: names.exception,
            abnormal: Some(names.free),
            free,
            part: names.part,
        },
        exit: Way::Nowhere,
        loop_end: Way::Nowhere,
        loop_next: Way::Nowhere,
        leave: None,
    })
}

/// The way out of the body of a `__try` with a `__finally` block.
fn unwound(way: Way) -> Way
    ensures { result ≡ spec.unwound way }
{
    match way {
        Way::Nowhere => Way::Nowhere,
        Way::Jumps(label) => Way::Unwinds(label),
        Way::Unwinds(label) => Way::Unwinds(label),
    }
}

/// What is around the body of a loop.
pub fn in_loop(end: u64, next: u64, scope: &LoweringContext) -> LoweringContext
    ensures { result ≡ spec.in_loop end next scope.now }
{
    LoweringContext {
        names: scope.names,
        exit: scope.exit,
        loop_end: Way::Jumps(end),
        loop_next: Way::Jumps(next),
        leave: scope.leave,
    }
}

/// What is around the body of a `__try` with an `__except`.
pub fn in_try(end: u64, scope: &LoweringContext) -> LoweringContext
    ensures { result ≡ spec.in_try end scope.now }
{
    LoweringContext {
        names: scope.names,
        exit: scope.exit,
        loop_end: scope.loop_end,
        loop_next: scope.loop_next,
        leave: Some(end),
    }
}

/// What is around an `__except` block.
pub fn in_except(scope: &LoweringContext) -> Result<LoweringContext, AllocError>
    ensures { IfOk result (λ s. s ≡ spec.in_except scope.now) }
{
    let names = except_names(scope.names)?;
    Ok(LoweringContext {
        names,
        exit: scope.exit,
        loop_end: scope.loop_end,
        loop_next: scope.loop_next,
        leave: scope.leave,
    })
}

/// What is around the body of a `__try` with a `__finally`.
pub fn in_guarded(end: u64, scope: &LoweringContext) -> LoweringContext
    ensures { result ≡ spec.in_guarded end scope.now }
{
    LoweringContext {
        names: scope.names,
        exit: unwound(scope.exit),
        loop_end: unwound(scope.loop_end),
        loop_next: unwound(scope.loop_next),
        leave: Some(end),
    }
}
