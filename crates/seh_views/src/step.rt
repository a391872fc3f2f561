//! A frame, as each of the two unwinders answers it.

ghost use Rattle.std.specs.Prelude.{◌≡◌, option_map};
ghost use Rattle.seh_views.specs.Callers as spec;

use crate::c_types::{SehContext, c_context, halves};
use crate::refusal::Refusal;
use abi_unwind::each::EntryErr;
use abi_unwind::frame::AbiCaller;
use eh_tables::RuntimeFunction;
use virtual_unwind::UnwindErr;
use virtual_unwind::frame::Caller;

/// A frame: the code of the entry that covers RIP, and its caller.
#[derive(Clone, Copy, Debug, PartialEq, Eq)]
pub struct Step {
    /// The code, from `begin` to before `end`, relative to the image base; both are 0 where no
    /// entry covers RIP.
    pub begin: u32,
    pub end: u32,
    /// The establisher frame.
    pub establisher: u64,
    /// The address of the handler that is asked, relative to the image base.
    pub handler: Option<u32>,
    /// By the project's own profile: whether RIP is in the body of an entry.
    pub in_body: bool,
    /// The caller's registers, after the return.
    pub caller: SehContext,
}

/// The code of no entry.
pub const NO_RANGE: RuntimeFunction = RuntimeFunction {
    begin: 0,
    end: 0,
    unwind_info: 0,
};

/// A frame by the project's own profile, which restores no vector register.
pub fn own_step(range: RuntimeFunction, context: &SehContext, caller: &Caller) -> Step
    ensures { result ≡ spec.own_step range context.now caller.now }
{
    Step {
        begin: range.begin,
        end: range.end,
        establisher: caller.frame,
        handler: caller.handler,
        in_body: caller.in_body,
        caller: c_context(&caller.context, context.vectors, 0),
    }
}

/// A frame as Windows finds it.
fn abi_step(range: RuntimeFunction, context: &SehContext, caller: &AbiCaller) -> Step
    ensures { result ≡ spec.abi_step range context.now caller.now }
{
    let after = &caller.context;
    Step {
        begin: range.begin,
        end: range.end,
        establisher: caller.frame,
        handler: match caller.handler {
            Some(handler) => Some(handler.rva),
            None => None,
        },
        in_body: false,
        caller: c_context(&after.general, halves(&after.vectors), context.has_vectors),
    }
}

/// What is answered of the frame of an entry.
pub fn abi_answer(
    range: RuntimeFunction,
    context: &SehContext,
    answer: Result<AbiCaller, EntryErr>,
) -> Result<Step, Refusal>
    ensures { result ≡ spec.abi_answer range context.now answer }
{
    match answer {
        Ok(caller) => Ok(abi_step(range, context, &caller)),
        Err(EntryErr::Table(e)) => Err(Refusal::Table(e)),
        Err(EntryErr::Unwind(e)) => Err(Refusal::Unwinding(e)),
    }
}

/// What is answered of the frame of a leaf function.
pub fn leaf_answer(
    context: &SehContext,
    answer: Result<AbiCaller, UnwindErr>,
) -> Result<Step, Refusal>
    ensures { result ≡ spec.leaf_answer context.now answer }
{
    match answer {
        Ok(caller) => Ok(abi_step(NO_RANGE, context, &caller)),
        Err(e) => Err(Refusal::Unwinding(e)),
    }
}
