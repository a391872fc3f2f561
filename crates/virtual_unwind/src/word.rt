//! Words of the stack.

ghost use Rattle.std.specs.Prelude.{◌≡◌};
ghost use Rattle.virtual_unwind.specs.Undone as spec;

use crate::kept::{rsp, rsp_raised};
use crate::refusal::UnwindErr;
use seh_num::width::Width;
use x64_machine::context::Context;
use x64_memory::space::ReadSpace;

/// A word of the stack.
pub fn word<S: ReadSpace>(space: &S, at: u64) -> Result<u64, UnwindErr>
    ensures { result ≡ spec.word (S.memory space.now) at }
{
    match space.load(at, Width::W64) {
        Ok(value) => Ok(value),
        Err(_) => Err(UnwindErr::Unreadable { address: at }),
    }
}

/// The return address popped.
pub fn pop<S: ReadSpace>(space: &S, context: &Context) -> Result<Context, UnwindErr>
    ensures { result ≡ spec.popped (S.memory space.now) context.now }
{
    let mut after = *context;
    after.rip = word(space, rsp(context))?;
    Ok(rsp_raised(&after, 8))
}
