//! The registers that a walk begins with.

ghost use Rattle.std.specs.Prelude.{◌≡◌};
ghost use Rattle.dump_stacks.specs.Stacks as spec;

use minidump::{Context, Exception, Location, Thread};
use seh_views::c_types::SehContext;

/// Of a context's flags: the XMM registers were filled (Windows headers, winnt.h,
/// CONTEXT_FLOATING_POINT without CONTEXT_AMD64).
pub const FLOATING_POINT: u32 = 8;

/// Where the registers of a thread are. Those of the thread that raised the dump's exception are in
/// the exception, since its record in the thread list is of the moment of the dump.
pub fn location_of(thread: &Thread, exception: Option<Exception>) -> Location
    ensures { result ≡ spec.location_of thread.now exception }
{
    match exception {
        None => thread.context,
        Some(raised) => {
            if thread.thread_id == raised.thread_id {
                raised.context
            } else {
                thread.context
            }
        }
    }
}

/// The nonvolatile registers of a context. Those of vectors count where its flags say that they
/// were filled.
pub fn registers_of(context: &Context) -> SehContext
    ensures { result ≡ spec.registers_of context.now }
{
    let integer = &context.integer;
    let xmm = &context.xmm;
    SehContext {
        rip: context.rip,
        rsp: integer[4],
        rbx: integer[3],
        rbp: integer[5],
        rsi: integer[6],
        rdi: integer[7],
        r12: integer[12],
        r13: integer[13],
        r14: integer[14],
        r15: integer[15],
        vectors: [
            xmm[6].low,
            xmm[6].high,
            xmm[7].low,
            xmm[7].high,
            xmm[8].low,
            xmm[8].high,
            xmm[9].low,
            xmm[9].high,
            xmm[10].low,
            xmm[10].high,
            xmm[11].low,
            xmm[11].high,
            xmm[12].low,
            xmm[12].high,
            xmm[13].low,
            xmm[13].high,
            xmm[14].low,
            xmm[14].high,
            xmm[15].low,
            xmm[15].high,
        ],
        has_vectors: context.context_flags & FLOATING_POINT,
    }
}
