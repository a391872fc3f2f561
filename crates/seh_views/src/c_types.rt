//! What crosses to C.

ghost use Rattle.std.specs.Prelude.{◌≡◌, ◌<◌};
ghost use Rattle.seh_views.specs.Shapes as spec;
ghost use Rattle.seh_views.specs.Shapes.{layout};

use crate::step::Step;
use abi_unwind::context::{AbiContext, NONVOLATILE_VECTORS};
use eh_index::Index;
use eh_tables::{Info, RuntimeFunction, ScopeRecord};
use pe_image::ImageLayout;
use x64_machine::context::Context;

/// An image that was opened, and where it lies in a process: plain data, which the caller owns. But
/// for its two slices it is trusted for nothing.
#[repr(C)]
#[derive(Clone, Copy)]
pub struct SehView<'a> {
    /// The bytes of the image.
    pub bytes: &'a [u8],
    /// The index of its function table.
    pub index: &'a [u32],
    /// Where it lies in the process.
    pub base: u64,
    /// Where its headers say that it is to lie.
    pub preferred_base: u64,
    /// How many bytes it takes in memory.
    pub size: u64,
    /// The entry point, relative to the base.
    pub entry_point: u64,
    /// How many entries its function table has.
    pub functions: u64,
    /// How many low bits of an address the index leaves out.
    pub shift: u32,
    /// Not 0: the bytes are memory into which a loader mapped it; else its file.
    pub mapped: u32,
    /// Of the sum of `PROFILE_OWN` and others.
    pub options: u32,
}

/// Frames are found by the project's own profile of the unwind procedure, and not as Windows does.
pub const PROFILE_OWN: u32 = 1;

/// Bytes of memory from an address on.
#[repr(C)]
#[derive(Clone, Copy)]
pub struct SehRange<'a> {
    /// The address of the first one.
    pub at: u64,
    /// The bytes.
    pub bytes: &'a [u8],
}

/// How many numbers of eight bytes XMM6 to XMM15 are.
pub const VECTOR_HALVES: usize = 2 * NONVOLATILE_VECTORS;

/// The registers that a caller can rely on (Microsoft x64 ABI, "Caller/callee saved registers").
#[repr(C)]
#[derive(Clone, Copy, Debug, PartialEq, Eq)]
pub struct SehContext {
    pub rip: u64,
    pub rsp: u64,
    pub rbx: u64,
    pub rbp: u64,
    pub rsi: u64,
    pub rdi: u64,
    pub r12: u64,
    pub r13: u64,
    pub r14: u64,
    pub r15: u64,
    /// XMM6 to XMM15, of each the low eight bytes first.
    pub vectors: [u64; VECTOR_HALVES],
    /// Not 0: the vector registers count; else they hold no more than what was passed.
    pub has_vectors: u32,
}

/// A frame, and its caller's registers.
#[repr(C)]
#[derive(Clone, Copy, Debug, PartialEq, Eq)]
pub struct SehFrame {
    /// The caller's registers, after the return.
    pub caller: SehContext,
    /// The establisher frame.
    pub establisher: u64,
    /// Which of the modules has the code.
    pub module_index: u64,
    /// The code of the entry that covers RIP, from `begin` to before `end`, relative to the image
    /// base; both are 0 where none does.
    pub begin: u32,
    pub end: u32,
    /// The address of the handler, relative to the image base.
    pub handler: u32,
    /// Whether there is one, which may then be asked.
    pub has_handler: bool,
    /// By the project's own profile, whether RIP is in the body of an entry.
    pub in_body: bool,
}

/// An entry of a function table, with its unwind info.
#[repr(C)]
#[derive(Clone, Copy, Debug, PartialEq, Eq)]
pub struct SehFunction {
    /// The code, from `begin` to before `end`, and the unwind info, relative to the image base.
    pub begin: u32,
    pub end: u32,
    pub unwind_info: u32,
    /// The address of the handler, where `has_handler`.
    pub handler: u32,
    /// How many unwind infos it is chained to.
    pub parents: u32,
    pub prologue_size: u8,
    pub frame_register: u8,
    pub frame_offset: u8,
    pub flags: u8,
    pub has_handler: bool,
}

/// A record of a scope table.
#[repr(C)]
#[derive(Clone, Copy, Debug, PartialEq, Eq)]
pub struct SehScope {
    /// The body of the `__try`, from `begin` to before `end`, relative to the image base.
    pub begin: u32,
    pub end: u32,
    /// The `__finally` block, where the jump target is 0; else the filter, or 1.
    pub handler_address: u32,
    /// The `__except` block, or 0.
    pub jump_target: u32,
}

/// What is said of the code of an image.
#[repr(C)]
#[derive(Clone, Copy, Debug, PartialEq, Eq)]
pub struct SehVerdict {
    /// The first entry of the function table in which a rule fails; how many entries there are,
    /// where none does.
    pub entry: u64,
    /// Where it fails first, relative to the image base; 0 where none does.
    pub at: u64,
    /// Which rule: a code of `include/seh.h`.
    pub rule: u32,
}

/// How a call ended: a code of `include/seh.h`, and the numbers that it speaks of.
#[repr(C)]
#[derive(Clone, Copy, Debug, PartialEq, Eq)]
pub struct SehStatus {
    pub code: u32,
    pub at: u64,
    pub more: u64,
}

/// The layout of an image that a loader mapped, or of its file.
pub fn layout_of(mapped: bool) -> ImageLayout
    ensures { result ≡ spec.layout_of mapped }
{
    if mapped {
        ImageLayout::Mapped
    } else {
        ImageLayout::File
    }
}

/// The layout of the bytes of a view.
pub fn layout_of_view(view: &SehView<'_>) -> ImageLayout
    ensures { result ≡ layout view.now }
{
    layout_of(view.mapped != 0)
}

/// Whether frames of a view are found by the project's own profile.
pub fn is_own(view: &SehView<'_>) -> bool
    ensures { result ≡ spec.is_own view.now }
{
    view.options % 2 == PROFILE_OWN
}

/// The index of a view.
pub fn index_of<'a>(view: &SehView<'a>) -> Index<'a>
    ensures { result ≡ spec.index_of view.now }
{
    Index {
        first: view.index,
        shift: view.shift,
    }
}

/// Registers of C, but for the vector registers.
pub fn machine_context(context: &SehContext) -> Context
    ensures { result ≡ spec.machine_context context.now }
{
    Context {
        rip: context.rip,
        kept: [
            context.rsp,
            context.rbx,
            context.rbp,
            context.rsi,
            context.rdi,
            context.r12,
            context.r13,
            context.r14,
            context.r15,
        ],
    }
}

/// A vector register by its halves.
fn whole(halves: &[u64; VECTOR_HALVES], number: usize) -> u128
    requires { number < NONVOLATILE_VECTORS }
    ensures { result ≡ spec.whole halves.now number }
{
    let high = halves[2 * number + 1] as u128;
    halves[2 * number] as u128 + 0x1_0000_0000_0000_0000 * high
}

/// The same with the vector registers.
#[tactic(auto, unfolding(crate::specs::Shapes::abi_context))]
pub fn abi_context(context: &SehContext) -> AbiContext
    ensures { result ≡ spec.abi_context context.now }
{
    let halves = &context.vectors;
    AbiContext {
        general: machine_context(context),
        vectors: [
            whole(halves, 0),
            whole(halves, 1),
            whole(halves, 2),
            whole(halves, 3),
            whole(halves, 4),
            whole(halves, 5),
            whole(halves, 6),
            whole(halves, 7),
            whole(halves, 8),
            whole(halves, 9),
        ],
    }
}

fn low(vector: u128) -> u64
    ensures { result ≡ spec.low vector }
{
    (vector % 0x1_0000_0000_0000_0000) as u64
}

fn high(vector: u128) -> u64
    ensures { result ≡ spec.high vector }
{
    (vector / 0x1_0000_0000_0000_0000) as u64
}

/// The halves of vector registers.
#[tactic(auto, unfolding(crate::specs::Shapes::halves))]
pub fn halves(vectors: &[u128; NONVOLATILE_VECTORS]) -> [u64; VECTOR_HALVES]
    ensures { result ≡ spec.halves vectors.now }
{
    [
        low(vectors[0]),
        high(vectors[0]),
        low(vectors[1]),
        high(vectors[1]),
        low(vectors[2]),
        high(vectors[2]),
        low(vectors[3]),
        high(vectors[3]),
        low(vectors[4]),
        high(vectors[4]),
        low(vectors[5]),
        high(vectors[5]),
        low(vectors[6]),
        high(vectors[6]),
        low(vectors[7]),
        high(vectors[7]),
        low(vectors[8]),
        high(vectors[8]),
        low(vectors[9]),
        high(vectors[9]),
    ]
}

/// Registers, as C sees them.
pub fn c_context(context: &Context, vectors: [u64; VECTOR_HALVES], has_vectors: u32) -> SehContext
    ensures { result ≡ spec.c_context context.now vectors has_vectors }
{
    let kept = &context.kept;
    SehContext {
        rip: context.rip,
        rsp: kept[0],
        rbx: kept[1],
        rbp: kept[2],
        rsi: kept[3],
        rdi: kept[4],
        r12: kept[5],
        r13: kept[6],
        r14: kept[7],
        r15: kept[8],
        vectors,
        has_vectors,
    }
}

/// A frame of the code of a module.
pub fn c_frame(module_index: u64, step: &Step) -> SehFrame
    ensures { result ≡ spec.c_frame module_index step.now }
{
    SehFrame {
        caller: step.caller,
        establisher: step.establisher,
        module_index,
        begin: step.begin,
        end: step.end,
        handler: step.handler.unwrap_or(0),
        has_handler: step.handler.is_some(),
        in_body: step.in_body,
    }
}

/// An entry by its parts.
pub fn c_function(range: RuntimeFunction, info: &Info<'_>, parents: &[Info<'_>]) -> SehFunction
    ensures { result ≡ spec.c_function
        (record { range = range; info = info.now; parents = parents.now }) }
{
    let handler = info.handler();
    SehFunction {
        begin: range.begin,
        end: range.end,
        unwind_info: range.unwind_info,
        handler: handler.unwrap_or(0),
        parents: (parents.len() % 0x1_0000_0000) as u32,
        prologue_size: info.prologue_size(),
        frame_register: info.frame_register(),
        frame_offset: info.frame_offset(),
        flags: info.flags(),
        has_handler: handler.is_some(),
    }
}

pub fn c_scope(row: &ScopeRecord) -> SehScope
    ensures { result ≡ spec.c_scope row.now }
{
    SehScope {
        begin: row.begin,
        end: row.end,
        handler_address: row.handler_address,
        jump_target: row.jump_target,
    }
}
