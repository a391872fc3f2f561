//! Contexts, by the numbers of registers.

ghost use Rattle.std.specs.Prelude.{◌≡◌, ◌<◌, ℕ, IfSome};
ghost use Rattle.virtual_unwind.specs.Contexts as spec;

use x64_machine::context::Context;

fn kept_index(register: u8) -> Option<usize>
    ensures value { result ≡ spec.kept_index register }
    ensures small { IfSome result (λ k. k < 9) }
{
    match register {
        4 => Some(0),
        3 => Some(1),
        0..=2 => None,
        5..=7 => Some(register as usize - 3),
        8..=11 => None,
        12..=15 => Some(register as usize - 7),
        _ => None,
    }
}

/// A register; 0 where it is volatile.
pub fn get(context: &Context, register: u8) -> u64
    ensures { result ≡ spec.get context.now register }
{
    match kept_index(register) {
        None => 0,
        Some(k) => context.kept[k],
    }
}

/// The context with a register set, where it is nonvolatile.
pub fn with(context: &Context, register: u8, value: u64) -> Context
    ensures { result ≡ spec.set context.now register value }
{
    let mut after = *context;
    if let Some(k) = kept_index(register) {
        after.kept[k] = value;
    }
    after
}

/// RSP.
pub fn rsp(context: &Context) -> u64
    ensures { result ≡ spec.rsp context.now }
{
    context.kept[0]
}

/// The context with RSP set.
pub fn with_rsp(context: &Context, value: u64) -> Context
    ensures { result ≡ spec.with_rsp context.now value }
{
    let mut after = *context;
    after.kept[0] = value;
    after
}

/// The context with RSP risen.
pub fn rsp_raised(context: &Context, by: u64) -> Context
    ensures { result ≡ spec.rsp_raised context.now by }
{
    with_rsp(context, rsp(context).wrapping_add(by))
}

/// Sets a register, where it is nonvolatile.
pub fn set(context: &mut Context, register: u8, value: u64)
    ensures { context.new ≡ spec.set context.old register value }
{
    if let Some(k) = kept_index(register) {
        context.kept[k] = value;
    }
}

/// Sets RSP.
pub fn set_rsp(context: &mut Context, value: u64)
    ensures { context.new ≡ spec.with_rsp context.old value }
{
    context.kept[0] = value;
}

/// Raises RSP.
pub fn raise_rsp(context: &mut Context, by: u64)
    ensures { context.new ≡ spec.rsp_raised context.old by }
{
    let rsp = context.kept[0];
    context.kept[0] = rsp.wrapping_add(by);
}
