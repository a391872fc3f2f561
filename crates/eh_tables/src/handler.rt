//! Which handler is the C handler.

ghost use Rattle.std.specs.Prelude.{◌≡◌, ◌≤◌, ◌+◌, ◌<◌, ◌^◌, length};
ghost use Rattle.eh_tables.specs.Handler as spec;

use crate::layout::{DISPLACEMENT, JUMP_SIZE, MODRM_JUMP_BY_RIP, OPCODE_GROUP_5, REX};
use host_layout::name::C_SPECIFIC_HANDLER;
use pe_image::ImageView;
use pe_image::fields::u32_at;

/// A number of 32 bits, extended by its sign to 64.
fn extended(d: u32) -> u64
    ensures { result ≡ spec.extended d }
{
    if d < 1 << 31 {
        d as u64
    } else {
        d as u64 + 0xFFFF_FFFF_0000_0000
    }
}

/// The slot that a jump without a prefix reads.
fn plain_slot(rva: u64, bytes: &[u8]) -> Option<u64>
    requires rva { rva + JUMP_SIZE < 2 ^ 64 }
    requires whole { JUMP_SIZE ≤ length bytes.now }
    ensures { result ≡ spec.plain_slot rva bytes.now }
{
    if bytes[0] != OPCODE_GROUP_5 || bytes[1] != MODRM_JUMP_BY_RIP {
        return None;
    }
    Some((rva + JUMP_SIZE).wrapping_add(extended(u32_at(bytes, DISPLACEMENT))))
}

/// The slot that a jump `jmp [rip + d]`, with or without a REX prefix, reads.
fn jump_slot(image: &ImageView<'_>, rva: u32) -> Option<u64>
    ensures { result ≡ spec.jump_slot image.now rva }
{
    let rva = rva as u64;
    let bytes = image.bytes(rva, JUMP_SIZE)?;
    if bytes[0] / 16 == REX {
        let all = image.bytes(rva, 1 + JUMP_SIZE)?;
        plain_slot(rva + 1, &all[1..])
    } else {
        plain_slot(rva, bytes)
    }
}

fn is_c_name(name: &[u8]) -> bool
    ensures { result ≡ spec.is_c_name name.now }
{
    name == C_SPECIFIC_HANDLER
}

/// Whether the handler at an address is the C handler: its code is a jump through the slot that is
/// bound to `__C_specific_handler`.
#[tactic(auto, unfolding(crate::specs::Handler::is_c_handler))]
pub fn is_c_handler(image: &ImageView<'_>, rva: u32) -> bool
    ensures { result ≡ spec.is_c_handler image.now rva }
{
    let Some(slot) = jump_slot(image, rva) else {
        return false;
    };
    match image.bound_name(slot) {
        Some(name) => is_c_name(name),
        None => false,
    }
}
