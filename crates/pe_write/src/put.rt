//! Fields, written one after another.

ghost use Rattle.std.specs.Prelude.{◌≡◌, ◌++◌, OnOk};
ghost use Rattle.pe_write.specs.Written as spec;

use pe_image::fields::{u16_bytes, u32_bytes, u64_bytes};
use std::alloc::AllocError;

pub fn put_u16(out: &mut Vec<u8>, value: u16) -> Result<(), AllocError>
    ensures { OnOk result (out.new.items ≡ out.old.items ++ spec.u16 value) }
{
    out.extend_from_slice(&u16_bytes(value))
}

pub fn put_u32(out: &mut Vec<u8>, value: u32) -> Result<(), AllocError>
    ensures { OnOk result (out.new.items ≡ out.old.items ++ spec.u32 value) }
{
    out.extend_from_slice(&u32_bytes(value))
}

pub fn put_u64(out: &mut Vec<u8>, value: u64) -> Result<(), AllocError>
    ensures { OnOk result (out.new.items ≡ out.old.items ++ spec.u64 value) }
{
    out.extend_from_slice(&u64_bytes(value))
}

#[tactic(auto, unfolding(pe_image::specs::Numbers::zeros))]
pub fn put_zeros(out: &mut Vec<u8>, count: usize) -> Result<(), AllocError>
    ensures { OnOk result (out.new.items ≡ out.old.items ++ spec.zeros count) }
{
    for _i in 0..count {
        out.push(0)?;
    }
    Ok(())
}
