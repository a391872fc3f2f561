//! Fragments: the cold parts of functions, each with an entry that is chained to its function's.

ghost use Rattle.std.specs.Prelude.{◌≡◌, ◌+◌, ◌*◌, ◌<◌, ◌^◌, ◌++◌, length, map, OnOk};
ghost use Rattle.image_link.specs.Tables as spec;

use eh_tables::RuntimeFunction;
use eh_write::write_unwind;
use frame_layout::{FrameLayout, chained_of};
use std::alloc::AllocError;
use x64_emit::body::CodeRange;

/// A cold part of a function with a frame.
#[derive(Clone, Copy, Debug, PartialEq, Eq)]
pub struct Fragment {
    /// Its first byte, relative to the image base.
    pub begin: u32,
    /// The byte after its last one.
    pub end: u32,
    /// The entry of its function.
    pub parent: RuntimeFunction,
    /// Whether its function has a frame register.
    pub framed: bool,
}

/// How many bytes the unwind info of a fragment takes.
pub const CHAINED_SIZE: u32 = 16;

fn fragment_of(frame: &FrameLayout, parent: RuntimeFunction, part: &CodeRange) -> Fragment
    ensures { result ≡ spec.fragment frame.now parent part.now }
{
    Fragment {
        begin: part.begin,
        end: part.end,
        parent,
        framed: frame.framed,
    }
}

/// Adds the cold parts of a function with that frame and that entry.
pub fn put_fragments(
    fragments: &mut Vec<Fragment>,
    frame: &FrameLayout,
    parent: RuntimeFunction,
    parts: &[CodeRange],
) -> Result<(), AllocError>
    ensures { OnOk result (fragments.new.items
        ≡ fragments.old.items ++ map (spec.fragment frame.now parent) parts.now) }
{
    for part in parts {
        fragments.push(fragment_of(frame, parent, part))?;
    }
    Ok(())
}

/// Adds the unwind info of a fragment.
fn put_chained(xdata: &mut Vec<u8>, fragment: &Fragment) -> Result<(), AllocError>
    ensures { OnOk result
        (xdata.new.items ≡ xdata.old.items ++ spec.chained_bytes fragment.now) }
{
    write_unwind(&chained_of(fragment.framed, fragment.parent), xdata)
}

/// Adds the unwind infos of fragments, which begin at `xdata_at`, and their entries.
pub fn put_chains(
    xdata: &mut Vec<u8>,
    ranges: &mut Vec<RuntimeFunction>,
    fragments: &[Fragment],
    xdata_at: u32,
) -> Result<(), AllocError>
    requires { xdata_at + 16 * length fragments.now < 2 ^ 32 }
    ensures infos { OnOk result
        (xdata.new.items ≡ xdata.old.items ++ spec.chained_infos fragments.now) }
    ensures ranges { OnOk result
        (ranges.new.items ≡ ranges.old.items ++ spec.fragment_ranges xdata_at fragments.now) }
{
    let mut at = xdata_at;
    for fragment in fragments {
        put_chained(xdata, fragment)?;
        ranges.push(RuntimeFunction {
            begin: fragment.begin,
            end: fragment.end,
            unwind_info: at,
        })?;
        at += CHAINED_SIZE;
    }
    Ok(())
}
