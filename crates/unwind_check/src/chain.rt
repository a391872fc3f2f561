//! Chain: entries that are chained to another one (Microsoft x64 ABI, "Chained unwind info
//! structures").

ghost use Rattle.std.specs.Prelude.{◌≡◌, ◌<◌, ◌^◌};
ghost use Rattle.eh_tables.specs.Tables.{TablesAreWhole, entries_of};
ghost use Rattle.unwind_check.specs.Chains as spec;

use eh_tables::{Info, RuntimeFunction, Tables};

fn is_same_range(range: RuntimeFunction, other: RuntimeFunction) -> bool
    ensures { result ≡ spec.is_same_range range other }
{
    range.begin == other.begin && range.end == other.end && range.unwind_info == other.unwind_info
}

/// The unwind info of the entry that an info names, where it is one of the table.
pub fn info_named<'bytes>(tables: &Tables<'_, 'bytes>, info: &Info) -> Option<Info<'bytes>>
    requires { TablesAreWhole tables.now }
    ensures { result ≡ spec.info_named (entries_of tables.now) info.now.parent }
{
    let range = info.parent()?;
    let found = tables.find(range.begin as u64)?;
    if is_same_range(range, found.range) {
        Some(found.info)
    } else {
        None
    }
}

fn has_no_codes(info: &Info) -> bool
    ensures { result ≡ spec.has_no_codes info.now.codes }
{
    let mut codes = info.codes();
    codes.next().is_none()
}

/// Whether an info has nothing of its own beside a primary one that isn't chained: no codes, no
/// prologue, and the same frame register.
pub fn is_secondary(info: &Info, primary: &Info) -> bool
    ensures value { result ≡ spec.is_secondary info.now primary.now }
    ensures near { info.now.frame_offset < 2 ^ 8 }
{
    let offset = info.frame_offset();
    primary.parent().is_none()
        && has_no_codes(info)
        && info.prologue_size() == 0
        && info.frame_register() == primary.frame_register()
        && offset == primary.frame_offset()
}
