//! An index is filled.

ghost use Rattle.std.specs.Prelude.{◌≡◌, ◌≤◌, ◌<◌, ◌-◌, ◌^◌, length, slice_index_or};
ghost use Rattle.eh_tables.specs.Tables.{no_range};
ghost use Rattle.eh_index.specs.Indexes as spec;
ghost use Rattle.eh_index.specs.Shifts as shifts;

use eh_tables::Tables;

/// The first entry from one on that ends above an address; none below it does.
fn next_above(tables: &Tables<'_, '_>, from: u64, at: u64) -> u64
    requires within { from ≤ length tables.now.ranges }
    requires passed { spec.EndBy tables.now.ranges from at }
    ensures within { result ≤ length tables.now.ranges }
    ensures below { spec.EndBy tables.now.ranges result at }
    ensures above { result < length tables.now.ranges
        → at < (slice_index_or tables.now.ranges result no_range).end }
{
    let count = tables.len();
    let mut index = from;
    while index < count {
        let range = tables.range(index);
        if at < range.end as u64 {
            return index;
        }
        index += 1;
    }
    index
}

/// Fills an index of a table, in which so many low bits of an address are left out. It costs the
/// entries and the room together.
pub fn fill(tables: &Tables<'_, '_>, shift: u32, first: &mut [u32])
    requires bits { shift < 32 }
    requires count { length tables.now.ranges < 2 ^ 32 }
    requires room { length first.old ≤ 2 ^ 32 }
    ensures { spec.IsIndexOf tables.now.ranges shift first.new }
{
    let mut index = 0;
    for bucket in 0..first.len() {
        index = next_above(tables, index, (bucket as u64) << shift);
        first[bucket] = index as u32;
    }
}

/// Whether an index with so much room has a place for each address, where so many low bits are left
/// out, and one more above them.
fn has_room(size: u64, room: usize, shift: u32) -> bool
    requires { shift < 32 }
    ensures { result ≡ shifts.has_room size room shift }
{
    2 <= room && (size >> shift) <= room as u64 - 2
}

/// The same from so many bits on.
fn shift_from(size: u64, room: usize, shift: u32) -> u32
    requires { shift ≤ 31 }
    ensures fewest { result ≡ shifts.fewest_from size room (31 - shift) shift }
    ensures bits { result < 32 }
{
    if shift == 31 || has_room(size, room, shift) {
        shift
    } else {
        shift_from(size, room, shift + 1)
    }
}

/// How many low bits of an address an index with so much room leaves out, in an image of a size:
/// the fewest with which it has a place for each address, or 31 where it has none.
pub fn shift_for(size: u64, room: usize) -> u32
    ensures fewest { result ≡ shifts.fewest size room }
    ensures bits { result < 32 }
{
    shift_from(size, room, 0)
}
