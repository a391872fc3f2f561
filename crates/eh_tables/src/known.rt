//! Chains of unwind infos that were checked before, so that entries that share one cost its length
//! once.

ghost use Rattle.std.specs.Prelude.{◌≡◌, ◌≤◌, ◌+◌, Some, IfOk, OnOk};
ghost use Rattle.eh_tables.specs.Known as spec;
ghost use Rattle.eh_tables.specs.Records.{SeenPass};
ghost use Rattle.eh_tables.specs.Tables.{parents, entry};

use crate::entry::check_range;
use crate::layout::MOST_PARENTS;
use crate::range::RuntimeFunction;
use crate::refusal::TableErr;
use crate::seen_records::SeenRecords;
use crate::unseen::read_unseen;
use pe_image::ImageView;
use std::alloc::AllocError;
use std::collections::BTreeMap;

/// The length of a chain that is known, if there is room for it.
fn within(index: u64, len: usize, room: usize) -> Result<usize, TableErr>
    ensures { result ≡ spec.within index len room }
{
    if len <= room {
        Ok(len)
    } else {
        Err(TableErr::ChainLong { index })
    }
}

/// How many infos are chained from one on, of at most `room`. What was checked is kept in `known`,
/// the length of the chain from each address, and the scope records of all infos in `seen`.
#[tactic(auto, using(crate::proofs::KnownInfos::chain_steps))]
fn chain_len(
    known: &mut BTreeMap<u32, usize>,
    seen: &mut SeenRecords,
    image: &ImageView<'_>,
    index: u64,
    next: Option<RuntimeFunction>,
    room: usize,
) -> Result<Result<usize, TableErr>, AllocError>
    requires known { spec.AreKnown image.now known.old }
    requires seen { SeenPass image.now seen.old }
    requires few { room ≤ 1 + MOST_PARENTS }
    ensures len { IfOk result
        (λ r. r ≡ spec.counted (parents room image.now index next)) }
    ensures known { OnOk result (spec.AreKnown image.now known.new) }
    ensures seen { OnOk result (SeenPass image.now seen.new) }
{
    let Some(range) = next else {
        return Ok(Ok(0));
    };
    if room == 0 {
        return Ok(Err(TableErr::ChainLong { index }));
    }
    if let Some(len) = known.get(&range.unwind_info) {
        return Ok(within(index, *len, room));
    }
    let info = match read_unseen(seen, image, index, range.unwind_info)? {
        Ok(info) => info,
        Err(refusal) => return Ok(Err(refusal)),
    };
    match chain_len(known, seen, image, index, info.parent(), room - 1)? {
        Ok(rest) => {
            known.insert(range.unwind_info, 1 + rest)?;
            Ok(Ok(1 + rest))
        }
        Err(refusal) => Ok(Err(refusal)),
    }
}

/// Checks the entry of that index and range, after one that ends at `last`.
#[tactic(auto, using(crate::proofs::KnownEntries::entry_steps))]
pub fn check_entry(
    known: &mut BTreeMap<u32, usize>,
    seen: &mut SeenRecords,
    image: &ImageView<'_>,
    index: u64,
    last: u32,
    range: RuntimeFunction,
) -> Result<Result<(), TableErr>, AllocError>
    requires known { spec.AreKnown image.now known.old }
    requires seen { SeenPass image.now seen.old }
    ensures answer { IfOk result (λ r. r ≡ spec.only (entry image.now index last range)) }
    ensures known { OnOk result (spec.AreKnown image.now known.new) }
    ensures seen { OnOk result (SeenPass image.now seen.new) }
{
    if let Err(refusal) = check_range(index, last, range) {
        return Ok(Err(refusal));
    }
    match chain_len(known, seen, image, index, Some(range), 1 + MOST_PARENTS)? {
        Ok(_) => Ok(Ok(())),
        Err(refusal) => Ok(Err(refusal)),
    }
}
