//! The entry of a number, of which no more is read than its own unwind info, where that is chained
//! to none.

ghost use Rattle.std.specs.Prelude.{◌≡◌, ◌<◌, length, slice_index_or, Ok, Err, IfOk, IfErr, IfSome, IsTrue, IsOk};
ghost use Rattle.eh_tables.specs.Covering.{unchained};
ghost use Rattle.eh_tables.specs.Known.{range_checked};
ghost use Rattle.eh_tables.specs.Tables.{end_before, entry_at, no_range};
ghost use Rattle.eh_index.specs.Lone as spec;

use eh_tables::{FunctionEntry, TableErr, Tables};

/// Whether the range of an entry isn't empty, and not below the entry before.
#[tactic(auto, using(crate::proofs::Alone::fails_empty, crate::proofs::Alone::passes_first, crate::proofs::Alone::goes_by_begin))]
fn is_in_order(tables: &Tables<'_, '_>, number: u64) -> bool
    requires { number < length tables.now.ranges }
    ensures { result ≡ spec.is_in_order tables.now.ranges number }
{
    let range = tables.range(number);
    if range.end <= range.begin {
        return false;
    }
    if number == 0 {
        return true;
    }
    tables.range(number - 1).end <= range.begin
}

/// An entry that is chained to none, with its own unwind info. None where it is chained, or its
/// range isn't in order: then it has to be read whole.
#[tactic(auto, using(crate::proofs::Alone::alone_is, crate::proofs::Alone::alone_refused))]
pub fn lone_function<'bytes>(
    tables: &Tables<'_, 'bytes>,
    number: u64,
) -> Result<Option<FunctionEntry<'bytes>>, TableErr>
    requires { number < length tables.now.ranges }
    ensures value { result ≡ spec.lone tables.now number }
    ensures found { IfOk result (λ o. IfSome o (λ f.
        Ok (unchained f) ≡ entry_at tables.now number)) }
    ensures refusal { IfErr result (λ e. Err e ≡ entry_at tables.now number) }
{
    if !is_in_order(tables, number) {
        return Ok(None);
    }
    let info = match tables.own_info(number) {
        Ok(info) => info,
        Err(e) => return Err(e),
    };
    match info.parent() {
        Some(_) => Ok(None),
        None => Ok(Some(FunctionEntry {
            range: tables.range(number),
            info,
        })),
    }
}
