//! Entries with their unwind infos.

ghost use Rattle.std.specs.Prelude.{◌≡◌, ◌≤◌, ◌-◌, true, length, IsOk};
ghost use Rattle.arrayvec.specs.ArrayVec.{array_vec_len};
ghost use Rattle.eh_tables.specs.EitherEntries as either;
ghost use Rattle.eh_tables.specs.Known as known;
ghost use Rattle.eh_tables.specs.Tables as spec;
ghost use Rattle.seh_num.specs.Answers.{onto};

use crate::codes::Codes;
use crate::info::{Info, read_info, read_info_of_either_version};
use crate::layout::MOST_PARENTS;
use crate::range::RuntimeFunction;
use crate::refusal::TableErr;
use crate::scope::Scopes;
use arrayvec::ArrayVec;
use pe_image::ImageView;
use std::marker::Model;

/// An entry of a function table, with its unwind info and those that this is chained to.
#[derive(Drop)]
pub struct Entry<'a> {
    range: RuntimeFunction,
    info: Info<'a>,
    parents: ArrayVec<Info<'a>, MOST_PARENTS>,
}

impl<'a> Model for Entry<'a> {
    ghost use Rattle.eh_tables.specs.Tables.{Entry};

    ghost Value = { Entry };

    ghost view = { λ e. record { range = e.range; info = e.info; parents = e.parents.items } };
}

impl<'a> Entry<'a> {
    /// The range of its code, and where its unwind info lies.
    pub fn range(&self) -> RuntimeFunction
        ensures { result ≡ self.now.range }
    {
        self.range
    }

    /// Its own unwind info.
    pub fn info(&self) -> &Info<'a>
        ensures { result.now ≡ self.now.info }
    {
        &self.info
    }

    /// The unwind infos that it is chained to, one after another.
    pub fn parents(&self) -> &[Info<'a>]
        ensures { result.now ≡ self.now.parents }
    {
        self.parents.as_slice()
    }

    /// The codes of its own unwind info, in their order.
    pub fn codes(&self) -> Codes<'a>
        ensures { result ≡ self.now.info.codes }
    {
        self.info.codes()
    }

    /// The records of its scope table, in their order; none where its handler isn't the C handler.
    pub fn scopes(&self) -> Scopes<'a>
        ensures { result ≡ self.now.info.scopes }
    {
        self.info.scopes()
    }
}

/// Reads the infos that one is chained to. Where it `is_known` that they can be read, what they say
/// isn't checked again.
fn read_parents<'a>(
    image: &ImageView<'a>,
    index: u64,
    first: Option<RuntimeFunction>,
    is_known: bool,
) -> Result<ArrayVec<Info<'a>, MOST_PARENTS>, TableErr>
    requires { is_known ≡ true → IsOk (spec.parents MOST_PARENTS image.now index first) }
    ensures { spec.listed result ≡ spec.parents MOST_PARENTS image.now index first }
{
    let mut parents = ArrayVec::new();
    let mut parent = first;
    while let Some(range) = parent {
        if parents.is_full() {
            return Err(TableErr::ChainLong { index });
        }
        let info = read_info(image, index, range.unwind_info, is_known)?;
        parent = info.parent();
        parents.push(info);
    }
    Ok(parents)
}

/// Checks the range of an entry, after one that ends at `last`.
pub fn check_range(index: u64, last: u32, range: RuntimeFunction) -> Result<(), TableErr>
    ensures { result ≡ known.range_checked index last range }
{
    if range.end <= range.begin {
        return Err(TableErr::EmptyRange { index });
    }
    if range.begin < last {
        return Err(TableErr::Unsorted { index });
    }
    Ok(())
}

/// Reads the entry of that index and range, after one that ends at `last`. Where it `is_known` that
/// it can be read, what its infos say isn't checked again.
#[tactic(auto, unfolding(crate::specs::Tables::entry))]
pub fn read_entry<'a>(
    image: &ImageView<'a>,
    index: u64,
    last: u32,
    range: RuntimeFunction,
    is_known: bool,
) -> Result<Entry<'a>, TableErr>
    requires { is_known ≡ true → IsOk (spec.entry image.now index last range) }
    ensures { result ≡ spec.entry image.now index last range }
{
    check_range(index, last, range)?;
    let info = read_info(image, index, range.unwind_info, is_known)?;
    let parents = read_parents(image, index, info.parent(), is_known)?;
    Ok(Entry {
        range,
        info,
        parents,
    })
}

/// Appends the infos that one is chained to, of version 1 or 2, from that entry on.
#[tactic(auto, using(crate::proofs::EitherChains::chain_steps))]
fn add_parents<'a>(
    image: &ImageView<'a>,
    index: u64,
    next: Option<RuntimeFunction>,
    parents: &mut ArrayVec<Info<'a>, MOST_PARENTS>,
) -> Result<(), TableErr>
    requires { length parents.old.items ≤ MOST_PARENTS }
    ensures { either.appended result parents.new.items ≡ onto parents.old.items
        (either.parents (MOST_PARENTS - length parents.old.items) image.now index next) }
{
    match next {
        None => Ok(()),
        Some(_) if parents.len() == MOST_PARENTS => Err(TableErr::ChainLong { index }),
        Some(range) => {
            let info = read_info_of_either_version(image, index, range.unwind_info)?;
            let parent = info.parent();
            parents.push(info);
            add_parents(image, index, parent, parents)
        }
    }
}

/// Reads the entry of that index and range, whose infos have version 1 or 2, after one that ends at
/// `last`.
#[tactic(auto, unfolding(crate::specs::EitherEntries::entry))]
pub fn read_entry_of_either_version<'a>(
    image: &ImageView<'a>,
    index: u64,
    last: u32,
    range: RuntimeFunction,
) -> Result<Entry<'a>, TableErr>
    ensures { result ≡ either.entry image.now index last range }
{
    check_range(index, last, range)?;
    let info = read_info_of_either_version(image, index, range.unwind_info)?;
    let mut parents = ArrayVec::new();
    add_parents(image, index, info.parent(), &mut parents)?;
    Ok(Entry {
        range,
        info,
        parents,
    })
}
