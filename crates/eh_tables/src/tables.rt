//! The function table of an image.

ghost use Rattle.std.specs.Prelude.{◌≡◌, ◌≤◌, ◌<◌, ◌/◌, ◌*◌, ◌^◌, length, slice_index_or, option_map, IfSome, IfOk, IfErr};
ghost use Rattle.std.specs.Result.{result_ok};
ghost use Rattle.eh_tables.specs.EitherEntries as either;
ghost use Rattle.eh_tables.specs.Infos.{info};
ghost use Rattle.eh_tables.specs.Records.{AreAt, scope_records_rva};
ghost use Rattle.eh_tables.specs.Tables as spec;

use crate::entry::{Entry, read_entry, read_entry_of_either_version};
use crate::info::{Info, read_info};
use crate::known::check_entry;
use crate::layout::RUNTIME_FUNCTION_SIZE;
use crate::range::{RuntimeFunction, read_range};
use crate::refusal::TableErr;
use crate::seen_records::SeenRecords;
use pe_image::ImageView;
use std::alloc::{AllocError, Global};
use std::collections::BTreeMap;
use std::marker::Model;

/// The function table of an image: the entries of its exception directory (PE format, "The .pdata
/// Section").
#[derive(Drop)]
pub struct Tables<'image, 'bytes> {
    image: &'image ImageView<'bytes>,
    directory: &'bytes [u8],
}

impl<'image, 'bytes> Model for Tables<'image, 'bytes> {
    ghost use Rattle.eh_tables.specs.Tables.{Tables, ranges_in};

    ghost Value = { Tables };

    ghost view = { λ t. record { image = t.image.now; ranges = ranges_in t.directory.now } };
}

impl<'image, 'bytes> Tables<'image, 'bytes> {
    /// The table of an image, of which the directory alone is checked: it is 4-aligned, stored
    /// whole, and its size is that of whole entries. A directory of size 0 has no entries.
    #[tactic(auto, unfolding(crate::specs::Tables::directory))]
    pub fn of(image: &'image ImageView<'bytes>) -> Result<Tables<'image, 'bytes>, TableErr>
        ensures read { IfOk result
            (λ t. (spec.directory image.now ≡ Ok t.ranges) × (t.image ≡ image.now)) }
        ensures refusal { IfErr result (λ e. spec.directory image.now ≡ Err e) }
    {
        let at = image.exception_directory();
        if at.size == 0 {
            return Ok(Tables {
                image,
                directory: &[],
            });
        }
        let rva = at.rva as u64;
        if at.rva % 4 != 0 {
            return Err(TableErr::Misaligned { rva });
        }
        let Some(directory) = image.bytes(rva, at.size as u64) else {
            return Err(TableErr::Truncated { rva });
        };
        if at.size as usize % RUNTIME_FUNCTION_SIZE != 0 {
            return Err(TableErr::Truncated { rva });
        }
        Ok(Tables { image, directory })
    }

    /// How many entries there are.
    pub fn len(&self) -> u64
        ensures { result ≡ length self.now.ranges }
    {
        (self.directory.len() / RUNTIME_FUNCTION_SIZE) as u64
    }

    /// The base of the image, from which its addresses count.
    pub fn base(&self) -> u64
        ensures { result ≡ self.now.image.base }
    {
        self.image.base()
    }

    /// The entry of an index, with its unwind infos unread.
    pub fn range(&self, index: u64) -> RuntimeFunction
        requires { index < length self.now.ranges }
        ensures { result ≡ slice_index_or self.now.ranges index spec.no_range }
    {
        read_range(self.directory, RUNTIME_FUNCTION_SIZE * index as usize)
    }

    /// The entry of an index, with its unwind info and those that this is chained to. The checks
    /// come in this order: its range isn't empty, and not below the entry before; its unwind info
    /// is 4-aligned, its first four bytes are stored, its version is 1, its flags are known, all of
    /// it is stored, the scope table of the C handler too; its codes, slot by slot; the infos that
    /// it is chained to, in the same way; and the records of the scope table.
    pub fn entry(&self, index: u64) -> Result<Entry<'bytes>, TableErr>
        requires { index < length self.now.ranges }
        ensures { result ≡ spec.entry_at self.now index }
    {
        read_entry(
            self.image,
            index,
            self.end_before(index),
            self.range(index),
            false,
        )
    }

    /// The same where infos of version 2 are read too: only another version is refused. The codes
    /// are those after the list of epilogues, which [`Info::epilogue_slots`] gives as it is stored.
    pub fn entry_of_either_version(&self, index: u64) -> Result<Entry<'bytes>, TableErr>
        requires { index < length self.now.ranges }
        ensures { result ≡ either.entry_at self.now index }
    {
        let last = self.end_before(index);
        read_entry_of_either_version(self.image, index, last, self.range(index))
    }

    /// Where the entry before an index ends.
    pub(crate) fn end_before(&self, index: u64) -> u32
        requires { index ≤ length self.now.ranges }
        ensures { result ≡ spec.end_before self.now.ranges index }
    {
        if index == 0 {
            0
        } else {
            self.range(index - 1).end
        }
    }

    /// The unwind info of an entry, read alone: neither the entry's range nor the infos that it is
    /// chained to are checked. It is refused as by [`Tables::entry`].
    pub fn own_info(&self, index: u64) -> Result<Info<'bytes>, TableErr>
        requires { index < length self.now.ranges }
        ensures { result ≡ info self.now.image index
            (slice_index_or self.now.ranges index spec.no_range).unwind_info }
    {
        read_info(self.image, index, self.range(index).unwind_info, false)
    }

    /// The entry of an index, in a table that was read whole: what its infos say isn't checked
    /// again.
    #[tactic(auto, using(crate::proofs::KnownEntries::entry_known))]
    pub fn known_entry(&self, index: u64) -> Option<Entry<'bytes>>
        requires whole { spec.TablesAreWhole self.now }
        requires within { index < length self.now.ranges }
        ensures { result ≡ result_ok (spec.entry_at self.now index) }
    {
        let last = self.end_before(index);
        read_entry(self.image, index, last, self.range(index), true).ok()
    }

    /// The unwind info of an entry, in a table that was read whole: what it says isn't checked
    /// again. Its scope records lie at [`Info::scope_records_rva`].
    #[tactic(auto, using(crate::proofs::KnownEntries::info_known, crate::proofs::KnownEntries::info_found))]
    pub fn info(&self, index: u64) -> Option<Info<'bytes>>
        requires whole { spec.TablesAreWhole self.now }
        requires within { index < length self.now.ranges }
        ensures value { result
            ≡ option_map (λ e. e.info) (result_ok (spec.entry_at self.now index)) }
        ensures placed { IfSome result (λ i. AreAt self.now.image
            (scope_records_rva (slice_index_or self.now.ranges index spec.no_range).unwind_info i)
            i.scopes) }
    {
        read_info(self.image, index, self.range(index).unwind_info, true).ok()
    }

    /// The table of an image, in which all entries are read. The first refusal by index is
    /// answered.
    pub fn read(image: &'image ImageView<'bytes>) -> Result<Tables<'image, 'bytes>, TableErr>
        ensures read { IfOk result
            (λ t. (spec.directory image.now ≡ Ok t.ranges) × (t.image ≡ image.now)) }
        ensures whole { IfOk result (λ t. spec.TablesAreWhole t) }
        ensures refusal { IfErr result (λ e. spec.tables image.now ≡ Err e) }
    {
        let tables = Tables::of(image)?;
        tables.check()?;
        Ok(tables)
    }

    /// The same, in memory that grows with the table. Unwind infos that entries share are checked
    /// once, and so are scope records that infos share. So it costs no more than the entries, the
    /// different infos with their chains, and the different scope records, each times the logarithm
    /// of their number.
    pub fn read_in(
        alloc: Global,
        image: &'image ImageView<'bytes>,
    ) -> Result<Result<Tables<'image, 'bytes>, TableErr>, AllocError>
        ensures read { IfOk result (λ r. IfOk r
            (λ t. (spec.directory image.now ≡ Ok t.ranges) × (t.image ≡ image.now))) }
        ensures whole { IfOk result (λ r. IfOk r (λ t. spec.TablesAreWhole t)) }
        ensures refusal { IfOk result (λ r. IfErr r (λ e. spec.tables image.now ≡ Err e)) }
    {
        let tables = match Tables::of(image) {
            Ok(tables) => tables,
            Err(refusal) => return Ok(Err(refusal)),
        };
        match tables.check_in(alloc)? {
            Ok(()) => Ok(Ok(tables)),
            Err(refusal) => Ok(Err(refusal)),
        }
    }

    /// Checks all entries, infos that they share once.
    #[tactic(auto, using(crate::proofs::KnownInfos::none_known, crate::proofs::UnseenRecords::nothing_passes, crate::proofs::KnownEntries::goes_on, crate::proofs::KnownEntries::ends_here))]
    fn check_in(&self, alloc: Global) -> Result<Result<(), TableErr>, AllocError>
        ensures { IfOk result (λ r. r ≡ spec.checked self.now) }
    {
        let mut known = BTreeMap::new(alloc);
        let mut seen = SeenRecords::new(alloc);
        for index in 0..self.len() {
            let last = self.end_before(index);
            let range = self.range(index);
            let image = self.image;
            if let Err(refusal) = check_entry(&mut known, &mut seen, image, index, last, range)? {
                return Ok(Err(refusal));
            }
        }
        Ok(Ok(()))
    }

    /// Reads all entries.
    fn check(&self) -> Result<(), TableErr>
        ensures { result ≡ spec.checked self.now }
    {
        for index in 0..self.len() {
            let _entry = self.entry(index)?;
        }
        Ok(())
    }
}
