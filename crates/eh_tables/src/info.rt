//! Unwind infos.

ghost use Rattle.std.specs.Prelude.{◌≡◌, ◌≤◌, ◌+◌, ◌*◌, ◌<◌, ◌^◌, true, length, take, option_map, IfOk, IsOk};
ghost use Rattle.eh_tables.specs.declared.layout.TheConstants.{UNW_FLAG_CHAININFO};
ghost use Rattle.eh_tables.specs.EitherInfos as either;
ghost use Rattle.eh_tables.specs.Infos as spec;
ghost use Rattle.eh_tables.specs.Known as known;
ghost use Rattle.eh_tables.specs.Records as records;
ghost use Rattle.eh_tables.specs.Scopes as scopes;

use crate::codes::{Codes, check_codes};
use crate::epilogues::leading_epilogues;
use crate::handler::is_c_handler;
use crate::layout::{
    COUNT_OF_CODES, FRAME_REGISTER_AND_OFFSET, HANDLER_SIZE, MOST_INFO_BYTES, MOST_SLOT_BYTES,
    RUNTIME_FUNCTION_SIZE, SCOPE_COUNT_SIZE, SCOPE_RECORD_SIZE, SIZE_OF_PROLOG, UNW_FLAG_CHAININFO,
    UNWIND_CODES, UNWIND_VERSION, UNWIND_VERSION_2, VERSION_AND_FLAGS,
};
use crate::range::{RuntimeFunction, read_range};
use crate::refusal::TableErr;
use crate::scope::{Scopes, check_scope_records};
use pe_image::ImageView;
use pe_image::fields::u32_at;
use std::marker::Model;

/// An unwind info, UNWIND_INFO, in an image.
#[derive(Drop)]
pub struct Info<'a> {
    /// All up to the end of what follows the slots.
    bytes: &'a [u8],
    /// The records of its scope table.
    rows: &'a [u8],
    has_c_handler: bool,
}

impl<'a> Model for Info<'a> {
    ghost use Rattle.eh_tables.specs.Infos.{Info, HasParts};
    ghost use Rattle.eh_tables.specs.EitherInfos.{info_of};

    ghost Value = { Info };

    ghost view = { λ i. info_of i.bytes.now i.has_c_handler i.rows.now };

    ghost invariant = { λ i. HasParts i.bytes.now };
}

impl<'a> Default for Info<'a> {
    /// One that says nothing.
    fn default() -> Info<'a> {
        Info {
            bytes: &[UNWIND_VERSION, 0, 0, 0],
            rows: &[],
            has_c_handler: false,
        }
    }
}

impl<'a> Info<'a> {
    /// Its header and slots as they are stored, with the slot that makes their count even.
    pub fn bytes(&self) -> &'a [u8]
        ensures value { result.now ≡ self.now.bytes }
        ensures fits { length result.now ≤ MOST_INFO_BYTES }
    {
        &self.bytes[..slots_end(self.bytes)]
    }

    /// Its flags: UNW_FLAG_EHANDLER, UNW_FLAG_UHANDLER, both, UNW_FLAG_CHAININFO, or none of them.
    pub fn flags(&self) -> u8
        ensures value { result ≡ self.now.flags }
        ensures known { result ≤ UNW_FLAG_CHAININFO }
    {
        self.bytes[VERSION_AND_FLAGS] / 8
    }

    /// How many bytes the prologue has.
    pub fn prologue_size(&self) -> u8
        ensures { result ≡ self.now.prologue_size }
    {
        self.bytes[SIZE_OF_PROLOG]
    }

    /// The number of the frame register, where 0 means none.
    pub fn frame_register(&self) -> u8
        ensures { result ≡ self.now.frame_register }
    {
        self.bytes[FRAME_REGISTER_AND_OFFSET] % 16
    }

    /// How many bytes the frame register lies above the base of the frame.
    pub fn frame_offset(&self) -> u8
        ensures { result ≡ self.now.frame_offset }
    {
        16 * (self.bytes[FRAME_REGISTER_AND_OFFSET] / 16)
    }

    /// Its codes, in their order.
    pub fn codes(&self) -> Codes<'a>
        ensures { result ≡ self.now.codes }
    {
        Codes::new(
            self.bytes[FRAME_REGISTER_AND_OFFSET] % 16 != 0,
            code_slots(self.bytes),
        )
    }

    /// Its version: 1, or 2 where it was read by
    /// [`Tables::entry_of_either_version`](crate::Tables::entry_of_either_version).
    #[tactic(auto, using(crate::proofs::Headers::version_kept))]
    pub fn version(&self) -> u8
        ensures { result ≡ spec.version self.now.bytes }
    {
        self.bytes[VERSION_AND_FLAGS] % 8
    }

    /// The slots of its list of epilogues, which come before those of its codes: none in version 1.
    #[tactic(auto, using(crate::proofs::Headers::epilogues_kept))]
    pub fn epilogue_slots(&self) -> &'a [u8]
        ensures { result.now ≡ either.epilogue_slots self.now.bytes }
    {
        &slots_of(self.bytes)[..2 * listed(self.bytes)]
    }

    /// The address of its handler, where a flag says that it has one.
    pub fn handler(&self) -> Option<u32>
        ensures { result ≡ self.now.handler }
    {
        let flags = self.flags();
        if 0 < flags && flags < UNW_FLAG_CHAININFO {
            Some(u32_at(self.bytes, slots_end(self.bytes)))
        } else {
            None
        }
    }

    /// The entry that it is chained to.
    pub fn parent(&self) -> Option<RuntimeFunction>
        ensures { result ≡ self.now.parent }
    {
        if self.flags() == UNW_FLAG_CHAININFO {
            Some(read_range(self.bytes, slots_end(self.bytes)))
        } else {
            None
        }
    }

    /// Whether its handler is the C handler.
    pub fn has_c_handler(&self) -> bool
        ensures { result ≡ self.now.has_c_handler }
    {
        self.has_c_handler
    }

    /// Where the records of its scope table lie, relative to the image base, if it lies at an
    /// address itself.
    pub fn scope_records_rva(&self, rva: u32) -> u64
        ensures value { result ≡ records.scope_records_rva rva self.now }
        ensures fits { result < 2 ^ 33 }
    {
        rva as u64 + (slots_end(self.bytes) + HANDLER_SIZE + SCOPE_COUNT_SIZE) as u64
    }

    /// The records of its scope table, in their order; none where its handler isn't the C handler.
    #[tactic(auto, using(crate::proofs::Rows::row_count))]
    pub fn scopes(&self) -> Scopes<'a>
        ensures value { result ≡ self.now.scopes }
        ensures fits { length result < 2 ^ 59 }
    {
        Scopes::new(self.rows)
    }
}

/// Where the slots end, with the one that makes their count even.
fn slots_end(bytes: &[u8]) -> usize
    requires { 4 ≤ length bytes.now }
    ensures value { result ≡ spec.slots_end bytes.now }
    ensures fits { result ≤ MOST_INFO_BYTES }
{
    UNWIND_CODES + 4 * (bytes[COUNT_OF_CODES] as usize).div_ceil(2)
}

/// The slots of the codes.
fn slots_of<'a>(bytes: &'a [u8]) -> &'a [u8]
    requires { spec.HasParts bytes.now }
    ensures value { result.now ≡ spec.slots_of bytes.now }
    ensures fits { length result.now ≤ MOST_SLOT_BYTES }
{
    &bytes[UNWIND_CODES..UNWIND_CODES + 2 * bytes[COUNT_OF_CODES] as usize]
}

/// How many slots of epilogues there are before those of codes.
fn listed(bytes: &[u8]) -> usize
    requires { spec.HasParts bytes.now }
    ensures value { result ≡ either.listed bytes.now }
    ensures fits { 2 * result ≤ length (spec.slots_of bytes.now) }
    ensures few { length (spec.slots_of bytes.now) ≤ MOST_SLOT_BYTES }
{
    if bytes[VERSION_AND_FLAGS] % 8 == UNWIND_VERSION_2 {
        leading_epilogues(slots_of(bytes))
    } else {
        0
    }
}

/// The slots of the codes, which come after those of epilogues.
fn code_slots<'a>(bytes: &'a [u8]) -> &'a [u8]
    requires { spec.HasParts bytes.now }
    ensures value { result.now ≡ either.code_slots bytes.now }
    ensures fits { 2 * either.listed bytes.now + length result.now ≤ MOST_SLOT_BYTES }
{
    &slots_of(bytes)[2 * listed(bytes)..]
}

/// Header, slots and what follows them, where they are stored; where `second` says it, those of
/// version 2 too.
#[tactic(auto, unfolding(crate::specs::EitherInfos::stored_info))]
fn stored_info<'a>(
    image: &ImageView<'a>,
    index: u64,
    rva: u32,
    second: bool,
) -> Result<&'a [u8], TableErr>
    ensures answer { spec.shown result ≡ either.stored_info second image.now index rva }
    ensures parts { IfOk result (λ bytes. spec.HasParts bytes.now) }
    ensures version { IfOk result (λ bytes. either.is_read second (spec.version bytes.now) ≡ true) }
{
    let at = rva as u64;
    if rva % 4 != 0 {
        return Err(TableErr::Misaligned { rva: at });
    }
    let Some(head) = image.bytes(at, UNWIND_CODES as u64) else {
        return Err(TableErr::Truncated { rva: at });
    };
    let found = head[VERSION_AND_FLAGS] % 8;
    if found != UNWIND_VERSION && !(second && found == UNWIND_VERSION_2) {
        return Err(TableErr::Version { index, found });
    }
    let flags = head[VERSION_AND_FLAGS] / 8;
    if flags > UNW_FLAG_CHAININFO {
        return Err(TableErr::Flags { index });
    }
    let trailer_size = match flags {
        0 => 0,
        UNW_FLAG_CHAININFO => RUNTIME_FUNCTION_SIZE,
        _ => HANDLER_SIZE,
    };
    match image.bytes(at, (slots_end(head) + trailer_size) as u64) {
        Some(bytes) => Ok(bytes),
        None => Err(TableErr::Truncated { rva: at }),
    }
}

/// The same of version 1.
#[tactic(auto, unfolding(crate::specs::Infos::stored_info, crate::specs::EitherInfos::stored_info))]
fn stored_version_1<'a>(image: &ImageView<'a>, index: u64, rva: u32) -> Result<&'a [u8], TableErr>
    ensures answer { spec.shown result ≡ spec.stored_info image.now index rva }
    ensures parts { IfOk result (λ bytes. spec.HasParts bytes.now) }
    ensures version { IfOk result (λ bytes. spec.version bytes.now ≡ UNWIND_VERSION) }
{
    stored_info(image, index, rva, false)
}

/// The records of the scope table of an info, where its handler is the C handler.
#[tactic(auto, unfolding(crate::specs::Infos::stored_scope_records))]
fn stored_scope_records<'a>(
    image: &ImageView<'a>,
    rva: u32,
    bytes: &[u8],
    has_c_handler: bool,
) -> Result<&'a [u8], TableErr>
    requires parts { spec.HasParts bytes.now }
    requires handler { has_c_handler ≡ spec.is_c image.now bytes.now }
    ensures answer { spec.shown result ≡ spec.stored_scope_records image.now rva bytes.now }
    ensures placed { IfOk result (λ rows. records.AreAt image.now
        (rva + spec.slots_end bytes.now + (HANDLER_SIZE + SCOPE_COUNT_SIZE))
        (scopes.scope_records_in rows.now)) }
{
    if !has_c_handler {
        return Ok(&[]);
    }
    let stored = image.bytes_from(rva as u64);
    let at = slots_end(bytes) + HANDLER_SIZE;
    let rows = at + SCOPE_COUNT_SIZE;
    if stored.len() < rows {
        return Err(TableErr::Truncated { rva: rva as u64 });
    }
    let end = rows + SCOPE_RECORD_SIZE * u32_at(stored, at) as usize;
    if stored.len() < end {
        return Err(TableErr::Truncated { rva: rva as u64 });
    }
    Ok(&stored[rows..end])
}

/// Whether the handler of an info is the C handler.
fn is_c(image: &ImageView<'_>, bytes: &[u8]) -> bool
    requires { spec.HasParts bytes.now }
    ensures { result ≡ spec.is_c image.now bytes.now }
{
    let flags = bytes[VERSION_AND_FLAGS] / 8;
    0 < flags && flags < UNW_FLAG_CHAININFO && is_c_handler(image, u32_at(bytes, slots_end(bytes)))
}

/// Checks the codes of an info, unless they are known to pass.
fn check_own_codes(index: u64, bytes: &[u8], is_known: bool) -> Result<(), TableErr>
    requires parts { spec.HasParts bytes.now }
    requires known { is_known ≡ true → IsOk (known.codes_checked index bytes.now) }
    ensures { result ≡ known.codes_checked index bytes.now }
{
    if is_known {
        return Ok(());
    }
    let framed = bytes[FRAME_REGISTER_AND_OFFSET] % 16 != 0;
    check_codes(index, framed, 0, slots_of(bytes))
}

/// Reads the unwind info at an address, for the entry of an index, without a check of its scope
/// records. Where it `is_known` that it can be read, its codes aren't checked again.
#[tactic(auto, unfolding(crate::specs::Known::info_before_records))]
pub fn read_before_records<'a>(
    image: &ImageView<'a>,
    index: u64,
    rva: u32,
    is_known: bool,
) -> Result<Info<'a>, TableErr>
    requires { is_known ≡ true → IsOk (known.info_before_records image.now index rva) }
    ensures answer { result ≡ known.info_before_records image.now index rva }
    ensures placed { IfOk result
        (λ i. records.AreAt image.now (records.scope_records_rva rva i) i.scopes) }
{
    let bytes = stored_version_1(image, index, rva)?;
    let has_c_handler = is_c(image, bytes);
    let rows = stored_scope_records(image, rva, bytes, has_c_handler)?;
    check_own_codes(index, bytes, is_known)?;
    Ok(Info {
        bytes,
        rows,
        has_c_handler,
    })
}

/// Checks the scope records of an info, unless they are known to pass.
fn check_own_records(index: u64, size: u64, info: &Info<'_>, is_known: bool) -> Result<(), TableErr>
    requires { is_known ≡ true → IsOk (scopes.checked index size 0 info.now.scopes) }
    ensures { result ≡ scopes.checked index size 0 info.now.scopes }
{
    if is_known {
        return Ok(());
    }
    check_scope_records(index, size, 0, info.scopes())
}

/// Reads the unwind info at an address, for the entry of an index. Where it `is_known` that it can
/// be read, its codes and scope records aren't checked again.
#[tactic(auto, using(crate::proofs::InfoSteps::info_steps))]
pub fn read_info<'a>(
    image: &ImageView<'a>,
    index: u64,
    rva: u32,
    is_known: bool,
) -> Result<Info<'a>, TableErr>
    requires { is_known ≡ true → IsOk (spec.info image.now index rva) }
    ensures answer { result ≡ spec.info image.now index rva }
    ensures placed { IfOk result
        (λ i. records.AreAt image.now (records.scope_records_rva rva i) i.scopes) }
{
    let info = read_before_records(image, index, rva, is_known)?;
    check_own_records(index, image.size(), &info, is_known)?;
    Ok(info)
}

/// Reads the unwind info at an address, of version 1 or 2, for the entry of an index.
#[tactic(auto, unfolding(crate::specs::EitherInfos::info))]
pub fn read_info_of_either_version<'a>(
    image: &ImageView<'a>,
    index: u64,
    rva: u32,
) -> Result<Info<'a>, TableErr>
    ensures { result ≡ either.info image.now index rva }
{
    let bytes = stored_info(image, index, rva, true)?;
    let has_c_handler = is_c(image, bytes);
    let rows = stored_scope_records(image, rva, bytes, has_c_handler)?;
    let framed = bytes[FRAME_REGISTER_AND_OFFSET] % 16 != 0;
    check_codes(index, framed, listed(bytes) as u64, code_slots(bytes))?;
    check_scope_records(index, image.size(), 0, Scopes::new(rows))?;
    Ok(Info {
        bytes,
        rows,
        has_c_handler,
    })
}
