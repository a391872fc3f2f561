//! Why a call has no answer.

ghost use Rattle.std.specs.Prelude.{◌≡◌};
ghost use Rattle.seh_views.specs.Statuses as spec;

use crate::c_types::SehStatus;
use crate::codes;
use eh_tables::TableErr;
use pe_image::ImageErr;
use virtual_unwind::UnwindErr;

/// Why a call has no answer.
#[derive(Clone, Copy, Debug, PartialEq, Eq)]
pub enum Refusal {
    /// The range of memory of that index begins below the end of the one before, or passes the end
    /// of the addresses.
    Range { index: u64 },
    /// No memory was left.
    NoMemory,
    /// The bytes are no image.
    Image(ImageErr),
    /// Its function table can't be read.
    Table(TableErr),
    /// The caller isn't found.
    Unwinding(UnwindErr),
}

fn status(code: u32, at: u64, more: u64) -> SehStatus
    ensures { result ≡ spec.status code at more }
{
    SehStatus { code, at, more }
}

/// All was done.
pub const OK: SehStatus = SehStatus {
    code: codes::OK,
    at: 0,
    more: 0,
};

/// The caller's array is full.
pub const MORE: SehStatus = SehStatus {
    code: codes::MORE,
    at: 0,
    more: 0,
};

/// No entry of the function table covers the address.
pub const NO_FUNCTION: SehStatus = SehStatus {
    code: codes::NO_FUNCTION,
    at: 0,
    more: 0,
};

/// No memory was left.
pub const NO_MEMORY: SehStatus = SehStatus {
    code: codes::NO_MEMORY,
    at: 0,
    more: 0,
};

/// RIP is 0: the stack ends.
pub const END_OF_STACK: SehStatus = SehStatus {
    code: codes::END,
    at: 0,
    more: 0,
};

/// RIP lies in no module.
pub fn unknown_code(rip: u64) -> SehStatus
    ensures { result ≡ spec.unknown_code rip }
{
    status(codes::UNKNOWN_CODE, rip, 0)
}

fn image_status(e: ImageErr) -> SehStatus
    ensures { result ≡ spec.image_status e }
{
    match e {
        ImageErr::Truncated { at } => status(codes::IMAGE_TRUNCATED, at, 0),
        ImageErr::NotPe { at } => status(codes::IMAGE_NOT_PE, at, 0),
        ImageErr::Machine { found } => status(codes::IMAGE_MACHINE, found, 0),
        ImageErr::Magic { found } => status(codes::IMAGE_MAGIC, found, 0),
        ImageErr::Layout { section } => status(codes::IMAGE_LAYOUT, section, 0),
        ImageErr::ImportBad { index } => status(codes::IMAGE_IMPORT, index, 0),
        ImageErr::Memory => NO_MEMORY,
    }
}

fn table_status(e: TableErr) -> SehStatus
    ensures { result ≡ spec.table_status e }
{
    match e {
        TableErr::Truncated { rva } => status(codes::TABLE_TRUNCATED, rva, 0),
        TableErr::Misaligned { rva } => status(codes::TABLE_MISALIGNED, rva, 0),
        TableErr::EmptyRange { index } => status(codes::TABLE_EMPTY_RANGE, index, 0),
        TableErr::Unsorted { index } => status(codes::TABLE_UNSORTED, index, 0),
        TableErr::Version { index, found } => status(codes::TABLE_VERSION, index, u64::from(found)),
        TableErr::Flags { index } => status(codes::TABLE_FLAGS, index, 0),
        TableErr::Op { index, slot } => status(codes::TABLE_OPERATION, index, slot),
        TableErr::CodeOrder { index, slot } => status(codes::TABLE_CODE_ORDER, index, slot),
        TableErr::ChainLong { index } => status(codes::TABLE_CHAIN, index, 0),
        TableErr::ScopeRange { index, row } => status(codes::TABLE_SCOPE, index, row),
    }
}

pub fn unwind_status(e: UnwindErr) -> SehStatus
    ensures { result ≡ spec.unwind_status e }
{
    match e {
        UnwindErr::Unreadable { address } => status(codes::UNREADABLE, address, 0),
        UnwindErr::Backward { rsp } => status(codes::BACKWARD, rsp, 0),
    }
}

/// The status of a refusal.
pub fn status_of(refusal: Refusal) -> SehStatus
    ensures { result ≡ spec.refusal_status refusal }
{
    match refusal {
        Refusal::Range { index } => status(codes::BAD_RANGES, index, 0),
        Refusal::NoMemory => NO_MEMORY,
        Refusal::Image(e) => image_status(e),
        Refusal::Table(e) => table_status(e),
        Refusal::Unwinding(e) => unwind_status(e),
    }
}
