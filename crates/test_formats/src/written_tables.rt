//! Unwind infos and scope tables as they are written, and read again.

ghost use Rattle.eh_write.specs.Written.{CanBeWritten};

use crate::checks::are_bytes;
use crate::entries::reads;
use crate::rows::number;
use arrayvec::ArrayVec;
use eh_tables::{ScopeRecord, UnwindCode, UnwindOperation};
use eh_write::{Trailer, UnwindInfo, write_scopes, write_unwind};
use std::alloc::Global;
use std::process::Abort;
use test_tables::rows::columns_of;

/// The bytes of an info as it is written.
fn written(rt: &impl Abort, alloc: Global, info: &UnwindInfo) -> Vec<u8>
    requires { CanBeWritten info.now }
{
    let mut out = Vec::new(alloc);
    write_unwind(info, &mut out).expect(rt, "memory");
    out
}

/// The info of one allocation, at the end of the prologue.
#[tactic(auto, using(crate::proofs::Allocations::few))]
fn allocation(offset: u8, size: u32) -> UnwindInfo
    ensures { CanBeWritten result }
{
    let mut codes = ArrayVec::new();
    codes.push(UnwindCode {
        offset,
        operation: UnwindOperation::Allocate { size },
    });
    UnwindInfo {
        prologue_size: offset,
        frame_register: 0,
        frame_offset: 0,
        codes,
        trailer: Trailer::Nothing,
    }
}

/// Allocations and their infos, `OFFSET | SIZE | BYTES | NOTE`.
const ALLOCATIONS: &str = r"
4 | 28    | 01 04 01 00 04 42 00 00             | an odd count of slots is filled up
7 | 88    | 01 07 02 00 07 01 11 00             | the smallest of two slots
7 | 7FFF8 | 01 07 02 00 07 01 FF FF             | the largest of two
7 | 80000 | 01 07 03 00 07 11 00 00 08 00 00 00 | the smallest of three
";

#[test]
fn writes_allocations(rt: HostRuntime) {
    for row in ALLOCATIONS.lines().skip(1) {
        let columns = columns_of(row);
        let offset = (number(&rt, columns[0]) % 256) as u8;
        let size = (number(&rt, columns[1]) % 0x1_0000_0000) as u32;
        let info = allocation(offset, size);
        let bytes = written(&rt, rt.alloc(), &info);
        are_bytes(&rt, rt.alloc(), &bytes, columns[2]);
    }
}

/// The info of `push rbx; sub rsp, 32`.
fn pushed() -> UnwindInfo
    ensures { CanBeWritten result }
{
    let mut codes = ArrayVec::new();
    codes.push(UnwindCode {
        offset: 5,
        operation: UnwindOperation::Allocate { size: 32 },
    });
    codes.push(UnwindCode {
        offset: 1,
        operation: UnwindOperation::Push { register: 3 },
    });
    UnwindInfo {
        prologue_size: 5,
        frame_register: 0,
        frame_offset: 0,
        codes,
        trailer: Trailer::Nothing,
    }
}

#[test]
fn writes_infos(rt: HostRuntime) {
    let bytes = written(&rt, rt.alloc(), &pushed());
    are_bytes(&rt, rt.alloc(), &bytes, "01 05 02 00 05 32 01 30");
}

/// The info of `push rbp; sub rsp, 288; lea rbp, [rsp + 128]`.
#[tactic(auto, unfolding(pe_image::specs::Numbers::u16))]
fn framed() -> UnwindInfo
    ensures { CanBeWritten result }
{
    let mut codes = ArrayVec::new();
    codes.push(UnwindCode {
        offset: 16,
        operation: UnwindOperation::SetFrame,
    });
    codes.push(UnwindCode {
        offset: 8,
        operation: UnwindOperation::Allocate { size: 288 },
    });
    codes.push(UnwindCode {
        offset: 1,
        operation: UnwindOperation::Push { register: 5 },
    });
    UnwindInfo {
        prologue_size: 16,
        frame_register: 5,
        frame_offset: 128,
        codes,
        trailer: Trailer::Nothing,
    }
}

#[test]
fn writes_frame_registers(rt: HostRuntime) {
    let bytes = written(&rt, rt.alloc(), &framed());
    are_bytes(
        &rt,
        rt.alloc(),
        &bytes,
        "01 10 04 85 10 03 08 01 24 00 01 50",
    );
}

/// The info of `push rbx; sub rsp, 64; mov [rsp + 40], r12`.
#[tactic(auto, unfolding(pe_image::specs::Numbers::u16, pe_image::specs::Numbers::u32))]
fn saved() -> UnwindInfo
    ensures { CanBeWritten result }
{
    let mut codes = ArrayVec::new();
    codes.push(UnwindCode {
        offset: 10,
        operation: UnwindOperation::Save {
            register: 12,
            offset: 40,
        },
    });
    codes.push(UnwindCode {
        offset: 5,
        operation: UnwindOperation::Allocate { size: 64 },
    });
    codes.push(UnwindCode {
        offset: 1,
        operation: UnwindOperation::Push { register: 3 },
    });
    UnwindInfo {
        prologue_size: 10,
        frame_register: 0,
        frame_offset: 0,
        codes,
        trailer: Trailer::Nothing,
    }
}

#[test]
fn writes_saved_registers(rt: HostRuntime) {
    let bytes = written(&rt, rt.alloc(), &saved());
    let wanted = "01 0A 04 00 0A C4 05 00 05 72 01 30";
    are_bytes(&rt, rt.alloc(), &bytes, wanted);
}

const FRAME: UnwindCode = UnwindCode {
    offset: 40,
    operation: UnwindOperation::SetFrame,
};

const FAR_VECTOR: UnwindCode = UnwindCode {
    offset: 36,
    operation: UnwindOperation::SaveVector {
        register: 15,
        offset: 1048576,
    },
};

const FAR_SAVE: UnwindCode = UnwindCode {
    offset: 28,
    operation: UnwindOperation::Save {
        register: 12,
        offset: 524288,
    },
};

const SAVE: UnwindCode = UnwindCode {
    offset: 16,
    operation: UnwindOperation::Save {
        register: 3,
        offset: 72,
    },
};

const ALLOCATION: UnwindCode = UnwindCode {
    offset: 12,
    operation: UnwindOperation::Allocate { size: 524288 },
};

const PUSH: UnwindCode = UnwindCode {
    offset: 2,
    operation: UnwindOperation::Push { register: 15 },
};

const MACHINE: UnwindCode = UnwindCode {
    offset: 0,
    operation: UnwindOperation::MachineFrame { info: 1 },
};

/// An info with a code of each operation.
#[tactic(auto, unfolding(pe_image::specs::Numbers::u16, pe_image::specs::Numbers::u32))]
fn of_all_codes() -> UnwindInfo
    ensures { CanBeWritten result }
{
    let mut codes = ArrayVec::new();
    codes.push(FRAME);
    codes.push(FAR_VECTOR);
    codes.push(FAR_SAVE);
    codes.push(SAVE);
    codes.push(ALLOCATION);
    codes.push(PUSH);
    codes.push(MACHINE);
    UnwindInfo {
        prologue_size: 40,
        frame_register: 5,
        frame_offset: 240,
        codes,
        trailer: Trailer::Nothing,
    }
}

/// What is read of its bytes.
const READ_AGAIN: &str = r"
2020 0 28 5 F0 0 20
(None, false, None)
UnwindCode { offset: 40, operation: SetFrame }
UnwindCode { offset: 36, operation: SaveVector { register: 15, offset: 1048576 } }
UnwindCode { offset: 28, operation: Save { register: 12, offset: 524288 } }
UnwindCode { offset: 16, operation: Save { register: 3, offset: 72 } }
UnwindCode { offset: 12, operation: Allocate { size: 524288 } }
UnwindCode { offset: 2, operation: Push { register: 15 } }
UnwindCode { offset: 0, operation: MachineFrame { info: 1 } }
";

#[test]
fn reads_again_what_is_written(rt: HostRuntime) {
    let bytes = written(&rt, rt.alloc(), &of_all_codes());
    reads(&rt, rt.alloc(), &bytes, READ_AGAIN);
}

#[test]
fn writes_scope_tables(rt: HostRuntime) {
    let mut out = Vec::new(rt.alloc());
    let row = ScopeRecord {
        begin: 0x10,
        end: 0x20,
        handler_address: 1,
        jump_target: 0x30,
    };
    write_scopes(&[row], &mut out).expect(&rt, "memory");
    let wanted = "01000000 10000000 20000000 01000000 30000000";
    are_bytes(&rt, rt.alloc(), &out, wanted);
}
