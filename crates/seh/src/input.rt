//! The input of a command.

ghost use Rattle.std.specs.Prelude.{IfOk, IfErr};
ghost use Rattle.seh.specs.Answers.{IsInput, IsInputRefusal};
ghost use Rattle.seh.specs.Streams.{stream};

use crate::refusal::Refusal;
use seh_io::reading::{ReadErr, read_all};
use seh_io::source::Source;
use std::alloc::Global;

/// All bytes that the source holds, at most `limit`, or why they weren't read.
pub fn read_input<S: Source>(alloc: Global, src: &mut S, limit: u64) -> Result<Vec<u8>, Refusal>
    ensures read { IfOk result (λ bytes. IsInput limit
        (stream S.left S.faults src.old) (stream S.left S.faults src.new) bytes.items) }
    ensures refused { IfErr result (λ e. IsInputRefusal limit
        (stream S.left S.faults src.old) (stream S.left S.faults src.new) e) }
{
    match read_all(alloc, src, limit) {
        Ok(bytes) => Ok(bytes),
        Err(ReadErr::Fault) => Err(Refusal::ReadFault),
        Err(ReadErr::TooLong { limit }) => Err(Refusal::TooLong { limit }),
        Err(ReadErr::Memory) => Err(Refusal::NoMemory),
    }
}
