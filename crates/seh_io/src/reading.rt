//! A source's bytes as a whole.

ghost use Rattle.std.specs.Prelude.{◌≡◌, ◌+◌, ◌≤◌, Some, [], IfOk, OnOk, OnErr, IfErr, vec_len};
ghost use Rattle.std.specs.Option.{ForSome};
ghost use Rattle.seh_io.specs.Reading.{ReadHasCause, LostAtMost};
ghost use Rattle.seh_io.specs.Streams.{Faultless};

use crate::source::Source;
use std::alloc::Global;

/// Why a source wasn't read to its end.
#[derive(Clone, Copy, Debug, PartialEq, Eq)]
pub enum ReadErr {
    /// A read failed, by a fault of the source.
    Fault,
    /// The source holds more bytes than the limit.
    TooLong { limit: u64 },
    /// Memory ran out.
    Memory,
}

/// How many bytes are asked for at a time.
const CHUNK: usize = 4096;

/// All bytes that the source holds, which may be `limit` at most.
///
/// Where it is known what the source holds, `Ok` gives exactly that, and then nothing is left.
/// Where it isn't, `Ok` says only that the source ended within the limit. Without `Fault` or want
/// of memory, `TooLong` comes exactly where more than `limit` bytes are held. After a refusal the
/// source has lost at most `limit + 1` bytes, from the front. A read that fails is the last one,
/// and the answer is `Fault`.
pub fn read_all<S: Source>(alloc: Global, src: &mut S, limit: u64) -> Result<Vec<u8>, ReadErr>
    ensures all { IfOk result (λ v. ForSome (S.left src.old) (λ all. v.items ≡ all)) }
    ensures emptied { OnOk result (ForSome (S.left src.old) (λ _. S.left src.new ≡ Some [])) }
    ensures within { IfOk result (λ v. vec_len v ≤ limit) }
    ensures cause { IfErr result (ReadHasCause limit (S.left src.old) (S.left src.new)
        (S.faults src.old) (S.faults src.new)) }
    ensures lost { OnErr result (LostAtMost (limit + 1) (S.left src.old) (S.left src.new)) }
    ensures faultless { OnOk result (Faultless (S.faults src.old) (S.faults src.new)) }
{
    let mut bytes = Vec::new(alloc);
    let mut chunk = [0; CHUNK];
    loop {
        let room = limit - bytes.len() as u64;
        // One byte past the limit shows that there are too many.
        let wanted = room.min(CHUNK as u64 - 1) as usize + 1;
        let Ok(count) = src.read(&mut chunk[..wanted]) else {
            return Err(ReadErr::Fault);
        };
        if count == 0 {
            return Ok(bytes);
        }
        if count as u64 > room {
            return Err(ReadErr::TooLong { limit });
        }
        if bytes.extend_from_slice(&chunk[..count]).is_err() {
            return Err(ReadErr::Memory);
        }
    }
}
