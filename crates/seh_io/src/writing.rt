//! Whole pieces to a sink.

ghost use Rattle.std.specs.Prelude.{◌≡◌, ◌+◌, ◌-◌, ◌^◌, ◌<◌, ◌≤◌, length, take, OnOk, OnErr, IfErr};
ghost use Rattle.seh_io.specs.Streams.{Faultless, Faulted, Grew};

use crate::sink::Sink;

/// A write failed, by a fault of the sink.
#[derive(Clone, Copy, Debug, PartialEq, Eq)]
pub struct WriteFault {
    /// How many bytes of the text the sink had taken before, from the front.
    pub taken: u64,
}

/// Writes the whole piece, in as many writes as the sink needs.
///
/// After a fault the sink has taken the first `taken` bytes of the piece, and not all of them. The
/// write that failed is the last one.
pub fn put_all<O: Sink>(sink: &mut O, piece: &[u8]) -> Result<(), WriteFault>
    ensures ok { OnOk result (Grew (O.taken sink.old) piece.now (O.taken sink.new)) }
    ensures part { IfErr result
        (λ e. Grew (O.taken sink.old) (take e.taken piece.now) (O.taken sink.new)) }
    ensures short { IfErr result (λ e. e.taken < length piece.now) }
    ensures faultless { OnOk result (Faultless (O.faults sink.old) (O.faults sink.new)) }
    ensures cause { OnErr result (Faulted (O.faults sink.old) (O.faults sink.new)) }
{
    let mut taken = 0;
    while taken < piece.len() {
        let Ok(count) = sink.write(&piece[taken..]) else {
            return Err(WriteFault {
                taken: taken as u64,
            });
        };
        taken += count;
    }
    Ok(())
}

/// Writes a piece that comes after so many bytes of a text, as `put_all`; the bytes that were taken
/// are counted from the text's begin.
pub fn put_after<O: Sink>(sink: &mut O, before: usize, piece: &[u8]) -> Result<(), WriteFault>
    requires { before + length piece.now < 2 ^ 64 }
    ensures ok { OnOk result (Grew (O.taken sink.old) piece.now (O.taken sink.new)) }
    ensures part { IfErr result
        (λ e. Grew (O.taken sink.old) (take (e.taken - before) piece.now) (O.taken sink.new)) }
    ensures after { IfErr result (λ e. before ≤ e.taken) }
    ensures short { IfErr result (λ e. e.taken < before + length piece.now) }
    ensures faultless { OnOk result (Faultless (O.faults sink.old) (O.faults sink.new)) }
    ensures cause { OnErr result (Faulted (O.faults sink.old) (O.faults sink.new)) }
{
    match put_all(sink, piece) {
        Ok(()) => Ok(()),
        Err(fault) => Err(WriteFault {
            taken: before as u64 + fault.taken,
        }),
    }
}
