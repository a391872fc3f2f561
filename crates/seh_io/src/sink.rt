//! What takes bytes.

ghost use Rattle.std.specs.Prelude.{◌≡◌, ◌<◌, ◌≤◌, ℕ, List, length, take, IfOk, OnOk, OnErr};
ghost use Rattle.std.specs.Prelude.{Option};
ghost use Rattle.seh_io.specs.Streams.{Faults, Faulted, Grew, succeeded};

use crate::source::Failed;

/// What takes bytes, piece by piece.
///
/// `taken` are the bytes that were taken, where that is known: it is of a sink over memory, and not
/// of one over a device, and then nothing is claimed of what was taken. `faults` are the faults of
/// the sink: their count, which stays at 2^64 - 1, and whether the last call was one.
pub trait Sink {
    ghost taken: { Self → Option (List ℕ) };

    ghost faults: { Self → Faults };

    /// Takes bytes from the front of `piece` and answers how many: at least one, where it has any.
    /// `Failed` is a fault, and then no byte was taken.
    fn write(&mut self, piece: &[u8]) -> Result<usize, Failed>
        ensures fits { IfOk result (λ n. n ≤ length piece.now) }
        ensures moved { IfOk result
            (λ n. Grew (taken self.old) (take n piece.now) (taken self.new)) }
        ensures some { IfOk result (λ n. 0 < length piece.now → 0 < n) }
        ensures kept { OnErr result (taken self.new ≡ taken self.old) }
        ensures faultless { OnOk result (faults self.new ≡ succeeded (faults self.old)) }
        ensures cause { OnErr result (Faulted (faults self.old) (faults self.new)) };
}
