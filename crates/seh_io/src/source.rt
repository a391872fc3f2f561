//! What gives bytes.

ghost use Rattle.std.specs.Prelude.{◌≡◌, ℕ, ◌<◌, ◌≤◌, List, [], length, take, IfOk, OnOk, OnErr};
ghost use Rattle.std.specs.Prelude.{Option};
ghost use Rattle.std.specs.Option.{ForSome};
ghost use Rattle.seh_io.specs.Streams.{Faults, Faulted, Lost, succeeded};

/// A read or a write didn't come about, by a fault of the source or sink.
#[derive(Clone, Copy, Debug, PartialEq, Eq)]
pub struct Failed;

/// What gives bytes, piece by piece.
///
/// `left` are the bytes still to come, where that is known: it is of a source over memory, and not
/// of one over a device, and then nothing is claimed of what comes. `faults` are the faults of the
/// source: their count, which stays at 2^64 - 1, and whether the last call was one.
pub trait Source {
    ghost left: { Self → Option (List ℕ) };

    ghost faults: { Self → Faults };

    /// Gives bytes to the front of `buf` and answers how many. 0 of a buffer with room is the end
    /// of the bytes. `Failed` is a fault, and loses no byte.
    fn read(&mut self, buf: &mut [u8]) -> Result<usize, Failed>
        ensures fits { IfOk result (λ n. n ≤ length buf.old) }
        ensures moved { IfOk result (λ n. Lost (left self.old) (take n buf.new) (left self.new)) }
        ensures end { result ≡ Ok 0 → 0 < length buf.old
            → ForSome (left self.old) (λ all. all ≡ []) }
        ensures kept { OnErr result (left self.new ≡ left self.old) }
        ensures faultless { OnOk result (faults self.new ≡ succeeded (faults self.old)) }
        ensures cause { OnErr result (Faulted (faults self.old) (faults self.new)) };
}
