//! A source and a sink over memory whose calls fail as planned.

ghost use Rattle.std.specs.Prelude.{◌≡◌, ◌+◌, ◌-◌, ◌<◌, ◌≤◌, Some, [], ◌++◌, length, drop, take, min, is_err, IfOk, OnErr, OnOk, IsTrue, IsErr, vec_len, true, false};
ghost use Rattle.seh_io.specs.Streams.{next_count, is_among, Lost, Grew, faults_of, succeeded};

use crate::sink::Sink;
use crate::source::{Failed, Source};

/// Which calls of a stream fail, and how many bytes the others move.
#[derive(Debug, Drop)]
pub struct Plan {
    /// The numbers of the calls that fail; the first call has the number 1.
    pub failing: Vec<u64>,
    /// How many bytes a call moves at most; at least 1.
    pub most: usize,
    /// How many calls there were.
    pub calls: u64,
    /// How many of them were faults.
    pub faults: u64,
    /// Whether the last one was a fault.
    pub failed: bool,
    ghost some: { 0 < most },
}

impl Plan {
    /// A plan of which no call was made yet.
    pub fn new(failing: Vec<u64>, most: usize) -> Plan
        requires { 0 < most }
        ensures failing { result.failing ≡ failing }
        ensures most { result.most ≡ most }
        ensures calls { result.calls ≡ 0 }
        ensures faults { result.faults ≡ 0 }
        ensures failed { result.failed ≡ false }
    {
        Plan {
            failing,
            most,
            calls: 0,
            faults: 0,
            failed: false,
        }
    }

    /// Counts a call, which fails where the plan has its number: that is a fault.
    fn call(&mut self) -> Result<(), Failed>
        ensures fails { is_err result
            ≡ is_among self.old.failing.items (next_count self.old.calls) }
        ensures counted { OnOk result (self.new ≡ record self.old {
          calls = next_count self.old.calls;
          failed = false;
        }) }
        ensures fault { OnErr result (self.new ≡ record self.old {
          calls = next_count self.old.calls;
          faults = next_count self.old.faults;
          failed = true;
        }) }
    {
        self.calls = self.calls.saturating_add(1);
        self.failed = self.failing.contains(&self.calls);
        if self.failed {
            self.faults = self.faults.saturating_add(1);
            return Err(Failed);
        }
        Ok(())
    }

    /// The last call is a fault that was not planned.
    fn fault(&mut self)
        ensures { self.new ≡ record self.old {
          faults = next_count self.old.faults;
          failed = true;
        } }
    {
        self.faults = self.faults.saturating_add(1);
        self.failed = true;
    }
}

/// A source over bytes of its own.
#[derive(Debug, Drop)]
pub struct MemSource {
    /// All bytes, those that were given first.
    pub bytes: Vec<u8>,
    /// How many of the bytes were given.
    pub given: usize,
    /// Which reads fail, and how many bytes the others give.
    pub plan: Plan,
    ghost within: { given ≤ vec_len bytes },
}

impl MemSource {
    /// A source that has given nothing.
    pub fn new(bytes: Vec<u8>, plan: Plan) -> MemSource
        ensures bytes { result.bytes ≡ bytes }
        ensures given { result.given ≡ 0 }
        ensures plan { result.plan ≡ plan }
    {
        MemSource {
            bytes,
            given: 0,
            plan,
        }
    }
}

impl Source for MemSource {
    ghost left = { λ s. Some (drop s.given s.bytes.items) };

    ghost faults = { λ s. faults_of s.plan.faults s.plan.failed };

    /// A call that isn't to fail gives as many bytes as are left, as `buf` has room for and as the
    /// plan allows.
    fn read(&mut self, buf: &mut [u8]) -> Result<usize, Failed>
        ensures fails { is_err result
            ≡ is_among self.old.plan.failing.items (next_count self.old.plan.calls) }
        ensures count { IfOk result (λ n. n ≡ min
            (min (vec_len self.old.bytes - self.old.given) (length buf.old)) self.old.plan.most) }
        ensures moved { IfOk result (λ n. Lost
            (Some (drop self.old.given self.old.bytes.items)) (take n buf.new)
            (Some (drop self.new.given self.new.bytes.items))) }
        ensures end { result ≡ Ok 0 → 0 < length buf.old
            → drop self.old.given self.old.bytes.items ≡ [] }
        ensures kept { OnErr result
            (drop self.new.given self.new.bytes.items ≡ drop self.old.given self.old.bytes.items) }
        ensures counted { OnOk result (self.new.plan ≡ record self.old.plan {
          calls = next_count self.old.plan.calls;
          failed = false;
        }) }
        ensures fault { OnErr result (self.new.plan ≡ record self.old.plan {
          calls = next_count self.old.plan.calls;
          faults = next_count self.old.plan.faults;
          failed = true;
        }) }
    {
        self.plan.call()?;
        let rest = self.bytes.len() - self.given;
        let count = rest.min(buf.len()).min(self.plan.most);
        let end = self.given + count;
        buf[..count].copy_from_slice(&self.bytes[self.given..end]);
        self.given = end;
        Ok(count)
    }
}

/// A sink that keeps what it takes. Where memory for a piece runs out, that is a fault.
#[derive(Debug, Drop)]
pub struct MemSink {
    /// The bytes that were taken.
    pub bytes: Vec<u8>,
    /// Which writes fail, and how many bytes the others take.
    pub plan: Plan,
}

impl MemSink {
    /// A sink that has taken these bytes.
    pub fn new(bytes: Vec<u8>, plan: Plan) -> MemSink
        ensures bytes { result.bytes ≡ bytes }
        ensures plan { result.plan ≡ plan }
    {
        MemSink { bytes, plan }
    }
}

impl Sink for MemSink {
    ghost taken = { λ s. Some s.bytes.items };

    ghost faults = { λ s. faults_of s.plan.faults s.plan.failed };

    /// A call that isn't to fail takes as many bytes as `piece` has and as the plan allows.
    fn write(&mut self, piece: &[u8]) -> Result<usize, Failed>
        ensures fails { IsTrue (is_among self.old.plan.failing.items
            (next_count self.old.plan.calls)) → IsErr result }
        ensures count { IfOk result (λ n. n ≡ min (length piece.now) self.old.plan.most) }
        ensures moved { IfOk result
            (λ n. self.new.bytes.items ≡ self.old.bytes.items ++ take n piece.now) }
        ensures kept { OnErr result (self.new.bytes.items ≡ self.old.bytes.items) }
        ensures counted { OnOk result (self.new.plan ≡ record self.old.plan {
          calls = next_count self.old.plan.calls;
          failed = false;
        }) }
        ensures fault { OnErr result (self.new.plan ≡ record self.old.plan {
          calls = next_count self.old.plan.calls;
          faults = next_count self.old.plan.faults;
          failed = true;
        }) }
    {
        self.plan.call()?;
        let count = piece.len().min(self.plan.most);
        if self.bytes.extend_from_slice(&piece[..count]).is_err() {
            self.plan.fault();
            return Err(Failed);
        }
        Ok(count)
    }
}
