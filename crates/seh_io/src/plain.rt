//! A source and a sink over memory, without faults of their own.

ghost use Rattle.std.specs.Prelude.{◌≡◌, ◌+◌, ◌-◌, ◌≤◌, Some, [], ◌++◌, length, drop, take, min, IfOk, OnErr, OnOk, IsOk, false};
ghost use Rattle.seh_io.specs.Streams.{next_count, faults_of, succeeded};

use crate::sink::Sink;
use crate::source::{Failed, Source};
use std::alloc::Global;

/// A source over borrowed bytes, which has no faults at all.
#[derive(Clone, Copy, Debug)]
pub struct SliceSource<'a> {
    /// The bytes still to come.
    pub rest: &'a [u8],
}

impl<'a> SliceSource<'a> {
    /// A source of these bytes, of which none was given.
    pub fn new(bytes: &'a [u8]) -> SliceSource<'a>
        ensures { result.rest.now ≡ bytes.now }
    {
        SliceSource { rest: bytes }
    }
}

impl Source for SliceSource<'_> {
    ghost left = { λ s. Some s.rest.now };

    ghost faults = { λ _. faults_of 0 false };

    fn read(&mut self, buf: &mut [u8]) -> Result<usize, Failed> {
        let count = self.rest.len().min(buf.len());
        let (front, rest) = self.rest.split_at(count);
        buf[..count].copy_from_slice(front);
        self.rest = rest;
        Ok(count)
    }
}

/// A sink that keeps what it takes. Where memory for a piece runs out, that is a fault.
#[derive(Debug, Drop)]
pub struct VecSink {
    /// The bytes that were taken.
    pub bytes: Vec<u8>,
    /// How often there was no memory for a piece.
    pub faults: u64,
    /// Whether there was none for the last piece.
    pub failed: bool,
}

impl VecSink {
    /// A sink that has taken nothing.
    pub fn new(alloc: Global) -> VecSink
        ensures empty { result.bytes.items ≡ [] }
        ensures faults { result.faults ≡ 0 }
        ensures failed { result.failed ≡ false }
    {
        VecSink {
            bytes: Vec::new(alloc),
            faults: 0,
            failed: false,
        }
    }
}

impl Sink for VecSink {
    ghost taken = { λ s. Some s.bytes.items };

    ghost faults = { λ s. faults_of s.faults s.failed };

    fn write(&mut self, piece: &[u8]) -> Result<usize, Failed> {
        self.failed = self.bytes.extend_from_slice(piece).is_err();
        if self.failed {
            self.faults = self.faults.saturating_add(1);
            return Err(Failed);
        }
        Ok(piece.len())
    }
}
