//! Standard input, output and error as a source and sinks. Of their bytes nothing is known; they
//! count their faults. What reaches them is the outside, and no contract speaks of it.

ghost use Rattle.std.specs.Prelude.{None};
ghost use Rattle.seh_io.specs.Streams.{faults_of};

use seh_io::sink::Sink;
use seh_io::source::{Failed, Source};
use std::io::{ErrorKind, Read, Write};

/// A source over a reader.
#[derive(Drop)]
pub struct Input<R> {
    reader: R,
    /// One for each read that failed; it stays at 2^64 - 1.
    faults: u64,
    /// Whether the last read failed.
    failed: bool,
}

impl<R: Read> Input<R> {
    /// A source that has had no fault.
    pub fn new(reader: R) -> Input<R> {
        Input {
            reader,
            faults: 0,
            failed: false,
        }
    }
}

impl<R: Read> Source for Input<R> {
    ghost left = { λ _. None };

    ghost faults = { λ s. faults_of s.faults s.failed };

    fn read(&mut self, buf: &mut [u8]) -> Result<usize, Failed> {
        self.failed = false;
        for _ in 0..u64::MAX {
            match self.reader.read(buf) {
                Ok(count) => return Ok(count),
                Err(error) if error.kind() == ErrorKind::Interrupted => {}
                Err(_) => break,
            }
        }
        self.faults = self.faults.saturating_add(1);
        self.failed = true;
        Err(Failed)
    }
}

/// A sink over a writer.
#[derive(Drop)]
pub struct Output<W> {
    writer: W,
    /// One for each write that failed, or took nothing of a piece with bytes; it stays at 2^64 - 1.
    faults: u64,
    /// Whether that was so of the last write.
    failed: bool,
}

impl<W: Write> Output<W> {
    /// A sink that has had no fault.
    pub fn new(writer: W) -> Output<W> {
        Output {
            writer,
            faults: 0,
            failed: false,
        }
    }
}

impl<W: Write> Sink for Output<W> {
    ghost taken = { λ _. None };

    ghost faults = { λ s. faults_of s.faults s.failed };

    fn write(&mut self, piece: &[u8]) -> Result<usize, Failed> {
        self.failed = false;
        for _ in 0..u64::MAX {
            match self.writer.write(piece) {
                Ok(0) if !piece.is_empty() => break,
                Ok(count) => return Ok(count),
                Err(error) if error.kind() == ErrorKind::Interrupted => {}
                Err(_) => break,
            }
        }
        self.faults = self.faults.saturating_add(1);
        self.failed = true;
        Err(Failed)
    }
}
