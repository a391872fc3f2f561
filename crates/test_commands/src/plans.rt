//! What the program answers where calls of its streams fail as planned.

use crate::calls::{Shown, words_of};
use seh::top::top;
use seh_io::planned::{MemSink, MemSource, Plan};
use std::alloc::Global;
use std::process::Abort;

/// Which call of the source, of `out` and of `err` fails, 0 where none does, and how many bytes
/// each call moves at most.
#[derive(Clone, Copy)]
pub struct Calls {
    pub read: u64,
    pub write: u64,
    pub line: u64,
    pub most: usize,
}

/// What was answered, and how many calls of the source, of `out` and of `err` there were.
#[derive(Drop)]
pub struct CallOutcome {
    pub shown: Shown,
    pub reads: u64,
    pub writes: u64,
    pub lines: u64,
}

/// A plan by which one call fails, if any.
fn plan(rt: &impl Abort, alloc: Global, failing: u64, most: usize) -> Plan {
    let calls = [failing].to_vec(alloc).expect(rt, "memory");
    Plan::new(calls, most.max(1))
}

/// What a command answers for an input where calls fail.
pub fn call_with_failures(
    rt: &impl Abort,
    alloc: Global,
    command: &str,
    input: &[u8],
    calls: Calls,
) -> CallOutcome {
    let words = words_of(rt, alloc, &[command]);
    let bytes = input.to_vec(alloc).expect(rt, "memory");
    let mut source = MemSource::new(bytes, plan(rt, alloc, calls.read, calls.most));
    let mut out = MemSink::new(Vec::new(alloc), plan(rt, alloc, calls.write, calls.most));
    let mut err = MemSink::new(Vec::new(alloc), plan(rt, alloc, calls.line, calls.most));
    let status = top(alloc, &words, &mut source, &mut out, &mut err);
    CallOutcome {
        reads: source.plan.calls,
        writes: out.plan.calls,
        lines: err.plan.calls,
        shown: Shown {
            code: status.code(),
            out: out.bytes,
            err: err.bytes,
            left: 0,
        },
    }
}
