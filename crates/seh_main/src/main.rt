//! The program over the process's own streams.
//!
//! Nothing is proved here beyond the traits of `seh_io`: what a stream of the process holds is no
//! clause's. Begin with `streams`, the adapters.
#![tactic(auto)]

mod streams;

use seh::refusal::{Refusal, report};
use seh::top::top;
use std::io::ErrorKind;
use std::process::ExitCode;
use std::{env, io, rt};
use streams::{Input, Output};

/// The words after the program's name. A word that isn't UTF-8 makes them no line of the command
/// set.
fn words<R: rt::Env + AllocGlobal>(rt: &R) -> io::Result<Vec<String>> {
    let mut words = Vec::new(rt.alloc());
    for word in env::args(rt)?.skip(1) {
        words.push(word)?;
    }
    Ok(words)
}

fn main(rt: HostRuntime) -> ExitCode {
    let mut input = Input::new(rt.stdin());
    let mut output = Output::new(rt.stdout());
    let mut errors = Output::new(rt.stderr());
    let status = match words(&rt) {
        Ok(words) => top(rt.alloc(), &words, &mut input, &mut output, &mut errors),
        Err(error) if error.kind() == ErrorKind::OutOfMemory => {
            report(&mut errors, &Refusal::NoMemory)
        }
        Err(_) => report(&mut errors, &Refusal::Usage),
    };
    ExitCode::from(status.code())
}
