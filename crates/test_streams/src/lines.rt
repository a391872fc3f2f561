//! Lines of words, and the commands that they are.

use command_line::command::Command;
use command_line::reading::{WordsErr, command_of};
use std::alloc::{AllocError, Global};
use std::test::Fail;

/// Lines of words, each with what it means.
const LINES: &str = r"
compile | Ok(Compile)
show | Ok(Show)
check | Ok(Check(Whole))
check --each | Ok(Check(Each))
exec | Ok(Exec(RunOptions { turns: 10000000, argument: 0, trace: false }))
exec --turns 7 | Ok(Exec(RunOptions { turns: 7, argument: 0, trace: false }))
exec --arg 9223372036854775807 | Ok(Exec(RunOptions { turns: 10000000, argument: 9223372036854775807, trace: false }))
run --turns 7 | Ok(Run(RunOptions { turns: 7, argument: 0, trace: false }))
run --turns=7 7 | Err(Usage)
exec --arg 9223372036854775808 | Err(Usage)
exec --turns 07 | Err(Usage)
exec --turns | Err(Usage)
exec --help | Err(Usage)
check --trace | Err(Usage)
check --each --each | Err(Usage)
check --each=1 | Err(Usage)
show --each | Err(Usage)
exec --each | Err(Usage)
help | Err(Usage)
";

/// The command that the words of a line are.
fn command_in(alloc: Global, line: &str) -> Result<Result<Command, WordsErr>, AllocError> {
    let mut words = Vec::new(alloc);
    for word in line.split(' ') {
        words.push(String::from_str(alloc, word)?)?;
    }
    Ok(command_of(alloc, &words))
}

#[test]
fn lines(rt: HostRuntime) -> Result<(), Fail> {
    for row in LINES.lines().skip(1) {
        let (line, want) = row.split_once(" | ").unwrap_or((row, "no row"));
        let command = command_in(rt.alloc(), line)?;
        let found = format!(in rt.alloc(); "{command:?}")?;
        assert_eq!(rt; found.as_str(), want, "{line}");
    }
    Ok(())
}
