//! Words that are no line of the command set, and the numbers of the statuses.

use crate::calls::{says, words_of};
use seh::status::Status;

/// Lines of words.
const LINES: &str = r"
exce
exec exec
compile x
check x
check --each --each
check --each x
show --each
run --turns
run --arg 01
exec --turns
exec --turns 9223372036854775808
exec --turns -1
exec --turns 007
exec --turns +1
exec --trace --trace
exec --arg 1 --arg 1
exec --loud
exec -h
selftest
selftest one
selftest -1
selftest 01
selftest 9223372036854775808
selftest 1 2
selftest 1 --turns 1
--help
help
--version
--trace exec
";

// There is no word, an empty one, and one with a space.
#[test]
fn words_are_no_command(rt: HostRuntime) {
    let alloc = rt.alloc();
    says(&rt, alloc, &[], b"MZ", "1 ! usage", true);
    says(&rt, alloc, &[String::new(alloc)], b"MZ", "1 ! usage", true);
    let word = String::from_str(alloc, "exec ").expect(&rt, "memory");
    says(&rt, alloc, &[word], b"MZ", "1 ! usage", true);
    for line in LINES.lines().skip(1) {
        let words = words_of(&rt, alloc, &[line]);
        says(&rt, alloc, &words, b"MZ", "1 ! usage", true);
    }
}

/// All statuses.
const STATUSES: [Status; 15] = [
    Status::Done,
    Status::Usage,
    Status::Refused,
    Status::Image,
    Status::ReadFault,
    Status::WriteFault,
    Status::NoMemory,
    Status::TooLong,
    Status::Unhandled,
    Status::StackLimit,
    Status::OutOfTurns,
    Status::Stopped,
    Status::Undefined,
    Status::Deep,
    Status::No,
];

#[test]
fn statuses_have_codes(rt: HostRuntime) {
    let codes = STATUSES.map(|status| status.code());
    let wanted = [0, 1, 2, 3, 4, 5, 6, 7, 10, 11, 12, 13, 14, 15, 16];
    assert!(rt; codes == wanted);
}
