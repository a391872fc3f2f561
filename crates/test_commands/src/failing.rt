//! Faults of the streams.
//!
//! A row is `COMMAND READ WRITE LINE MOST | INPUT | WANTED`: the call of the source, of `out` and
//! of
//! `err` that fails, 0 where none does, and how many bytes each call of all three moves.

use crate::calls::fits;
use crate::inputs::{columns_of, input_of};
use crate::plans::{Calls, call_with_failures};
use std::alloc::Global;
use std::process::Abort;

/// A command of two words.
const EACH: &str = "check --each";

/// The command and the calls that a row names.
fn calls_of(column: &str) -> Option<(&str, Calls)> {
    let (command, numbers) = match column.strip_prefix(EACH) {
        Some(numbers) => (EACH, numbers),
        None => column.split_once(' ')?,
    };
    let mut words = numbers.split_ascii_whitespace();
    let calls = Calls {
        read: words.next()?.parse().ok()?,
        write: words.next()?.parse().ok()?,
        line: words.next()?.parse().ok()?,
        most: words.next()?.parse().ok()?,
    };
    Some((command, calls))
}

/// Compares what each row of a table answers with what is wanted.
fn all_answer(rt: &impl Abort, alloc: Global, table: &str) {
    for row in table.lines().skip(1) {
        let (words, input, wanted) = columns_of(row).expect(rt, row);
        let (command, calls) = calls_of(words).expect(rt, row);
        let bytes = input_of(rt, alloc, input);
        let shown = call_with_failures(rt, alloc, command, &bytes, calls).shown;
        assert!(rt; fits(&shown, wanted, true), "{row}");
    }
}

/// In the eighth and ninth row the line of a refusal can't be written. An endless run stops at the
/// first line that its sink doesn't take.
const ROWS: &str = r"
exec 0 0 0 4096 | fourteen | 0 14 / exit 7
exec 0 0 0 1 | fourteen | 0 14 / exit 7
exec 1 0 0 4096 | fourteen | 4 ! read fault
exec 2 0 0 4096 | fourteen | 4 ! read fault
exec 0 2 0 2 | fourteen | 5 14~ ! write fault
exec 0 1 0 2 | fourteen | 5 ! write fault
exec 0 2 0 4096 | fourteen | 5 14 ! write fault
exec 1 0 2 5 | fourteen | 5 ! read ~
exec 0 3 1 1 | fourteen | 5 14~
run 0 0 0 1 | text int main(void){ put(2+3*4); return 7; } | 0 14 / exit 7
run 1 0 0 4096 | text int main(void){ put(2+3*4); return 7; } | 4 ! read fault
run 3 0 0 16 | text int main(void){ put(2+3*4); return 7; } | 4 ! read fault
run 0 2 0 2 | text int main(void){ put(2+3*4); return 7; } | 5 14~ ! write fault
run 0 1 2 5 | text int main(void){ put(2+3*4); return 7; } | 5 ! write~
compile 1 0 0 4096 | text int main(void){ put(2+3*4); return 7; } | 4 ! read fault
compile 2 0 0 4096 | text int main(void){ put(2+3*4); return 7; } | 4 ! read fault
compile 3 0 0 16 | text int main(void){ put(2+3*4); return 7; } | 4 ! read fault
meaning 1 0 0 4096 | text int main(void){ put(2+3*4); return 7; } | 4 ! read fault
meaning 2 0 0 4096 | text int main(void){ put(2+3*4); return 7; } | 4 ! read fault
meaning 3 0 0 16 | text int main(void){ put(2+3*4); return 7; } | 4 ! read fault
show 1 0 0 4096 | fourteen | 4 ! read fault
show 2 0 0 4096 | fourteen | 4 ! read fault
show 3 0 0 16 | fourteen | 4 ! read fault
check 1 0 0 4096 | fourteen | 4 ! read fault
check 3 0 0 16 | fourteen | 4 ! read fault
check 0 0 0 1 | framed | 16 no 0 00002005 Unsaved
check 0 2 0 2 | framed | 5 no~ ! write fault
check 0 1 2 5 | framed | 5 ! write~
check --each 0 0 0 1 | framed | 16 no 0 00002005 Unsaved / yes 0 of 1
check --each 1 0 0 4096 | framed | 4 ! read fault
check --each 0 2 0 4 | framed | 5 no 0~ ! write fault
check --each 0 6 0 5 | framed | 5 no 0 00002005 Unsaved / yes~ ! write fault
check --each 0 1 2 5 | framed | 5 ! write~
meaning 0 0 0 1 | text int main(void){ put(2+3*4); return 7; } | 0 14 / exit 7
meaning 0 2 0 2 | text int main(void){ put(2+3*4); return 7; } | 5 14~ ! write fault
meaning 0 1 2 5 | text int main(void){ put(2+3*4); return 7; } | 5 ! write~
run 0 5 0 1 | text int main(void){ while (1) put(1); return 0; } | 5 1 / 1 ! write fault
meaning 0 5 0 1 | text int main(void){ while (1) put(1); return 0; } | 5 1 / 1 ! write fault
";

#[test]
fn calls_fail(rt: HostRuntime) {
    all_answer(&rt, rt.alloc(), ROWS);
}

/// Each call of `out` that takes one byte fails in turn: what was taken are the bytes before it,
/// and nothing else is tried.
fn fails_at_each(rt: &impl Abort, alloc: Global, command: &str, text: &[u8], whole: &[u8]) {
    for taken in 0..whole.len() {
        let calls = Calls {
            read: 0,
            write: (taken as u64).saturating_add(1),
            line: 0,
            most: 1,
        };
        let shown = call_with_failures(rt, alloc, command, text, calls).shown;
        let front = shown.out.len() == taken && whole.starts_with(&shown.out);
        assert!(rt; front && shown.code == 5, "{command} {taken}");
        assert!(rt;
            shown.err.as_slice() == b"write fault\n".as_slice(),
            "{command} {taken}"
        );
    }
}

/// A run without an end is over at the first line that isn't taken.
#[test]
fn endless_runs_end_at_a_fault(rt: HostRuntime) {
    let alloc = rt.alloc();
    let again = b"int main(void){ while (1) put(1); return 0; }";
    let once = b"int main(void){ put(1); while (1) ; return 0; }";
    for command in [
        "run --turns 9000000000000000000",
        "meaning --turns 9000000000000000000",
    ] {
        fails_at_each(&rt, alloc, command, again, b"1\n1\n1\n");
        fails_at_each(&rt, alloc, command, once, b"1\n");
    }
}
