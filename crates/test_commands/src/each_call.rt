//! Each call of the source, of `out` and of `err` fails in turn, by each command.

use crate::calls::{Shown, answer, fits, words_of};
use crate::inputs::{columns_of, input_of};
use crate::plans::{Calls, call_with_failures};
use std::alloc::Global;
use std::process::Abort;

/// A row is `COMMAND READ WRITE | INPUT | WANTED`: how many bytes a call of the source, and a call
/// of `out`, moves at most where one fails, and what is answered where none does; of an image and
/// a view the status alone.
const COMMANDS: &str = r"
compile 1 32 | text int main(void){ __try{ __try{ RaiseException(0xE0000001,0,0,0); } __finally{ put(AbnormalTermination()); } } __except(2){ put(3); } return 0; } | 0
compile 4096 4096 | text int main(void){ __try{ __try{ RaiseException(0xE0000001,0,0,0); } __finally{ put(AbnormalTermination()); } } __except(2){ put(3); } return 0; } | 0
run 1 1 | text int main(void){ __try{ __try{ RaiseException(0xE0000001,0,0,0); } __finally{ put(AbnormalTermination()); } } __except(2){ put(3); } return 0; } | 0 1 / 3 / exit 0
run --trace 4096 1 | text int main(void){ __try{ __try{ RaiseException(0xE0000001,0,0,0); } __finally{ put(AbnormalTermination()); } } __except(2){ put(3); } return 0; } | 0 raise E0000001 0 / filter 2 / answer 2 / finally 1 1 / 1 / except E0000001 / 3 / exit 0
meaning 1 1 | text int main(void){ __try{ __try{ RaiseException(0xE0000001,0,0,0); } __finally{ put(AbnormalTermination()); } } __except(2){ put(3); } return 0; } | 0 1 / 3 / exit 0
meaning --trace 4096 1 | text int main(void){ __try{ __try{ RaiseException(0xE0000001,0,0,0); } __finally{ put(AbnormalTermination()); } } __except(2){ put(3); } return 0; } | 0 raise E0000001 0 / filter 2 / answer 2 / finally 1 1 / 1 / except E0000001 / 3 / exit 0
exec 32 1 | compiled int main(void){ __try{ __try{ RaiseException(0xE0000001,0,0,0); } __finally{ put(AbnormalTermination()); } } __except(2){ put(3); } return 0; } | 0 1 / 3 / exit 0
exec --trace 4096 1 | compiled int main(void){ __try{ __try{ RaiseException(0xE0000001,0,0,0); } __finally{ put(AbnormalTermination()); } } __except(2){ put(3); } return 0; } | 0 raise E0000001 0 / filter 2 / answer 2 / finally 1 1 / 1 / except E0000001 / 3 / exit 0
show 32 1 | compiled int main(void){ __try{ __try{ RaiseException(0xE0000001,0,0,0); } __finally{ put(AbnormalTermination()); } } __except(2){ put(3); } return 0; } | 0
show 4096 4096 | compiled int main(void){ __try{ __try{ RaiseException(0xE0000001,0,0,0); } __finally{ put(AbnormalTermination()); } } __except(2){ put(3); } return 0; } | 0
check 32 1 | compiled int main(void){ __try{ __try{ RaiseException(0xE0000001,0,0,0); } __finally{ put(AbnormalTermination()); } } __except(2){ put(3); } return 0; } | 0 yes 3
check --each 4096 1 | compiled int main(void){ __try{ __try{ RaiseException(0xE0000001,0,0,0); } __finally{ put(AbnormalTermination()); } } __except(2){ put(3); } return 0; } | 0
";

/// No call fails.
fn honest(most: usize) -> Calls {
    Calls {
        read: 0,
        write: 0,
        line: 0,
        most,
    }
}

/// The command of a row, and how many bytes the calls move.
fn command_of(column: &str) -> Option<(&str, usize, usize)> {
    let (rest, write) = column.rsplit_once(' ')?;
    let (command, read) = rest.rsplit_once(' ')?;
    Some((command, read.parse().ok()?, write.parse().ok()?))
}

/// A source that fails at each of its calls in turn: nothing is written but the refusal.
fn reads_fail(rt: &impl Abort, alloc: Global, command: &str, input: &[u8], most: usize) {
    let none = honest(most);
    let reads = call_with_failures(rt, alloc, command, input, none).reads;
    for call in 0..reads {
        let read = call.saturating_add(1);
        let shown = call_with_failures(rt, alloc, command, input, Calls { read, ..none }).shown;
        assert!(rt; fits(&shown, "4 ! read fault", true), "{command} {read}");
    }
}

/// The same of `out`: it has taken the front of what is written where no call fails; where each
/// call takes one byte, as many bytes as there were calls before.
fn writes_fail(rt: &impl Abort, alloc: Global, command: &str, input: &[u8], most: usize) {
    let none = honest(most);
    let whole = call_with_failures(rt, alloc, command, input, none);
    for call in 0..whole.writes {
        let write = call.saturating_add(1);
        let shown = call_with_failures(rt, alloc, command, input, Calls { write, ..none }).shown;
        let front = whole.shown.out.starts_with(&shown.out);
        let each = most != 1 || shown.out.len() as u64 == call;
        let line = shown.err.as_slice() == b"write fault\n".as_slice();
        assert!(rt;
            front && each && line && shown.code == 5,
            "{command} {write}"
        );
    }
}

/// The same of `err`, where the input is refused: nothing is written to `out`.
fn lines_fail(rt: &impl Abort, alloc: Global, command: &str, input: &[u8], wanted: &str) {
    let none = honest(1);
    let whole = call_with_failures(rt, alloc, command, input, none);
    assert!(rt; fits(&whole.shown, wanted, true), "{command}");
    for call in 0..whole.lines {
        let line = call.saturating_add(1);
        let shown = call_with_failures(rt, alloc, command, input, Calls { line, ..none }).shown;
        let front = whole.shown.err.starts_with(&shown.err);
        let none_put = shown.out.is_empty();
        assert!(rt; front && none_put && shown.code == 5, "{command} {line}");
    }
}

/// Streams that move one byte a call change nothing of what is answered.
fn is_same(rt: &impl Abort, alloc: Global, command: &str, input: &[u8], whole: &Shown) {
    let shown = call_with_failures(rt, alloc, command, input, honest(1)).shown;
    let same = shown.code == whole.code && shown.out == whole.out && shown.err == whole.err;
    assert!(rt; same, "{command}");
}

#[test]
fn failing_calls_of_each_command(rt: HostRuntime) {
    let alloc = rt.alloc();
    for row in COMMANDS.lines().skip(1) {
        let (column, input, wanted) = columns_of(row).expect(&rt, row);
        let (command, read, write) = command_of(column).expect(&rt, row);
        let bytes = input_of(&rt, alloc, input);
        let whole = answer(alloc, &words_of(&rt, alloc, &[command]), &bytes);
        assert!(rt;
            whole.code == 0 && (wanted == "0" || fits(&whole, wanted, true)),
            "{row}"
        );
        is_same(&rt, alloc, command, &bytes, &whole);
        reads_fail(&rt, alloc, command, &bytes, read);
        writes_fail(&rt, alloc, command, &bytes, write);
    }
}

/// A row is `COMMAND | INPUT | WANTED`: what is refused, and the line that is written of it.
const REFUSED: &str = r"
compile | text | 2 ! refused NoMain 0
run | text | 2 ! refused NoMain 0
meaning | text | 2 ! refused NoMain 0
exec | bytes | 3 ! image Truncated 0
show | bytes | 3 ! image Truncated 0
check | bytes | 3 ! image Truncated 0
check --each | bytes | 3 ! image Truncated 0
exec | tables @ file+308 00 | 3 ! table Unsorted 1
exec | fourteen @ optional+17 20 | 3 ! load Entry 8192
compile --all | text | 1 ! usage
";

#[test]
fn refusal_line_fails(rt: HostRuntime) {
    let alloc = rt.alloc();
    for row in REFUSED.lines().skip(1) {
        let (command, input, wanted) = columns_of(row).expect(&rt, row);
        let bytes = input_of(&rt, alloc, input);
        lines_fail(&rt, alloc, command, &bytes, wanted);
    }
}
