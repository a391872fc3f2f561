//! What `check` answers.

use crate::calls::{answer, answers, compiled, words_of};
use crate::inputs::all_answer;
use std::alloc::{AllocError, Global};

/// The image of a text, which has one entry, one with a chained entry, one with pieces of code for
/// vectored handlers, of which a leaf function has no entry, and an image without a function table.
const YES: &str = r"
check | compiled int main(void){ put(2+3*4); return 7; } | 0 yes 1
check | compiled int g(int n){ if (n) put(1); else { put(2); *(int*)0 = 1; } return 0; } int main(void){ __try{ g(0); } __except(1){ put(3); } return 0; } | 0 yes 3
check | compiled int v(unsigned c, unsigned f){ put(c); return 0; } int w(unsigned c, unsigned f){ return -1; } int main(void){ AddVectoredExceptionHandler(1, v); RemoveVectoredExceptionHandler(w); return 0; } | 0 yes 2
check | fourteen | 0 yes 0
";

#[test]
fn images_keep_the_rules(rt: HostRuntime) {
    all_answer(&rt, rt.alloc(), YES);
}

/// A byte or two of the code, which begins at 312 of the file, or of the unwind info, which begins
/// at 325, are changed. RSI isn't saved; RAX is volatile; an epilogue gives back 40 bytes and pops
/// nothing; 06 is no instruction of 64-bit code; RSP is cleared; the info tells of a push of RCX,
/// which is volatile, and of an allocation of 40 bytes; the prologue ends inside an instruction.
const RULES: &str = r"
check | framed | 16 no 0 00002005 Unsaved
check | framed @ file+317 31 C0 | 0 yes 1
check | framed @ file+312 53 48 83 EC 20 90 48 83 C4 28 C3 @ file+337 0B | 16 no 0 00002006 Epilogue
check | framed @ file+317 06 | 16 no 0 00002005 Decode
check | framed @ file+317 31 E4 | 16 no 0 00002005 StackWrite
check | framed @ file+332 10 | 16 no 0 00002000 Codes
check | framed @ file+330 42 | 16 no 0 00002001 Prologue
check | framed @ file+326 06 | 16 no 0 00002005 Decode
";

#[test]
fn each_rule_fails(rt: HostRuntime) {
    all_answer(&rt, rt.alloc(), RULES);
}

/// Code of another compiler, and a frame register, a saved register and an epilogue of `lea`: right
/// as they stand. Then one byte or two of it: an epilogue gives back 32 of 40 bytes; pops are in
/// the wrong order; R15 is told of where R14 is pushed; a register is loaded from another place
/// than it is saved at; `lea` gives back 8 bytes too many; the saved place is above the allocation;
/// the frame register isn't pushed by the codes.
const FOREIGN: &str = r"
check | foreign | 0 yes 4
check | foreign @ file+341 20 | 16 no 0 0000201A Epilogue
check | foreign @ file+426 5F 5B | 16 no 1 0000206E Epilogue
check | foreign @ file+606 F0 | 16 no 2 00002080 Prologue
check | foreign @ file+556 10 | 16 no 3 000020F5 Epilogue
check | foreign @ file+560 28 | 16 no 3 000020F5 Epilogue
check | foreign @ file+613 08 | 16 no 3 000020E0 Codes
check | foreign @ file+620 30 | 16 no 3 000020E0 Codes
";

#[test]
fn foreign_code_keeps_the_rules(rt: HostRuntime) {
    all_answer(&rt, rt.alloc(), FOREIGN);
}

/// A function and two fragments of it. The info of the second has a code; a prologue; a frame
/// register; it is chained to the first fragment, and to an entry that the table doesn't have. The
/// first writes RSI, which the function doesn't save; the second gives back 40 bytes; the first has
/// a byte that is no instruction; the function pushes RDX in place of RBX.
const FRAGMENTS: &str = r"
check | fragments | 0 yes 3
check | fragments @ file+363 21 04 01 00 04 32 00 00 00 20 00 00 0F 20 00 00 00 30 00 00 | 16 no 2 00002013 Chain
check | fragments @ file+364 02 | 16 no 2 00002013 Chain
check | fragments @ file+366 05 | 16 no 2 00002013 Chain
check | fragments @ file+367 0F 20 00 00 13 20 00 00 08 30 00 00 | 16 no 2 00002013 Chain
check | fragments @ file+371 10 | 16 no 2 00002013 Chain
check | fragments @ file+327 31 F6 | 16 no 1 0000200F Unsaved
check | fragments @ file+336 28 | 16 no 2 00002015 Epilogue
check | fragments @ file+329 06 | 16 no 1 00002011 Decode
check | fragments @ file+327 31 E4 | 16 no 1 0000200F StackWrite
check | fragments @ file+312 52 | 16 no 0 00002000 Prologue
check --each | fragments @ file+327 31 F6 | 16 yes 0 00002000 / no 1 0000200F Unsaved / yes 2 00002013 / yes 2 of 3
check --each | fragments @ file+312 52 | 16 no 0 00002000 Prologue / yes 1 0000200F / yes 2 00002013 / yes 2 of 3
";

#[test]
fn fragments_keep_the_rules(rt: HostRuntime) {
    all_answer(&rt, rt.alloc(), FRAGMENTS);
}

/// What is no image, and what has no function table that is read whole; and images that don't load,
/// for their entry point and for their base, but are checked.
const REFUSED: &str = r"
check | bytes | 3 ! image Truncated 0
check | bytes 64*00 | 3 ! image NotPe 0
check | fourteen @ signature+4 4C 01 | 3 ! image Machine 332
check | tables @ file+272 01 07 01 00 07 01 00 00 | 3 ! table Op 0 0
check | tables @ file+280 02 00 00 00 | 3 ! table Version 1 2
check | tables @ file+308 00 | 3 ! table Unsorted 1
exec | framed @ file+317 31 C0 | 3 ! load Entry 0
check | framed @ file+317 31 C0 | 0 yes 1
exec | framed @ file+317 31 C0 @ optional+24 00 10 00 00 00 | 3 ! load Place 4096
check | framed @ file+317 31 C0 @ optional+24 00 10 00 00 00 | 0 yes 1
";

#[test]
fn images_need_not_load(rt: HostRuntime) {
    all_answer(&rt, rt.alloc(), REFUSED);
}

/// A line for each entry: one is right and one isn't, more than one isn't, and there is none. An
/// image has the same refusals as without `--each`.
const EACH: &str = r"
check --each | foreign | 0 yes 0 00002000 / yes 1 00002030 / yes 2 00002080 / yes 3 000020E0 / yes 4 of 4
check --each | foreign @ file+341 20 | 16 no 0 0000201A Epilogue / yes 1 00002030 / yes 2 00002080 / yes 3 000020E0 / yes 3 of 4
check --each | foreign @ file+426 5F 5B @ file+613 08 | 16 yes 0 00002000 / no 1 0000206E Epilogue / yes 2 00002080 / no 3 000020E0 Codes / yes 2 of 4
check --each | framed | 16 no 0 00002005 Unsaved / yes 0 of 1
check --each | framed @ file+317 31 C0 | 0 yes 0 00002000 / yes 1 of 1
check --each | fourteen | 0 yes 0 of 0
check --each | compiled int main(void){} | 0 yes 0 00002047 / yes 1 of 1
check --each | bytes 64*00 | 3 ! image NotPe 0
check --each | tables @ file+308 00 | 3 ! table Unsorted 1
";

#[test]
fn each_entry_is_answered(rt: HostRuntime) {
    all_answer(&rt, rt.alloc(), EACH);
}

/// Four functions, two filters and a `__finally` block.
const FUNCLETS: &str = r"
int f(int n) { put(n); return n; }
int g(int n) { __try { __try { f(n); } __finally { put(1); } } __except (n) { put(2); } return n; }
int h(int n) { int i; for (i = 0; i < n; i = i + 1) { g(i); } return i; }
int main(void) { __try { h(3); RaiseException(5, 0, 0, 0); } __except (GetExceptionCode() == 5) { put(3); } return 0; }
";

/// The lines that `check --each` answers where each entry of a view is right.
fn all_right(alloc: Global, view: &str) -> Result<String, AllocError> {
    let mut lines = String::from_str(alloc, "0 ")?;
    for line in view.lines() {
        let mut words = line.split(' ');
        let kind = words.next().unwrap_or("");
        let index = words.next().unwrap_or("");
        if kind == "entry" {
            let begin = words.next().unwrap_or("");
            let text = format!(in alloc; "yes {index} {begin} / ")?;
            lines.push_str(text.as_str())?;
        } else if kind == "entries" {
            let text = format!(in alloc; "yes {index} of {index}")?;
            lines.push_str(text.as_str())?;
        }
    }
    Ok(lines)
}

/// In an image of functions and funclets each entry is right, and begins where `show` has it.
#[test]
fn each_entry_is_right(rt: HostRuntime) {
    let alloc = rt.alloc();
    let image = compiled(&rt, alloc, FUNCLETS);
    let view = answer(alloc, &words_of(&rt, alloc, &["show"]), &image);
    let text = str::from_utf8(&view.out).unwrap_or("");
    assert!(rt; text.ends_with("entries 7\n"), "{text}");
    let wanted = all_right(alloc, text).expect(&rt, "memory");
    answers(&rt, alloc, "check --each", &image, wanted.as_str());
}
