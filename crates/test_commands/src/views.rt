//! What `show` writes of images.

use crate::calls::{answer, compiled, words_of};
use crate::inputs::all_answer;
use crate::ways::filled;
use std::alloc::Global;
use std::process::Abort;
use test_texts::many_locals;

/// The infos of the first rows are of a prologue that pushes RBX and takes 32 bytes of stack; of
/// one whose allocation has no room for its operand; and one of version 2. In the last row `main`
/// has 40 bytes, after five thunks of 6 and the 41 of `__chkstk`. Its prologue is `sub rsp, 40`, of
/// 4 bytes: home space and a temporary (UWOP_ALLOC_SMALL with 40 / 8 - 1). A `nop` of one byte is
/// after it.
const VIEWS: &str = r"
show | tables @ optional+140 24 @ file+272 01 05 02 00 05 32 01 30 01 07 01 00 07 01 00 00 02 7*00 | 0 entry 0 00002000 0000201F 00003000 /  bytes 0105020005320130 /  info prolog 5 flags 0 frame - 0 /  code 5 alloc 32 /  code 1 push rbx / refused 1 Op 0 / refused 2 Version 2 / entries 3
show | tables @ optional+140 00 @ file+272 01 05 02 00 05 32 01 30 01 07 01 00 07 01 00 00 02 7*00 | 0 entries 0
show | fourteen | 0 entries 0
show | bytes 64*00 | 3 ! image NotPe 0
show | bytes | 3 ! image Truncated 0
show | compiled int main(void){} | 0 entry 0 00002047 00002065 00004000 /  bytes 0104010004420000 /  info prolog 4 flags 0 frame - 0 /  code 4 alloc 40 / entries 1
";

/// How many bytes a compiled image has: the headers, and a block of 512 for each section but
/// `.data`.
const SIZE: usize = 3072;

#[test]
fn tables_are_shown(rt: HostRuntime) {
    let image = compiled(&rt, rt.alloc(), "int main(void){}");
    assert!(rt; image.len() == SIZE);
    all_answer(&rt, rt.alloc(), VIEWS);
}

/// The view of the image of a text.
fn view_of(rt: &impl Abort, alloc: Global, text: &str) -> Vec<u8> {
    let image = compiled(rt, alloc, text);
    let words = words_of(rt, alloc, &["show"]);
    let view = answer(alloc, &words, &image);
    assert!(rt; view.code == 0 && view.err.is_empty(), "{text}");
    view.out
}

/// Whether the scope records of a view are one with a `__finally` block, and one with a filter.
fn has_both_scopes(view: &str) -> bool {
    let mut scopes = view.lines().filter(|line| line.starts_with(" scope"));
    let inner = scopes.next().unwrap_or("");
    let outer = scopes.next().unwrap_or("");
    inner.starts_with(" scope 0 ")
        && inner.contains(" finally ")
        && outer.starts_with(" scope 1 ")
        && outer.contains(" filter ")
        && scopes.next().is_none()
}

/// One scope record for each `__try`, the inner one first; filters and `__finally` blocks have
/// entries.
#[test]
fn scope_records(rt: HostRuntime) {
    let text =
        "int main(void){ __try{ __try{ RaiseException(0xE0000001,0,0,0); } __finally{ put(AbnormalTermination()); } } __except(2){ put(3); } return 0; }";
    let view = view_of(&rt, rt.alloc(), text);
    let shown = str::from_utf8(&view).unwrap_or("");
    assert!(rt; has_both_scopes(shown), "{shown}");
    assert!(rt; shown.ends_with("\nentries 3\n"), "{shown}");
}

/// Where a `__try` is the first statement, its range begins past the prologue (4 bytes, from 2047
/// to 204A), what keeps the data stack's pointer (a load of 8 bytes, a number of 10, an addition of
/// 8, a store of 5), and the `nop`.
#[test]
fn ranges_begin_past_the_prologue(rt: HostRuntime) {
    let text = "int main(void){ __try{ *(int*)0 = 1; } __except(1){ put(1); } return 0; }";
    let view = view_of(&rt, rt.alloc(), text);
    let shown = str::from_utf8(&view).unwrap_or("");
    assert!(rt; shown.starts_with("entry 0 00002047 "), "{shown}");
    assert!(rt; shown.contains("\n info prolog 4 "), "{shown}");
    assert!(rt; shown.contains("\n scope 0 0000206B "), "{shown}");
}

/// Whether just two lines of a view end with the push of RBX.
fn pushes_twice(view: &str) -> bool {
    let mut pushes = view.lines().filter(|line| line.ends_with("push rbx"));
    pushes.next().is_some() && pushes.next().is_some() && pushes.next().is_none()
}

/// The first local of each function stands in RBX, which its prologue pushes.
#[test]
fn pushes_in_the_view(rt: HostRuntime) {
    let text =
        "int g(int a){ a = a * 3; RaiseException(0xE0000001,0,0,0); return a; } int main(void){ int x = 5; __try{ put(g(x)); } __except(1){ put(x); } return 0; }";
    let view = view_of(&rt, rt.alloc(), text);
    let shown = str::from_utf8(&view).unwrap_or("");
    assert!(rt; pushes_twice(shown), "{shown}");
    assert!(rt; shown.ends_with("\nentries 2\n"), "{shown}");
}

/// The largest frame: home space of 4 words, 4 temporaries, a parameter and 65,536 locals, and four
/// registers saved by MOV. These are 65,549 words, above what UWOP_ALLOC_LARGE takes in units, and
/// the registers are from 8 * 65,545 on, above what UWOP_SAVE_NONVOL takes.
#[test]
fn largest_frame(rt: HostRuntime) {
    let text = filled(&rt, rt.alloc(), &[many_locals::LARGEST], "");
    let view = view_of(&rt, rt.alloc(), &text);
    let shown = str::from_utf8(&view).unwrap_or("");
    assert!(rt; shown.contains(" alloc 524392\n"), "{shown}");
    assert!(rt; shown.contains(" save r12 524360\n"), "{shown}");
    assert!(rt; shown.contains(" save r15 524384\n"), "{shown}");
}

/// A function with a cold part: two functions and a chained entry, which comes last.
const COLD: &str =
    "int g(int n){ if (n) put(1); else { put(2); *(int*)0 = 1; } return 0; } int main(void){ __try{ g(0); } __except(1){ put(3); } return 0; }";

/// An `else` branch that holds a call has a chained entry. One that holds none has none, nor one
/// that holds a `__try` or stands in one.
#[test]
fn chained_entries(rt: HostRuntime) {
    let view = view_of(&rt, rt.alloc(), COLD);
    let shown = str::from_utf8(&view).unwrap_or("");
    let mut chained = shown.lines().filter(|line| line.starts_with(" chain"));
    assert!(rt;
        chained.next().is_some() && chained.next().is_none(),
        "{shown}"
    );
    assert!(rt; shown.ends_with("\nentries 3\n"), "{shown}");
    for text in [
        "int main(void){ int x = 1; if (x) put(1); else x = 2; return x; }",
        "int main(void){ __try{ if (1) put(1); else put(2); } __except(1){ } return 0; }",
        "int main(void){ if (1) put(1); else { put(2); __try{ put(3); } __except(1){ } } return 0; }",
    ] {
        let view = view_of(&rt, rt.alloc(), text);
        assert!(rt; view.ends_with(b"\nentries 1\n"), "{text}");
    }
}

/// A leaf function has no entry in the function table: `main` alone has one.
#[test]
fn leaf_functions(rt: HostRuntime) {
    for text in [
        "int f(int *p){ return *p; } int main(void){ __try{ put(f((int*)8)); } __except(1){ put(GetExceptionCode()==0xC0000005); } return 0; }",
        "int f(int *p){ return *p; } int main(void){ put(f((int*)8)); return 0; }",
    ] {
        let view = view_of(&rt, rt.alloc(), text);
        assert!(rt; view.ends_with(b"\nentries 1\n"), "{text}");
    }
}
