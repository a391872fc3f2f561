//! What whole texts show: the tables of `test_texts`.

use crate::calls::{Shown, answer, compiled, words_of};
use crate::ways::{COMPILED, MEANING, TEXT, WAYS, all_show};
use std::process::Abort;
use test_texts::{
    binary, cold_parts, data_stack, depths, examples, handlers, many_locals, refused, texts, unary,
    vectored, vectored_rules, walks,
};

/// Expressions, calls and loops show what they mean, and a recursion returns as often as it called.
#[test]
fn expressions(rt: HostRuntime) {
    all_show(&rt, rt.alloc(), &WAYS, &TEXT, texts::EXPRESSIONS);
}

/// The same of small programs.
#[test]
fn small_programs(rt: HostRuntime) {
    all_show(&rt, rt.alloc(), &WAYS, &TEXT, texts::SPACES);
    all_show(&rt, rt.alloc(), &WAYS, &TEXT, texts::SMALL);
}

/// A run ends when its turns are over.
#[test]
fn turns(rt: HostRuntime) {
    all_show(&rt, rt.alloc(), &COMPILED, &TEXT, texts::TURNS);
}

/// A meaning ends when its steps are over, at its depth, and at an undefined byte.
#[test]
fn steps(rt: HostRuntime) {
    all_show(&rt, rt.alloc(), &MEANING, &TEXT, texts::STEPS);
}

/// A text that isn't made of tokens, or whose tokens are no program.
#[test]
fn tokens(rt: HostRuntime) {
    all_show(&rt, rt.alloc(), &WAYS, &TEXT, refused::TOKENS);
}

/// A program that breaks a rule.
#[test]
fn rules(rt: HostRuntime) {
    all_show(&rt, rt.alloc(), &WAYS, &TEXT, refused::RULES);
}

/// An exception is searched for, and lands where a filter accepts it.
#[test]
fn except(rt: HostRuntime) {
    all_show(&rt, rt.alloc(), &WAYS, &TEXT, handlers::EXCEPT);
}

/// A `__finally` block runs once, however its body is left.
#[test]
fn finally(rt: HostRuntime) {
    all_show(&rt, rt.alloc(), &WAYS, &TEXT, handlers::FINALLY);
}

/// A filter sees the record of its exception.
#[test]
fn faults(rt: HostRuntime) {
    all_show(&rt, rt.alloc(), &WAYS, &TEXT, handlers::FAULTS);
}

/// A second exception, and one that is continued.
#[test]
fn nested_and_collided(rt: HostRuntime) {
    all_show(&rt, rt.alloc(), &WAYS, &TEXT, handlers::NESTED);
}

/// A walk shows the functions of the live activations, innermost first.
#[test]
fn walks(rt: HostRuntime) {
    all_show(&rt, rt.alloc(), &WAYS, &TEXT, walks::WALKS);
}

/// A program of depth 1,000 ends by itself; hundreds of frames are searched and unwound.
#[test]
fn within(rt: HostRuntime) {
    all_show(&rt, rt.alloc(), &WAYS, &TEXT, depths::WITHIN);
}

/// A step that would make the depth 1,001 ends the meaning.
#[test]
fn deeper(rt: HostRuntime) {
    all_show(&rt, rt.alloc(), &MEANING, &TEXT, depths::DEEPER);
}

/// Functions of many locals weigh more in the depth, take more steps, and have large frames.
#[test]
fn many_locals(rt: HostRuntime) {
    all_show(&rt, rt.alloc(), &WAYS, &TEXT, many_locals::WITHIN);
    all_show(&rt, rt.alloc(), &MEANING, &TEXT, many_locals::DEEPER);
    all_show(&rt, rt.alloc(), &MEANING, &TEXT, many_locals::STEPS);
    all_show(&rt, rt.alloc(), &WAYS, &TEXT, many_locals::FRAMES);
    let largest = [many_locals::LARGEST];
    all_show(&rt, rt.alloc(), &WAYS, &largest, many_locals::LARGEST_SHOWN);
}

/// An `else` branch that holds a call stands apart, and does what it means.
#[test]
fn cold_parts(rt: HostRuntime) {
    all_show(&rt, rt.alloc(), &WAYS, &TEXT, cold_parts::COLD);
}

/// Arrays of functions, and variables of which an address is taken, stand on the data stack.
#[test]
fn data_stack(rt: HostRuntime) {
    all_show(&rt, rt.alloc(), &WAYS, &TEXT, data_stack::VARIABLES);
    all_show(&rt, rt.alloc(), &WAYS, &TEXT, data_stack::EXCEPTIONS);
    all_show(&rt, rt.alloc(), &WAYS, &TEXT, data_stack::WITHIN);
    all_show(&rt, rt.alloc(), &MEANING, &TEXT, data_stack::DEEPER);
    all_show(&rt, rt.alloc(), &MEANING, &TEXT, data_stack::STEPS);
    all_show(&rt, rt.alloc(), &WAYS, &TEXT, data_stack::LIMITS);
    all_show(&rt, rt.alloc(), &WAYS, &TEXT, data_stack::RULES);
}

/// Vectored handlers are asked before the handlers of frames.
#[test]
fn vectored(rt: HostRuntime) {
    all_show(&rt, rt.alloc(), &WAYS, &TEXT, vectored::HANDLERS);
    all_show(&rt, rt.alloc(), &WAYS, &TEXT, vectored::WITHIN);
    all_show(&rt, rt.alloc(), &MEANING, &TEXT, vectored::DEEPER);
    all_show(&rt, rt.alloc(), &MEANING, &TEXT, vectored::STEPS);
    all_show(&rt, rt.alloc(), &WAYS, &TEXT, vectored_rules::RULES);
}

/// Each program shows what is beside it.
#[test]
fn examples(rt: HostRuntime) {
    all_show(&rt, rt.alloc(), &WAYS, &TEXT, examples::EXAMPLES);
}

/// Operators of 8 and 16 bits.
#[test]
fn narrow_operands(rt: HostRuntime) {
    all_show(&rt, rt.alloc(), &WAYS, &[binary::PROGRAM], binary::NARROW);
}

/// Operators of 32 and 64 bits.
#[test]
fn wide_operands(rt: HostRuntime) {
    all_show(&rt, rt.alloc(), &WAYS, &[binary::PROGRAM], binary::WIDE);
}

/// Casts to each type, and operators of one operand.
#[test]
fn unary_operators_and_casts(rt: HostRuntime) {
    all_show(
        &rt,
        rt.alloc(),
        &WAYS,
        &[unary::UNARY_PROGRAM],
        unary::UNARY,
    );
}

/// Each operator that assigns, where no division overflows.
#[test]
fn assignments(rt: HostRuntime) {
    let program = [unary::ASSIGNMENTS, unary::DIVISIONS];
    all_show(&rt, rt.alloc(), &WAYS, &program, unary::NARROW_AND_UNSIGNED);
}

/// Each operator that assigns, where the least number divided by -1 overflows.
#[test]
fn signed_assignments(rt: HostRuntime) {
    let program = [unary::ASSIGNMENTS, unary::SIGNED_DIVISIONS];
    all_show(&rt, rt.alloc(), &WAYS, &program, unary::SIGNED);
}

/// An operand is converted to the common type.
#[test]
fn operands_of_two_types(rt: HostRuntime) {
    all_show(&rt, rt.alloc(), &WAYS, &TEXT, unary::MIXED);
}

/// Compares what was shown with an access of the guard below the stack.
fn touches_the_guard(rt: &impl Abort, shown: &Shown) {
    let line = str::from_utf8(&shown.out).unwrap_or("");
    let place = line.strip_prefix("stack limit 000000006FFF").unwrap_or("");
    assert!(rt; shown.code == 11 && shown.err.is_empty(), "{line}");
    assert!(rt; place.len() == 5 && place.ends_with('\n'), "{line}");
}

/// A recursion without an end touches the guard.
#[test]
fn stack_limit(rt: HostRuntime) {
    let alloc = rt.alloc();
    let text = "int r(int n){ return r(n + 1) + 1; } int main(void){ put(r(900)); return 0; }";
    let image = compiled(&rt, alloc, text);
    let words = words_of(&rt, alloc, &["exec --turns 100000000"]);
    touches_the_guard(&rt, &answer(alloc, &words, &image));
    let words = words_of(&rt, alloc, &["run --turns 100000000"]);
    touches_the_guard(&rt, &answer(alloc, &words, text.as_bytes()));
}
