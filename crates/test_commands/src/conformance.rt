//! The programs of conformance/, whose tables are `test_conformance`: what each puts, and how it
//! ends, by `run`, by `compile` and then `exec`, and by `meaning`.

use crate::ways::{WAYS, all_put};
use test_conformance::{
    pairs_1, pairs_2, pairs_3, rule_01_search, rule_02_answers, rule_03_continuing,
    rule_04_noncontinuable, rule_05_exceptions_in_filters, rule_06_finally,
    rule_07_collided_unwindings, rule_08_activations, rule_09_leave, rule_10_return, rule_11_break,
    rule_12_continue, rule_13_abnormal_termination, rule_14_exception_code, rule_15_record,
    rule_16_locals, rule_17_leaf_functions, rule_18_edges, rule_19_loops, rule_20_many_sections,
    rule_21_vectored_handlers, rule_22_frames,
};

/// The search for a handler, and what its answer does.
#[test]
fn search_and_answers(rt: HostRuntime) {
    all_put(&rt, rt.alloc(), &WAYS, rule_01_search::PROGRAMS);
    all_put(&rt, rt.alloc(), &WAYS, rule_02_answers::PROGRAMS);
}

/// Execution that is continued, and that may not be.
#[test]
fn continued_execution(rt: HostRuntime) {
    all_put(&rt, rt.alloc(), &WAYS, rule_03_continuing::PROGRAMS);
    all_put(&rt, rt.alloc(), &WAYS, rule_04_noncontinuable::PROGRAMS);
}

/// An exception in a filter.
#[test]
fn exceptions_in_filters(rt: HostRuntime) {
    all_put(
        &rt,
        rt.alloc(),
        &WAYS,
        rule_05_exceptions_in_filters::PROGRAMS,
    );
}

/// What a `__finally` block runs for.
#[test]
fn finally_blocks(rt: HostRuntime) {
    all_put(&rt, rt.alloc(), &WAYS, rule_06_finally::PROGRAMS);
}

/// An exception in a `__finally` block.
#[test]
fn collided_unwindings(rt: HostRuntime) {
    all_put(
        &rt,
        rt.alloc(),
        &WAYS,
        rule_07_collided_unwindings::PROGRAMS,
    );
}

/// Activations of one function.
#[test]
fn activations(rt: HostRuntime) {
    all_put(&rt, rt.alloc(), &WAYS, rule_08_activations::PROGRAMS);
}

/// `__leave`, `return`, `break` and `continue` out of a guarded section.
#[test]
fn jumps(rt: HostRuntime) {
    all_put(&rt, rt.alloc(), &WAYS, rule_09_leave::PROGRAMS);
    all_put(&rt, rt.alloc(), &WAYS, rule_10_return::PROGRAMS);
    all_put(&rt, rt.alloc(), &WAYS, rule_11_break::PROGRAMS);
    all_put(&rt, rt.alloc(), &WAYS, rule_12_continue::PROGRAMS);
}

/// `AbnormalTermination` by what a section was left.
#[test]
fn abnormal_termination(rt: HostRuntime) {
    all_put(
        &rt,
        rt.alloc(),
        &WAYS,
        rule_13_abnormal_termination::PROGRAMS,
    );
}

/// What filters and blocks are told of an exception.
#[test]
fn codes_and_records(rt: HostRuntime) {
    all_put(&rt, rt.alloc(), &WAYS, rule_14_exception_code::PROGRAMS);
    all_put(&rt, rt.alloc(), &WAYS, rule_15_record::PROGRAMS);
}

/// Locals in filters and blocks.
#[test]
fn locals(rt: HostRuntime) {
    all_put(&rt, rt.alloc(), &WAYS, rule_16_locals::PROGRAMS);
}

/// Leaf functions; first and last statements, empty bodies.
#[test]
fn leaf_functions_and_edges(rt: HostRuntime) {
    all_put(&rt, rt.alloc(), &WAYS, rule_17_leaf_functions::PROGRAMS);
    all_put(&rt, rt.alloc(), &WAYS, rule_18_edges::PROGRAMS);
}

/// Loops, and functions of many sections.
#[test]
fn loops_and_many_sections(rt: HostRuntime) {
    all_put(&rt, rt.alloc(), &WAYS, rule_19_loops::PROGRAMS);
    all_put(&rt, rt.alloc(), &WAYS, rule_20_many_sections::PROGRAMS);
}

/// Vectored handlers.
#[test]
fn vectored_handlers(rt: HostRuntime) {
    all_put(&rt, rt.alloc(), &WAYS, rule_21_vectored_handlers::PROGRAMS);
}

/// Frames large and small.
#[test]
fn frames(rt: HostRuntime) {
    all_put(&rt, rt.alloc(), &WAYS, rule_22_frames::PROGRAMS);
}

/// Each construct around each event.
#[test]
fn one_construct(rt: HostRuntime) {
    all_put(&rt, rt.alloc(), &WAYS, pairs_1::PROGRAMS);
}

/// Each construct around each other one.
#[test]
fn two_constructs(rt: HostRuntime) {
    all_put(&rt, rt.alloc(), &WAYS, pairs_2::PROGRAMS);
}

/// Each two constructs at each two of three places.
#[test]
fn three_constructs(rt: HostRuntime) {
    all_put(&rt, rt.alloc(), &WAYS, pairs_3::PROGRAMS);
}
