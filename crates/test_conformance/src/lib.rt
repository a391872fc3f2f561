//! The programs of conformance/, each with what it has to show: tables, and no code.
//!
//! Written by conformance/tables: a table for each rule of conformance/cases, and one for each
//! depth of conformance/pairs. The form of a row is that of `test_texts`; its lines are those
//! without `--trace`.
#![tactic(auto)]

pub mod pairs_1;
pub mod pairs_2;
pub mod pairs_3;
pub mod rule_01_search;
pub mod rule_02_answers;
pub mod rule_03_continuing;
pub mod rule_04_noncontinuable;
pub mod rule_05_exceptions_in_filters;
pub mod rule_06_finally;
pub mod rule_07_collided_unwindings;
pub mod rule_08_activations;
pub mod rule_09_leave;
pub mod rule_10_return;
pub mod rule_11_break;
pub mod rule_12_continue;
pub mod rule_13_abnormal_termination;
pub mod rule_14_exception_code;
pub mod rule_15_record;
pub mod rule_16_locals;
pub mod rule_17_leaf_functions;
pub mod rule_18_edges;
pub mod rule_19_loops;
pub mod rule_20_many_sections;
pub mod rule_21_vectored_handlers;
pub mod rule_22_frames;
