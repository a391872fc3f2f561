//! Values of expressions, found at once where that changes nothing and raises nothing.
//!
//! `values` evaluates an expression by calls of its own, in the `surroundings` of a place, and
//! answers none where an operand has to wait: where something is changed, called or raised, or no
//! step is left.
//!
//! Proved: the value, and the steps that are left, are those of the definition in
//! `specs/Direct.antt`; and there the steps of `source_machine` lead (`proofs/ValueSteps.antt`).
#![tactic(auto)]

pub mod changes;
pub mod surroundings;
pub mod values;
