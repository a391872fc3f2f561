//! The processor: its registers, what each instruction does, and one step of it.
//!
//! Begin with `specs/Effect.antt`, which says what each instruction does, and with `running::step`.
//! Proved: `running::execute` and `running::step` do exactly that, and change nothing where an
//! instruction is refused. Laws in the manual's words are in the crate x64_laws.
#![tactic(auto)]

mod computing;
pub mod conditions;
pub mod context;
pub mod control;
pub mod cpu;
mod dividing;
mod effect;
mod moving;
mod multiplying;
mod operands;
pub mod outcome;
pub mod running;
pub mod shifts;
pub mod words;
