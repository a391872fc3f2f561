//! What the length and the nesting of an accepted text bound: steps of its meaning for one turn of
//! its linear code, words of its frames, bytes of its code and tables.
//!
//! Such amounts are weights: where no node adds more than so much, a program weighs at most that
//! for each node of its text (`weight_laws`). Proved by them: one turn stands for at most 8 steps
//! for each byte of the text, and 256 (`steps_per_turn_laws`); frames are small (`nesting_laws`); a
//! text of at most 1 MiB is within the limits of linking (`bound_laws`, `room_laws`). Begin with
//! `specs/Weights.antt`.
#![tactic(auto)]

pub mod bound_laws;
pub mod nesting_laws;
pub mod room_laws;
pub mod steps_per_turn_laws;
pub mod weight_laws;
