//! The machine of linear code: bodies that run and wait, suspended searches for handlers and
//! suspended unwindings, in one stack in the order of time.
//!
//! Proved: with more turns a run shows at least as much, and an end stays (`turn_laws`). Begin with
//! `specs/Frames.antt`, then `specs/Run.antt`; `specs/Searching.antt` and `specs/Unwinding.antt`
//! have the passes of the dispatcher.
#![tactic(auto)]

pub mod turn_laws;
