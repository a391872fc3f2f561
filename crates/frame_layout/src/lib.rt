//! The frames of compiled functions (Microsoft x64 ABI, "x64 stack usage" and "Prolog and
//! epilog").
//!
//! [`plan`] lays out a [`FrameLayout`] by what a function needs of it; [`prologue`] and
//! [`epilogue`] are the instructions that take it and give it back, and [`unwind_of`] what
//! unwinding needs to know of them. No call takes memory.
//!
//! Proved: they keep the rules of `frame_rules`, and no frame is larger than `FRAME_BY_WEIGHT` for
//! each 1 of its weight. Begin with `specs/Layout.antt`.
#![tactic(auto)]

mod frame;
mod infos;
mod instructions;
mod operations;

pub use frame::{Facts, FrameLayout, plan};
pub use infos::{chained_of, unwind_of};
pub use instructions::{epilogue, probe_end, prologue};
