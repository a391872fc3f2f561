//! Tests of virtual unwinding: the caller of a frame at each instruction's boundary of functions of
//! every kind, against the answers of another unwinder, and frames whose caller isn't found. Begin
//! with `callers`.
#![tactic(auto)]

#[cfg(test)]
mod caller_rows;
#[cfg(test)]
mod callers;
#[cfg(test)]
mod refused_callers;
