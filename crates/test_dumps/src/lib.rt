//! Tests of minidumps: a dump that is written field by field, what is read of it, and how it is
//! refused where it is bent.
#![tactic(auto)]

#[cfg(test)]
mod answers;
#[cfg(test)]
mod rows;
