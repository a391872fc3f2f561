//! One turn of the host over any memory: an instruction, a service, or the dispatch work between
//! two funclets. All suspended work is kept in records in the machine's stack.
//!
//! `gathering` lists the funclets of an image at load, in the order of their addresses, whatever
//! the order of the scope records; `arrival` finds the one where RIP arrives. Proved: each service,
//! each answer of a filter or of a vectored handler and each return of a `__finally` block leaves
//! the state, and shows the event, of its case of the definition `turned` (crate host_model). Begin
//! with `advancing`.
#![tactic(auto)]

pub mod advancing;
pub mod answering;
pub mod arrival;
pub mod dispatching;
pub mod filter;
pub mod gathering;
pub mod machine;
pub mod outcome;
pub mod raising;
pub mod serving;
pub mod telling;
pub mod walking;
