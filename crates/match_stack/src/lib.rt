//! The list of what waits in linear code against the machine's stack: frames, suspended searches
//! and suspended unwindings, one by one. A walk over the stack visits the list; a record that is
//! pushed below it makes it one item longer; and each turn of the dispatcher does what linear code
//! does. Begin reading with `specs/Stack` and `specs/ItemMatches`, then the laws.
#![tactic(auto)]

pub mod control_laws;
pub mod list_laws;
pub mod record_laws;
pub mod register_laws;
pub mod returns;
pub mod search_laws;
pub mod steps;
pub mod turn_laws;
pub mod unwind_laws;
pub mod walk_laws;
