//! The host: it loads an image, and runs it turn by turn.
//!
//! Proved: `loading::load` places an image as the definition `mapped` has it, or refuses it for
//! the first reason that holds; `run::turn` leaves the host of `next`, and `run::run` writes the
//! text of its turns. Begin with `specs/Hosts.antt`, then `loading` and `run`.
#![tactic(auto)]

mod binding;
pub mod counting;
pub mod host;
pub mod loading;
pub mod mapping;
pub mod names;
pub mod run;

pub use eh_tables::TableErr;
pub use host_model::refusal::LoadErr;
pub use seh_num::end::RunEnd;
