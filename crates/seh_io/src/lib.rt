//! Bytes in, bytes out, and the text of a run.
//!
//! A `Source` gives bytes and a `Sink` takes them; each counts its own faults, so that a refusal
//! for a fault of the outside is known from any other. A receiver takes what a run shows, event by
//! event; `Lines` is the one that writes the lines of a run's text to a sink. Nothing but
//! `read_all`, `EventList` and the streams in memory takes memory.
//!
//! Proved: all that the source held was read, or why not; which bytes a sink took, also where it
//! had a fault; the text of a run. Begin with `specs/Streams.antt`, then `specs/Text.antt`.
#![tactic(auto)]

pub mod line;
pub mod names;
pub mod plain;
pub mod planned;
pub mod reading;
pub mod receiver;
pub mod sink;
pub mod source;
pub mod text;
pub mod writing;
