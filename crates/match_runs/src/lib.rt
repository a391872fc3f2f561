//! Whole runs of the machine against whole runs of linear code: what turns of the machine show for
//! a step of linear code adds up to what a run shows, with every event and end and with no other.
//!
//! Proved: `laws::laws`. Begin with `specs/Matched.antt` (a step and its turns) and
//! `specs/Shadow.antt` (the list of live frames, and what keeps it). In `proofs/`, `matched_by` of
//! `Matches` makes a matched step of another one, with silent turns before it, and `matched_run` of
//! `MatchedRuns` joins the steps of a simulation into one run that is matched, from which the laws
//! follow.
#![tactic(auto)]

pub mod laws;
