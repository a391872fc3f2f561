//! That the bytes of `__chkstk` do what frame_rules takes of a call in a prologue: the machine's
//! own run comes back, in so many instructions, to a state in which the call has been made.
#![tactic(auto)]

pub mod laws;
