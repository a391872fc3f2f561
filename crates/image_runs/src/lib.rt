//! Whole runs of the images of compiled programs.
//!
//! Proved: where turns of the machine match each step of the linear code of a sound program, whole
//! runs show what the program means, and nothing more (`match_laws`); of every accepted text a run
//! of its image does, and a walk over the stack gives the shadow at every turn, while the program
//! is calm. Begin with `specs/ImageMeaning.antt`, then `specs/ShadowWalks.antt`.
#![tactic(auto)]

pub mod accepted_laws;
pub mod first_laws;
pub mod frame_laws;
pub mod image_laws;
pub mod main_laws;
pub mod match_laws;
pub mod run_laws;
pub mod shadow_laws;
pub mod walk_event_laws;
pub mod walk_laws;
pub mod walked_laws;
