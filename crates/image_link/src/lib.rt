//! From programs of linear code to images.
//!
//! `link::compile_program` gives the bytes of the image of a program within the limits of
//! `specs/Fits.antt`.
//!
//! Proved: they are those of the image `linked` of the program, and are read again as that image.
//! Begin with `specs/Linked.antt`.
#![tactic(auto)]

pub mod entry;
pub mod fragments;
pub mod handlers;
pub mod laws;
pub mod link;
pub mod place;
pub mod placement;
pub mod routine;
pub mod services;
pub mod tables;
pub mod text;
pub mod walks;
