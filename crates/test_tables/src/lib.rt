//! Readers of tables for the crates of tests, and images for tests.
//!
//! A table of rows is one text, and each line after the first is a row, of columns between bars; a
//! column is of words, and numbers and bytes are words of hexadecimal digits ([`rows`], [`words`]).
//! What isn't there is "" or nothing, so that the test that asks for it says what is missing.
//!
//! Images are made by hand: code with functions, scope records and funclets ([`code`]), whole
//! images of functions that call each other ([`calls`]), code that harms the dispatcher's records
//! ([`forged`]), and the images of such code ([`built`], [`handled`]), as the product's own writers
//! write them; images of given unwind infos and entries ([`tables`]); images of one section
//! ([`one_section`]); and images with vectored handlers ([`vectored`]).
#![tactic(auto)]

mod building;
pub mod calls;
pub mod code;
pub mod forged;
pub mod handled;
pub mod named;
pub mod one_section;
pub mod rows;
pub mod tables;
pub mod vectored;
pub mod words;

pub use building::{Function, Parts, Prologue, built, every_service, fixed, framed, scope};
