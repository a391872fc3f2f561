//! The machine code of bodies of linear code.
//!
//! [`template::put_instruction`] adds the template of one instruction, [`body::put_body`] those of
//! a whole body, [`body::labels_of`] says where each begins, [`entry`] and [`frames`] have what
//! comes before a body, and [`handlers`] what comes behind all bodies for vectored handlers. All
//! addresses are relative to the image base. Moves of slots are spelled by [`stack_words`], any
//! other instruction by crate x64_encode.
//!
//! Proved: the bytes are those of the templates (crate template_code). Begin with `template`.
#![tactic(auto)]

pub mod body;
pub mod calls;
pub mod data_stack;
pub mod entry;
pub mod frames;
pub mod handlers;
mod immediates;
pub mod links;
mod operation_bytes;
pub mod operations;
pub mod put;
mod sizes;
pub mod slots;
pub mod stack_words;
pub mod template;
