//! Views of images, as programs that aren't Rattle hold them: an image opened, the entry of an
//! address, the caller of a frame, and walks, over ranges of memory. Crate seh_c gives them to C.
//!
//! Proved: an opening makes a view of the image that the bytes are (`specs/Views.antt`). By such a
//! view each answer is the definition's, which opens the bytes anew (`specs/Callers.antt`,
//! `specs/Walks.antt`), or that memory is wanting. By any view a call is safe, and an entry that it
//! finds is one of the table, and covers the address. Begin with `specs/Callers.antt`.
#![tactic(auto)]

pub mod c_types;
pub mod codes;
pub mod finding;
pub mod modules;
pub mod named_scopes;
pub mod opening;
mod own_profile;
mod ranges;
pub mod refusal;
pub mod scopes;
mod snapshot;
pub mod step;
pub mod unwinding;
pub mod walking;
