//! The code of an image at addresses relative to its base, fetched from its file, and the verdict
//! on it: whether it keeps its unwind information (PE format, "Section Table" and "Import Address
//! Table"; Microsoft x64 ABI, "x64 exception handling").
//!
//! Proved: what [`CodeView`] fetches is what the image has in memory, with its imports bound, were
//! its base 0, and the image has the same where it is loaded; [`validate_image`] gives the verdict
//! of crate unwind_check on that code, and [`validate_image_entries`] that on each entry; and where
//! it is yes, the caller of every frame of each entry is found in the loaded image. Begin with
//! `specs/Code.antt`.
#![tactic(auto)]

mod code_view;
pub mod laws;
mod refusal;
mod slots;
mod validation;

pub use code_view::CodeView;
pub use refusal::ValidationErr;
pub use validation::{validate_image, validate_image_entries};
