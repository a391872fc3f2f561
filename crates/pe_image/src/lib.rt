//! PE32+ images for x64 (Microsoft's specification of the PE format), read.
//!
//! [`ImageView::read`] reads the bytes of a file without copying them, and refuses by the first
//! check that fails ([`ImageErr`]). [`ImageView::read_outline`] reads an image without its imports,
//! in a file or as a loader mapped it ([`ImageLayout`]). The view then answers its sections
//! ([`SectionView`]) and what is stored at an address. Reading is lenient: any DOS stub, image base
//! and number of directories will do, and raw data may be longer or shorter than a section's size.
//!
//! Addresses of sections, entries and directories are relative to the image base.
//!
//! Proved: the view is the image that the bytes are (`specs/Reading.antt`, where to begin).
#![tactic(auto)]

mod descriptor;
mod directory;
pub mod fields;
mod image_layout;
mod import;
mod import_check;
mod import_place;
mod imports;
pub mod layout;
mod name_table;
mod names;
mod reading;
mod refusal;
mod section;
mod table;
mod view;

pub use directory::DataDirectory;
pub use image_layout::ImageLayout;
pub use import::Import;
pub use imports::Imports;
pub use name_table::{NameErr, NameTable};
pub use refusal::ImageErr;
pub use section::SectionView;
pub use view::ImageView;
