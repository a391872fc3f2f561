//! Why an image isn't read.

ghost use Rattle.std.specs.Prelude.{◌≡◌};
ghost use Rattle.pe_image.specs.declared.refusal.ImageErr.TheVariants.{Memory};

use std::alloc::{AllocError, AllocFailed};

/// Why bytes aren't read as an image: the first check that fails, in the order in which
/// [`ImageView::read`](crate::ImageView::read) makes them.
#[derive(Clone, Copy, Debug, PartialEq, Eq)]
pub enum ImageErr {
    /// A header passes the end of the file: `at` is the file offset at which it begins.
    Truncated { at: u64 },
    /// The signature isn't there: `MZ` at 0, or `PE\0\0` at the offset that e_lfanew names.
    NotPe { at: u64 },
    /// The machine isn't x64: `found` is the field Machine.
    Machine { found: u64 },
    /// The optional header isn't one of PE32+: `found` is its field Magic.
    Magic { found: u64 },
    /// The section of that index doesn't lie as it must in the file or in the image.
    Layout { section: u64 },
    /// The import of that index, over all libraries, can't be read.
    ImportBad { index: u64 },
    /// No memory was left.
    Memory,
}

impl From<AllocError> for ImageErr {
    ghost from_gives = { λ _ e. e ≡ Memory };

    fn from(_e: AllocError) -> ImageErr {
        ImageErr::Memory
    }
}

impl<T: Drop> From<AllocFailed<T>> for ImageErr {
    ghost from_gives = { λ _ e. e ≡ Memory };

    fn from(_e: AllocFailed<T>) -> ImageErr {
        ImageErr::Memory
    }
}
