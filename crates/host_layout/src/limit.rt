//! What the sizes and the places of texts and images are limited to.

/// A text has at most so many bytes (own): 1 MiB.
pub const MOST_TEXT: u64 = 1_048_576;

/// An image has at most so many bytes, in its file and in memory (own): 256 MiB.
pub const MOST_IMAGE: u64 = 268_435_456;

/// The base of an image is a multiple of this (PE format, "Optional Header Windows-Specific
/// Fields"): 64 KiB.
pub const BASE_ALIGNMENT: u64 = 65_536;

/// The least base of an image (own): above the stack, the arena and the host's page.
pub const LEAST_BASE: u64 = 0x1_0000_0000;

/// Where an image ends at the latest, the end of the lower half of the canonical addresses (Intel
/// manual, volume 1, "Canonical Addressing").
pub const ADDRESSES_END: u64 = 0x8000_0000_0000;
