/// Where the bytes of an image have its sections.
#[derive(Clone, Copy, Debug, PartialEq, Eq)]
pub enum ImageLayout {
    /// The bytes of a file: the raw data of a section is at PointerToRawData.
    File,
    /// The bytes of memory from the image's base on, into which a loader mapped the image: a
    /// section is at its address, and all of its size is there.
    Mapped,
}
