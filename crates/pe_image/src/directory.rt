/// A data directory of the optional header: where a table of the image lies (PE format, "Optional
/// Header Data Directories"). One of size 0 means no table.
#[derive(Clone, Copy, Debug, PartialEq, Eq)]
pub struct DataDirectory {
    /// The table's address, relative to the image base.
    pub rva: u32,
    /// Its size in bytes.
    pub size: u32,
}

/// No table.
pub const NO_TABLE: DataDirectory = DataDirectory { rva: 0, size: 0 };
