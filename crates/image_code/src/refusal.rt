use eh_tables::TableErr;

/// Why there is no verdict on an image that was read.
#[derive(Clone, Copy, Debug, PartialEq, Eq)]
pub enum ValidationErr {
    /// The function table can't be read whole, for this reason.
    Table(TableErr),
    /// No memory was left, which says nothing of the image.
    Memory,
}
