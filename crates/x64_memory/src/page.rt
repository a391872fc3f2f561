use flat_memory::protection::Protection;
use host_layout::range::PAGE;

/// A page of memory: all its bytes have one protection.
#[derive(Drop)]
pub struct Page {
    /// The protection of each byte.
    pub protection: Protection,
    /// The bytes, from the page's first address on.
    pub bytes: [u8; PAGE as usize],
}
