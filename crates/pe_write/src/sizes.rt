//! Where the sections of a program's image lie.

ghost use Rattle.std.specs.Prelude.{◌≡◌, ◌<◌, ◌^◌};
ghost use Rattle.pe_write.specs.Program as spec;

use host_layout::range::{DATA_AT, pages};

/// Where `.text` begins, relative to the image base, after `.data` of `data_size` bytes.
pub fn text_after(data_size: u32) -> u64
    ensures { result ≡ spec.text_after data_size }
{
    DATA_AT + pages(data_size as u64)
}

/// Where `.rdata` begins, relative to the image base, after `.data` of `data_size` bytes and
/// `.text` of `text_size` bytes.
pub fn rdata_after(data_size: u32, text_size: u32) -> u64
    ensures { result ≡ spec.rdata_after data_size text_size }
{
    text_after(data_size) + pages(text_size as u64)
}

/// Where `.xdata` begins, relative to the image base, after `.data` of `data_size` bytes, `.text`
/// of `text_size` bytes and `.rdata` of `rdata_size` bytes.
pub fn xdata_after(data_size: u32, text_size: u32, rdata_size: u32) -> u64
    ensures { result ≡ spec.xdata_after data_size text_size rdata_size }
{
    rdata_after(data_size, text_size) + pages(rdata_size as u64)
}

/// How many bytes the sections of an image take. They say where each of them lies, relative to the
/// image base: `.data` after the page of the headers, and each other one after the pages of the one
/// before.
#[derive(Clone, Copy, Debug, PartialEq, Eq)]
pub struct Sizes {
    /// `.data`.
    pub data_size: u32,
    /// `.text`.
    pub text_size: u32,
    /// `.rdata`, with the tables of imports.
    pub rdata_size: u32,
    /// `.xdata`.
    pub xdata_size: u32,
    /// `.pdata`.
    pub pdata_size: u32,
    /// `.sehname`: 0 where the image has none.
    pub names_size: u32,
}

impl Sizes {
    /// Where `.text` begins.
    pub fn text_at(&self) -> u64
        ensures { result ≡ spec.text_at self.now }
    {
        text_after(self.data_size)
    }

    /// Where `.rdata` begins.
    pub fn rdata_at(&self) -> u64
        ensures { result ≡ spec.rdata_at self.now }
    {
        rdata_after(self.data_size, self.text_size)
    }

    /// Where `.xdata` begins.
    pub fn xdata_at(&self) -> u64
        ensures { result ≡ spec.xdata_at self.now }
    {
        xdata_after(self.data_size, self.text_size, self.rdata_size)
    }

    /// Where `.pdata` begins.
    pub fn pdata_at(&self) -> u64
        ensures { result ≡ spec.pdata_at self.now }
    {
        self.xdata_at() + pages(self.xdata_size as u64)
    }

    /// Where `.sehname` begins, if there is one.
    pub fn names_at(&self) -> u64
        ensures value { result ≡ spec.names_at self.now }
        ensures small { result < 2 ^ 36 }
    {
        self.pdata_at() + pages(self.pdata_size as u64)
    }

    /// Where the image ends.
    pub fn end_at(&self) -> u64
        ensures { result ≡ spec.end_at self.now }
    {
        self.names_at() + pages(self.names_size as u64)
    }
}
