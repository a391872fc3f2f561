//! The names of an image's functions, as the text of its run has them.

ghost use Rattle.seh_host.specs.Names.{image_named};

use pe_image::NameTable;
use seh_io::names::Names;

/// What names the functions of an image: the table of names that was read.
#[derive(Drop)]
pub struct ImageNames<'a> {
    pub(crate) table: NameTable<'a>,
}

impl Names for ImageNames<'_> {
    ghost named = { image_named };

    fn name(&self, number: u32) -> Option<&[u8]> {
        self.table.name(number)
    }
}
