//! Hashes of names.

ghost use Rattle.std.specs.Prelude.{◌≡◌};
ghost use Rattle.c_expressions.specs.TextHashers.{hasher_of};

use std::hash::{BuildHasher, DefaultHasher, Hasher};

/// Hashes a name as what follows a whole text. So where names fall in a hash table is known only
/// once the text is whole, and whoever writes it can't choose names that fall together.
#[derive(Clone, Copy)]
pub struct TextHasher {
    /// What has read the text.
    after_text: DefaultHasher,
}

impl TextHasher {
    /// For the names of this text: each is hashed as what follows the whole text.
    pub fn new(text: &[u8]) -> TextHasher
        ensures { result ≡ hasher_of text.now }
    {
        let mut after_text = DefaultHasher::new();
        after_text.write(text);
        TextHasher { after_text }
    }
}

impl BuildHasher for TextHasher {
    type Hasher = DefaultHasher;

    ghost build_hasher = { λ h. h.after_text };

    fn build_hasher(&self) -> DefaultHasher {
        self.after_text
    }
}
