ghost use Rattle.std.specs.Prelude.{◌≡◌, ◌≤◌};
ghost use Rattle.seh_num.specs.Widths.{bytes_of, half, limit};

/// How wide a number is: a byte, a word, a doubleword or a quadword (Intel manual, volume 1,
/// "Fundamental Data Types").
#[derive(Clone, Copy, Debug, PartialEq, Eq)]
pub enum Width {
    /// 8 bits.
    W8,
    /// 16 bits.
    W16,
    /// 32 bits.
    W32,
    /// 64 bits.
    W64,
}

impl Width {
    /// The bytes of a number of this width: 1, 2, 4 or 8.
    pub fn bytes(self) -> u64
        ensures value { result ≡ bytes_of self }
        ensures most { result ≤ 8 }
    {
        match self {
            Width::W8 => 1,
            Width::W16 => 2,
            Width::W32 => 4,
            Width::W64 => 8,
        }
    }

    /// One more than the largest unsigned number of this width.
    pub fn limit(self) -> u128
        ensures { result ≡ limit self }
    {
        match self {
            Width::W8 => 1 << 8,
            Width::W16 => 1 << 16,
            Width::W32 => 1 << 32,
            Width::W64 => 1 << 64,
        }
    }

    /// One more than the largest signed number of this width.
    pub fn half(self) -> u64
        ensures { result ≡ half self }
    {
        match self {
            Width::W8 => 1 << 7,
            Width::W16 => 1 << 15,
            Width::W32 => 1 << 31,
            Width::W64 => 1 << 63,
        }
    }
}
