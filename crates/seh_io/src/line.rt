//! A line of text, made without memory.

ghost use Rattle.std.specs.Prelude.{◌≡◌, ◌+◌, ◌≤◌, ◌<◌, ◌*◌, ◌^◌, [], ◌∷◌, ◌++◌, length, true};
ghost use Rattle.std.specs.Fmt.{decimal, signed_decimal, digit_glyph};
ghost use Rattle.seh_io.specs.declared.line.TheConstants.{LONGEST_LINE, ADDRESS_DIGITS};
ghost use Rattle.seh_io.specs.Lengths.{longest_decimal};
ghost use Rattle.seh_io.specs.Text.{hexadecimal, ended};

use arrayvec::ArrayVec;
use std::marker::Model;

/// The most bytes of a line.
pub const LONGEST_LINE: usize = 64;

/// How many digits of base 16 show the code of an exception, which has 32 bits.
pub const CODE_DIGITS: u32 = 8;

/// How many digits of base 16 show an address.
pub const ADDRESS_DIGITS: u32 = 16;

/// A piece of text of at most `LONGEST_LINE` bytes, which lie in the value itself.
#[derive(Drop)]
pub struct Line {
    bytes: ArrayVec<u8, LONGEST_LINE>,
}

impl Model for Line {
    ghost use Rattle.std.specs.Prelude.{ℕ, ◌≤◌, List, length, true};
    ghost use Rattle.seh_io.specs.declared.line.TheConstants.{LONGEST_LINE};

    ghost Value = { List ℕ };

    ghost view = { λ line. line.bytes.items };

    ghost invariant = { λ line. length line.bytes.items ≤ LONGEST_LINE };
}

impl Line {
    /// A line without a byte.
    pub fn new() -> Self
        ensures { result ≡ [] }
    {
        Line {
            bytes: ArrayVec::new(),
        }
    }

    /// The bytes of the line.
    pub fn as_bytes(&self) -> &[u8]
        ensures value { result.now ≡ self.now }
        ensures fits { length result.now ≤ LONGEST_LINE }
    {
        self.bytes.as_slice()
    }

    fn push(&mut self, byte: u8)
        requires { length self.old < LONGEST_LINE }
        ensures { self.new ≡ self.old ++ byte ∷ [] }
    {
        self.bytes.push(byte);
    }

    /// Adds these bytes.
    pub fn text(&mut self, text: &[u8])
        requires { length self.old + length text.now ≤ LONGEST_LINE }
        ensures value { self.new ≡ self.old ++ text.now }
        ensures len { length self.new ≡ length self.old + length text.now }
    {
        // There is room, so that it can't be refused.
        let _ = self.bytes.try_extend_from_slice(text);
    }

    /// Adds a number in decimal digits, as few as show it.
    pub fn natural(&mut self, n: u64)
        requires { length self.old + longest_decimal ≤ LONGEST_LINE }
        ensures value { self.new ≡ self.old ++ decimal n }
        ensures len { length self.new ≤ length self.old + longest_decimal }
    {
        self.digits_of(n);
    }

    /// Adds a number in decimal digits, with a `-` before one below 0.
    pub fn integer(&mut self, n: i64)
        requires { length self.old + longest_decimal ≤ LONGEST_LINE }
        ensures value { self.new ≡ self.old ++ signed_decimal n }
        ensures len { length self.new ≤ length self.old + longest_decimal }
    {
        if n < 0 {
            self.push(b'-');
        }
        self.digits_of(n.unsigned_abs());
    }

    fn digits_of(&mut self, n: u64)
        requires { length self.old + length (decimal n) ≤ LONGEST_LINE }
        ensures { self.new ≡ self.old ++ decimal n }
    {
        if n >= 10 {
            self.digits_of(n / 10);
        }
        self.push(b'0' + (n % 10) as u8);
    }

    /// Adds the last digits of a number in base 16, so many, in upper case.
    pub fn hexadecimal(&mut self, digits: u32, n: u64)
        requires digits { digits ≤ ADDRESS_DIGITS }
        requires room { length self.old + digits ≤ LONGEST_LINE }
        ensures value { self.new ≡ self.old ++ hexadecimal digits n }
        ensures len { length self.new ≡ length self.old + digits }
    {
        for place in (0..digits).rev() {
            self.push(glyph((n >> (4 * place)) % 16));
        }
    }

    /// Ends the line by a line feed.
    pub fn end(&mut self)
        requires { length self.old < LONGEST_LINE }
        ensures { self.new ≡ ended self.old }
    {
        self.push(b'\n');
    }
}

/// The digit of base 16 for `n`.
fn glyph(n: u64) -> u8
    requires { n < 16 }
    ensures { result ≡ digit_glyph true n }
{
    let n = n as u8;
    if n < 10 { b'0' + n } else { b'A' + (n - 10) }
}
