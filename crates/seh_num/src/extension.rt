//! Numbers of one width as numbers of another.

ghost use Rattle.std.specs.Prelude.{◌≡◌, ◌<◌};
ghost use Rattle.seh_num.specs.Widths.{limit, low, signed, wrapped, IsCongruent};

use crate::width::Width;

/// The low bits of `v`, read in two's complement: the top one of them counts below zero.
pub fn sign_extend(w: Width, v: u64) -> i64
    ensures { result ≡ signed w v }
{
    match w {
        Width::W8 => i64::from(((v % (1 << 8)) as u8).cast_signed()),
        Width::W16 => i64::from(((v % (1 << 16)) as u16).cast_signed()),
        Width::W32 => i64::from(((v % (1 << 32)) as u32).cast_signed()),
        Width::W64 => v.cast_signed(),
    }
}

/// The low bits of `v`, read as an unsigned number.
pub fn zero_extend(w: Width, v: u64) -> u64
    ensures value { result ≡ low w v }
    ensures fits { result < limit w }
{
    match w {
        Width::W8 => v % (1 << 8),
        Width::W16 => v % (1 << 16),
        Width::W32 => v % (1 << 32),
        Width::W64 => v,
    }
}

/// The low bits of a number of 128 bits.
pub fn truncate(w: Width, v: u128) -> u64
    ensures value { result ≡ low w v }
    ensures fits { result < limit w }
{
    match w {
        Width::W8 => (v % (1 << 8)) as u64,
        Width::W16 => (v % (1 << 16)) as u64,
        Width::W32 => (v % (1 << 32)) as u64,
        Width::W64 => (v % (1 << 64)) as u64,
    }
}

/// `v` modulo 2 to the width: the bits that are left of a whole number where it is stored.
pub fn wrap(w: Width, v: i128) -> u64
    ensures value { result ≡ wrapped w v }
    ensures fits { result < limit w }
    ensures congruent { IsCongruent w v result }
{
    truncate(w, v.cast_unsigned())
}
