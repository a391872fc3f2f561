//! Sums and the larger of two numbers.

ghost use Rattle.std.specs.Prelude.{◌≡◌, ◌+◌, max, IfOk};

use std::alloc::AllocError;

/// A sum, which a program that fits in memory keeps below 2^64.
pub fn sum(a: u64, b: u64) -> Result<u64, AllocError>
    ensures { IfOk result (λ n. n ≡ a + b) }
{
    a.checked_add(b).ok_or(AllocError)
}

/// The larger of two numbers.
pub fn larger(a: u64, b: u64) -> u64
    ensures { result ≡ max a b }
{
    a.max(b)
}
