//! The text of a generated program.

ghost use Rattle.std.specs.Prelude.{◌≡◌, ◌<◌, ◌≤◌, ◌++◌, IfOk, OnOk, length};
ghost use Rattle.std.specs.Fmt.{decimal};
ghost use Rattle.generated_program.specs.GeneratedText.{call, for_each, function, generated};

use crate::body::Body;
use std::alloc::{AllocError, Global};

/// How many functions a generated program has beside `main`.
pub const FUNCTIONS: u64 = 256;

/// A generated program has at most so many bytes.
pub const LONGEST_PROGRAM: u64 = 65_536;

/// Appends a number in decimal.
fn put_number(alloc: Global, text: &mut Vec<u8>, number: u64) -> Result<(), AllocError>
    ensures { OnOk result (text.new.items ≡ text.old.items ++ decimal number) }
{
    let digits = number.to_string(alloc)?;
    text.extend_from_slice(digits.as_bytes())?;
    Ok(())
}

/// Appends the function of number `k` in the program of number `n`.
fn put_function(alloc: Global, text: &mut Vec<u8>, n: u64, k: u64) -> Result<(), AllocError>
    requires { k < FUNCTIONS }
    ensures { OnOk result (text.new.items ≡ text.old.items ++ function n k) }
{
    let body = Body::numbered((n % 4 + k) % 4);
    text.extend_from_slice(b"int f")?;
    put_number(alloc, text, k)?;
    text.extend_from_slice(body.before_constant())?;
    put_number(alloc, text, (n % 97 + k) % 97)?;
    text.extend_from_slice(body.after_constant())?;
    Ok(())
}

/// Appends the functions of the program of number `n`.
fn put_functions(alloc: Global, text: &mut Vec<u8>, n: u64) -> Result<(), AllocError>
    ensures { OnOk result (text.new.items ≡ text.old.items ++ for_each (function n) FUNCTIONS) }
{
    for k in 0..FUNCTIONS {
        put_function(alloc, text, n, k)?;
    }
    Ok(())
}

/// Appends the call of a function.
fn put_call(alloc: Global, text: &mut Vec<u8>, k: u64) -> Result<(), AllocError>
    ensures { OnOk result (text.new.items ≡ text.old.items ++ call k) }
{
    text.extend_from_slice(b"s = f")?;
    put_number(alloc, text, k)?;
    text.extend_from_slice(b"(s); ")?;
    Ok(())
}

/// Appends the calls that `main` makes.
fn put_calls(alloc: Global, text: &mut Vec<u8>) -> Result<(), AllocError>
    ensures { OnOk result (text.new.items ≡ text.old.items ++ for_each call FUNCTIONS) }
{
    for k in 0..FUNCTIONS {
        put_call(alloc, text, k)?;
    }
    Ok(())
}

/// The text of the generated program of a number, one line without a line feed. Only the system's
/// memory can be wanting.
pub fn generate(alloc: Global, n: u64) -> Result<Vec<u8>, AllocError>
    ensures text { IfOk result (λ text. text.items ≡ generated n) }
    ensures short { IfOk result (λ text. length text.items ≤ LONGEST_PROGRAM) }
{
    let mut text = Vec::new(alloc);
    text.extend_from_slice(b"int g; ")?;
    put_functions(alloc, &mut text, n)?;
    text.extend_from_slice(b"int main(void){ int s = 0; __try{ ")?;
    put_calls(alloc, &mut text)?;
    text.extend_from_slice(b"} __except(1){ return 1; } put(s); put(g); return 0; }")?;
    Ok(text)
}
