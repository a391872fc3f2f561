//! Instructions as they are read.

ghost use Rattle.std.specs.Prelude.{◌≡◌, ◌≤◌, [], ◌++◌, ℕ, List, Some, option_map, IfSome, length, take};
ghost use Rattle.x64_instr.specs.Spelling as spec;
ghost use Rattle.x64_instr.specs.Spelling.{IsEncoding};

use crate::instruction::Instr;
use crate::opcode_map::{row, two_byte_row};
use crate::prefixes::Prefixes;
use crate::reading::byte;

#[tactic(auto, unfolding(crate::specs::Spelling::after_prefixes))]
fn after_prefixes(prefixes: Prefixes, opcode: u8, bytes: &[u8]) -> Option<(Instr, &[u8])>
    ensures { option_map (λ x. (x.0, x.1.now)) result
        ≡ spec.after_prefixes prefixes opcode bytes.now }
{
    if opcode == 0x0F {
        let (second, rest) = byte(bytes)?;
        return two_byte_row(prefixes, second, rest);
    }
    row(prefixes, opcode, bytes)
}

#[tactic(auto, unfolding(crate::specs::Spelling::after_size))]
fn after_size(operand_size: bool, first: u8, bytes: &[u8]) -> Option<(Instr, &[u8])>
    ensures { option_map (λ x. (x.0, x.1.now)) result
        ≡ spec.after_size operand_size first bytes.now }
{
    if first / 16 == 4 {
        let (opcode, rest) = byte(bytes)?;
        let prefixes = Prefixes {
            operand_size,
            has_rex: true,
            rex: first % 16,
        };
        return after_prefixes(prefixes, opcode, rest);
    }
    let prefixes = Prefixes {
        operand_size,
        has_rex: false,
        rex: 0,
    };
    after_prefixes(prefixes, first, bytes)
}

#[tactic(auto, unfolding(crate::specs::Spelling::instr))]
fn instr(bytes: &[u8]) -> Option<(Instr, &[u8])>
    ensures { option_map (λ x. (x.0, x.1.now)) result ≡ spec.instr bytes.now }
{
    let (first, rest) = byte(bytes)?;
    if first == 0x66 {
        let (second, rest) = byte(rest)?;
        return after_size(true, second, rest);
    }
    after_size(false, first, rest)
}

/// The instruction that the leading bytes spell, and how many bytes it takes; none where no leading
/// bytes are a spelling. No more than 15 bytes are looked at.
pub fn decode(bytes: &[u8]) -> Option<(Instr, usize)>
    ensures found { IfSome result
        (λ x. (x.1 ≤ length bytes.now) × IsEncoding x.0 (take x.1 bytes.now)) }
    ensures exact { result ≡ spec.leading bytes.now }
    ensures only { (i : Instr) (k : ℕ) → k ≤ length bytes.now → IsEncoding i (take k bytes.now)
        → result ≡ Some (i, k) }
{
    match instr(bytes) {
        None => None,
        Some((instr, rest)) => Some((instr, bytes.len() - rest.len())),
    }
}

/// No spelling begins another, and each spells one instruction.
pub fn one_reading()
    ensures { (i j : Instr) (a more : List ℕ) → IsEncoding i a → IsEncoding j (a ++ more)
        → (more ≡ []) × (i ≡ j) }
{}
