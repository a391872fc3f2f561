//! Instructions as they are measured.

ghost use Rattle.std.specs.Prelude.{◌≡◌, ◌<◌, ◌≤◌, ◌^◌, ◌++◌, ℕ, List, [], Some, option_map};
ghost use Rattle.x64_lengths.specs.declared.effects.Effects.{Effects};
ghost use Rattle.x64_lengths.specs.Effects.{IsSmall};
ghost use Rattle.x64_lengths.specs.Maps.{by_modrm, cell_of};
ghost use Rattle.x64_lengths.specs.Measures as spec;

use crate::effects::{Effects, effects_of};
use crate::maps::{by_modrm, cell_of, has_modrm, row_of};
use crate::places::{ModRm, operands};
use crate::spelled::{Spelled, prefixes_and_opcode};
use x64_instr::operand::RegisterOrMemory;
use x64_instr::reading::{byte, number};
use x64_maps::cell::{Cell, Ending, Immediate, Row};

/// An instruction's length and effects.
#[derive(Clone, Copy, Debug, PartialEq, Eq)]
pub struct Measured {
    /// How many bytes it takes, at most 15.
    pub length: usize,
    pub effects: Effects,
}

/// How many bytes an immediate takes.
fn immediate_bytes(spelled: Spelled, immediate: Immediate) -> u64
    ensures value { result ≡ spec.immediate_bytes spelled immediate }
    ensures small { result ≤ 8 }
{
    let half = if spelled.legacy.operand_size { 2 } else { 4 };
    match immediate {
        Immediate::Nothing => 0,
        Immediate::Byte => 1,
        Immediate::Word => 2,
        Immediate::WordAndByte => 3,
        Immediate::Half => if spelled.is_wide() { 4 } else { half },
        Immediate::Whole => if spelled.is_wide() { 8 } else { half },
        Immediate::Address => if spelled.legacy.address_size { 4 } else { 8 },
    }
}

fn is_relative(ending: Ending) -> bool
    ensures { result ≡ spec.is_relative ending }
{
    matches!(ending, Ending::Conditional | Ending::Jump | Ending::Call)
}

fn is_memory(modrm: Option<ModRm>) -> bool
    ensures { result ≡ spec.is_memory modrm }
{
    match modrm {
        None => false,
        Some(modrm) => matches!(modrm.place, RegisterOrMemory::Memory(_)),
    }
}

/// Whether the prefixes are allowed before this instruction.
fn is_allowed(spelled: Spelled, ending: Ending, modrm: Option<ModRm>) -> bool
    ensures { result ≡ spec.is_allowed spelled ending modrm }
{
    !(spelled.legacy.operand_size && is_relative(ending))
        && !(spelled.legacy.lock && !is_memory(modrm))
}

/// The immediate of a cell, and what it means with its operands.
#[inline(always)]
fn with_operands(
    spelled: Spelled,
    cell: Cell,
    modrm: Option<ModRm>,
    bytes: &[u8],
) -> Option<(Effects, &[u8])>
    requires { IsSmall modrm }
    ensures { option_map (λ x. (x.0, x.1.now)) result
        ≡ spec.with_operands spelled cell modrm bytes.now }
{
    if !is_allowed(spelled, cell.ending, modrm) {
        return None;
    }
    let count = immediate_bytes(spelled, cell.immediate);
    let (value, rest) = number(count, bytes)?;
    Some((effects_of(spelled, cell, modrm, count, value), rest))
}

/// The rest of an instruction with ModRM, of which the first byte is read.
#[inline(always)]
fn with_modrm(spelled: Spelled, row: Row, modrm: u8, bytes: &[u8]) -> Option<(Effects, &[u8])>
    ensures { option_map (λ x. (x.0, x.1.now)) result
        ≡ spec.with_modrm spelled (cell_of (by_modrm modrm row)) modrm bytes.now }
{
    match cell_of(by_modrm(modrm, row)) {
        None => None,
        Some(cell) => {
            let (modrm, rest) = operands(cell.form, spelled.prefixes, modrm, bytes)?;
            with_operands(spelled, cell, Some(modrm), rest)
        }
    }
}

#[inline(always)]
fn without_modrm(spelled: Spelled, row: Row, bytes: &[u8]) -> Option<(Effects, &[u8])>
    ensures { option_map (λ x. (x.0, x.1.now)) result
        ≡ spec.without_modrm spelled (cell_of row) bytes.now }
{
    match cell_of(row) {
        None => None,
        Some(cell) => with_operands(spelled, cell, None, bytes),
    }
}

#[inline(always)]
fn with_row(spelled: Spelled, row: Row, bytes: &[u8]) -> Option<(Effects, &[u8])>
    ensures { option_map (λ x. (x.0, x.1.now)) result ≡ spec.with_row spelled row bytes.now }
{
    if has_modrm(row) {
        let (first, rest) = byte(bytes)?;
        with_modrm(spelled, row, first, rest)
    } else {
        without_modrm(spelled, row, bytes)
    }
}

#[tactic(auto, unfolding(crate::specs::Measures::instruction))]
fn instruction(bytes: &[u8]) -> Option<(Effects, &[u8])>
    ensures { option_map (λ x. (x.0, x.1.now)) result ≡ spec.instruction bytes.now }
{
    let (spelled, rest) = prefixes_and_opcode(bytes)?;
    with_row(spelled, row_of(spelled), rest)
}

/// What the instruction at the front is, of which no more than 15 bytes are looked at; none where
/// the table has no instruction there.
pub fn measure(bytes: &[u8]) -> Option<Measured>
    ensures { result ≡ spec.measured bytes.now }
{
    let front = if bytes.len() > 15 {
        &bytes[..15]
    } else {
        bytes
    };
    match instruction(front) {
        None => None,
        Some((effects, rest)) => Some(Measured {
            length: front.len() - rest.len(),
            effects,
        }),
    }
}

/// What is read is spelled by the bytes that it takes, whatever follows them.
pub fn is_spelled_by_its_bytes()
    ensures { (bytes : List ℕ) (e : Effects) (rest : List ℕ)
        → spec.instruction bytes ≡ Some (e, rest) → spec.IsSpelledWithin bytes e rest }
{}

/// No instruction begins another, and each is read in one way.
pub fn one_reading()
    ensures { (e f : Effects) (bytes more : List ℕ) → spec.IsInstruction e bytes
        → spec.IsInstruction f (bytes ++ more) → (more ≡ []) × (e ≡ f) }
{}
