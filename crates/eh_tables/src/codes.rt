//! Unwind codes, read from their slots.

ghost use Rattle.std.specs.Prelude.{◌≡◌, ◌≤◌, ◌<◌, ◌+◌, ◌*◌, ◌^◌, length, IfSome};
ghost use Rattle.eh_tables.specs.declared.code.UnwindOperation.TheVariants.{Allocate, Save, SaveVector};
ghost use Rattle.eh_tables.specs.Codes as spec;

use crate::code::{UnwindCode, UnwindOperation};
use crate::layout::{
    MOST_SLOT_BYTES, UWOP_ALLOC_LARGE, UWOP_ALLOC_SMALL, UWOP_PUSH_MACHFRAME, UWOP_PUSH_NONVOL,
    UWOP_SAVE_NONVOL, UWOP_SAVE_NONVOL_FAR, UWOP_SAVE_XMM128, UWOP_SAVE_XMM128_FAR, UWOP_SET_FPREG,
};
use crate::refusal::TableErr;
use pe_image::fields::u32_at;
use std::marker::Model;

/// The codes of an unwind info, in their order, which is from the prologue's end to its begin. A
/// clause sees the list of those that are left.
#[derive(Drop)]
pub struct Codes<'a> {
    framed: bool,
    slots: &'a [u8],
}

impl<'a> Model for Codes<'a> {
    ghost use Rattle.std.specs.Prelude.{List};
    ghost use Rattle.eh_tables.specs.declared.code.UnwindCode.{UnwindCode};
    ghost use Rattle.eh_tables.specs.Codes.{codes};

    ghost Value = { List UnwindCode };

    ghost view = { λ c. codes c.framed 0 c.slots.now };
}

impl<'a> Codes<'a> {
    pub(crate) fn new(framed: bool, slots: &'a [u8]) -> Codes<'a>
        ensures { result ≡ spec.codes framed 0 slots.now }
    {
        Codes { framed, slots }
    }
}

impl<'a> Iterator for Codes<'a> {
    type Item = UnwindCode;

    ghost use Rattle.std.specs.Iterator.{YieldsFirst, item_count};

    ghost next_gives = { YieldsFirst (λ c. c) };

    ghost remaining = { item_count (λ c. c) };

    #[tactic(auto, using(crate::proofs::Slots::first_code))]
    fn next(&mut self) -> Option<UnwindCode> {
        match self.slots {
            [offset, op, rest @ ..] => {
                let (operation, operands) = operation(self.framed, *op % 16, *op / 16, rest)?;
                self.slots = &rest[2 * operands..];
                Some(UnwindCode {
                    offset: *offset,
                    operation,
                })
            }
            _ => None,
        }
    }
}

/// One slot of operands: a number of 16 bits.
fn one_slot(rest: &[u8]) -> Option<u32>
    ensures value { result ≡ spec.one_slot rest.now }
    ensures fits { IfSome result (λ n. (n < 2 ^ 16) × (2 ≤ length rest.now)) }
{
    match rest {
        [a, b, ..] => Some(*a as u32 + 256 * *b as u32),
        _ => None,
    }
}

/// Two slots of operands: a number of 32 bits.
fn two_slots(rest: &[u8]) -> Option<u32>
    ensures value { result ≡ spec.two_slots rest.now }
    ensures fits { IfSome result (λ n. 4 ≤ length rest.now) }
{
    match rest {
        [_, _, _, _, ..] => Some(u32_at(rest, 0)),
        _ => None,
    }
}

fn allocate(size: u32) -> UnwindOperation
    ensures { result ≡ Allocate size }
{
    UnwindOperation::Allocate { size }
}

fn save(register: u8, offset: u32) -> UnwindOperation
    ensures { result ≡ Save register offset }
{
    UnwindOperation::Save { register, offset }
}

fn save_vector(register: u8, offset: u32) -> UnwindOperation
    ensures { result ≡ SaveVector register offset }
{
    UnwindOperation::SaveVector { register, offset }
}

/// UWOP_ALLOC_LARGE.
fn large(info: u8, rest: &[u8]) -> Option<(UnwindOperation, usize)>
    ensures value { result ≡ spec.large info rest.now }
    ensures fits { IfSome result (λ x. 2 * x.1 ≤ length rest.now) }
{
    match info {
        0 => Some((allocate(8 * one_slot(rest)?), 1)),
        1 => Some((allocate(two_slots(rest)?), 2)),
        _ => None,
    }
}

/// The operation of a code, and how many slots of operands it takes.
#[tactic(auto, unfolding(crate::specs::Codes::operation))]
fn operation(framed: bool, op: u8, info: u8, rest: &[u8]) -> Option<(UnwindOperation, usize)>
    requires { info < 16 }
    ensures value { result ≡ spec.operation framed op info rest.now }
    ensures fits { IfSome result (λ x. 2 * x.1 ≤ length rest.now) }
{
    match op {
        UWOP_PUSH_NONVOL => Some((UnwindOperation::Push { register: info }, 0)),
        UWOP_ALLOC_LARGE => large(info, rest),
        UWOP_ALLOC_SMALL => Some((allocate(8 * info as u32 + 8), 0)),
        UWOP_SET_FPREG if framed => Some((UnwindOperation::SetFrame, 0)),
        UWOP_SAVE_NONVOL => Some((save(info, 8 * one_slot(rest)?), 1)),
        UWOP_SAVE_NONVOL_FAR => Some((save(info, two_slots(rest)?), 2)),
        UWOP_SAVE_XMM128 => Some((save_vector(info, 16 * one_slot(rest)?), 1)),
        UWOP_SAVE_XMM128_FAR => Some((save_vector(info, two_slots(rest)?), 2)),
        UWOP_PUSH_MACHFRAME if info < 2 => Some((UnwindOperation::MachineFrame { info }, 0)),
        _ => None,
    }
}

/// Checks the codes of the slots from that one on, of which the first ones are still operands.
fn check_from(
    index: u64,
    framed: bool,
    slot: u64,
    last: u8,
    operands: usize,
    slots: &[u8],
) -> Result<(), TableErr>
    requires { 2 * slot + length slots.now ≤ MOST_SLOT_BYTES }
    ensures { result ≡ spec.checked index framed slot last operands slots.now }
{
    match slots {
        [offset, op, rest @ ..] => {
            if operands != 0 {
                return check_from(index, framed, slot + 1, last, operands - 1, rest);
            }
            match operation(framed, *op % 16, *op / 16, rest) {
                None => Err(TableErr::Op { index, slot }),
                Some((_, operands)) => {
                    if last < *offset {
                        return Err(TableErr::CodeOrder { index, slot });
                    }
                    check_from(index, framed, slot + 1, *offset, operands, rest)
                }
            }
        }
        _ => Ok(()),
    }
}

/// Checks the codes of an info's slots, of which so many others come before.
pub fn check_codes(index: u64, framed: bool, first: u64, slots: &[u8]) -> Result<(), TableErr>
    requires { 2 * first + length slots.now ≤ MOST_SLOT_BYTES }
    ensures { result ≡ spec.checked index framed first 255 0 slots.now }
{
    check_from(index, framed, first, 255, 0, slots)
}
