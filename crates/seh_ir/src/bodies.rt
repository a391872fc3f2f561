//! Bodies with what their code uses.

ghost use Rattle.std.specs.Prelude.{◌≡◌, ◌-◌, IfOk};
ghost use Rattle.linear_code.specs.Program.{linear_body};
ghost use Rattle.seh_ir.specs.Slots as spec;

use linear_code::instruction::Instruction;
use linear_code::program::{IrBody, LabelRange, Region};
use linear_code::slot::Slot;
use lowering_sizes::sums::{larger, sum};
use std::alloc::AllocError;

fn slot_temporaries(slot: Slot) -> Result<u64, AllocError>
    ensures { IfOk result (λ n. n ≡ spec.slot_temporaries slot) }
{
    match slot {
        Slot::Local(_) => Ok(0),
        Slot::Temporary(i) => sum(i, 1),
    }
}

fn instruction_temporaries(instruction: &Instruction) -> Result<u64, AllocError>
    ensures { IfOk result (λ n. n ≡ spec.instruction_temporaries instruction.now) }
{
    match instruction {
        Instruction::Compute {
            to,
            first,
            second,
            ..
        } => {
            let operands = larger(slot_temporaries(*first)?, slot_temporaries(*second)?);
            Ok(larger(slot_temporaries(*to)?, operands))
        }
        Instruction::Information { to, .. } => slot_temporaries(*to),
        Instruction::Jump { .. } => Ok(0),
        Instruction::JumpIfZero { slot, .. } => slot_temporaries(*slot),
        Instruction::Call { first, count, .. } => sum(*first, larger(4, *count)),
        Instruction::CallBuiltIn { first, .. } => sum(*first, 4),
        Instruction::CallFinally { .. } => Ok(0),
        Instruction::LocalUnwind { .. } => Ok(0),
        Instruction::Landing { to } => slot_temporaries(*to),
        Instruction::Separator => Ok(0),
        Instruction::Return { from } => slot_temporaries(*from),
    }
}

fn instruction_passes(instruction: &Instruction) -> u64
    ensures { result ≡ spec.instruction_passes instruction.now }
{
    match instruction {
        Instruction::Call { count, .. } => count.saturating_sub(4),
        Instruction::Compute { .. } => 0,
        Instruction::Information { .. } => 0,
        Instruction::Jump { .. } => 0,
        Instruction::JumpIfZero { .. } => 0,
        Instruction::CallBuiltIn { .. } => 0,
        Instruction::CallFinally { .. } => 0,
        Instruction::LocalUnwind { .. } => 0,
        Instruction::Landing { .. } => 0,
        Instruction::Separator => 0,
        Instruction::Return { .. } => 0,
    }
}

/// How many temporaries code uses.
fn temporaries_in(code: &[Instruction]) -> Result<u64, AllocError>
    ensures { IfOk result (λ n. n ≡ spec.temporaries_in code.now) }
{
    let mut most = 0;
    for instruction in code {
        let own = instruction_temporaries(instruction)?;
        let next = larger(most, own);
        most = next;
    }
    Ok(most)
}

/// How many arguments after the fourth its calls pass at most.
fn passed_in(code: &[Instruction]) -> u64
    ensures { result ≡ spec.passed_in code.now }
{
    let mut most = 0;
    for instruction in code {
        let own = instruction_passes(instruction);
        let next = larger(most, own);
        most = next;
    }
    most
}

/// A body of an activation with so many locals, with these cold parts.
pub fn body_with(
    locals: u64,
    code: Vec<Instruction>,
    regions: Vec<Region>,
    cold: Vec<LabelRange>,
) -> Result<IrBody, AllocError>
    ensures { IfOk result (λ b. linear_body b ≡
        spec.body_with locals code.items regions.items cold.items) }
{
    let temporaries = temporaries_in(&code)?;
    let passed = passed_in(&code);
    Ok(IrBody {
        locals,
        temporaries,
        passed,
        code,
        regions,
        cold,
    })
}
