//! The locals that stand in registers.

ghost use Rattle.std.specs.Prelude.{◌≡◌, ◌+◌, length, take, replicate, false, IfOk, option_map};
ghost use Rattle.c_checked.specs.Program as programs;
ghost use Rattle.lowering_registers.specs.Marks as marked;
ghost use Rattle.lowering_registers.specs.Shared as spec;

use crate::expression_marks::mark;
use crate::statement_marks::mark_all_shared;
use arrayvec::ArrayVec;
use c_checked::function::{DataFrame, Function, StackedParameter};
use lowering_sizes::sums::sum;
use std::alloc::{AllocError, Global};

/// How many parameters and locals a function has. Nothing but want of memory keeps it from being
/// counted.
pub fn own_locals(f: &Function) -> Result<u64, AllocError>
    ensures { IfOk result (λ n. n ≡ spec.own_locals (programs.function f.now)) }
{
    sum(f.parameters.len() as u64, f.locals.len() as u64)
}

/// So many marks that aren't set.
fn unset(alloc: Global, count: usize) -> Result<Vec<bool>, AllocError>
    ensures { IfOk result (λ v. v.items ≡ replicate count false) }
{
    vec![in alloc; false; count]
}

/// Marks the parameters that are brought to the data stack.
fn mark_brought(marks: &mut Vec<bool>, parameters: &[StackedParameter])
    ensures { marks.new.items ≡ marked.with_brought parameters.now marks.old.items }
{
    for parameter in parameters {
        mark(marks, parameter.parameter);
    }
}

/// Marks the base of a function's part of the data stack, and the parameters that are brought
/// there.
fn mark_kept(marks: &mut Vec<bool>, frame: &Option<DataFrame>)
    ensures { marks.new.items ≡ marked.with_kept (option_map programs.data_frame_of frame.now)
        marks.old.items }
{
    match frame {
        None => (),
        Some(part) => {
            mark(marks, part.base);
            mark_brought(marks, &part.parameters)
        }
    }
}

/// The numbers of the first seven locals that aren't marked.
fn first_unmarked(marks: &[bool]) -> ArrayVec<u64, 7>
    ensures { result.items ≡ take 7 (marked.unmarked marks.now 0) }
{
    let mut chosen = ArrayVec::new();
    for (index, mark) in marks.iter().enumerate() {
        if !*mark && !chosen.is_full() {
            chosen.push(index as u64);
        }
    }
    chosen
}

/// The numbers of the locals of a function that stand in registers, at most seven, in rising order.
/// It fails where memory runs out.
pub fn register_locals(alloc: Global, f: &Function) -> Result<ArrayVec<u64, 7>, AllocError>
    ensures { IfOk result (λ r. r.items ≡ spec.register_locals (programs.function f.now)) }
{
    let count = own_locals(f)?;
    let mut marks = unset(alloc, count as usize)?;
    mark_kept(&mut marks, &f.data_frame);
    mark_all_shared(&mut marks, &f.body);
    Ok(first_unmarked(&marks))
}
