ghost use Rattle.std.specs.Prelude.{◌≡◌, IfOk, OnOk, OnErr};
ghost use Rattle.flat_memory.specs.Memory.{Memory};
ghost use Rattle.x64_replay.specs.Replays.{answer_of, answers_of, memory_after, memory_after_all};

use crate::operation::{Answer, Op};
use std::alloc::{AllocError, Global};
use x64_memory::space::AddressSpace;

/// Makes one operation.
fn answer<S: AddressSpace>(space: &mut S, op: &Op) -> Answer
    ensures answer { result ≡ answer_of (S.memory space.old) op.now }
    ensures after { S.memory space.new ≡ memory_after (S.memory space.old) op.now }
{
    match *op {
        Op::Load { at, width } => match space.load(at, width) {
            Ok(value) => Answer::Loaded(value),
            Err(refused) => Answer::Refused(refused),
        },
        Op::Store { at, width, value } => match space.store(at, width, value) {
            Ok(()) => Answer::Stored,
            Err(refused) => Answer::Refused(refused),
        },
        Op::Protect { at, mode } => Answer::Protected(space.protect(at, mode)),
    }
}

/// Makes operations on memory, one after another, and gives their answers. The room for the
/// answers is taken first: where the system's memory is wanting, the machine's is as before.
pub fn replay<S: AddressSpace>(
    alloc: Global,
    space: &mut S,
    ops: &[Op],
) -> Result<Vec<Answer>, AllocError>
    ensures answers { IfOk result
        (λ answers. answers.items ≡ answers_of (S.memory space.old) ops.now) }
    ensures after { OnOk result
        (S.memory space.new ≡ memory_after_all (S.memory space.old) ops.now) }
    ensures kept { OnErr result (space.new ≡ space.old) }
{
    let mut answers = Vec::with_capacity(alloc, ops.len())?;
    for op in ops {
        answers.push(answer(space, op))?;
    }
    Ok(answers)
}
