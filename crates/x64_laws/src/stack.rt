//! The stack.

ghost use Rattle.x64_laws.specs.PushedNumbers as pushed;
ghost use Rattle.x64_laws.specs.Stack as spec;

/// PUSH stores a number 8 bytes below the stack's top, and POP takes the number on the top; RSP
/// moves by 8 (Intel manual, volume 2, PUSH and POP).
pub fn pushes()
    ensures push { spec.PushStoresBelowTop }
    ensures pop { spec.PopTakesTop }
    ensures refused { spec.PopIsRefused }
    ensures back { spec.PopRaisesBack }
{}

/// CALL pushes the address of the next instruction and jumps, and RET goes to the address on the
/// stack's top (Intel manual, volume 2, CALL and RET).
pub fn calls()
    ensures call { spec.CallPushesAndJumps }
    ensures ret { spec.RetGoesToTop }
    ensures refused { spec.RetIsRefused }
    ensures back { spec.RetRaisesBack }
{}

/// POP after PUSH takes the number that was pushed, and leaves RSP as it was (Intel manual, volume
/// 2, PUSH and POP).
pub fn pushed_numbers()
    ensures push { pushed.PushPutsOnTop }
    ensures pop { pushed.PopTakesPushed }
{}

/// RET after CALL goes to the instruction behind it, with the stack as before (Intel manual, volume
/// 2, CALL and RET).
pub fn return_addresses()
    ensures call { pushed.CallPutsReturnAddress }
    ensures ret { pushed.RetTakesReturnAddress }
{}
