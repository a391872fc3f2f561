//! The list of epilogues of an unwind info of version 2: the slots before those of its codes.

ghost use Rattle.std.specs.Prelude.{◌≡◌, ◌≤◌, ◌*◌, length};
ghost use Rattle.eh_tables.specs.EitherInfos as spec;

use crate::layout::{MOST_SLOT_BYTES, UWOP_EPILOG};

/// How many slots of epilogues these begin with.
pub fn leading_epilogues(slots: &[u8]) -> usize
    requires { length slots.now ≤ MOST_SLOT_BYTES }
    ensures value { result ≡ spec.leading slots.now }
    ensures fits { 2 * result ≤ length slots.now }
{
    match slots {
        [_, op, rest @ ..] => {
            if *op % 16 != UWOP_EPILOG {
                return 0;
            }
            1 + leading_epilogues(rest)
        }
        _ => 0,
    }
}
