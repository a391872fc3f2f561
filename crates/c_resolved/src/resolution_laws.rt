//! Laws, and worked expressions.

ghost use Rattle.c_resolved.specs.ResolutionLaws.{AcceptedIsSound, LeastIsReported};
ghost use Rattle.c_resolved.specs.Rows.{CharAndInt, PointerAndIndex, PointerAndZero, Changes, Calls, Handlers, AddressOfLocal, Faults};

/// Types, conversions and scaling of small expressions, and the places of faults in others.
pub fn rows()
    ensures char_and_int { CharAndInt }
    ensures pointer_and_index { PointerAndIndex }
    ensures pointer_and_zero { PointerAndZero }
    ensures changes { Changes }
    ensures calls { Calls }
    ensures handlers { Handlers }
    ensures address_of_local { AddressOfLocal }
    ensures faults { Faults }
{}

/// What an accepted text within the limits is resolved to is sound: numbers name what is there,
/// each operand has the size that its operator takes, jumps reach what they leave, and filters and
/// `__finally` blocks are numbered in their order.
pub fn accepted_is_sound()
    ensures is_sound { AcceptedIsSound }
{}

/// A fault is reported where there is one: the least by place, and at one place that of the
/// earliest rule.
pub fn least_is_reported()
    ensures least { LeastIsReported }
{}
