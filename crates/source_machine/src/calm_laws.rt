//! What holds of every program, and which of some programs are Tame and Plain.

ghost use Rattle.source_machine.specs.CalmLaws.{TameIsCalm, EndedIsTame, PlainBefore, OneRun, ComesToEnd, RaisesShow};
ghost use Rattle.source_machine.specs.CalmRows.{TameRows, PlainRows, RaisesInFilters, RaisesInVectored, RaisesInFinallys, FlagOneAtReturn, FlagZeroAtEnd, FlagZeroAtLeave};

/// A Tame program is calm within each number of steps, and one that ended calmly is Tame. A run
/// that is Plain within more steps is so within fewer. The machine's run, of which Plain speaks,
/// comes to what the program means, ends, and shows each raise.
pub fn laws()
    ensures tame_is_calm { TameIsCalm }
    ensures ended_is_tame { EndedIsTame }
    ensures plain_before { PlainBefore }
    ensures one_run { OneRun }
    ensures comes_to_end { ComesToEnd }
    ensures raises_show { RaisesShow }
{}

/// A raise in a filter isn't Plain, and neither is one in a vectored handler, or in a `__finally`
/// block that runs with flag 1; one that runs with flag 0 may raise.
pub fn rows()
    ensures tame { TameRows }
    ensures plain { PlainRows }
    ensures raises_in_filters { RaisesInFilters }
    ensures raises_in_vectored { RaisesInVectored }
    ensures raises_in_finallys { RaisesInFinallys }
    ensures flag_one_at_return { FlagOneAtReturn }
    ensures flag_zero_at_end { FlagZeroAtEnd }
    ensures flag_zero_at_leave { FlagZeroAtLeave }
{}
