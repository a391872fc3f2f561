//! Lines that are written out.

ghost use Rattle.command_line.specs.Worked.{CompileAlone, ShowAlone, CheckAlone, CheckOfEach, EachTwice, ExecAlone, ExecWithAll, RunWithTurns, MeaningWithTrace, SelftestOfOne, SelftestOfNone};

/// `compile`; `show`; `check`; `check` of each entry, which isn't asked for twice; `exec`, with
/// 10,000,000 turns, the argument 0 and no trace; `exec` with all options; `run` for 7 turns;
/// `meaning` with a trace; `selftest` of a number, without which it is no line.
pub fn worked_lines()
    ensures compile { CompileAlone }
    ensures show { ShowAlone }
    ensures check { CheckAlone }
    ensures each { CheckOfEach }
    ensures twice { EachTwice }
    ensures exec { ExecAlone }
    ensures options { ExecWithAll }
    ensures run { RunWithTurns }
    ensures meaning { MeaningWithTrace }
    ensures selftest { SelftestOfOne }
    ensures numberless { SelftestOfNone }
{}
