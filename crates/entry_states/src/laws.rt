//! What leads to states of which frames are promised.

ghost use Rattle.entry_states.specs.Laws.{PartsBegin, PartsContinue, EntriesBegin, FragmentsBegin};
ghost use Rattle.entry_states.specs.Worked.{StandRows, StateRows};

/// After the prologue of a function that keeps the rules there is a state of its body, over all its
/// parts; and an instruction of a part leads from one to another. So there is a state of each entry
/// in the body, of one that is chained to another too.
pub fn states()
    ensures begin { PartsBegin }
    ensures continue_ { PartsContinue }
    ensures entries { EntriesBegin }
    ensures fragments { FragmentsBegin }
{}

/// States of an entry by hand: in its prologue, in its body and in its epilogue.
pub fn rows()
    ensures stand { StandRows }
    ensures states { StateRows }
{}
