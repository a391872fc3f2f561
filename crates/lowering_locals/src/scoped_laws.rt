//! Laws of the linear code of programs that name each local where it is declared.

ghost use Rattle.lowering_locals.specs.ScopedLaws.{ScopedHasSetMap, ScopedReadsNoUnset};

/// At each place of the linear code it is known which locals have been set: those that are declared
/// there, and the code and the flags of the blocks around.
pub fn scoped_has_set_map()
    ensures recorded { ScopedHasSetMap }
{}

/// No run reads a local that hasn't been set.
pub fn scoped_reads_no_unset()
    ensures reads { ScopedReadsNoUnset }
{}
