//! Laws of the locals that have been set.

ghost use Rattle.lowering_locals.specs.SetLaws.{SetMapReadsNoUnset};

/// Where it is known at each place which locals have been set, and what is read is among them, no
/// run reads another one.
pub fn set_map_reads_no_unset()
    ensures reads { SetMapReadsNoUnset }
{}
