//! What follows from the definitions.

ghost use Rattle.minidump.specs.Laws.{RecordsAreThere, StreamsAreApart, FirstIsPlace, NextIsPlace};

/// Each record of a list that was found is there. Where a stream lies, or that it is refused, hangs
/// on no byte of another stream. The ranges of a 64-bit memory list are where the
/// sizes of those before them add up to: the first place is one of the list, and so is each next.
pub fn places_follow()
    ensures records { RecordsAreThere }
    ensures apart { StreamsAreApart }
    ensures first { FirstIsPlace }
    ensures next { NextIsPlace }
{}
