//! Laws of the images of accepted texts.

ghost use Rattle.image_runs.specs.AcceptedLaws.{AcceptedReadsNoUnset, AcceptedRealise, AcceptedShowNothingMore};

/// No run of the linear code of an accepted text reads a local that hasn't been set; and where that
/// code can be linked, its image realises the text's program, and shows nothing more.
pub fn laws()
    ensures reads { AcceptedReadsNoUnset }
    ensures realise { AcceptedRealise }
    ensures nothing_more { AcceptedShowNothingMore }
{}
