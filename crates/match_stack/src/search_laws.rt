//! What holds of every search.

ghost use Rattle.match_stack.specs.SearchLaws.{SearchIsTheLists, SearchContinues};

/// Where the list of what waits is in the machine's stack, the host's search asks exactly the
/// handlers that linear code comes to, in their order: from the innermost frame on, and from where
/// it was suspended. Nobody takes over where no handler is left. Nested and collided dispatch are
/// cases of this, since the list may have suspended searches and unwindings anywhere.
pub fn laws()
    ensures searched { SearchIsTheLists }
    ensures onward { SearchContinues }
{}
