//! What holds of records.

ghost use Rattle.seh_records.specs.Laws.{MarkSpells, PlacedIsRecord, RecordIsFetched, PlacedIsFetched, PlacedIsFetchedWhereNotRefused, PlacingLeavesOthers, FetchedByItsBytes, StoresLeaveIt};

/// A record that is placed is at its place, and one that is there is fetched, while no store writes
/// its bytes past the home space: so each one that `place` or `rewrite` doesn't refuse is fetched
/// again. Placing leaves all other bytes.
pub fn laws()
    ensures mark { MarkSpells }
    ensures is_there { PlacedIsRecord }
    ensures fetched { RecordIsFetched }
    ensures placed { PlacedIsFetched }
    ensures not_refused { PlacedIsFetchedWhereNotRefused }
    ensures others { PlacingLeavesOthers }
    ensures bytes { FetchedByItsBytes }
    ensures stores { StoresLeaveIt }
{}
