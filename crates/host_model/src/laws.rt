//! What holds of every run.

ghost use Rattle.host_model.specs.Laws.{
  CoveringIsTransitive,
  EndsStay,
  ImagesCover,
  MoreTurnsCover,
  RunsAreTurns,
  RunsShowWhatWasShown,
  TurnsSplit,
};

/// A run shows what was shown before it. With more turns it shows at least as much, and an end
/// stays with its events. It shows what its turns show one after another, and its end is that of
/// the host that they leave; a later run continues from that host. A host that has ended stays so,
/// and shows nothing.
pub fn runs()
    ensures before { RunsShowWhatWasShown }
    ensures more { MoreTurnsCover }
    ensures images { ImagesCover }
    ensures transitive { CoveringIsTransitive }
    ensures turns { RunsAreTurns }
    ensures later { TurnsSplit }
    ensures ends { EndsStay }
{}
