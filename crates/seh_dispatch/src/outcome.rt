ghost use Rattle.std.specs.Prelude.{◌≡◌};
ghost use Rattle.seh_dispatch.specs.Outcomes as spec;

use seh_num::end::RunEnd;
use seh_num::event::Event;

/// What a part of a turn comes to.
#[derive(Clone, Copy, Debug, PartialEq, Eq)]
pub enum TurnOutcome {
    /// The run continues, and this is shown.
    Continues(Option<Event>),
    /// The run has ended.
    Ends(RunEnd),
}

/// What is shown first, and what follows.
#[derive(Clone, Copy, Debug, PartialEq, Eq)]
pub struct Led {
    /// The exception that is raised, where one is.
    pub first: Option<Event>,
    /// What the part of the turn comes to.
    pub outcome: TurnOutcome,
}

/// A turn: what is shown first, and what follows.
#[derive(Clone, Copy, Debug, PartialEq, Eq)]
pub struct Made {
    /// The answer of a filter, where one has returned.
    pub first: Option<Event>,
    /// What follows it.
    pub rest: Led,
}

/// What a turn comes to.
#[derive(Clone, Copy, Debug, PartialEq, Eq)]
pub enum TurnMade {
    /// What is shown is known already.
    Told(Made),
    /// A walk from the processor's state is printed.
    Walks,
}

/// Nothing is shown first.
pub fn silent(outcome: TurnOutcome) -> Led
    ensures { result ≡ spec.silent outcome }
{
    Led {
        first: None,
        outcome,
    }
}

/// Nothing is shown first.
pub fn all_silent(outcome: TurnOutcome) -> Made
    ensures { result ≡ spec.all_silent outcome }
{
    Made {
        first: None,
        rest: silent(outcome),
    }
}

/// Nothing is shown but what the outcome shows.
pub fn all_told(outcome: TurnOutcome) -> TurnMade
    ensures { result ≡ spec.all_told outcome }
{
    TurnMade::Told(all_silent(outcome))
}
