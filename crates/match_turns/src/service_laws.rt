//! Laws of steps that read a filter's exception, and of calls of the services that raise nothing.

ghost use Rattle.match_turns.specs.ServiceLaws.{InformationIsMatched, PutsAreMatched, ProtectsAreMatched, WalksAreMatched, AddsAreMatched, RemovesAreMatched};

/// Where the machine represents a configuration of linear code, a filter reads what linear code
/// reads of its exception; `put` shows what linear code shows, `protect` sets the same rights,
/// `walk` shows the functions that linear code has live, and the host's list of vectored handlers
/// changes as that of linear code.
pub fn laws()
    ensures information { InformationIsMatched }
    ensures puts { PutsAreMatched }
    ensures protects { ProtectsAreMatched }
    ensures walks { WalksAreMatched }
    ensures adds { AddsAreMatched }
    ensures removes { RemovesAreMatched }
{}
