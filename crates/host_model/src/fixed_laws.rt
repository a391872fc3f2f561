//! What a turn keeps.

ghost use Rattle.host_model.specs.FixedLaws.{HostsKeepFixed, PlacingKeepsFixed, TurnsKeepFixed};

/// A record that is placed, and a turn that continues, leave protection and byte of each address
/// outside the arena that may not be written.
pub fn fixed()
    ensures placing { PlacingKeepsFixed }
    ensures turns { TurnsKeepFixed }
    ensures hosts { HostsKeepFixed }
{}
