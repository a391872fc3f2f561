//! What holds of every step of the machine.

ghost use Rattle.source_machine.specs.StepLaws.{KeepsMeaning, Decreases, Extends, ShowsBefore};

/// A step keeps what the machine comes to, brings it nearer to its end, and shows more or the same.
/// What was shown is the front of all that the machine shows.
pub fn law()
    ensures keeps_meaning { KeepsMeaning }
    ensures decreases { Decreases }
    ensures extends { Extends }
    ensures shows_before { ShowsBefore }
{}
