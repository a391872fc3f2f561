//! Laws of the configuration that linear code is in, and of the actual one, which a machine shows.

ghost use Rattle.lowering_locals.specs.Agreement.{AgreementContinues, AgreementAtCall, AgreementAtBeginning, AgreementAtStart, AgreeingAreSmall};

/// What the actual one does, linear code does, where no run reads a local that hasn't been set.
pub fn agreement_continues()
    ensures agreement { AgreementContinues }
{}

/// After a call the actual one may have any numbers of 64 bits in the locals after the arguments.
pub fn agreement_at_call()
    ensures agreement { AgreementAtCall }
{}

/// So may it where any turn begins a function, as one does that asks a vectored handler.
pub fn agreement_at_beginning()
    ensures agreement { AgreementAtBeginning }
{}

/// So may the actual configuration at the start.
pub fn agreement_at_start()
    ensures agreement { AgreementAtStart }
{}

/// Every number of an actual configuration is one of 64 bits.
pub fn agreeing_are_small()
    ensures small { AgreeingAreSmall }
{}
