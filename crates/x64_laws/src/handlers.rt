//! The list of vectored handlers.

ghost use Rattle.x64_laws.specs.Handlers as spec;

/// No instruction reads or writes the list of vectored handlers, which the host keeps in the state:
/// with another list a step does the same, and each step leaves the list as it is.
pub fn handlers()
    ensures unread { spec.StepReadsNoHandlers }
    ensures kept { spec.StepKeepsHandlers }
{}
