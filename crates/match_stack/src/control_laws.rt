//! What the control addresses of a stack tell.

ghost use Rattle.match_stack.specs.ControlAddresses.{ControlsAreOfTheList, ControlAddressesAreOfFunctions};

/// A walk over a stack comes to the control address of each of its frames, innermost first, and
/// nothing stops it. Where the stack has the list of what waits, these addresses have the numbers
/// of the functions that wait, wherever the code of each function has its number, and that of a
/// funclet none.
pub fn laws()
    ensures walk { ControlsAreOfTheList }
    ensures functions { ControlAddressesAreOfFunctions }
{}
