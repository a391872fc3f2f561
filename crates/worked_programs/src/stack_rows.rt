//! Programs with variables on the data stack.

ghost use Rattle.worked_programs.specs.StackRows as shown;

/// Their addresses and steps, and the parts of calls, of which an exception leaves some: each
/// program means this, and shows it by its linear code, in sixteen turns a step.
pub fn rows()
    ensures address_and_array { shown.AddressAndArray }
    ensures zero_first { shown.ZeroFirst }
    ensures elements_are_steps { shown.ElementsAreSteps }
    ensures bytes_are_steps { shown.BytesAreSteps }
    ensures pointer_is_reserved { shown.PointerIsReserved }
    ensures parts_of_calls { shown.PartsOfCalls }
    ensures parts_left_by_exception { shown.PartsLeftByException }
    ensures sound { shown.StackRowsAreSound }
{}
