use crate::slot::Slot;
use c_operations::built_in::BuiltIn;
use c_operations::field::Field;
use c_operations::operation::Operation;

/// An instruction of linear code. Labels are numbers of instructions in the same body, from 0 on.
#[derive(Clone, Copy)]
pub enum Instruction {
    /// Two slots are read, and what the operation makes of them goes to a slot. A constant reads
    /// none.
    Compute {
        to: Slot,
        operation: Operation,
        first: Slot,
        second: Slot,
    },
    /// The field of the exception that the running filter is asked about goes to a slot.
    Information {
        to: Slot,
        field: Field,
    },
    Jump {
        label: u64,
    },
    /// A jump where the slot holds 0.
    JumpIfZero {
        slot: Slot,
        label: u64,
    },
    /// A call of a function by its number. Its arguments are so many temporaries from `first` on,
    /// and its result goes to the temporary `first`.
    Call {
        function: u64,
        first: u64,
        count: u64,
    },
    /// The same for a built-in function, with as many arguments as it takes.
    CallBuiltIn {
        function: BuiltIn,
        first: u64,
    },
    /// A call of the funclet of this number, a `__finally` block, at the normal end of its body.
    CallFinally {
        funclet: u64,
    },
    /// A jump out of a body with `__finally` blocks, which are run first: a local unwind to a
    /// label.
    LocalUnwind {
        label: u64,
    },
    /// The beginning of an `__except` block: the code of the exception that it takes over goes to a
    /// slot.
    Landing {
        to: Slot,
    },
    /// Nothing, between a call and a place where a region begins or ends. No temporary is used
    /// after it.
    Separator,
    /// The body is left: a function and a filter answer what the slot holds.
    Return {
        from: Slot,
    },
}
