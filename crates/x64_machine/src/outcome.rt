use seh_num::event::Code;

/// Why a step wasn't made.
#[derive(Clone, Copy, Debug, PartialEq, Eq)]
pub enum Stop {
    /// An exception is due; for a refused access with whether it was a write, and the address.
    Fault {
        code: Code,
        access: Option<(bool, u64)>,
    },
    /// RIP is the address of a service of the host.
    Host {
        address: u64,
    },
    /// No instruction can be run at RIP, which is left as it was.
    Illegal,
    /// The access touched the stack's guard.
    Guard {
        address: u64,
    },
}

/// What a step came to. After anything but `Next`, registers and memory are as before.
#[derive(Clone, Copy, Debug, PartialEq, Eq)]
pub enum StepOutcome {
    /// The instruction was run.
    Next,
    /// An exception is due; for a refused access with whether it was a write, and the address.
    Fault {
        code: Code,
        access: Option<(bool, u64)>,
    },
    /// RIP is the address of a service of the host.
    Host {
        address: u64,
    },
    /// No instruction can be run at RIP, which is left as it was.
    Illegal,
    /// The access touched the stack's guard.
    Guard {
        address: u64,
    },
}
