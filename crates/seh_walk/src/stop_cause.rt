use seh_num::end::Reason;

/// What stops a walk: a reason, and the address that it names.
#[derive(Clone, Copy, Debug, PartialEq, Eq)]
pub struct StopCause {
    /// Why there is no next frame.
    pub reason: Reason,
    /// The address that the reason speaks of.
    pub address: u64,
}
