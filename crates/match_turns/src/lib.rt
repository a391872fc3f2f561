//! Steps of linear code that leave their body, each matched by turns of the machine: calls and
//! returns, filters and `__finally` blocks, services, raises, faults, local unwinds, and the
//! answers of filters. Begin reading with `specs/DispatchOutcome`, then the laws of each kind of
//! step.
#![tactic(auto)]

pub mod block_laws;
pub mod call_laws;
pub mod end_laws;
pub mod fault_laws;
pub mod funclet_laws;
pub mod raise_laws;
pub mod service_laws;
pub mod turn_laws;
