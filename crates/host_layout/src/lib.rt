//! Where the memory of a run lies, and where its host's services are.
//!
//! Every range and every service of the product is written here, once; the other crates cite it.
//! Begin with `range` and `service`. Proved: each function is its definition, the service at a
//! service's address is that service, and so is the one that images import by its name.
#![tactic(auto)]

pub mod imported;
pub mod limit;
pub mod name;
pub mod range;
pub mod service;
