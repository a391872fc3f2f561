//! Variables on the data stack: which of a function's stand there, and where, and the function with
//! its uses of them as places above the base.
//!
//! `addresses` finds the variables whose addresses are taken, `layout` places them, `placed`
//! rewrites expressions and `placed_statements` statements, and `functions` does all of it. Each
//! equals the definition of its name in `c_resolved` (`specs/Addresses.antt`, `specs/Layout.antt`,
//! `specs/Placed.antt`). Begin with `functions`.
#![tactic(auto)]

pub mod addresses;
pub mod functions;
pub mod layout;
pub mod marked_statements;
pub mod placed;
pub mod placed_statements;
