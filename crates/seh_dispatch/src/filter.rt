//! Where funclets may begin, by the remainders of their addresses.

ghost use Rattle.std.specs.Prelude.{◌≡◌, IfOk, length};
ghost use Rattle.seh_dispatch.specs.declared.filter.TheConstants.{REMAINDERS};
ghost use Rattle.seh_dispatch.specs.Marks.{AreMarked};

use host_model::funclet::Funclet;
use std::alloc::{AllocError, Global};

/// How many remainders of addresses are told apart.
pub const REMAINDERS: usize = 65536;

/// Which remainders the addresses of funclets have. Most addresses have none of these, and then no
/// funclet has to be looked for.
#[derive(Drop)]
pub struct FuncletFilter {
    pub(crate) marks: Vec<bool>,
    ghost size: { length marks.items ≡ REMAINDERS },
}

/// So many marks that aren't set.
fn unset(alloc: Global, count: usize) -> Result<Vec<bool>, AllocError>
    ensures { IfOk result (λ v. length v.items ≡ count) }
{
    vec![in alloc; false; count]
}

/// Sets the marks of the funclets.
fn mark(marks: &mut Vec<bool>, funclets: &[Funclet])
    requires { length marks.old.items ≡ REMAINDERS }
    ensures size { length marks.new.items ≡ REMAINDERS }
    ensures marked { AreMarked marks.new.items funclets.now }
{
    for funclet in funclets {
        marks[funclet.address as usize % REMAINDERS] = true;
    }
}

impl FuncletFilter {
    ghost use Rattle.std.specs.Prelude.{◌≢◌, ◌<◌, ℕ, false, List, slice_index_or};
    ghost use Rattle.host_model.specs.declared.funclet.Funclet.{Funclet as Funclet'};
    ghost use Rattle.seh_dispatch.specs.Filters.{Admits};

    /// The filter of some funclets. It alone takes memory of the system.
    pub fn new(alloc: Global, funclets: &[Funclet]) -> Result<FuncletFilter, AllocError>
        ensures { IfOk result (λ f. Admits f funclets.now) }
    {
        let mut marks = unset(alloc, REMAINDERS)?;
        mark(&mut marks, funclets);
        Ok(FuncletFilter { marks })
    }

    /// Whether one of the funclets may begin at an address relative to the image base. False says
    /// that none does.
    pub fn may_begin(&self, address: u64) -> bool
        ensures { (fs : List Funclet') (k : ℕ) (d : Funclet') → Admits self.now fs
            → result ≡ false → k < length fs → address ≢ (slice_index_or fs k d).address }
    {
        self.marks[(address % REMAINDERS as u64) as usize]
    }
}
