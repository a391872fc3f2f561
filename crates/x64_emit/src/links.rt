//! Where everything is that code refers to.

ghost use Rattle.std.specs.Prelude.{◌≡◌, ◌<◌, ◌^◌};
ghost use Rattle.c_operations.specs.declared.built_in.BuiltIn as built_ins;
ghost use Rattle.x64_emit.specs.Near.{IsNear, AreNear};
ghost use Rattle.x64_emit.specs.Linking as spec;

use c_operations::built_in::BuiltIn;
use std::marker::Model;

/// Where stubs are that call a service on a function, one for each function, relative to the image
/// base.
#[derive(Clone, Copy, Debug, PartialEq, Eq)]
pub struct Stubs {
    /// The stub of the first function.
    pub first: u32,
    /// How far apart they are.
    pub step: u32,
    /// How many functions have one.
    pub count: u32,
}

/// Stubs of a program that has none.
pub const NO_STUBS: Stubs = Stubs {
    first: 0,
    step: 0,
    count: 0,
};

/// Where the thunks are through which services are called, relative to the image base.
#[derive(Clone, Copy, Debug, PartialEq, Eq)]
pub struct Thunks {
    /// The thunk of `put`.
    pub put: u32,
    /// The thunk of `protect`.
    pub protect: u32,
    /// The thunk of `RaiseException`.
    pub raise_exception: u32,
    /// The thunk of `_local_unwind`.
    pub local_unwind: u32,
    /// The thunk of `walk`, in a program that imports it.
    pub walk: u32,
    /// The stubs that add a function to the vectored handlers, in a program that imports that.
    pub adding: Stubs,
    /// The stubs that take one out, in a program that imports that.
    pub removing: Stubs,
}

/// Thunks of a program that has none.
pub const NO_THUNKS: Thunks = Thunks {
    put: 0,
    protect: 0,
    raise_exception: 0,
    local_unwind: 0,
    walk: 0,
    adding: NO_STUBS,
    removing: NO_STUBS,
};

/// Where everything is that the code of a body refers to, relative to the image base.
#[derive(Drop)]
pub struct Links<'a> {
    labels: &'a [u32],
    end: u32,
    functions: &'a [u32],
    funclets: &'a [u32],
    thunks: Thunks,
}

impl<'a> Model for Links<'a> {
    ghost use Rattle.x64_emit.specs.Linking.{Addresses, AreAddressesNear};

    ghost Value = { Addresses };

    ghost view = { λ l. record {
      labels = l.labels.now;
      end = l.end;
      functions = l.functions.now;
      funclets = l.funclets.now;
      thunks = l.thunks;
    } };

    ghost invariant = { λ l. AreAddressesNear (record {
      labels = l.labels.now;
      end = l.end;
      functions = l.functions.now;
      funclets = l.funclets.now;
      thunks = l.thunks;
    }) };
}

/// The address of an index, or another one where there is none.
fn address_or(addresses: &[u32], index: u64, other: u32) -> u64
    requires all { AreNear addresses.now }
    requires other { IsNear other }
    ensures value { result ≡ spec.address_or addresses.now index other }
    ensures near { IsNear result }
{
    match addresses.get(index as usize) {
        Some(address) => u64::from(*address),
        None => u64::from(other),
    }
}

/// The stub of the function of an index, or 0 where there is none.
fn stub_of(stubs: Stubs, function: u64) -> u64
    requires { spec.AreStubsNear stubs }
    ensures value { result ≡ spec.stub_of stubs function }
    ensures near { IsNear result }
{
    if function < u64::from(stubs.count) {
        u64::from(stubs.first) + u64::from(stubs.step) * function
    } else {
        0
    }
}

impl<'a> Links<'a> {
    /// A body whose instructions begin at `labels` and which ends at `end`, in a program of these
    /// functions, funclets and thunks.
    pub fn new(
        labels: &'a [u32],
        end: u32,
        functions: &'a [u32],
        funclets: &'a [u32],
        thunks: Thunks,
    ) -> Links<'a>
        requires { spec.AreAddressesNear (record {
          labels = labels.now;
          end = end;
          functions = functions.now;
          funclets = funclets.now;
          thunks = thunks;
        }) }
        ensures { result ≡ record {
          labels = labels.now;
          end = end;
          functions = functions.now;
          funclets = funclets.now;
          thunks = thunks;
        } }
    {
        Links {
            labels,
            end,
            functions,
            funclets,
            thunks,
        }
    }

    /// Where an instruction of the body begins. A number past the last one is the body's end.
    pub fn label(&self, number: u64) -> u64
        ensures value { result ≡ (spec.links_of self.now).label number }
        ensures near { IsNear result }
    {
        address_or(self.labels, number, self.end)
    }

    /// Where a function begins.
    pub fn function(&self, index: u64) -> u64
        ensures value { result ≡ (spec.links_of self.now).function index }
        ensures near { IsNear result }
    {
        address_or(self.functions, index, 0)
    }

    /// Where a filter or a `__finally` block begins.
    pub fn funclet(&self, index: u64) -> u64
        ensures value { result ≡ (spec.links_of self.now).funclet index }
        ensures near { IsNear result }
    {
        address_or(self.funclets, index, 0)
    }

    /// The thunk of what is called by name, or the stub of a service on a function.
    pub fn built_in(&self, function: BuiltIn) -> u64
        ensures value { result ≡ (spec.links_of self.now).known function }
        ensures near { IsNear result }
    {
        match function {
            BuiltIn::Put => u64::from(self.thunks.put),
            BuiltIn::Protect => u64::from(self.thunks.protect),
            BuiltIn::RaiseException => u64::from(self.thunks.raise_exception),
            BuiltIn::Walk => u64::from(self.thunks.walk),
            BuiltIn::AddVectored(function) => stub_of(self.thunks.adding, function),
            BuiltIn::RemoveVectored(function) => stub_of(self.thunks.removing, function),
        }
    }

    /// The thunk of `_local_unwind`.
    pub fn local_unwind(&self) -> u64
        ensures value { result ≡ (spec.links_of self.now).local_unwind }
        ensures near { IsNear result }
    {
        u64::from(self.thunks.local_unwind)
    }
}
