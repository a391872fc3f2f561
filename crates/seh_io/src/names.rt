//! The names of functions.

ghost use Rattle.std.specs.Prelude.{◌≡◌, ℕ, List, Option, Some, None};
ghost use Rattle.seh_io.specs.Names.{none_named};

/// What has names for the numbers of functions.
pub trait Names {
    ghost named: { Self → ℕ → Option (List ℕ) };

    /// The name of the function of this number, if it has one.
    fn name(&self, number: u32) -> Option<&[u8]>
        ensures { elim result [ Some name ↦ Some name.now | None ↦ None ] ≡ named self.now number };
}

/// No number has a name.
#[derive(Clone, Copy, Debug)]
pub struct NoNames;

impl Names for NoNames {
    ghost named = { none_named };

    fn name(&self, _number: u32) -> Option<&[u8]> {
        None
    }
}
