//! The functions of the live activations.

ghost use Rattle.std.specs.Prelude.{◌≡◌, ◌<◌, ◌+◌, ◌-◌, ◌^◌, ◌++◌, [], ◌∷◌, length, take, OnOk};
ghost use Rattle.seh_num.specs.declared.event.Event.TheVariants as events;

use c_checked::checked::Checked;
use seh_num::event::Event;
use std::alloc::{AllocError, Global};

/// The number of a function of a program, from 0, in the order of their definitions.
#[derive(Clone, Copy)]
pub struct FunctionNumber {
    /// The number.
    pub value: u32,
    /// Walks show it from 1.
    pub ghost few: { value < 2 ^ 32 - 1 },
}

impl FunctionNumber {
    /// The number of a function that a program has.
    pub fn new(program: &Checked, number: u64) -> FunctionNumber
        requires { number < length program.now.functions.items }
        ensures { result.value ≡ number }
    {
        FunctionNumber {
            value: number as u32,
        }
    }

    /// What a walk shows of an activation of this function.
    pub fn shown(self) -> Event
        ensures { result ≡ events.At (self.value + 1) }
    {
        Event::At(self.value + 1)
    }
}

/// The function of each live activation, the outermost first.
#[derive(Drop)]
pub struct LiveFunctions {
    /// Their numbers.
    pub numbers: Vec<FunctionNumber>,
}

impl LiveFunctions {
    ghost use Rattle.source_steps.specs.Functions.{numbers_of};

    /// None.
    pub fn new(alloc: Global) -> LiveFunctions
        ensures { numbers_of result ≡ [] }
    {
        LiveFunctions {
            numbers: Vec::new(alloc),
        }
    }

    /// One more.
    pub fn push(&mut self, function: FunctionNumber) -> Result<(), AllocError>
        ensures { OnOk result (numbers_of self.new ≡ numbers_of self.old ++ function.value ∷ []) }
    {
        self.numbers.push(function)?;
        Ok(())
    }

    /// Only the outermost so many.
    pub fn truncate(&mut self, count: usize)
        ensures { numbers_of self.new ≡ take count (numbers_of self.old) }
    {
        self.numbers.truncate(count);
    }
}
