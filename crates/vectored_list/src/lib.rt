//! The list of vectored handlers: the functions that are asked about each exception before the
//! handlers of frames (Windows headers, `errhandlingapi.h`, `AddVectoredExceptionHandler`). It has
//! at most 16, each once (own). A program names them by the numbers of its functions, and a host by
//! addresses. It takes no memory of the system.
#![tactic(auto)]

ghost use Rattle.std.specs.Prelude.{◌≡◌, [], length, slice_get};
ghost use Rattle.vectored_list.specs.Lists as spec;

pub mod laws;

use arrayvec::ArrayVec;
use std::marker::Model;

/// How many handlers the list has at most (own).
pub const MOST_HANDLERS: u32 = 16;

/// Vectored handlers in the order in which they are asked.
#[derive(Drop)]
pub struct VectoredList {
    items: ArrayVec<u64, 16>,
}

impl Model for VectoredList {
    ghost use Rattle.std.specs.Prelude.{ℕ, List};

    ghost Value = { List ℕ };

    ghost view = { λ l. l.items.items };
}

impl VectoredList {
    /// No handlers.
    pub fn new() -> VectoredList
        ensures { result ≡ [] }
    {
        VectoredList {
            items: ArrayVec::new(),
        }
    }

    /// How many handlers there are.
    pub fn len(&self) -> u64
        ensures { result ≡ length self.now }
    {
        self.items.len() as u64
    }

    /// The handler at a place, counted from 0.
    pub fn get(&self, place: u64) -> Option<u64>
        ensures { result ≡ slice_get self.now place }
    {
        self.items.get(place as usize).copied()
    }

    /// Whether a handler is in the list.
    pub fn contains(&self, handler: u64) -> bool
        ensures { result ≡ spec.is_listed handler self.now }
    {
        let items = self.items.as_slice();
        for other in items {
            if *other == handler {
                return true;
            }
        }
        false
    }

    /// Puts a handler in front of the others, or behind them, and says whether it could: it isn't
    /// there yet, and fewer than 16 are. Where it can't, the list stays as it is.
    pub fn add(&mut self, first: bool, handler: u64) -> bool
        ensures answer { result ≡ spec.can_be_added handler self.old }
        ensures list { self.new ≡ spec.added first handler self.old }
    {
        if self.items.is_full() || self.contains(handler) {
            return false;
        }
        if first {
            self.items.insert(0, handler);
        } else {
            self.items.push(handler);
        }
        true
    }

    /// Takes a handler out, and says whether it was there.
    pub fn remove(&mut self, handler: u64) -> bool
        ensures answer { result ≡ spec.is_listed handler self.old }
        ensures list { self.new ≡ spec.removed handler self.old }
    {
        for place in 0..self.items.len() {
            if self.items[place] == handler {
                self.items.remove(place);
                return true;
            }
        }
        false
    }
}
