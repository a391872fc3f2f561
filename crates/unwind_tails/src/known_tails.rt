//! Whether a trailing part of an epilogue ends that goes on past an entry's end. The pops that were
//! gone over are kept, so that entries before one run of pops don't each go over it.

ghost use Rattle.std.specs.Prelude.{◌≡◌, ◌^◌, true, Contains, IfOk, IfSome};
ghost use Rattle.flat_memory.specs.Memory.{Memory};
ghost use Rattle.unwind_tails.specs.TailEnds.{IsEnded, AreEnded, IsPart};

use crate::fetched::fetched_at;
use std::alloc::{AllocError, Global};
use std::marker::Model;
use x64_memory::space::CodeSpace;

/// So many instructions are gone over at most.
const MOST_INSTRS: u64 = 0x1FFF_FFFF_FFFF_FFFF;

/// What stands at an address where a trailing part goes on.
enum Part {
    /// Nothing that belongs to one.
    Missing,
    /// Its end.
    End,
    /// An instruction that restores a register.
    Restore {
        /// The address of the next one.
        next: u64,
    },
}

fn part_at<S: CodeSpace>(space: &S, at: u64) -> Part
    ensures { IsPart (S.memory space.now) at result }
{
    match fetched_at(space, at) {
        None => Part::Missing,
        Some(item) => match item.is_last(0, false) {
            None => Part::Missing,
            Some(last) => {
                if last {
                    Part::End
                } else {
                    Part::Restore {
                        next: at.wrapping_add(item.size()),
                    }
                }
            }
        },
    }
}

/// The addresses of the instructions that were gone over last, in their order, and whether an
/// instruction that ends an epilogue follows them.
#[derive(Drop)]
pub struct KnownTails {
    places: Vec<u64>,
    ends: bool,
}

impl Model for KnownTails {
    ghost use Rattle.unwind_tails.specs.TailEnds.{TailEnds};

    ghost Value = { TailEnds };

    ghost view = { λ t. record { places = t.places.items; ends = t.ends } };
}

impl KnownTails {
    /// None.
    pub fn new(alloc: Global) -> KnownTails
        ensures { (m : Memory) → AreEnded m result }
    {
        KnownTails {
            places: Vec::new(alloc),
            ends: false,
        }
    }

    /// Whether an address is among them, if they ascend.
    fn has(&self, at: u64) -> bool
        ensures { result ≡ true → Contains self.now.places at }
    {
        match self.places.binary_search(&at) {
            Ok(index) => self.places[index] == at,
            Err(_) => false,
        }
    }

    /// Whether an instruction that ends an epilogue follows them.
    fn ends(&self) -> bool
        ensures { result ≡ self.now.ends }
    {
        self.ends
    }

    /// Whether the part that goes on at an address ends, where that is known after so many
    /// instructions. Refused for want of memory alone.
    pub fn is_ended<S: CodeSpace>(
        &mut self,
        alloc: Global,
        space: &S,
        at: u64,
    ) -> Result<Option<bool>, AllocError>
        requires { AreEnded (S.memory space.now) self.old }
        ensures ended { IfOk result (λ o. IfSome o (IsEnded (2 ^ 62) (S.memory space.now) at)) }
        ensures known { AreEnded (S.memory space.now) self.new }
    {
        let mut places = Vec::new(alloc);
        let mut here = at;
        for _n in 0..MOST_INSTRS {
            if self.has(here) {
                return Ok(Some(self.ends()));
            }
            match part_at(space, here) {
                Part::Missing => {
                    *self = KnownTails {
                        places,
                        ends: false,
                    };
                    return Ok(Some(false));
                }
                Part::End => {
                    places.push(here)?;
                    *self = KnownTails { places, ends: true };
                    return Ok(Some(true));
                }
                Part::Restore { next } => {
                    places.push(here)?;
                    here = next;
                }
            }
        }
        Ok(None)
    }
}
