//! Instructions as the processor fetches them.

ghost use Rattle.std.specs.Prelude.{◌≡◌};
ghost use Rattle.virtual_unwind.specs.Tail as spec;
ghost use Rattle.unwind_tails.specs.Tails.{is_last};

use seh_num::size::LONGEST_INSTRUCTION;
use std::marker::Model;
use virtual_unwind::tail::{Role, is_plain, role_of};
use x64_instr::decoding::decode;
use x64_instr::instruction::Instr;
use x64_memory::space::CodeSpace;

/// An instruction, how many bytes it has, and whether its spelling is one that the end of an
/// epilogue may have.
#[derive(Drop)]
pub struct FetchedInstr {
    instr: Instr,
    size: u64,
    plain: bool,
}

impl Model for FetchedInstr {
    ghost use Rattle.virtual_unwind.specs.Tail as tails;

    ghost Value = { tails.FetchedInstr };

    ghost view = { λ x. record { instr = x.instr; size = x.size; plain = x.plain } };
}

impl FetchedInstr {
    /// The instruction.
    pub fn instr(&self) -> &Instr
        ensures { result.now ≡ self.now.instr }
    {
        &self.instr
    }

    /// How many bytes it has.
    pub fn size(&self) -> u64
        ensures { result ≡ self.now.size }
    {
        self.size
    }

    /// Whether it ends an epilogue, of which it is the `first` instruction or a later one; none
    /// where it can't be that (Microsoft x64 ABI, "Prolog and epilog"). `register` is the number of
    /// the frame register, 0 where there is none.
    pub fn is_last(&self, register: u8, first: bool) -> Option<bool>
        ensures { result ≡ is_last register first self.now }
    {
        match role_of(register, self.plain, &self.instr) {
            Role::Opens => { if first { Some(false) } else { None } }
            Role::Restores => Some(false),
            Role::Ends => Some(true),
            Role::Other => None,
        }
    }
}

/// The instruction at an address, if one that the decoder knows stands there in executable bytes
/// (Intel manual, volume 2, "Instruction Format").
#[tactic(auto, unfolding(virtual_unwind::specs::Tail::fetched_at))]
pub fn fetched_at<S: CodeSpace>(space: &S, at: u64) -> Option<FetchedInstr>
    ensures { result ≡ spec.fetched_at (S.memory space.now) at }
{
    let mut bytes = [0; LONGEST_INSTRUCTION];
    let count = space.fetch(at, &mut bytes);
    let fetched = &bytes[..count];
    match decode(fetched) {
        None => None,
        Some((instr, len)) => {
            let plain = is_plain(fetched, len, &instr);
            Some(FetchedInstr {
                instr,
                size: len as u64,
                plain,
            })
        }
    }
}
