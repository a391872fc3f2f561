//! What is known of a frame.

ghost use Rattle.std.specs.Prelude.{◌≡◌, ◌<◌, ℕ, None};
ghost use Rattle.x64_instr.specs.Registers.{number};
ghost use Rattle.frame_known.specs.Knowledge as spec;
ghost use Rattle.known_frames.specs.Views.{registers_of, words_of};

use frame_known::known::Known;
use x64_instr::register::Reg;

/// How many words of the stack can be known at once.
pub const MOST_WORDS: usize = 16;

/// A word of the stack that holds what a register held at the function's first byte. S is the RSP
/// there.
#[derive(Clone, Copy, Debug, PartialEq, Eq)]
pub struct Saved {
    /// How far the word is from S, modulo 2 to the 64.
    pub at: u64,
    /// The register's number.
    pub register: u8,
}

/// What is known of a frame.
#[derive(Clone, Copy, Debug, PartialEq, Eq)]
pub struct Knowledge {
    /// Of each general register, by its number.
    pub registers: [Known; 16],
    /// The words that are known; of two at one place the first one counts.
    pub words: [Option<Saved>; MOST_WORDS],
}

const ENTERED: [Known; 16] = [
    Known::Nothing,
    Known::Nothing,
    Known::Nothing,
    Known::Entry(3),
    Known::Place(0),
    Known::Entry(5),
    Known::Entry(6),
    Known::Entry(7),
    Known::Nothing,
    Known::Nothing,
    Known::Nothing,
    Known::Nothing,
    Known::Entry(12),
    Known::Entry(13),
    Known::Entry(14),
    Known::Entry(15),
];

/// What is known at a function's first byte: RSP, and that each other nonvolatile register is as it
/// is there (Microsoft x64 ABI, "Caller/callee saved registers").
pub fn at_entry() -> Knowledge
    ensures registers { (r : ℕ) → registers_of result.registers r ≡ spec.at_entry.registers r }
    ensures words { (k : ℕ) → words_of result.words k ≡ None }
{
    Knowledge {
        registers: ENTERED,
        words: [None; MOST_WORDS],
    }
}

/// What is known of a register.
pub fn known_of(registers: &[Known; 16], register: Reg) -> Known
    ensures { result ≡ registers_of registers.now (number register) }
{
    registers[register.number() as usize]
}

/// The same registers with one by its number, which is below 16, set.
#[tactic(auto, using(crate::proofs::Entered::set_known))]
pub fn with_known(registers: &[Known; 16], register: u8, known: Known) -> [Known; 16]
    requires { register < 16 }
    ensures { (r : ℕ) → registers_of result r
        ≡ spec.with_known (registers_of registers.now) register known r }
{
    let mut after = *registers;
    after[register as usize] = known;
    after
}
