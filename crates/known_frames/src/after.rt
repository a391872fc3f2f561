//! What is known after an instruction (Intel manual, volume 2).

ghost use Rattle.std.specs.Prelude.{◌≡◌, ◌⊎◌, ◌<◌, ℕ, None, IfSome, false};
ghost use Rattle.frame_known.specs.Knowledge.{SaysLess};
ghost use Rattle.frame_known.specs.Known as runs;
ghost use Rattle.frame_known.specs.After as spec;
ghost use Rattle.frame_known.specs.Measured as measured;
ghost use Rattle.known_frames.specs.Views.{knowledge_of, registers_of, words_of};

use crate::knowledge::{Knowledge, Saved, known_of};
use crate::registers::registers_after;
use crate::stores::store_of;
use crate::words::{Loss, lose, name};
use frame_known::known::{Known, Store};
use x64_instr::instruction::Instr;
use x64_instr::register::Reg;
use x64_lengths::effects::Effects;

/// The words after a store of so many bytes so far from S.
fn store_at(words: &mut [Option<Saved>], at: u64, size: u64, value: Known)
    requires { 0 < size }
    ensures { (j : ℕ) → (words_of words.new j ≡ None)
        ⊎ (words_of words.new j ≡ spec.with_word (words_of words.old) size at value j) }
{
    lose(Loss::Store { at, size }, words);
    match value {
        Known::Entry(register) => name(words, Saved { at, register }),
        _ => (),
    }
}

/// The words after a store, where there is one.
fn store(words: &mut [Option<Saved>], store: Option<Store>)
    requires { IfSome store (λ s. 0 < s.size) }
    ensures { (j : ℕ) → (words_of words.new j ≡ None)
        ⊎ (words_of words.new j ≡ spec.stored (words_of words.old) store j) }
{
    match store {
        None => (),
        Some(one) => match one.to {
            Known::Place(at) => store_at(words, at, one.size, one.value),
            _ => (),
        },
    }
}

/// Below RSP no word stays.
fn lose_below(words: &mut [Option<Saved>], top: Known)
    ensures { (j : ℕ) → words_of words.new j ≡ spec.from_stack top (words_of words.old) j }
{
    match top {
        Known::Place(at) => lose(Loss::Below(at), words),
        _ => (),
    }
}

/// What is known after an instruction of the machine other than a call; perhaps less, where more
/// than sixteen words would be known.
pub fn after(instr: &Instr, known: &Knowledge) -> Knowledge
    ensures { SaysLess (spec.after instr.now (knowledge_of known.now)) (knowledge_of result) }
{
    let registers = registers_after(instr, known);
    let mut words = known.words;
    store(&mut words, store_of(instr, &known.registers));
    lose_below(&mut words, known_of(&registers, Reg::Rsp));
    Knowledge { registers, words }
}

fn nonvolatile(registers: &[Known; 16]) -> [Known; 16]
    ensures { (r : ℕ) → registers_of result r ≡ runs.kept (registers_of registers.now) r }
{
    let k = registers;
    let lost = Known::Nothing;
    [
        lost, lost, lost, k[3], k[4], k[5], k[6], k[7], lost, lost, lost, lost, k[12], k[13],
        k[14], k[15],
    ]
}

/// What is known after a call whose callee keeps the ABI (Microsoft x64 ABI, "Caller/callee saved
/// registers").
pub fn after_call(known: &Knowledge) -> Knowledge
    ensures { SaysLess (spec.after_call false (knowledge_of known.now)) (knowledge_of result) }
{
    let registers = nonvolatile(&known.registers);
    let mut words = known.words;
    lose_below(&mut words, known_of(&registers, Reg::Rsp));
    Knowledge { registers, words }
}

/// Of registers in a set, bit r for register r, nothing is known.
fn forgotten_by(general: u32, registers: &[Known; 16]) -> [Known; 16]
    ensures { (r : ℕ) → registers_of result r
        ≡ measured.forgotten_by general (registers_of registers.now) r }
{
    let k = registers;
    [
        one(general, 0, k),
        one(general, 1, k),
        one(general, 2, k),
        one(general, 3, k),
        one(general, 4, k),
        one(general, 5, k),
        one(general, 6, k),
        one(general, 7, k),
        one(general, 8, k),
        one(general, 9, k),
        one(general, 10, k),
        one(general, 11, k),
        one(general, 12, k),
        one(general, 13, k),
        one(general, 14, k),
        one(general, 15, k),
    ]
}

fn one(general: u32, register: u8, registers: &[Known; 16]) -> Known
    requires { register < 16 }
    ensures { result ≡ measured.forgotten_by general (registers_of registers.now) register }
{
    if general >> register & 1 == 0 {
        registers[register as usize]
    } else {
        Known::Nothing
    }
}

/// What is known after an instruction other than a call of which the table of all instructions says
/// what it may write.
pub fn after_other(effects: &Effects, known: &Knowledge) -> Knowledge
    ensures { SaysLess (measured.after_other effects.now (knowledge_of known.now))
        (knowledge_of result) }
{
    let registers = forgotten_by(effects.general, &known.registers);
    let mut words = known.words;
    lose_below(&mut words, known_of(&registers, Reg::Rsp));
    Knowledge { registers, words }
}
