//! Words of the stack that are known.

ghost use Rattle.std.specs.Prelude.{◌≡◌, ◌⊎◌, ℕ, Some, None, if◌then◌else◌};
ghost use Rattle.frame_known.specs.After as spec;
ghost use Rattle.known_frames.specs.Views as views;
ghost use Rattle.known_frames.specs.Views.{knowledge_of, words_of, loses};

use crate::knowledge::{Knowledge, Saved};
use frame_known::known::Known;

/// What takes words away.
#[derive(Clone, Copy, Debug, PartialEq, Eq)]
pub enum Loss {
    /// A store of so many bytes so far from S.
    Store { at: u64, size: u64 },
    /// RSP so far from S: what is below may change at any time.
    Below(u64),
}

/// The register whose value at the entry the word so far from S holds, where that is known.
pub fn word(words: &[Option<Saved>], at: u64) -> Option<u8>
    ensures { result ≡ words_of words.now at }
{
    match words {
        [] => None,
        [first, rest @ ..] => match first {
            Some(saved) if saved.at == at => Some(saved.register),
            _ => word(rest, at),
        },
    }
}

/// What is known of the word at a place.
pub fn word_at(known: &Knowledge, at: Known) -> Known
    ensures { result ≡ spec.word_at (knowledge_of known.now) at }
{
    match at {
        Known::Place(k) => match word(&known.words, k) {
            Some(register) => Known::Entry(register),
            None => Known::Nothing,
        },
        _ => Known::Nothing,
    }
}

/// Whether so many bytes at one distance from S have one in common with the word at another.
pub fn meet(size: u64, k: u64, j: u64) -> bool
    ensures { result ≡ spec.meet size k j }
{
    let distance = j.wrapping_sub(k);
    distance < size || 0xFFFF_FFFF_FFFF_FFF8 < distance
}

/// Whether the word so far from S is taken away.
fn is_lost(loss: Loss, at: u64) -> bool
    ensures { result ≡ loses loss at }
{
    match loss {
        Loss::Store { at: to, size } => meet(size, to, at),
        Loss::Below(top) => 0x8000_0000_0000_0000 <= at.wrapping_sub(top),
    }
}

fn left(loss: Loss, saved: Option<Saved>) -> Option<Saved>
    ensures { result ≡ views.left loss saved }
{
    match saved {
        Some(one) => { if is_lost(loss, one.at) { None } else { saved } }
        None => None,
    }
}

/// Takes words away.
pub fn lose(loss: Loss, words: &mut [Option<Saved>])
    ensures { (j : ℕ) → words_of words.new j
        ≡ (if loses loss j then None else words_of words.old j) }
{
    for one in words.iter_mut() {
        *one = left(loss, *one);
    }
}

/// Names a word, where there is room. That it is named isn't said, only that nothing else is.
#[tactic(auto, using(crate::proofs::NamedWords::named))]
pub fn name(words: &mut [Option<Saved>], saved: Saved)
    ensures { (j : ℕ) → (words_of words.new j ≡ words_of words.old j)
        ⊎ ((j ≡ saved.at) × (words_of words.new j ≡ Some saved.register)) }
{
    for k in 0..words.len() {
        if words[k].is_none() {
            words[k] = Some(saved);
            return;
        }
    }
}
