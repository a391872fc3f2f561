//! Less knowledge.

ghost use Rattle.std.specs.Prelude.{◌≡◌, ◌⊎◌, ℕ, true, None, Some};
ghost use Rattle.frame_known.specs.declared.known.Known.TheVariants.{Nothing};
ghost use Rattle.frame_known.specs.Knowledge.{SaysLess};
ghost use Rattle.known_frames.specs.Views.{knowledge_of, registers_of, words_of};

use crate::knowledge::{Knowledge, Saved};
use crate::words::word;
use frame_known::known::Known;

/// Whether of each register the same or nothing is known.
fn registers_say_less(known: &[Known], less: &[Known]) -> bool
    ensures { result ≡ true → (r : ℕ) → (registers_of less.now r ≡ Nothing)
        ⊎ (registers_of less.now r ≡ registers_of known.now r) }
{
    match less {
        [] => true,
        [first, rest @ ..] => match known {
            [] => false,
            [whole, others @ ..] => {
                (*first == Known::Nothing || *first == *whole) && registers_say_less(others, rest)
            }
        },
    }
}

fn is_among(words: &[Option<Saved>], saved: Saved) -> bool
    ensures { result ≡ true → words_of words.now saved.at ≡ Some saved.register }
{
    match word(words, saved.at) {
        Some(register) => register == saved.register,
        None => false,
    }
}

/// Whether each word is among the known ones.
fn words_say_less(known: &[Option<Saved>], less: &[Option<Saved>]) -> bool
    ensures { result ≡ true → (k : ℕ) → (words_of less.now k ≡ None)
        ⊎ (words_of less.now k ≡ words_of known.now k) }
{
    match less {
        [] => true,
        [first, rest @ ..] => match first {
            None => words_say_less(known, rest),
            Some(saved) => is_among(known, *saved) && words_say_less(known, rest),
        },
    }
}

/// Whether one says no more than another, of each register and each word; only a yes is exact.
pub fn says_less(known: &Knowledge, less: &Knowledge) -> bool
    ensures { result ≡ true → SaysLess (knowledge_of known.now) (knowledge_of less.now) }
{
    registers_say_less(&known.registers, &less.registers)
        && words_say_less(&known.words, &less.words)
}
