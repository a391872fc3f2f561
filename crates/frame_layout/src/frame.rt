//! The layout of a frame.

ghost use Rattle.std.specs.Prelude.{◌≡◌, ◌≤◌, ◌+◌, ◌-◌, ◌*◌, ℕ, min, true};
ghost use Rattle.seh_num.specs.declared.width.Width.{Width};
ghost use Rattle.x64_encode.specs.Chosen.{is_signed};
ghost use Rattle.frame_rules.specs.Plan.{IsPlan, frame_size};
ghost use Rattle.frame_layout.specs.Layout as spec;
ghost use Rattle.frame_layout.specs.Plans.{plan_of};

use template_code::layout::{FRAME_BY_WEIGHT, MOST_WEIGHT};

/// The bytes of a word of the stack.
const WORD: u64 = 8;

/// The words of the home space for the four arguments in registers of whatever is called.
const HOME_WORDS: u64 = 4;

/// How many registers are pushed: RBX, RSI and RDI.
const MOST_PUSHED: u64 = 3;

/// The least fixed allocation of a frame with a frame register, in bytes (own).
pub const LEAST_FRAMED: u64 = 256;

/// What a routine needs of its frame, in words of eight bytes.
#[derive(Clone, Copy, Debug, PartialEq, Eq)]
pub struct Facts {
    /// The fifth and further arguments of the calls that it makes.
    pub passed: u64,
    /// What it keeps of how it was called.
    pub kept: u64,
    /// The results of its instructions.
    pub temporaries: u64,
    /// Its parameters and other local variables.
    pub locals: u64,
    /// How many nonvolatile registers it writes, in the order RBX, RSI, RDI, R12 to R15.
    pub registers: u64,
    /// Whether it has a frame register where its fixed allocation is large.
    pub frame_register: bool,
    /// What it weighs, from 1 on: how much an activation of it counts in the depth.
    pub weight: u64,
}

/// A frame. From RSP up it has the home space of what is called, further arguments of calls, what
/// is kept, the temporaries, the locals, the registers that are saved by MOV, and where RSP
/// wouldn't be a multiple of 16 at a call, one word more. This fixed allocation is below the
/// registers that are pushed, and these below the return address. Distances are from RSP, in bytes.
#[derive(Clone, Copy, Debug, PartialEq, Eq)]
pub struct FrameLayout {
    /// Where what is kept begins.
    pub kept: u64,
    /// Where the temporaries begin.
    pub temporaries: u64,
    /// Where the locals begin.
    pub locals: u64,
    /// Where the slots end, and the registers begin that are saved by MOV.
    pub slots: u64,
    /// How many of R12 to R15 are saved by MOV.
    pub saves: u64,
    /// How many of RBX, RSI and RDI are pushed.
    pub pushes: u64,
    /// Whether RBP is pushed too, and is the frame register.
    pub framed: bool,
    /// The bytes of the fixed allocation.
    pub size: u64,
    /// Where the return address is.
    pub depth: u64,
}

/// So many words, or one more, so that with so many pushes and the return address they are a
/// multiple of 16 bytes.
fn padded(words: u64, pushes: u64) -> u64
    requires words { words ≤ FRAME_BY_WEIGHT * MOST_WEIGHT }
    requires pushes { pushes ≤ 4 }
    ensures { result ≡ spec.padded words pushes }
{
    WORD * (words + (words + pushes + 1) % 2)
}

/// How many registers are pushed of those that a routine writes.
fn pushed_count(registers: u64) -> u64
    ensures { result ≡ min registers 3 }
{
    if registers < MOST_PUSHED {
        registers
    } else {
        MOST_PUSHED
    }
}

/// How many words the frame register takes that is pushed.
pub(crate) fn frame_pushes(framed: bool) -> u64
    ensures { result ≡ spec.frame_pushes framed }
{
    if framed { 1 } else { 0 }
}

/// How many of them are saved by MOV.
fn saved_count(registers: u64) -> u64
    ensures { result ≡ registers - 3 }
{
    if registers < MOST_PUSHED {
        0
    } else {
        registers - MOST_PUSHED
    }
}

/// The fixed allocation of a frame of these words with a frame register, or without.
fn size(facts: &Facts, words: u64, pushes: u64, framed: bool) -> u64
    requires fits { spec.FitsFrame facts.now }
    requires words { words ≡ spec.words facts.now }
    requires pushes { pushes ≡ spec.pushed_count facts.now }
    ensures { result ≡ spec.size_if facts.now framed }
{
    if !framed {
        padded(words, pushes)
    } else if words < LEAST_FRAMED / WORD {
        padded(LEAST_FRAMED / WORD, pushes + 1)
    } else {
        padded(words, pushes + 1)
    }
}

/// Whether a frame of these words has a frame register.
fn is_framed(facts: &Facts, words: u64, pushes: u64) -> bool
    requires fits { spec.FitsFrame facts.now }
    requires words { words ≡ spec.words facts.now }
    requires pushes { pushes ≡ spec.pushed_count facts.now }
    ensures { result ≡ spec.is_framed facts.now }
{
    facts.frame_register && padded(words, pushes) >= LEAST_FRAMED
}

/// The parts of a frame, one after another.
fn laid_out(facts: &Facts) -> FrameLayout
    requires { spec.FitsFrame facts.now }
    ensures { result ≡ spec.frame_of facts.now }
{
    let kept = HOME_WORDS + facts.passed;
    let temporaries = kept + facts.kept;
    let locals = temporaries + facts.temporaries;
    let slots = locals + facts.locals;
    let saves = saved_count(facts.registers);
    let pushes = pushed_count(facts.registers);
    let framed = is_framed(facts, slots + saves, pushes);
    let size = size(facts, slots + saves, pushes, framed);
    FrameLayout {
        kept: WORD * kept,
        temporaries: WORD * temporaries,
        locals: WORD * locals,
        slots: WORD * slots,
        saves,
        pushes,
        framed,
        size,
        depth: size + WORD * (pushes + frame_pushes(framed)),
    }
}

/// The frame of a function.
pub fn plan(facts: &Facts) -> FrameLayout
    requires { spec.FitsFrame facts.now }
    ensures frame { result ≡ spec.frame_of facts.now }
    ensures laid_out { spec.IsLaidOut facts.now result }
    ensures framed { spec.IsFramedBySize facts.now result }
    ensures parts { spec.IsFrame result }
    ensures small { result.depth + 8 ≤ FRAME_BY_WEIGHT * facts.now.weight }
    ensures size { (probe : ℕ) → frame_size (plan_of result probe) ≡ result.depth + 8 }
    ensures plan { (probe : ℕ) → is_signed Width.W32 Width.W64 probe ≡ true
        → IsPlan (plan_of result probe) }
{
    laid_out(facts)
}
