use seh_num::event::Code;

/// How a run of a program ended.
#[derive(Clone, Copy, Debug, PartialEq, Eq)]
pub enum Ended {
    /// `main` returned this number.
    Exit(i32),
    /// No handler took the exception of this code.
    Unhandled(Code),
    /// A reserved byte was accessed, of which the language says nothing.
    Undefined { address: u64 },
    /// The depth would have risen above 1,000 (own): to this depth.
    Deep { depth: u64 },
    /// No step of so many was left.
    OutOfSteps { steps: u64 },
}
