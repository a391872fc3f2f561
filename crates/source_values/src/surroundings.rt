//! What an expression is evaluated in.

use source_plans::place::Exception;
use x64_memory::page_map::PageMap;

/// What an expression is evaluated in.
#[derive(Clone, Copy)]
pub struct Surroundings<'m> {
    /// The locals of its activation, or None where there is none.
    pub locals: Option<&'m Vec<u64>>,
    /// The globals and the arena.
    pub memory: &'m PageMap,
    /// The end of the globals' pages.
    pub data_end: u64,
    /// The exception that GetExceptionCode is about there.
    pub exception: Exception,
    /// What AbnormalTermination answers there.
    pub abnormal: bool,
}
