//! Where a part of a program runs.

ghost use Rattle.std.specs.Prelude.{◌≡◌, ◌<◌, ◌+◌, ◌-◌, ◌^◌};

use c_checked::function::DataPart;
use c_checked::statement::Filter;
use seh_num::code::NONCONTINUABLE_EXCEPTION;

/// An exception (Windows headers, `winnt.h`, EXCEPTION_RECORD).
#[derive(Clone, Copy)]
pub struct Exception {
    /// The code, which GetExceptionCode answers.
    pub code: u32,
    /// Whether it is noncontinuable.
    pub flag: bool,
    /// For a refused access, whether it was a write, and the address.
    pub access: Option<(bool, u64)>,
}

/// The activation in which a part of a program runs, the exception that GetExceptionCode is about
/// there, and what AbnormalTermination answers there.
#[derive(Clone, Copy)]
pub struct Place {
    /// The activation's index, the outermost being 0.
    pub activation: usize,
    /// What the activation has of the data stack; None in a filter.
    pub data_part: Option<DataPart>,
    /// The exception that a filter is asked about, or that an `__except` block took over; elsewhere
    /// `NO_EXCEPTION`.
    pub exception: Exception,
    /// Whether the innermost `__finally` block runs in an unwinding; false outside of any.
    pub abnormal: bool,
}

/// A handler of a `__try` that was entered: its filter, the activation of the `__try`, and what
/// AbnormalTermination answers there.
#[derive(Clone, Copy, Drop)]
pub struct Handler<'p> {
    /// The filter of its `__except` clause.
    pub filter: &'p Filter,
    /// The index of the activation of its `__try`, the outermost being 0.
    pub activation: usize,
    /// What AbnormalTermination answers at its `__try`.
    pub abnormal: bool,
}

/// A place in the list of vectored handlers at which one was found, counted from 0.
#[derive(Clone, Copy)]
pub struct AskedPlace {
    /// The place.
    pub value: u64,
    /// One more is a place too.
    pub ghost few: { value < 2 ^ 64 - 1 },
}

impl AskedPlace {
    /// A place of a list that is longer than that.
    pub fn new(value: u64, length: u64) -> AskedPlace
        requires { value < length }
        ensures { result.value ≡ value }
    {
        let _ = length;
        AskedPlace { value }
    }

    /// The place after it.
    pub fn next(self) -> u64
        ensures { result ≡ self.value + 1 }
    {
        self.value + 1
    }
}

/// No exception.
pub const NO_EXCEPTION: Exception = Exception {
    code: 0,
    flag: false,
    access: None,
};

/// What is raised where a noncontinuable exception is continued.
pub const NONCONTINUABLE: Exception = Exception {
    code: NONCONTINUABLE_EXCEPTION.0,
    flag: true,
    access: None,
};
