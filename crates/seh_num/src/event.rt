/// The code of an exception: `code` has those of the host.
#[derive(Clone, Copy, Debug, PartialEq, Eq)]
pub struct Code(pub u32);

/// What a run shows, in the order in which it happens.
#[derive(Clone, Copy, Debug, PartialEq, Eq)]
pub enum Event {
    /// A number was written.
    Put(i64),
    /// An exception was raised.
    Raise {
        code: Code,
        /// Whether it is noncontinuable.
        flag: bool,
        /// For a refused access, whether it was a write, and the address.
        access: Option<(bool, u64)>,
    },
    /// The filter of this number began.
    Filter(u32),
    /// A filter answered.
    Answer(i32),
    /// The `__finally` block of this number began.
    Finally {
        number: u32,
        /// Whether it runs in an unwinding, and not because its body ended.
        abnormal: bool,
    },
    /// An `__except` block took over for an exception.
    Except(Code),
    /// A printed walk came to an activation of the function of this number. Numbers begin with 1,
    /// in the order of the program's text.
    At(u32),
}
