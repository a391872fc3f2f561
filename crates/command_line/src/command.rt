/// How an image is run.
#[derive(Clone, Copy, Debug, PartialEq, Eq)]
pub struct RunOptions {
    /// At most so many turns are made, below 2^63.
    pub turns: u64,
    /// The argument of the run, 0 or above.
    pub argument: i64,
    /// Whether all events have their lines, and not the numbers alone.
    pub trace: bool,
}

/// What `check` writes of a function table.
#[derive(Clone, Copy, Debug, PartialEq, Eq)]
pub enum CheckReport {
    /// One verdict on the whole table.
    Whole,
    /// A line for each entry, and how many are without a fault.
    Each,
}

/// What the program does.
#[derive(Clone, Copy, Debug, PartialEq, Eq)]
pub enum Command {
    /// Compiles a text.
    Compile,
    /// Runs an image.
    Exec(RunOptions),
    /// Compiles a text, and runs its image.
    Run(RunOptions),
    /// Runs a text as its meaning says; the turns are the steps of the meaning.
    Meaning(RunOptions),
    /// Shows the function table of an image.
    Show,
    /// Checks the code of an image against its function table.
    Check(CheckReport),
    /// Compiles and runs the generated program of a number, which is below 2^63.
    Selftest(u64),
}
