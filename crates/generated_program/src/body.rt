//! The functions of generated programs.

ghost use Rattle.std.specs.Prelude.{◌≡◌, ◌≤◌, length};
ghost use Rattle.generated_program.specs.GeneratedText.{after_constant, before_constant, body_numbered};

/// What a function of a generated program does to come to its answer.
#[derive(Clone, Copy, Debug, PartialEq, Eq)]
pub enum Body {
    /// It adds a constant to its argument.
    Sum,
    /// It divides by 0 in a `__try`, and adds in the `__except` block.
    Division,
    /// It returns the sum out of a `__try`, whose `__finally` block counts how it is left.
    Return,
    /// It raises, and raises again in the `__finally` block that runs for it; it adds where the
    /// second exception is accepted.
    Collision,
}

impl Body {
    /// The body of a function, by the sum of its number and the program's, modulo 4.
    pub fn numbered(remainder: u64) -> Body
        ensures { result ≡ body_numbered remainder }
    {
        match remainder {
            0 => Body::Sum,
            1 => Body::Division,
            2 => Body::Return,
            _ => Body::Collision,
        }
    }

    /// What stands between the function's name and its constant.
    pub fn before_constant(self) -> &'static [u8]
        ensures { result.now ≡ before_constant self }
    {
        match self {
            Body::Sum => b"(int a){ return a + ",
            Body::Division => {
                b"(int a){ int r = 0; __try{ r = a / (a - a); } __except(1){ r = a + "
            }
            Body::Return => b"(int a){ __try{ return a + ",
            Body::Collision => {
                b"(int a){ int r = 0; __try{ __try{ RaiseException(0xE0000001,0,0,0); } \
                  __finally{ RaiseException(0xE0000002,0,0,0); } } \
                  __except(GetExceptionCode() == 0xE0000002){ r = a + "
            }
        }
    }

    /// What stands after the function's constant.
    pub fn after_constant(self) -> &'static [u8]
        ensures { result.now ≡ after_constant self }
    {
        match self {
            Body::Sum => b"; } ",
            Body::Division | Body::Collision => b"; } return r; } ",
            Body::Return => b"; } __finally{ g = g + AbnormalTermination(); } return 0; } ",
        }
    }
}
