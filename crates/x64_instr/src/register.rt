ghost use Rattle.std.specs.Prelude.{◌≡◌, ◌<◌};
ghost use Rattle.x64_instr.specs.Registers.{number, register};

/// A general-purpose register, named by its 64 bits (Intel manual, volume 1, "General-Purpose
/// Registers"). How many of them an instruction uses is the instruction's width.
#[derive(Clone, Copy, Debug, PartialEq, Eq)]
pub enum Reg {
    Rax,
    Rcx,
    Rdx,
    Rbx,
    Rsp,
    Rbp,
    Rsi,
    Rdi,
    R8,
    R9,
    R10,
    R11,
    R12,
    R13,
    R14,
    R15,
}

/// The registers, by number.
pub const REGISTERS: [Reg; 16] = [
    Reg::Rax,
    Reg::Rcx,
    Reg::Rdx,
    Reg::Rbx,
    Reg::Rsp,
    Reg::Rbp,
    Reg::Rsi,
    Reg::Rdi,
    Reg::R8,
    Reg::R9,
    Reg::R10,
    Reg::R11,
    Reg::R12,
    Reg::R13,
    Reg::R14,
    Reg::R15,
];

impl Reg {
    /// The register of a number (Intel manual, volume 2, table 3-1 "Register Codes").
    pub fn of(number: u8) -> Reg
        requires { number < 16 }
        ensures { result ≡ register number }
    {
        REGISTERS[number as usize]
    }

    /// The number of a register, 0 to 15.
    pub fn number(self) -> u8
        ensures value { result ≡ number self }
        ensures small { result < 16 }
    {
        self as u8
    }
}
