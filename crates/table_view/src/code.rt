//! The lines of unwind codes.

ghost use Rattle.std.specs.Prelude.{◌≡◌, ◌≤◌, ◌<◌, ◌+◌, ◌++◌, length};
ghost use Rattle.std.specs.Fmt.{decimal};
ghost use Rattle.seh_io.specs.Text.{ended};
ghost use Rattle.table_view.specs.View as spec;

use eh_tables::{UnwindCode, UnwindOperation};
use seh_io::line::Line;

/// The name of the register of a number.
#[tactic(auto, unfolding(crate::specs::View::register_name))]
pub fn register_name(register: u8) -> &'static [u8]
    ensures value { result.now ≡ spec.register_name register }
    ensures len { length result.now ≤ 3 }
{
    match register {
        0 => b"rax",
        1 => b"rcx",
        2 => b"rdx",
        3 => b"rbx",
        4 => b"rsp",
        5 => b"rbp",
        6 => b"rsi",
        7 => b"rdi",
        8 => b"r8",
        9 => b"r9",
        10 => b"r10",
        11 => b"r11",
        12 => b"r12",
        13 => b"r13",
        14 => b"r14",
        _ => b"r15",
    }
}

/// A word and a number after it.
fn counted(word: &[u8], number: u64) -> Line
    requires { length word.now ≤ 8 }
    ensures value { result ≡ word.now ++ decimal number }
    ensures len { length result ≤ length word.now + 20 }
{
    let mut line = Line::new();
    line.text(word);
    line.natural(number);
    line
}

/// What a code did.
fn operation_text(operation: UnwindOperation) -> Line
    ensures value { result ≡ spec.operation_text operation }
    ensures len { length result ≤ 63 }
{
    match operation {
        UnwindOperation::Push { register } => {
            let mut line = Line::new();
            line.text(b"push ");
            line.text(register_name(register));
            line
        }
        UnwindOperation::Allocate { size } => counted(b"alloc ", size as u64),
        UnwindOperation::SetFrame => {
            let mut line = Line::new();
            line.text(b"frame");
            line
        }
        UnwindOperation::Save { register, offset } => {
            let mut line = Line::new();
            line.text(b"save ");
            line.text(register_name(register));
            line.text(b" ");
            line.natural(offset as u64);
            line
        }
        UnwindOperation::SaveVector { register, offset } => {
            let mut line = counted(b"xmm ", register as u64);
            line.text(b" ");
            line.natural(offset as u64);
            line
        }
        UnwindOperation::MachineFrame { info } => counted(b"machine ", info as u64),
    }
}

/// The line of a code, up to its operation.
pub fn code_begin(code: &UnwindCode) -> Line
    ensures { result ≡ spec.code_begin code.now }
{
    let mut line = counted(b" code ", code.offset as u64);
    line.text(b" ");
    line
}

/// The rest of it.
pub fn code_end(code: &UnwindCode) -> Line
    ensures { result ≡ ended (spec.operation_text code.now.operation) }
{
    let mut line = operation_text(code.operation);
    line.end();
    line
}
