//! Prologue: the order of the unwind codes (Microsoft x64 ABI, "Prolog code").

ghost use Rattle.std.specs.Prelude.{◌≡◌};
ghost use Rattle.virtual_unwind.specs.Undone.{operations};
ghost use Rattle.frame_rules.specs.Codes as rules;

use eh_tables::{UnwindCode, UnwindOperation};

fn are_pushes(codes: &[UnwindCode]) -> bool
    ensures { result ≡ rules.are_pushes (operations codes.now) }
{
    match codes {
        [] => true,
        [first, rest @ ..] => match first.operation {
            UnwindOperation::Push { .. } => are_pushes(rest),
            _ => false,
        },
    }
}

fn is_allocated(codes: &[UnwindCode]) -> bool
    ensures { result ≡ rules.is_allocated (operations codes.now) }
{
    match codes {
        [] => true,
        [first, rest @ ..] => match first.operation {
            UnwindOperation::Allocate { .. } => are_pushes(rest),
            _ => are_pushes(codes),
        },
    }
}

fn is_framed(codes: &[UnwindCode]) -> bool
    ensures { result ≡ rules.is_framed (operations codes.now) }
{
    match codes {
        [] => true,
        [first, rest @ ..] => match first.operation {
            UnwindOperation::SetFrame => is_allocated(rest),
            _ => is_allocated(codes),
        },
    }
}

/// Whether the codes are, in their order of execution, pushes, at most one allocation, at most one
/// set frame register, and saves. In their list the last is executed first.
pub fn is_ordered(codes: &[UnwindCode]) -> bool
    ensures { result ≡ rules.is_ordered (operations codes.now) }
{
    match codes {
        [] => true,
        [first, rest @ ..] => match first.operation {
            UnwindOperation::Save { .. } => is_ordered(rest),
            _ => is_framed(codes),
        },
    }
}
