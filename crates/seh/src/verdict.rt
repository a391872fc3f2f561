//! The line of a verdict on a function table.

ghost use Rattle.std.specs.Prelude.{◌≡◌, ◌≤◌, length};
ghost use Rattle.seh.specs.Checks.{unwind_rule_name, verdict_text, verdict_line};

use seh_io::line::Line;
use unwind_check::{Rule, Verdict};

/// How many digits of base 16 show an address relative to the image base, which has 32 bits.
pub const RVA_DIGITS: u32 = 8;

/// The name of a rule on an entry and its code.
fn unwind_rule_name(rule: Rule) -> &'static [u8]
    ensures value { result.now ≡ unwind_rule_name rule }
    ensures len { length result.now ≤ 10 }
{
    match rule {
        Rule::Decode => b"Decode",
        Rule::Chain => b"Chain",
        Rule::Codes => b"Codes",
        Rule::Prologue => b"Prologue",
        Rule::StackWrite => b"StackWrite",
        Rule::Unsaved => b"Unsaved",
        Rule::Epilogue => b"Epilogue",
    }
}

/// The text of a verdict.
pub fn verdict_text(verdict: &Verdict) -> Line
    ensures value { result ≡ verdict_text verdict.now }
    ensures len { length result ≤ 63 }
{
    let mut line = Line::new();
    match verdict {
        Verdict::Yes { entries } => {
            line.text(b"yes ");
            line.natural(*entries);
        }
        Verdict::No { index, fault } => {
            line.text(b"no ");
            line.natural(*index);
            line.text(b" ");
            line.hexadecimal(RVA_DIGITS, fault.at);
            line.text(b" ");
            line.text(unwind_rule_name(fault.rule));
        }
    }
    line
}

/// The line of a verdict: `yes` with the number of entries; or `no` with the index of the first
/// entry in which a rule fails, the boundary's address relative to the image base, in 8 digits of
/// base 16, and the rule's name.
pub fn verdict_line(verdict: &Verdict) -> Line
    ensures { result ≡ verdict_line verdict.now }
{
    let mut line = verdict_text(verdict);
    line.end();
    line
}
