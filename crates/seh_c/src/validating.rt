//! The verdict on an image: whether its code keeps its unwind information.

ghost use Rattle.std.specs.Prelude.{◌≡◌, IfOk, IfErr};
ghost use Rattle.seh_c.specs.Validations as spec;

use image_code::{ValidationErr, validate_image};
use pe_image::ImageLayout;
use seh_views::c_types::SehVerdict;
use seh_views::codes;
use seh_views::opening::open_with_imports;
use seh_views::refusal::Refusal;
use std::alloc::Global;
use unwind_check::{Rule, Verdict};

fn rule_code(rule: Rule) -> u32
    ensures { result ≡ spec.rule_code rule }
{
    match rule {
        Rule::Decode => codes::RULE_DECODE,
        Rule::Chain => codes::RULE_CHAIN,
        Rule::Codes => codes::RULE_CODES,
        Rule::Prologue => codes::RULE_PROLOGUE,
        Rule::StackWrite => codes::RULE_STACK_WRITE,
        Rule::Unsaved => codes::RULE_UNSAVED,
        Rule::Epilogue => codes::RULE_EPILOGUE,
    }
}

/// A verdict, as C sees it.
pub fn c_verdict(verdict: Verdict) -> SehVerdict
    ensures { result ≡ spec.c_verdict verdict }
{
    match verdict {
        Verdict::Yes { entries } => SehVerdict {
            entry: entries,
            at: 0,
            rule: codes::RULE_NONE,
        },
        Verdict::No { index, fault } => SehVerdict {
            entry: index,
            at: fault.at,
            rule: rule_code(fault.rule),
        },
    }
}

/// The verdict on an image, or why there is none.
#[tactic(auto, using(crate::proofs::Validated::not_opened, crate::proofs::Validated::not_read, crate::proofs::Validated::validated))]
pub fn validate(
    alloc: Global,
    layout: ImageLayout,
    bytes: &[u8],
    probe: &[u8],
) -> Result<Verdict, Refusal>
    ensures found { IfOk result (λ v. spec.IsValidated layout bytes.now probe.now v) }
    ensures refused { IfErr result (λ e. spec.IsUnvalidated layout bytes.now e) }
{
    let image = match open_with_imports(alloc, layout, bytes) {
        Ok(image) => image,
        Err(e) => return Err(e),
    };
    match validate_image(alloc, &image, probe) {
        Ok(verdict) => Ok(verdict),
        Err(ValidationErr::Table(e)) => Err(Refusal::Table(e)),
        Err(ValidationErr::Memory) => Err(Refusal::NoMemory),
    }
}
