//! All rules on an entry of a function table.

ghost use Rattle.std.specs.Prelude.{◌≡◌, ◌≤◌, ◌+◌, ◌<◌, ◌^◌, [], IfOk, IfNone};
ghost use Rattle.frame_rules.specs.Prologue.{bytes};
ghost use Rattle.frame_rules.specs.Validated.{turned};
ghost use Rattle.unwind_tails.specs.Instructions.{between};
ghost use Rattle.unwind_check.specs.Chains as chains;
ghost use Rattle.unwind_check.specs.Faults as spec;
ghost use Rattle.unwind_tails.specs.TailEnds.{AreEnded};

use crate::body::body_fault;
use crate::chain::is_secondary;
use crate::code_order::is_ordered;
use crate::codes::keep_codes;
use crate::ends::ends;
use crate::prologue::prologue_fault;
use crate::rule::{Fault, Rule};
use eh_tables::{Info, UnwindCode};
use std::alloc::{AllocError, Global};
use unwind_tails::decoded::{DecodedInstrs, decoded_between, has_item};
use unwind_tails::known_tails::KnownTails;
use x64_memory::space::CodeSpace;

/// The codes of an info, in their order, and in the order of execution.
#[derive(Drop)]
struct OrderedCodes {
    codes: Vec<UnwindCode>,
    steps: Vec<UnwindCode>,
}

fn ordered_codes(alloc: Global, info: &Info) -> Result<OrderedCodes, AllocError>
    ensures codes { IfOk result (λ g. g.codes.items ≡ info.now.codes) }
    ensures steps { IfOk result (λ g. g.steps.items ≡ turned [] info.now.codes) }
{
    let mut codes = Vec::new(alloc);
    let mut steps = Vec::new(alloc);
    for code in info.codes() {
        codes.push(code)?;
        steps.push(code)?;
    }
    steps.reverse();
    Ok(OrderedCodes { codes, steps })
}

/// The first fault of the prologue and of what follows it, from `middle` up to `end`.
fn parts_fault<S: CodeSpace>(
    alloc: Global,
    space: &S,
    known: &mut KnownTails,
    probe: &[u8],
    begin: u64,
    middle: u64,
    end: u64,
    info: &Info,
    codes: &OrderedCodes,
    prologue: &DecodedInstrs,
) -> Result<Option<Fault>, AllocError>
    requires codes { codes.now.codes.items ≡ info.now.codes }
    requires steps { codes.now.steps.items ≡ turned [] info.now.codes }
    requires prologue_low { begin + bytes prologue.now.items < 2 ^ 63 }
    requires order { middle ≤ end }
    requires low { end < 2 ^ 63 }
    requires known { AreEnded (S.memory space.now) known.old }
    ensures fault { IfOk result (λ o. o ≡ spec.fault_of_parts (S.memory space.now) probe.now begin
        middle info.now prologue.now (between (S.memory space.now) middle end)) }
    ensures near { info.now.frame_offset < 2 ^ 8 }
    ensures known { AreEnded (S.memory space.now) known.new }
{
    let frame = info.frame_register();
    let offset = info.frame_offset() as u64;
    let steps = &codes.steps;
    let first = prologue.items();
    let whole = prologue.is_whole();
    match prologue_fault(space, probe, begin, frame, offset, whole, 0, steps, first) {
        Some(fault) => Ok(Some(fault)),
        None => body_fault(alloc, space, known, info, &codes.codes, middle, end),
    }
}

fn codes_fault<S: CodeSpace>(
    alloc: Global,
    space: &S,
    known: &mut KnownTails,
    probe: &[u8],
    begin: u64,
    middle: u64,
    end: u64,
    info: &Info,
    prologue: &DecodedInstrs,
) -> Result<Option<Fault>, AllocError>
    requires order { begin ≤ middle }
    requires order_2 { middle ≤ end }
    requires low { end < 2 ^ 63 }
    requires middle { middle ≡ spec.prologue_end begin end info.now }
    requires prologue { prologue.now ≡ spec.prologue_of (S.memory space.now) begin end info.now }
    requires known { AreEnded (S.memory space.now) known.old }
    ensures fault { IfOk result (λ o. o
        ≡ spec.codes_fault (S.memory space.now) probe.now begin end info.now) }
    ensures near { IfOk result (λ o. IfNone o (info.now.frame_offset < 2 ^ 8)) }
    ensures known { AreEnded (S.memory space.now) known.new }
{
    let all = ordered_codes(alloc, info)?;
    let first = prologue.items();
    let ends = ends(alloc, first)?;
    let rule = if !keep_codes(info, &all.codes, &ends) {
        Rule::Codes
    } else if !is_ordered(&all.codes) {
        Rule::Prologue
    } else {
        return parts_fault(
            alloc, space, known, probe, begin, middle, end, info, &all, prologue,
        );
    };
    Ok(Some(Fault { at: begin, rule }))
}

/// The first fault of an entry that is chained to one with the info `primary`, by whose codes what
/// follows its prologue is judged, from `middle` on.
fn fragment_fault<S: CodeSpace>(
    alloc: Global,
    space: &S,
    known: &mut KnownTails,
    begin: u64,
    middle: u64,
    end: u64,
    info: &Info,
    primary: &Info,
) -> Result<Option<Fault>, AllocError>
    requires order { middle ≤ end }
    requires low { end < 2 ^ 63 }
    requires middle { middle ≡ spec.prologue_end begin end info.now }
    requires known { AreEnded (S.memory space.now) known.old }
    ensures fault { IfOk result (λ o. o ≡ spec.fragment_fault (S.memory space.now) begin end
        info.now primary.now (chains.is_secondary info.now primary.now)) }
    ensures near { info.now.frame_offset < 2 ^ 8 }
    ensures known { AreEnded (S.memory space.now) known.new }
{
    if !is_secondary(info, primary) {
        return Ok(Some(Fault {
            at: begin,
            rule: Rule::Chain,
        }));
    }
    let all = ordered_codes(alloc, primary)?;
    body_fault(alloc, space, known, primary, &all.codes, middle, end)
}

/// The first fault of an entry: at its first boundary at which a rule fails, the first rule that
/// does. The entry's code is from `begin` to `end`, `info` is its unwind info, `named` that of the
/// table's entry that it is chained to, if there is one, and `probe` has the bytes of the stack
/// probe. Refused for want of memory alone.
#[tactic(auto, unfolding(crate::specs::Faults::info_fault))]
pub fn entry_fault<S: CodeSpace>(
    alloc: Global,
    space: &S,
    known: &mut KnownTails,
    probe: &[u8],
    begin: u64,
    end: u64,
    info: &Info,
    named: &Option<Info>,
) -> Result<Option<Fault>, AllocError>
    requires begin { begin < 2 ^ 63 }
    requires low { end < 2 ^ 63 }
    requires known { AreEnded (S.memory space.now) known.old }
    ensures fault { IfOk result (λ o. o
        ≡ spec.info_fault (S.memory space.now) probe.now begin end info.now info.now.parent
        named.now) }
    ensures near { IfOk result (λ o. IfNone o (info.now.frame_offset < 2 ^ 8)) }
    ensures known { AreEnded (S.memory space.now) known.new }
{
    let size = info.prologue_size() as u64;
    let middle = begin + size;
    if end < middle {
        return Ok(Some(Fault {
            at: begin,
            rule: Rule::Decode,
        }));
    }
    let prologue = decoded_between(alloc, space, begin, middle)?;
    if prologue.items().is_empty() && (size != 0 || !has_item(space, middle, end)) {
        return Ok(Some(Fault {
            at: begin,
            rule: Rule::Decode,
        }));
    }
    match info.parent() {
        None => codes_fault(
            alloc, space, known, probe, begin, middle, end, info, &prologue,
        ),
        Some(_) => match named {
            Some(primary) => fragment_fault(alloc, space, known, begin, middle, end, info, primary),
            None => Ok(Some(Fault {
                at: begin,
                rule: Rule::Chain,
            })),
        },
    }
}
