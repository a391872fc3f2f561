//! The events where RIP arrives at a funclet.

ghost use Rattle.std.specs.Prelude.{◌≡◌, ◌-◌, ◌≤◌, ◌<◌, ◌^◌, ℕ, false, List, [], length, slice_index_or};
ghost use Rattle.virtual_unwind.specs.CallerOf.{distance};
ghost use Rattle.host_model.specs.Funclets as spec;
ghost use Rattle.host_model.specs.declared.funclet.Funclet.{Funclet};
ghost use Rattle.seh_dispatch.specs.FuncletLists.{AreAscending, listed};
ghost use Rattle.seh_dispatch.specs.Filters.{Admits};

use crate::filter::FuncletFilter;
use host_model::funclet::Funclet;
use seh_num::event::Event;
use x64_instr::register::Reg;
use x64_machine::cpu::Cpu;

/// The event of a funclet.
fn by_kind(cpu: &Cpu, number: u32, is_finally: bool) -> Event
    ensures { result ≡ spec.by_kind cpu.now number is_finally }
{
    if is_finally {
        Event::Finally {
            number,
            abnormal: cpu.register(Reg::Rcx) % (1 << 32) != 0,
        }
    } else {
        Event::Filter(number)
    }
}

/// How many funclets begin below an address.
fn count_below(funclets: &[Funclet], rva: u64) -> usize
    requires { AreAscending 0 funclets.now }
    ensures within { result ≤ length funclets.now }
    ensures below { (k : ℕ) (d : Funclet) → k < result
        → (slice_index_or funclets.now k d).address < rva }
    ensures later { (k : ℕ) (d : Funclet) → result ≤ k → k < length funclets.now
        → rva ≤ (slice_index_or funclets.now k d).address }
{
    funclets.partition_point(|f| (f.address as u64) < rva)
}

/// Whether RIP may be the first byte of one of the funclets that a filter admits. False says that
/// it is none's.
#[inline(always)]
pub fn may_arrive(filter: &FuncletFilter, base: u64, cpu: &Cpu) -> bool
    ensures { (fs : List Funclet) → Admits filter.now fs → result ≡ false
        → spec.arrivals cpu.now (distance base cpu.now.rip) 1 fs ≡ [] }
{
    filter.may_begin(cpu.rip.wrapping_sub(base))
}

/// The event where RIP is a funclet's first byte. The funclets are searched by halves.
#[inline(never)]
pub fn arrival(funclets: &[Funclet], base: u64, cpu: &Cpu) -> Option<Event>
    requires few { length funclets.now < 2 ^ 32 - 1 }
    requires ascending { AreAscending 0 funclets.now }
    ensures { listed result ≡ spec.arrivals cpu.now (distance base cpu.now.rip) 1 funclets.now }
{
    let rva = cpu.rip.wrapping_sub(base);
    let index = count_below(funclets, rva);
    if index >= funclets.len() {
        return None;
    }
    let funclet = funclets[index];
    if rva != funclet.address as u64 {
        return None;
    }
    Some(by_kind(cpu, index as u32 + 1, funclet.is_finally))
}
