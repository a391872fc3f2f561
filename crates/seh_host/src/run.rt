//! Turns of a host, and runs.

ghost use Rattle.std.specs.Prelude.{◌≡◌, ◌≤◌, ◌+◌, ℕ, List, [], ◌∷◌, false, IfOk, IfErr, OnOk, OnErr, length};
ghost use Rattle.seh_num.specs.declared.event.Event.{Event as Event'};
ghost use Rattle.seh_io.specs.Streams.{Faultless, Faulted, Grew, HasCount};
ghost use Rattle.seh_io.specs.Text.{text};
ghost use Rattle.seh_io.specs.Writer.{TookPart, writer_of};
ghost use Rattle.host_model.specs.HostStep as model;
ghost use Rattle.seh_host.specs.Running.{running_of, after_turn, shown_of, run_of, made, shown_made, run_names, image_of, event_count};
ghost use Rattle.seh_host.specs.Counts.{CountedTurns};
ghost use Rattle.seh_host.specs.Writing.{StoppedText, Written, run_text};
ghost use Rattle.seh_host.specs.Turns.{answer_of, end_within, taken_before};

use crate::RunEnd;
use crate::counting::Counting;
use crate::host::{Host, Turn};
use crate::names::ImageNames;
use seh_dispatch::advancing::advance;
use seh_io::receiver::{Events, Lines};
use seh_io::sink::Sink;

/// One turn of the host: an instruction, a service, or the dispatch between two funclets or
/// vectored handlers. The receiver takes what the turn shows, in order. A host whose run has ended
/// stays as it is, and nothing is shown. The host keeps its image, and counts what is shown.
#[tactic(auto, using(seh_dispatch::proofs::FuncletOrder::listed_ascend))]
pub fn turn<V: Events>(host: &mut Host<'_, '_>, to: &mut V) -> Turn
    ensures answer { result ≡ answer_of (running_of host.old).host }
    ensures host { running_of host.new ≡ after_turn (running_of host.old) }
    ensures image { image_of host.new ≡ image_of host.old }
    ensures shown { V.took to.old (shown_of (running_of host.old)) to.new }
    ensures counted { HasCount (event_count host.old + length (shown_of (running_of host.old)))
        (event_count host.new) }
{
    if host.end.is_some() {
        return Turn::Ended;
    }
    let mut counting = Counting::new(to, host.events);
    host.end = advance(
        &host.tables,
        &host.names,
        &host.filter,
        &host.funclets,
        &mut host.instructions,
        &mut host.machine,
        &mut host.space,
        &mut counting,
    );
    host.events = counting.count;
    Turn::Made
}

/// Makes turns until the run has ended, at most so many, and writes the line of each event. It
/// stops at the first line that can't be written.
fn write_turns<O: Sink>(
    host: &mut Host<'_, '_>,
    turns: u64,
    lines: &mut Lines<'_, O, ImageNames<'_>>,
)
    requires whole { lines.old.failed ≡ false }
    requires named { lines.old.names.now.table ≡ (running_of host.old).functions.rows }
    ensures image { image_of host.new ≡ image_of host.old }
    ensures same_reference { lines.new.sink.ghost_name ≡ lines.old.sink.ghost_name }
    ensures trace { lines.new.trace ≡ lines.old.trace }
    ensures written { Written turns lines.old.trace
        (running_of host.old) (writer_of O.taken O.faults lines.old)
        (running_of host.new) (writer_of O.taken O.faults lines.new) }
    ensures counted { CountedTurns turns (running_of host.old) (event_count host.old)
        (running_of host.new) (event_count host.new) }
    ensures all_counted { lines.new.failed ≡ false → HasCount
        (event_count host.old + length (shown_made turns (running_of host.old)))
        (event_count host.new) }
{
    for _i in 0..turns {
        match turn(host, lines) {
            Turn::Made => {}
            Turn::Ended => return,
        }
        if lines.failed {
            return;
        }
    }
}

/// Why a run's text wasn't written whole.
#[derive(Clone, Copy, Debug, PartialEq, Eq)]
pub enum RunErr {
    /// A write failed when so many bytes of the text had been taken.
    Write { taken: u64 },
}

/// Runs a host for at most so many turns, and writes the lines of what it shows and of its end.
///
/// With `trace` each event has its line, else what is put, and each function of a printed walk that
/// has a name in the image. The last line is that of the end that is answered. The host is then as
/// its turns left it, so that a later run begins there; one that has ended answers the same end.
/// After `Write` the sink has taken a part of the text from the front, of `taken` bytes (a count
/// that stays at 2^64 - 1). No turn was made after the one whose line failed, and no byte was taken
/// of a turn that wasn't made. The host keeps its image in both, and counts what its turns show,
/// with `trace` or without.
pub fn run<O: Sink>(
    host: &mut Host<'_, '_>,
    turns: u64,
    trace: bool,
    sink: &mut O,
) -> Result<RunEnd, RunErr>
    ensures end { IfOk result (λ e. e ≡ end_within turns (run_of turns (running_of host.old)).end) }
    ensures text { IfOk result (λ e. Grew (O.taken sink.old)
        (text (run_of turns (running_of host.old)).events e trace
        (run_names (running_of host.old))) (O.taken sink.new)) }
    ensures part { IfErr result (λ e. TookPart (O.taken sink.old)
        (run_text turns trace (running_of host.old)) (O.taken sink.new) (taken_before e)) }
    ensures host { IfOk result (λ _. running_of host.new ≡ made turns (running_of host.old)) }
    ensures image { image_of host.new ≡ image_of host.old }
    ensures stopped { IfErr result (λ _. StoppedText turns trace (running_of host.old)
        (O.taken sink.old) (running_of host.new) (O.taken sink.new)) }
    ensures faultless { OnOk result (Faultless (O.faults sink.old) (O.faults sink.new)) }
    ensures cause { OnErr result (Faulted (O.faults sink.old) (O.faults sink.new)) }
    ensures counted { CountedTurns turns (running_of host.old) (event_count host.old)
        (running_of host.new) (event_count host.new) }
    ensures all_counted { OnOk result (HasCount
        (event_count host.old + length (run_of turns (running_of host.old)).events)
        (event_count host.new)) }
{
    let names = ImageNames {
        table: host.names.copied(),
    };
    let mut lines = Lines::new(sink, trace, &names);
    write_turns(host, turns, &mut lines);
    let end = host.end.unwrap_or(RunEnd::OutOfTurns { turns });
    match lines.end(&end) {
        Ok(()) => Ok(end),
        Err(fault) => Err(RunErr::Write { taken: fault.taken }),
    }
}
