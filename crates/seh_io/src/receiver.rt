//! What takes a run's events.

ghost use Rattle.std.specs.Prelude.{◌≡◌, ℕ, ◌≤◌, List, [], ◌∷◌, ◌++◌, true, false, OnOk, OnErr, IfErr, MatchResult};
ghost use Rattle.seh_num.specs.declared.event.Event.{Event as Event'};
ghost use Rattle.seh_io.specs.Streams.{Faultless, Faulted, Grew};
ghost use Rattle.seh_io.specs.Text.{line, at_line, end_line, lines, text};
ghost use Rattle.seh_io.specs.Writer.{PutText, TookPart, TookEvents, Kept};
ghost use Rattle.seh_io.specs.Successive.{took_none, took_more, kept_none, kept_more};

use crate::names::{Names, NoNames};
use crate::sink::Sink;
use crate::text::{end_line, event_line};
use crate::writing::{WriteFault, put_all};
use seh_num::end::RunEnd;
use seh_num::event::Event;
use std::alloc::Global;

/// What takes a run's events, one by one, and can't fail.
///
/// `took` relates the receiver before, the events and the receiver after.
pub trait Events {
    ghost took: { Self → List Event' → Self → Type 0 };

    /// Takes an event.
    fn take(&mut self, event: &Event)
        ensures { took self.old (event.now ∷ []) self.new };

    ghost none: { (x : Self) → took x [] x };

    ghost more: { (x y z : Self) (es fs : List Event') → took x es y → took y fs z
        → took x (es ++ fs) z };
}

/// Gives the events of a list to a receiver, in order.
pub fn replay<V: Events>(to: &mut V, events: &[Event])
    ensures { V.took to.old events.now to.new }
{
    for event in events {
        to.take(event);
    }
}

/// A receiver that writes the lines of a run's text to a sink. It keeps its first fault, and writes
/// nothing after it.
pub struct Lines<'a, O, N = NoNames> {
    /// Where the lines are written.
    pub sink: &'a mut O,
    /// Whether all events are shown, or only what is put.
    pub trace: bool,
    /// The names of the functions of what runs.
    pub names: &'a N,
    /// Whether a write has failed.
    pub failed: bool,
    /// How many bytes the sink has taken from this writer in all; it stays at 2^64 - 1.
    pub taken: u64,
}

impl<O, N> Drop for Lines<'_, O, N> {
    fn drop(self)
        ensures { self.exit.0.now ≡ self.entry.sink.now }
    {
        let Lines {
            sink: _,
            trace: _,
            names: _,
            failed: _,
            taken: _,
        } = self;
    }
}

impl<'a, O: Sink, N> Lines<'a, O, N> {
    /// A writer that has written nothing.
    pub fn new(sink: &'a mut O, trace: bool, names: &'a N) -> Lines<'a, O, N>
        ensures same_reference { result.sink.ghost_name ≡ sink.entry.ghost_name }
        ensures sink { result.sink.now ≡ sink.old }
        ensures trace { result.trace ≡ trace }
        ensures names { result.names.now ≡ names.now }
        ensures failed { result.failed ≡ false }
        ensures taken { result.taken ≡ 0 }
    {
        Lines {
            sink,
            trace,
            names,
            failed: false,
            taken: 0,
        }
    }

    /// Writes a text, unless a write has failed before.
    pub fn put(&mut self, piece: &[u8])
        ensures same_reference { self.new.sink.ghost_name ≡ self.old.sink.ghost_name }
        ensures trace { self.new.trace ≡ self.old.trace }
        ensures names { self.new.names.now ≡ self.old.names.now }
        ensures wrote { PutText O.taken O.faults self.old piece.now self.new }
    {
        if self.failed {
            return;
        }
        match put_all(&mut *self.sink, piece) {
            Ok(()) => self.taken = self.taken.saturating_add(piece.len() as u64),
            Err(fault) => {
                self.taken = self.taken.saturating_add(fault.taken);
                self.failed = true;
            }
        }
    }

    /// `Ok` where no write has failed; else how many bytes the sink took in all.
    pub fn outcome(&self) -> Result<(), WriteFault>
        ensures { MatchResult result (λ _. self.now.failed ≡ false)
            (λ e. (self.now.failed ≡ true) × (e.taken ≡ self.now.taken)) }
    {
        if self.failed {
            return Err(WriteFault { taken: self.taken });
        }
        Ok(())
    }

    /// Writes the last line of the text. `Ok` where no write has failed, neither this one nor one
    /// of an event before it; else how many bytes the sink took in all.
    pub fn end(&mut self, end: &RunEnd) -> Result<(), WriteFault>
        ensures same_reference { self.new.sink.ghost_name ≡ self.old.sink.ghost_name }
        ensures trace { self.new.trace ≡ self.old.trace }
        ensures names { self.new.names.now ≡ self.old.names.now }
        ensures wrote { PutText O.taken O.faults self.old (end_line end.now) self.new }
        ensures outcome { MatchResult result (λ _. self.new.failed ≡ false)
            (λ e. (self.new.failed ≡ true) × (e.taken ≡ self.new.taken)) }
    {
        self.put(end_line(end).as_bytes());
        self.outcome()
    }
}

impl<O: Sink, N: Names> Lines<'_, O, N> {
    /// Writes the line of an activation of the function of this number, if that has a name.
    fn put_at(&mut self, number: u32)
        ensures same_reference { self.new.sink.ghost_name ≡ self.old.sink.ghost_name }
        ensures trace { self.new.trace ≡ self.old.trace }
        ensures names { self.new.names.now ≡ self.old.names.now }
        ensures wrote { PutText O.taken O.faults self.old
            (at_line (N.named self.old.names.now number)) self.new }
    {
        let names = self.names;
        if let Some(name) = names.name(number) {
            self.put(b"at ");
            self.put(name);
            self.put(b"\n");
        }
    }
}

impl<O: Sink, N: Names> Events for Lines<'_, O, N> {
    ghost took = { λ x es y. TookEvents O.taken O.faults N.named x es y };

    ghost none = { λ x. took_none O.taken O.faults N.named x };

    ghost more = { λ x y z es fs p q. took_more O.taken O.faults N.named x y z es fs p q };

    fn take(&mut self, event: &Event) {
        match *event {
            Event::At(number) => self.put_at(number),
            _ => self.put(event_line(self.trace, event).as_bytes()),
        }
    }
}

/// Writes the whole text of a run, from its events and its end.
///
/// After a fault the sink has taken a part of the text from the front, of `taken` bytes; that count
/// stays at 2^64 - 1.
pub fn put_text<O: Sink, N: Names>(
    sink: &mut O,
    trace: bool,
    events: &[Event],
    end: &RunEnd,
    names: &N,
) -> Result<(), WriteFault>
    ensures ok { OnOk result (Grew (O.taken sink.old)
        (text events.now end.now trace (N.named names.now)) (O.taken sink.new)) }
    ensures part { IfErr result (λ e. TookPart (O.taken sink.old)
        (text events.now end.now trace (N.named names.now)) (O.taken sink.new) e.taken) }
    ensures faultless { OnOk result (Faultless (O.faults sink.old) (O.faults sink.new)) }
    ensures cause { OnErr result (Faulted (O.faults sink.old) (O.faults sink.new)) }
{
    let mut lines = Lines::new(sink, trace, names);
    replay(&mut lines, events);
    lines.end(end)
}

/// A receiver that keeps the events in a list.
#[derive(Debug, Drop)]
pub struct EventList {
    /// The events, in the order in which they were taken.
    pub events: Vec<Event>,
    /// Whether memory for an event ran out, so that the list lacks events.
    pub lacks: bool,
}

impl EventList {
    /// A list without an event.
    pub fn new(alloc: Global) -> EventList
        ensures events { result.events.items ≡ [] }
        ensures lacks { result.lacks ≡ false }
    {
        EventList {
            events: Vec::new(alloc),
            lacks: false,
        }
    }
}

impl Events for EventList {
    ghost took = { λ x es y. Kept x.lacks x.events.items es y.lacks y.events.items };

    ghost none = { λ x. kept_none x.lacks x.events.items };

    ghost more = { λ x y z es fs p q. kept_more x.lacks y.lacks z.lacks
        x.events.items y.events.items z.events.items es fs p q };

    fn take(&mut self, event: &Event) {
        // A list that lacks an event takes no later one, so that it has no gap.
        self.lacks = self.lacks || self.events.push(*event).is_err();
    }
}
