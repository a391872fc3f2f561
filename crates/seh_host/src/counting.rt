ghost use Rattle.std.specs.Prelude.{◌≡◌};
ghost use Rattle.seh_host.specs.Counting.{CountedEvents, counted_none, counted_more};

use seh_io::receiver::Events;
use seh_num::event::Event;

/// A receiver that gives events to another one, and counts them.
pub struct Counting<'a, V> {
    /// The other receiver.
    pub to: &'a mut V,
    /// How many events there were; it stays at 2^64 - 1.
    pub count: u64,
}

impl<V> Drop for Counting<'_, V> {
    fn drop(self)
        ensures { self.exit.0.now ≡ self.entry.to.now }
    {
        let Counting { to: _, count: _ } = self;
    }
}

impl<'a, V: Events> Counting<'a, V> {
    /// A receiver that goes on from a count.
    pub fn new(to: &'a mut V, count: u64) -> Counting<'a, V>
        ensures same_reference { result.to.ghost_name ≡ to.entry.ghost_name }
        ensures to { result.to.now ≡ to.old }
        ensures count { result.count ≡ count }
    {
        Counting { to, count }
    }
}

impl<V: Events> Events for Counting<'_, V> {
    ghost took = { λ x es y. CountedEvents V.took x es y };

    ghost none = { λ x. counted_none V.took V.none x };

    ghost more = { λ x y z es fs p q. counted_more V.took V.more x y z es fs p q };

    fn take(&mut self, event: &Event) {
        self.to.take(event);
        self.count = self.count.saturating_add(1);
    }
}
