ghost use Rattle.seh_dispatch.specs.FuncletLists.{listed};

use seh_io::receiver::Events;
use seh_num::event::Event;

/// Gives a receiver an event, if there is one.
pub fn tell<V: Events>(to: &mut V, event: Option<Event>)
    ensures { V.took to.old (listed event) to.new }
{
    if let Some(event) = event {
        to.take(&event);
    }
}
