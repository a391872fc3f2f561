//! Printed walks: the functions that are shown, turn by turn.

use pe_image::ImageView;
use seh_host::RunEnd;
use seh_host::host::{Host, Turn};
use seh_host::loading::load;
use seh_host::run::{run, turn};
use seh_io::plain::VecSink;
use seh_io::receiver::EventList;
use seh_num::end::Reason;
use seh_num::event::{Code, Event};
use std::alloc::Global;
use std::process::Abort;
use test_tables::named::{walk_in_filter, walk_of_two, walk_that_stops, walk_without_names};

/// Compares what a host shows in at most a hundred turns, and its end, with these.
fn host_shows(
    rt: &impl Abort,
    alloc: Global,
    host: &mut Host<'_, '_>,
    events: &[Event],
    end: RunEnd,
) {
    let mut seen = EventList::new(alloc);
    for _i in 0..100 {
        if turn(host, &mut seen) == Turn::Ended {
            break;
        }
    }
    assert!(rt; seen.events.as_slice() == events, "{:?}", seen.events);
    assert!(rt; host.events() == events.len() as u64);
    let mut out = VecSink::new(alloc);
    assert!(rt; run(host, 0, false, &mut out) == Ok(end), "{end:?}");
}

/// The same of an image.
fn shows_events(rt: &impl Abort, alloc: Global, bytes: &[u8], events: &[Event], end: RunEnd) {
    let view = ImageView::read(alloc, bytes).expect(rt, "an image");
    let mut host = load(alloc, &view, 0).expect(rt, "a host");
    host_shows(rt, alloc, &mut host, events, end);
}

#[test]
fn a_walk_shows_its_caller_first(rt: HostRuntime) {
    let bytes = walk_of_two(rt.alloc()).expect(&rt, "memory");
    let events = [Event::At(1), Event::At(2)];
    shows_events(&rt, rt.alloc(), &bytes, &events, RunEnd::Exit(7));
}

#[test]
fn without_names_nothing_is_shown(rt: HostRuntime) {
    let bytes = walk_without_names(rt.alloc()).expect(&rt, "memory");
    shows_events(&rt, rt.alloc(), &bytes, &[], RunEnd::Exit(7));
}

// The frame of `main` can't be left, so that it isn't shown.
#[test]
fn a_walk_that_is_stopped_stops_the_run(rt: HostRuntime) {
    let bytes = walk_that_stops(rt.alloc()).expect(&rt, "memory");
    let end = RunEnd::Stopped {
        why: Reason::Unreadable,
        address: 0x7080_0008,
    };
    shows_events(&rt, rt.alloc(), &bytes, &[Event::At(1)], end);
}

// The filter has no row; the walk goes on past it at the frame that raised.
#[test]
fn a_walk_passes_the_filter(rt: HostRuntime) {
    let bytes = walk_in_filter(rt.alloc()).expect(&rt, "memory");
    let code = Code(0xE000_0001);
    let events = [
        Event::Raise {
            code,
            flag: false,
            access: None,
        },
        Event::Filter(1),
        Event::At(1),
        Event::Answer(1),
        Event::Except(code),
    ];
    shows_events(&rt, rt.alloc(), &bytes, &events, RunEnd::Exit(0));
}
