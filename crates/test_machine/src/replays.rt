use flat_memory::access::RefusedAccess;
use host_layout::range::ARENA_START;
use seh_num::width::Width;
use std::alloc::Global;
use std::process::Abort;
use x64_memory::page_map::PageMap;
use x64_memory::region::ARENA;
use x64_memory::space::AddressSpace;
use x64_replay::map_space::MapSpace;
use x64_replay::operation::{Answer, Op};
use x64_replay::replay::replay;

/// Rights for the arena's first page, a store there and a load from there.
const THREE_CALLS: [Op; 3] = [
    Op::Protect {
        at: ARENA_START,
        mode: 2,
    },
    Op::Store {
        at: ARENA_START,
        width: Width::W8,
        value: 7,
    },
    Op::Load {
        at: ARENA_START,
        width: Width::W8,
    },
];

/// Rights outside the arena, and a store and a load where nothing is mapped.
const REFUSED_CALLS: [Op; 3] = [
    Op::Protect { at: 8, mode: 2 },
    Op::Store {
        at: 8,
        width: Width::W32,
        value: 7,
    },
    Op::Load {
        at: 8,
        width: Width::W32,
    },
];

fn answers_calls<S: AddressSpace>(rt: &impl Abort, alloc: Global, space: &mut S) {
    let answers = replay(alloc, space, &THREE_CALLS).expect(rt, "memory");
    assert!(rt; answers[..] == [Answer::Protected(true), Answer::Stored, Answer::Loaded(7)]);
    let answers = replay(alloc, space, &REFUSED_CALLS).expect(rt, "memory");
    let refused = |write| Answer::Refused(RefusedAccess::Fault { address: 8, write });
    assert!(rt; answers[..] == [Answer::Protected(false), refused(true), refused(false)]);
}

#[test]
fn replay_of_three_calls(rt: HostRuntime) {
    let mut paged = PageMap::new(rt.alloc(), &[ARENA]).expect(&rt, "memory");
    answers_calls(&rt, rt.alloc(), &mut paged);
    let mut mapped = MapSpace::new(rt.alloc(), &[ARENA]).expect(&rt, "memory");
    answers_calls(&rt, rt.alloc(), &mut mapped);
}
