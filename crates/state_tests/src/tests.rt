use crate::opening::{CODE, LIMIT, State, opened};
use crate::sets::sets;
use crate::taking::{nothing, take};
use flat_model::{Entry, Mode, Order, Origin, PlugState};
use std::alloc::Global;
use std::test::*;
use watcher_api::Closer;

/// The pc and the argument with which each hart starts that isn't parked.
const START: Option<(u64, u64)> = Some((CODE, 0));

// The orders of the start for the first plug-ins.
fn start_orders(alloc: Global, plugins: usize) -> Result<Vec<Entry>, Fail> {
    let mut entries = Vec::new(alloc);
    for spec in sets(alloc, plugins)? {
        entries.push(Entry::Order {
            origin: Origin::Start,
            order: Order::Install { spec },
        })?;
    }
    Ok(entries)
}

// The pc and the argument with which a hart starts, where it has a start.
fn start(state: &State, no: u8) -> Option<(u64, u64)> {
    let start = state.start_of(no)?;
    Some((start.pc, start.arg))
}

#[test]
fn a_new_state_has_the_starts_of_its_mode(rt: HostRuntime) -> Result<(), Fail> {
    for (harts, mode, starts) in [
        (1, Mode::All, [START, None, None]),
        (1, Mode::First, [START, None, None]),
        (2, Mode::All, [START, START, None]),
        (2, Mode::First, [START, None, None]),
    ] {
        let state = opened(rt.alloc(), harts, mode, 1)?;
        assert_eq!(rt;
            [start(&state, 0), start(&state, 1), start(&state, 2)],
            starts
        );
    }
    Ok(())
}

#[test]
fn a_new_state_has_nothing_of_its_guest_but_the_run(rt: HostRuntime) -> Result<(), Fail> {
    let state = opened(rt.alloc(), 2, Mode::First, 1)?;
    assert!(rt; state.hart(0).is_none() && state.hart(1).is_none());
    assert!(rt; state.output().is_empty());
    assert_eq!(rt; state.group(), None);
    let task = state.task();
    assert_eq!(rt;
        (task.harts(), task.limit(), task.mode()),
        (2, LIMIT, Mode::First)
    );
    assert_eq!(rt; (task.image().entry, task.script().len()), (CODE, 0));
    Ok(())
}

#[test]
fn a_new_state_has_the_installs_of_its_plan(rt: HostRuntime) -> Result<(), Fail> {
    let live = Some(PlugState::Live);
    for (harts, plugins, boxes, states) in [
        (1, 0, 128, [None, None]),
        (2, 0, 128, [None, None]),
        (1, 1, 127, [live, None]),
        (2, 1, 126, [live, None]),
        (1, 2, 125, [live, live]),
        (2, 2, 122, [live, live]),
    ] {
        for mode in [Mode::All, Mode::First] {
            let state = opened(rt.alloc(), harts, mode, plugins)?;
            let entries = start_orders(rt.alloc(), plugins)?;
            assert!(rt; state.journal().entries() == entries.as_slice());
            let registry = state.registry();
            assert_eq!(rt; (registry.harts(), registry.boxes()), (harts, boxes));
            assert_eq!(rt; [registry.state(1), registry.state(2)], states);
        }
    }
    Ok(())
}

// How many notices a plug-in's closer has, where there is one.
fn notices(state: &State, plugin: u8) -> Option<usize> {
    Some(state.closer(plugin)?.count())
}

#[test]
fn a_new_state_has_a_set_and_a_closer_of_each_plug_in(rt: HostRuntime) -> Result<(), Fail> {
    for (plugins, closers) in [
        (0, [None, None, None, None]),
        (1, [None, Some(0), None, None]),
        (2, [None, Some(0), Some(0), None]),
    ] {
        let state = opened(rt.alloc(), 2, Mode::All, plugins)?;
        let found = [
            notices(&state, 0),
            notices(&state, 1),
            notices(&state, 2),
            notices(&state, 3),
        ];
        assert_eq!(rt; found, closers);
        let all = sets(rt.alloc(), plugins)?;
        assert!(rt; all.iter().eq(state.specs(1).iter().chain(state.specs(2))));
        assert!(rt; state.specs(0).is_empty() && state.specs(3).is_empty());
        assert!(rt; !state.whole() && !state.gone() && !state.short());
    }
    Ok(())
}

#[test]
fn each_hart_takes_the_sets_that_wait_for_it_once(rt: HostRuntime) -> Result<(), Fail> {
    for (plugins, no) in [(0, 0), (1, 0), (1, 1), (2, 0), (2, 1)] {
        let mut state = opened(rt.alloc(), 2, Mode::First, plugins)?;
        let mut taken = nothing(rt.alloc(), &state, no)?;
        assert_eq!(rt; take(&mut state, no, &mut taken)?, plugins > 0);
        assert_eq!(rt; taken.attached.len(), plugins);
        assert_eq!(rt; taken.attached.watcher(1, 1).is_some(), plugins > 0);
        assert!(rt; taken.attached.watcher(1, 0).is_none());
        assert_eq!(rt; taken.attached.watcher(2, 1).is_some(), plugins > 1);
        assert_eq!(rt; taken.specs.as_slice().len(), plugins);
        assert!(rt; !take(&mut state, no, &mut taken)?);
        assert_eq!(rt; state.journal().len(), plugins);
    }
    Ok(())
}

#[test]
fn room_for_a_hold_changes_nothing_else(rt: HostRuntime) -> Result<(), Fail> {
    let mut state = opened(rt.alloc(), 2, Mode::All, 2)?;
    state.reserve_hold()?;
    assert!(rt; state.journal().spare() >= 32);
    assert_eq!(rt; state.journal().len(), 2);
    assert!(rt; state.output().is_empty() && !state.short());
    Ok(())
}

#[test]
fn a_hart_that_finds_no_memory_makes_the_state_short(rt: HostRuntime) -> Result<(), Fail> {
    for (harts, gone) in [(1, true), (2, false)] {
        let mut state = opened(rt.alloc(), harts, Mode::All, 1)?;
        state.fail(0);
        assert!(rt; state.short());
        assert_eq!(rt; state.gone(), gone);
        assert_eq!(rt; state.journal().len(), 1);
    }
    Ok(())
}
