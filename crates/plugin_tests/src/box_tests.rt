ghost use Rattle.std.specs.Prelude.{◌≡◌};

use flat_model::{Ask, Ending, Event, How, Kind, KindName, NoMemory, Row, What};
use score_boards::{Column, ParkedColumn};
use std::alloc::Global;
use std::test::Fail;
use watcher_api::{Closer, Held, Notices, Parked, Recorder, Refuser, Returned, Watcher, rows_of};

const EXEC: Kind = Kind {
    name: KindName::Exec,
    quota: 0,
    ask: Ask::Stay,
};

const COUNTS: Kind = Kind {
    name: KindName::Counts,
    quota: 0,
    ask: Ask::Stay,
};

// What hart 0 tells that puts 93 into a7 and 0 into a0, and exits.
fn told() -> [Event; 5] {
    let ending = Ending::Exited(0);
    [
        event(1, What::Init),
        insn(1, 0x10000, 0x05D0_0893),
        insn(2, 0x10004, 0x0000_0513),
        insn(3, 0x10008, 0x0000_0073),
        event(3, What::Exit { ending }),
    ]
}

fn event(step: u64, what: What) -> Event {
    Event {
        hart: 0,
        step,
        what,
    }
}

fn insn(step: u64, pc: u64, word: u32) -> Event {
    event(step, What::Insn { pc, word })
}

fn told_rows() -> [Row; 3] {
    [
        row(0x10000, 0x05D0_0893, 1),
        row(0x10004, 0x0000_0513, 2),
        row(0x10008, 0x0000_0073, 3),
    ]
}

fn row(key: u64, a: u64, b: u64) -> Row {
    Row {
        key,
        a,
        b,
        c: 0,
        d: 0,
    }
}

// What a box may be sent as to another thread.
fn sent<T: Send>(value: T) -> T
    ensures { result ≡ value }
{
    value
}

#[test]
fn a_recorder_tallies_each_instruction(rt: HostRuntime) -> Result<(), Fail> {
    let mut held = sent(Held::new(Recorder::blank(rt.alloc()), EXEC));
    for e in &told() {
        assert_eq!(rt; held.call(e), Ok(Ask::Stay));
    }
    assert_eq!(rt; held.tally(rt.alloc())?.as_slice(), told_rows().as_slice());
    assert_eq!(rt;
        held.into_inner().tally(rt.alloc())?.as_slice(),
        told_rows().as_slice()
    );
    Ok(())
}

#[test]
fn counts_have_a_row_for_each_kind_that_occurs(rt: HostRuntime) -> Result<(), Fail> {
    let rows = rows_of(rt.alloc(), COUNTS, &told())?;
    let want = [row(0, 1, 0), row(2, 3, 0), row(6, 1, 0)];
    assert_eq!(rt; rows.as_slice(), want.as_slice());
    Ok(())
}

#[test]
fn a_recorder_gives_its_events(rt: HostRuntime) -> Result<(), Fail> {
    let mut held = Held::new(Recorder::blank(rt.alloc()), EXEC);
    for e in &told() {
        assert!(rt; held.call(e).is_ok());
    }
    assert_eq!(rt; held.kind(), EXEC);
    assert_eq!(rt; held.into_inner().events(), told().as_slice());
    Ok(())
}

#[test]
fn a_refused_call_has_heard_nothing(rt: HostRuntime) -> Result<(), Fail> {
    let mut held = Held::new(Refuser::blank(rt.alloc(), 3), EXEC);
    let stay = Ok(Ask::Stay);
    let want = [stay, stay, Err(NoMemory), Err(NoMemory), Err(NoMemory)];
    for (e, want) in told().iter().zip(want) {
        assert_eq!(rt; held.call(e), want);
    }
    let first = [row(0x10000, 0x05D0_0893, 1)];
    assert_eq!(rt; held.tally(rt.alloc())?.as_slice(), first.as_slice());
    Ok(())
}

// A notice of a plug-in with one box that heard as many events, and one column of as many entries.
fn notice(
    alloc: Global,
    plugin: u8,
    heard: usize,
    entries: u8,
) -> Result<Returned<Held<Recorder>>, Fail> {
    let mut watcher = Held::new(Recorder::blank(alloc), EXEC);
    for e in told().iter().take(heard) {
        watcher.call(e).ok();
    }
    let mut boxes = Vec::new(alloc);
    boxes.push(Parked {
        hart: 0,
        sub: 0,
        watcher,
    })?;
    let mut columns = Vec::new(alloc);
    columns.push(ParkedColumn {
        hart: 0,
        column: Column::new(alloc, entries)?,
    })?;
    Ok(Returned {
        plugin,
        how: How::Uninstall,
        boxes,
        columns,
    })
}

// Hands two notices to a closer; the number of each notice that it has then.
fn close_two<C: Closer<Held<Recorder>>>(alloc: Global, closer: C) -> Result<Vec<u8>, Fail> {
    let mut closer = closer;
    closer.closed(notice(alloc, 3, 2, 1)?).ok();
    closer.closed(notice(alloc, 1, 4, 2)?).ok();
    let mut plugins = Vec::new(alloc);
    for i in 0..closer.count() {
        plugins.push(closer.notice(i).plugin)?;
    }
    Ok(plugins)
}

#[test]
fn notices_are_kept_in_order(rt: HostRuntime) -> Result<(), Fail> {
    let mut notices = sent(Notices::new(rt.alloc()));
    assert!(rt; notices.closed(notice(rt.alloc(), 3, 2, 1)?).is_ok());
    assert_eq!(rt; notices.count(), 1);
    let kept = notices.notice(0);
    assert_eq!(rt;
        (kept.plugin, kept.boxes.len(), kept.columns.len()),
        (3, 1, 1)
    );
    let plugins = close_two(rt.alloc(), Notices::new(rt.alloc()))?;
    assert_eq!(rt; plugins.as_slice(), [3, 1].as_slice());
    Ok(())
}
