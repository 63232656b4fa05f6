ghost use Rattle.std.specs.Prelude.{◌≡◌};

use flat_model::{Ask, Ending, Event, Kind, KindName, Row, What};
use std::alloc::Global;
use std::test::Fail;
use stock_watchers::Stock;
use watcher_api::{Held, Watcher, rows_of};

const fn staying(name: KindName) -> Kind {
    Kind {
        name,
        quota: 0,
        ask: Ask::Stay,
    }
}

fn event(step: u64, what: What) -> Event {
    Event {
        hart: 1,
        step,
        what,
    }
}

fn block(step: u64, pc: u64, n: u32) -> Event {
    event(step, What::Block { pc, n })
}

fn insn(step: u64, pc: u64, word: u32) -> Event {
    event(step, What::Insn { pc, word })
}

fn access(step: u64, addr: u64, size: (u8, bool), rw: u8, values: (u64, u64)) -> Event {
    event(
        step,
        What::Mem {
            pc: 0x10000 + 4 * (step % 1024),
            addr,
            shift: size.0,
            signed: size.1,
            rw,
            read: values.0,
            written: values.1,
        },
    )
}

// A store, an addition, a load with its sign, an atomic addition, a word that is no instruction and a service.
fn told() -> [Event; 17] {
    let ending = Ending::Exited(0);
    [
        event(1, What::Init),
        block(1, 0x10000, 3),
        insn(1, 0x10000, 0x0053_3023),
        access(1, 0x20FF8, (3, false), 2, (0, 7)),
        block(2, 0x10000, 3),
        insn(2, 0x10004, 0x05D0_0893),
        insn(3, 0x10008, 0x0003_2283),
        access(3, 0x20000, (2, true), 1, (0xFFFF_FFFF, 0)),
        block(4, 0x8000, 4_294_967_295),
        insn(4, 0x8000, 0x0054_302F),
        access(4, 0x3000, (3, false), 3, (5, 6)),
        insn(5, 0x8004, 0x0000_0000),
        insn(6, 0x8008, 0x0000_0513),
        insn(7, 0x800C, 0x0000_0073),
        event(
            7,
            What::Sys {
                number: 93,
                a0: 0,
                a1: 0,
                a2: 0,
            },
        ),
        event(
            7,
            What::SysRet {
                number: 93,
                result: 0,
            },
        ),
        event(7, What::Exit { ending }),
    ]
}

fn row(key: u64, a: u64, b: u64, c: u64, d: u64) -> Row {
    Row { key, a, b, c, d }
}

// The rows of a kind from the events themselves, and from a stock box that heard them.
fn both(alloc: Global, kind: Kind, events: &[Event]) -> Result<(Vec<Row>, Vec<Row>), Fail> {
    let mut held = Held::new(Stock::blank(alloc), kind);
    for e in events {
        held.call(e)?;
    }
    Ok((rows_of(alloc, kind, events)?, held.tally(alloc)?))
}

#[test]
fn each_kind_has_its_rows(rt: HostRuntime) -> Result<(), Fail> {
    let counts = [
        row(0, 1, 0, 0, 0),
        row(1, 3, 0, 0, 0),
        row(2, 7, 0, 0, 0),
        row(3, 3, 0, 0, 0),
        row(4, 1, 0, 0, 0),
        row(5, 1, 0, 0, 0),
        row(6, 1, 0, 0, 0),
    ];
    let hot = [
        row(0x8000, 1, 4_294_967_295, 0, 0),
        row(0x10000, 2, 6, 0, 0),
    ];
    let mem = [
        row(0x20FF8, 0, 0x10004, 3 + 16 + 256, 7),
        row(0x20000, 0xFFFF_FFFF, 0x1000C, 2 + 4 + 8 + 256, 0),
        row(0x3000, 5, 0x10010, 3 + 24 + 256, 6),
    ];
    let exec = [
        row(0x10000, 0x0053_3023, 1, 1, 0),
        row(0x10004, 0x05D0_0893, 2, 1, 0),
        row(0x10008, 0x0003_2283, 3, 1, 0),
        row(0x8000, 0x0054_302F, 4, 1, 0),
        row(0x8004, 0x0000_0000, 5, 1, 0),
        row(0x8008, 0x0000_0513, 6, 1, 0),
        row(0x800C, 0x0000_0073, 7, 1, 0),
    ];
    let classes = [
        row(0, 2, 0, 0, 0),
        row(2, 1, 0, 0, 0),
        row(3, 1, 0, 0, 0),
        row(6, 1, 0, 0, 0),
        row(7, 1, 0, 0, 0),
        row(8, 1, 0, 0, 0),
    ];
    let pages = [row(3, 1, 1, 0, 0), row(0x20, 1, 1, 0, 0)];
    let wanted: [(KindName, &[Row]); 7] = [
        (KindName::Counts, &counts),
        (KindName::Hot, &hot),
        (KindName::Mem, &mem),
        (KindName::Exec, &exec),
        (KindName::Classes, &classes),
        (KindName::Pages, &pages),
        (KindName::Own { number: 3 }, &[]),
    ];
    for (name, want) in &wanted {
        let (plain, kept) = both(rt.alloc(), staying(*name), &told())?;
        assert_eq!(rt; plain.as_slice(), *want);
        assert_eq!(rt; kept.as_slice(), *want);
    }
    Ok(())
}

#[test]
fn a_trace_keeps_the_first_65536_rows(rt: HostRuntime) -> Result<(), Fail> {
    let mut held = Held::new(Stock::blank(rt.alloc()), staying(KindName::Exec));
    for step in 1..=70_000 {
        held.call(&insn(step, 0x10000, 0x0000_0513))?;
    }
    let rows = held.tally(rt.alloc())?;
    assert_eq!(rt; rows.len(), 65_536);
    assert_eq!(rt; rows[65_535].b, 65_536);
    Ok(())
}

#[test]
fn a_box_asks_at_its_quota_alone(rt: HostRuntime) -> Result<(), Fail> {
    let names = [
        KindName::Counts,
        KindName::Hot,
        KindName::Mem,
        KindName::Own { number: 0 },
    ];
    for name in &names {
        let kind = Kind {
            name: *name,
            quota: 3,
            ask: Ask::Reset,
        };
        let mut held = Held::new(Stock::blank(rt.alloc()), kind);
        let mut asks = Vec::new(rt.alloc());
        for e in told().iter().take(5) {
            asks.push(held.call(e)?)?;
        }
        let want = [Ask::Stay, Ask::Stay, Ask::Reset, Ask::Stay, Ask::Stay];
        assert_eq!(rt; asks.as_slice(), want.as_slice());
    }
    Ok(())
}

// A blank box of any sort, prepared and called with the events: its rows.
fn heard<W: Watcher>(
    alloc: Global,
    blank: W,
    kind: Kind,
    events: &[Event],
) -> Result<Vec<Row>, Fail>
    requires { W.kind_of blank ≡ None }
{
    let mut held = Held::new(blank, kind);
    for e in events {
        held.call(e)?;
    }
    Ok(held.tally(alloc)?)
}

#[test]
fn a_stock_box_goes_where_any_box_goes(rt: HostRuntime) -> Result<(), Fail> {
    let kind = staying(KindName::Pages);
    let rows = heard(rt.alloc(), Stock::blank(rt.alloc()), kind, &told())?;
    let want = [row(3, 1, 1, 0, 0), row(0x20, 1, 1, 0, 0)];
    assert_eq!(rt; rows.as_slice(), want.as_slice());
    Ok(())
}
