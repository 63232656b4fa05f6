//! The rows of harts as one list.

use flat_model::{KindName, Row};
use report_text::merge;
use std::alloc::Global;
use std::test::Fail;

const fn row(key: u64, a: u64, b: u64) -> Row {
    Row {
        key,
        a,
        b,
        c: 0,
        d: 0,
    }
}

// Two harts' rows, which share the keys 0x10000 and 7.
fn tallies(alloc: Global) -> Result<Vec<Vec<Row>>, Fail> {
    let first = [row(7, 1, u64::MAX), row(0x10000, 2, 6)];
    let second = [row(3, 4, 1), row(7, 3, 2), row(0x10000, 8, 24)];
    let mut lists = Vec::new(alloc);
    lists.push(first.to_vec(alloc)?)?;
    lists.push(second.to_vec(alloc)?)?;
    Ok(lists)
}

#[test]
fn rows_of_one_key_are_added(rt: HostRuntime) -> Result<(), Fail> {
    let alloc = rt.alloc();
    let lists = tallies(alloc)?;
    let sums = [row(3, 4, 1), row(7, 4, 1), row(0x10000, 10, 30)];
    for name in [KindName::Counts, KindName::Classes, KindName::Pages] {
        let merged = merge(alloc, name, lists.as_slice())?;
        assert_eq!(rt; merged.as_slice(), sums.as_slice());
    }
    Ok(())
}

#[test]
fn hot_rows_stand_by_their_runs_and_then_by_pc(rt: HostRuntime) -> Result<(), Fail> {
    let alloc = rt.alloc();
    let lists = tallies(alloc)?;
    let merged = merge(alloc, KindName::Hot, lists.as_slice())?;
    let hot = [row(0x10000, 10, 30), row(3, 4, 1), row(7, 4, 1)];
    assert_eq!(rt; merged.as_slice(), hot.as_slice());
    Ok(())
}

#[test]
fn traces_stand_one_after_the_other(rt: HostRuntime) -> Result<(), Fail> {
    let alloc = rt.alloc();
    let lists = tallies(alloc)?;
    let all = [
        row(7, 1, u64::MAX),
        row(0x10000, 2, 6),
        row(3, 4, 1),
        row(7, 3, 2),
        row(0x10000, 8, 24),
    ];
    for name in [KindName::Mem, KindName::Exec] {
        let merged = merge(alloc, name, lists.as_slice())?;
        assert_eq!(rt; merged.as_slice(), all.as_slice());
    }
    let own = merge(alloc, KindName::Own { number: 5 }, lists.as_slice())?;
    assert!(rt; own.is_empty());
    Ok(())
}
