//! Blocks whose events need not be stored.

ghost use Rattle.std.specs.Prelude.{◌≡◌, length};

use crate::guests::{PAST_THE_CODE, PAST_THE_DATA, ROUNDS, image_of};
use crate::runs::outcome_of;
use block_finder::{Block, find};
use flat_model::{Act, Ask, Filter, Kind, KindName, NoMemory, Op, SetSpec, Sub, Subs};
use instr_lists::build;
use std::alloc::Global;
use std::test::Fail;

const MAX: u64 = u64::MAX;

const ADD: Act = Act::Inline {
    op: Op::Add,
    entry: 0,
    imm: 1,
};

const STORE: Act = Act::Inline {
    op: Op::Store,
    entry: 0,
    imm: 1,
};

const CALL: Act = Act::Call {
    kind: Kind {
        name: KindName::Counts,
        quota: 0,
        ask: Ask::Stay,
    },
};

// A subscription to kinds of events of words of these classes, between two addresses.
fn to(kinds: u8, lo: u64, hi: u64, classes: u16, act: Act) -> Sub {
    let filter = Filter {
        kinds,
        lo,
        hi,
        classes,
        rw: 3,
    };
    Sub { filter, act }
}

fn set_of(alloc: Global, subs: &[Sub]) -> Result<SetSpec, NoMemory> {
    if subs.len() > 16 {
        return Err(NoMemory);
    }
    Ok(SetSpec {
        entries: 2,
        subs: Subs::new(Vec::from_slice(alloc, subs)?),
    })
}

// Adds so much to an entry.
fn add(entry: u8, imm: u64) -> Act {
    Act::Inline {
        op: Op::Add,
        entry,
        imm,
    }
}

/// Counts instructions in entry 0 and tens of blocks in entry 1.
pub fn adding(alloc: Global) -> Result<SetSpec, NoMemory> {
    let subs = [
        to(0x04, 0, MAX, 0x1FF, add(0, 1)),
        to(0x02, 0, MAX, 0, add(1, 10)),
    ];
    set_of(alloc, &subs)
}

// Takes 1 from entry 0 at each store, and adds 7 to entry 1 at the word at 0x10008; both words are of the first block that
// is gone through more than once.
fn taking(alloc: Global) -> Result<SetSpec, NoMemory> {
    let subs = [
        to(0x04, 0, MAX, 0x008, add(0, MAX)),
        to(0x06, 0x10008, 0x10008, 0x1FF, add(1, 7)),
    ];
    set_of(alloc, &subs)
}

#[test]
fn adds_are_delivered_by_the_number_of_words(rt: HostRuntime) -> Result<(), Fail> {
    let alloc = rt.alloc();
    // The second guest faults inside a block, and the third where no word is.
    let rows = [
        (ROUNDS.as_slice(), [34, 50, MAX - 5, 35]),
        (PAST_THE_DATA.as_slice(), [9, 30, MAX - 2, 35]),
        (PAST_THE_CODE.as_slice(), [2, 10, 0, 0]),
    ];
    for (words, entries) in rows {
        let outcome = outcome_of(alloc, words, adding(alloc)?, taking(alloc)?)?;
        assert!(rt; outcome.agrees);
        assert_eq!(rt; outcome.entries.as_slice(), entries.as_slice());
    }
    Ok(())
}

// Whether nothing hears the block's events, and whether all that is done at them is to add, under this subscription.
fn judged(alloc: Global, block: &Block, sub: Sub) -> Result<(bool, bool), NoMemory>
    requires whole { length block.now.sites ≡ block.now.n }
{
    let sets = [(3u8, set_of(alloc, &[sub])?)];
    let list = build(alloc, block, &sets)?;
    Ok((list.is_silent(), list.adds_alone()))
}

#[test]
fn a_list_tells_whether_events_need_to_be_stored(rt: HostRuntime) -> Result<(), Fail> {
    let alloc = rt.alloc();
    let image = image_of(alloc, &ROUNDS)?;
    let block = find(alloc, &image, 0x10008)?;
    let rows = [
        (to(0x04, 0, MAX, 0x1FF, ADD), (false, true)),
        (to(0x02, 0x10008, 0x10008, 0, ADD), (false, true)),
        (to(0x04, 0x10028, MAX, 0x1FF, CALL), (true, true)),
        (to(0x0E, 0, 0x10007, 0x1FF, CALL), (true, true)),
        (to(0x04, 0, MAX, 0x100, STORE), (true, true)),
        (to(0x04, 0, MAX, 0x1FF, STORE), (false, false)),
        (to(0x04, 0, MAX, 0x1FF, CALL), (false, false)),
        (to(0x0C, 0, MAX, 0x1FF, ADD), (false, false)),
        (to(0x44, 0, MAX, 0x1FF, ADD), (false, false)),
        (to(0x01, 0, MAX, 0x1FF, CALL), (false, false)),
    ];
    for (sub, want) in rows {
        assert_eq!(rt; judged(alloc, &block, sub)?, want);
    }
    Ok(())
}
