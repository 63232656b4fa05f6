use crate::guests::{PAST_THE_CODE, PAST_THE_DATA, ROUNDS};
use crate::runs::{Outcome, outcome_of};
use flat_model::{Act, Ask, Cond, Filter, Kind, KindName, NoMemory, Op, SetSpec, Sub, Subs};
use std::alloc::Global;
use std::test::Fail;

const STAYING: Kind = Kind {
    name: KindName::Exec,
    quota: 0,
    ask: Ask::Stay,
};

const fn filter(kinds: u8, lo: u64, hi: u64, classes: u16, rw: u8) -> Filter {
    Filter {
        kinds,
        lo,
        hi,
        classes,
        rw,
    }
}

const MAX: u64 = u64::MAX;

// Kinds, the least and the greatest pc, classes and directions; and how many events of the three guests pass. The first
// guest gives 1 Init, 5 Block, 34 Insn (14 alu, 3 muldiv, 3 load, 6 store, 3 branch, 3 atomic, 2 system), 12 Mem, 2 Sys,
// 1 SysRet and 1 Exit; the second 1 Init, 3 Block, 9 Insn (4 alu, 3 store, 2 jump), 2 Mem and 1 Exit; the third 1 Init,
// 1 Block, 2 Insn (1 alu, 1 jump) and 1 Exit.
const FILTERS: [(u8, u64, u64, u16, u8, [u64; 3]); 24] = [
    (0x7F, 0, MAX, 0x1FF, 3, [56, 16, 5]),
    (0x01, 0, MAX, 0x1FF, 3, [1, 1, 1]),
    (0x02, 0, MAX, 0x1FF, 3, [5, 3, 1]),
    (0x04, 0, MAX, 0x1FF, 3, [34, 9, 2]),
    (0x08, 0, MAX, 0x1FF, 3, [12, 2, 0]),
    (0x10, 0, MAX, 0x1FF, 3, [2, 0, 0]),
    (0x20, 0, MAX, 0x1FF, 3, [1, 0, 0]),
    (0x40, 0, MAX, 0x1FF, 3, [1, 1, 1]),
    (0x00, 0, MAX, 0x1FF, 3, [0, 0, 0]),
    // Directions: an AMO is both a load and a store.
    (0x08, 0, MAX, 0x1FF, 1, [6, 0, 0]),
    (0x08, 0, MAX, 0x1FF, 2, [9, 2, 0]),
    (0x08, 0, MAX, 0x1FF, 0, [0, 0, 0]),
    // Classes: they are asked of Insn and Mem alone.
    (0x04, 0, MAX, 0x001, 0, [14, 4, 1]),
    (0x04, 0, MAX, 0x030, 0, [3, 2, 1]),
    (0x0C, 0, MAX, 0x040, 3, [6, 0, 0]),
    (0x0C, 0, MAX, 0x008, 3, [12, 5, 0]),
    (0x08, 0, MAX, 0x008, 1, [0, 0, 0]),
    (0x7F, 0, MAX, 0x000, 3, [10, 5, 3]),
    // Addresses, both bounds included: they are asked of Block, Insn and Mem alone.
    (0x04, 0x10008, 0x10008, 0x1FF, 0, [3, 3, 0]),
    (0x02, 0x10008, 0x10027, 0, 0, [2, 2, 0]),
    (0x06, 0x10024, 0x10028, 0x1FF, 0, [5, 0, 0]),
    (0x7F, 1, 0, 0x1FF, 3, [5, 2, 2]),
    (0x7F, 0x10014, 0x10014, 0x1FF, 3, [11, 2, 2]),
    (0x04, 0x1003C, MAX, 0x1FF, 0, [3, 0, 0]),
];

// A set with a call for each of twelve rows of the table.
fn rows(alloc: Global, from: usize) -> Result<SetSpec, NoMemory> {
    let mut subs = Vec::new(alloc);
    for (kinds, lo, hi, classes, rw, _) in FILTERS.iter().skip(from).take(12) {
        subs.push(Sub {
            filter: filter(*kinds, *lo, *hi, *classes, *rw),
            act: Act::Call { kind: STAYING },
        })?;
    }
    if subs.len() > 16 {
        return Err(NoMemory);
    }
    Ok(SetSpec {
        entries: 0,
        subs: Subs::new(subs),
    })
}

#[test]
fn each_box_hears_what_its_filter_lets_through(rt: HostRuntime) -> Result<(), Fail> {
    let alloc = rt.alloc();
    let guests = [
        ROUNDS.as_slice(),
        PAST_THE_DATA.as_slice(),
        PAST_THE_CODE.as_slice(),
    ];
    for (g, words) in guests.iter().enumerate() {
        let outcome = outcome_of(alloc, words, rows(alloc, 0)?, rows(alloc, 12)?)?;
        assert!(rt; outcome.agrees, "guest {g}");
        let want = FILTERS.map(|row| row.5[g % 3]);
        assert_eq!(rt; outcome.heard.as_slice(), want.as_slice(), "guest {g}");
    }
    Ok(())
}

// A subscription to kinds, everywhere and at any class and direction.
fn to(kinds: u8, act: Act) -> Sub {
    Sub {
        filter: filter(kinds, 0, MAX, 0x1FF, 3),
        act,
    }
}

// The same to words of these classes and directions.
fn to_words(kinds: u8, classes: u16, rw: u8, act: Act) -> Sub {
    Sub {
        filter: filter(kinds, 0, MAX, classes, rw),
        act,
    }
}

fn set_of(alloc: Global, entries: u8, subs: [Sub; 5]) -> Result<SetSpec, NoMemory> {
    Ok(SetSpec {
        entries,
        subs: Subs::new(Vec::from_slice(alloc, &subs)?),
    })
}

const RESET_AT_1: Kind = Kind {
    name: KindName::Counts,
    quota: 1,
    ask: Ask::Reset,
};

const RESET_AT_2: Kind = Kind {
    name: KindName::Counts,
    quota: 2,
    ask: Ask::Reset,
};

const UNINSTALL_AT_3: Kind = Kind {
    name: KindName::Counts,
    quota: 3,
    ask: Ask::Uninstall,
};

const UNINSTALL_AT_4: Kind = Kind {
    name: KindName::Counts,
    quota: 4,
    ask: Ask::Uninstall,
};

// Counts instructions in entry 0, and at the first access from the fifth on calls a box and counts from 0 again; notes the
// block at 0x10028 in entry 1; asks for Reset at the second block and for Uninstall at the third load.
fn counting(alloc: Global) -> Result<SetSpec, NoMemory> {
    let add = Act::Inline {
        op: Op::Add,
        entry: 0,
        imm: 1,
    };
    let fifth = Act::Cond {
        cond: Cond::Ge,
        entry: 0,
        imm: 5,
        then_store: Some(0),
        kind: STAYING,
    };
    let store = Act::Inline {
        op: Op::Store,
        entry: 1,
        imm: 7,
    };
    let subs = [
        to(0x04, add),
        to(0x08, fifth),
        Sub {
            filter: filter(0x02, 0x10028, 0x10028, 0, 0),
            act: store,
        },
        to(0x02, Act::Call { kind: RESET_AT_2 }),
        to_words(
            0x08,
            0x1FF,
            1,
            Act::Call {
                kind: UNINSTALL_AT_3,
            },
        ),
    ];
    set_of(alloc, 3, subs)
}

// What the plug-in at a place asked for first at each of five deliveries; Stay where there were fewer.
fn asks_of(outcome: &Outcome, place: usize) -> [Ask; 5] {
    let mut first = [Ask::Stay; 5];
    for (k, asks) in outcome.asks.iter().enumerate().take(5) {
        first[k % 5] = asks.first[place % 8];
    }
    first
}

// Asks for Uninstall at the fourth alu word and for Reset at the first; takes 1 from entry 0 at each store, and calls a box
// at services and the exit where nine were taken; calls a box at the first Init or Block alone.
fn taking(alloc: Global) -> Result<SetSpec, NoMemory> {
    let less = Act::Inline {
        op: Op::Add,
        entry: 0,
        imm: MAX,
    };
    let nine = Act::Cond {
        cond: Cond::Eq,
        entry: 0,
        imm: MAX - 8,
        then_store: None,
        kind: UNINSTALL_AT_3,
    };
    let once = Act::Cond {
        cond: Cond::Lt,
        entry: 1,
        imm: 8,
        then_store: Some(9),
        kind: STAYING,
    };
    let subs = [
        to_words(
            0x04,
            0x001,
            0,
            Act::Call {
                kind: UNINSTALL_AT_4,
            },
        ),
        to_words(0x04, 0x001, 0, Act::Call { kind: RESET_AT_1 }),
        to_words(0x08, 0x1FF, 2, less),
        to(0x70, nine),
        to(0x03, once),
    ];
    set_of(alloc, 2, subs)
}

#[test]
fn acts_are_carried_out_and_first_asks_answered(rt: HostRuntime) -> Result<(), Fail> {
    let alloc = rt.alloc();
    let (stay, reset, uninstall) = (Ask::Stay, Ask::Reset, Ask::Uninstall);
    // The guest and its deliveries, what each box heard, the entries, and the asks of both plug-ins at each delivery.
    let rows = [
        (
            (ROUNDS.as_slice(), 5),
            [4, 5, 6, 14, 14, 4, 1],
            [13, 7, 0, MAX - 8, 9],
            [stay, reset, stay, stay, stay],
            [reset, stay, stay, stay, uninstall],
        ),
        (
            (PAST_THE_DATA.as_slice(), 3),
            [1, 3, 0, 4, 4, 0, 1],
            [3, 0, 0, MAX - 1, 9],
            [stay, reset, stay, stay, stay],
            [reset, uninstall, stay, stay, stay],
        ),
    ];
    for ((words, deliveries), heard, entries, first, second) in rows {
        let outcome = outcome_of(alloc, words, counting(alloc)?, taking(alloc)?)?;
        assert!(rt; outcome.agrees);
        assert_eq!(rt; outcome.heard.as_slice(), heard.as_slice());
        assert_eq!(rt; outcome.entries.as_slice(), entries.as_slice());
        assert_eq!(rt; outcome.asks.len(), deliveries);
        assert_eq!(rt; asks_of(&outcome, 0), first);
        assert_eq!(rt; asks_of(&outcome, 1), second);
    }
    Ok(())
}
