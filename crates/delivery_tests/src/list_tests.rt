ghost use Rattle.std.specs.Prelude.{◌≡◌, ◌<◌, ◌∷◌, [], None, length, IfOk};
ghost use Rattle.watcher_api.specs.Acting.{acts_of};
ghost use Rattle.instr_lists.specs.Delivery.{acts_with};
ghost use Rattle.instr_lists.specs.Sorts.{LiesIn};

use block_finder::{Block, Site};
use flat_model::{
    Act, Ask, Class, Cond, Event, Filter, Kind, KindName, NoMemory, Op, SetSpec, Sub, Subs, What,
};
use instr_lists::{BlockList, ListCache, build, deliver};
use std::alloc::Global;
use std::test::Fail;
use watcher_api::{Asks, Attached, AttachedSet, HeldAct, Refuser, Watcher, names_its_entries};

// A word of a block at 0x10000.
fn site(pc: u64, word: u32, class: Class) -> Site {
    Site {
        pc,
        word,
        ins: None,
        class,
    }
}

// Four times `addi x0, x0, 0`, and three words that exit with 0.
fn code(alloc: Global) -> Result<Block, NoMemory>
    ensures place { IfOk result (λ block. block.pc ≡ 0x10000) }
    ensures n { IfOk result (λ block. block.n ≡ 7) }
    ensures sites { IfOk result (λ block. length block.sites ≡ 7) }
{
    let sites = [
        site(0x10000, 0x0000_0013, Class::Alu),
        site(0x10004, 0x0000_0013, Class::Alu),
        site(0x10008, 0x0000_0013, Class::Alu),
        site(0x1000C, 0x0000_0013, Class::Alu),
        site(0x10010, 0x05D0_0893, Class::Alu),
        site(0x10014, 0x0000_0513, Class::Alu),
        site(0x10018, 0x0000_0073, Class::System),
    ];
    Ok(Block {
        pc: 0x10000,
        n: 7,
        sites: Vec::from_slice(alloc, &sites)?,
    })
}

const INSNS: Filter = Filter {
    kinds: 4,
    lo: 0,
    hi: u64::MAX,
    classes: 511,
    rw: 3,
};

// Adds 1 at each instruction; where the entry is 3 then, calls the box and stores 0.
fn each_third(alloc: Global) -> Result<SetSpec, NoMemory> {
    let add = Act::Inline {
        op: Op::Add,
        entry: 0,
        imm: 1,
    };
    let when = Act::Cond {
        cond: Cond::Eq,
        entry: 0,
        imm: 3,
        then_store: Some(0),
        kind: Kind {
            name: KindName::Exec,
            quota: 0,
            ask: Ask::Stay,
        },
    };
    let subs = [
        Sub {
            filter: INSNS,
            act: add,
        },
        Sub {
            filter: INSNS,
            act: when,
        },
    ];
    Ok(SetSpec {
        entries: 1,
        subs: Subs::new(Vec::from_slice(alloc, &subs)?),
    })
}

// One set as plug-in 1, with one box.
fn attached<W: Watcher>(alloc: Global, spec: &SetSpec, watcher: W) -> Result<Attached<W>, NoMemory>
    requires blank { W.kind_of watcher ≡ None }
    ensures attached { IfOk result (λ a. acts_of a ≡ acts_with ((1, spec.now) ∷ [])) }
{
    if !names_its_entries(spec)
        || spec.subs.as_slice().len() > 16
        || Sub::calling(spec.subs.as_slice()) > 1
    {
        return Err(NoMemory);
    }
    let mut watchers = Vec::new(alloc);
    watchers.push(watcher)?;
    let set = AttachedSet::new(alloc, 1, spec, &mut watchers)?;
    let mut attached = Attached::new(alloc)?;
    attached.put(set);
    Ok(attached)
}

// Delivers one event.
fn step<W: Watcher>(
    list: &BlockList,
    e: Event,
    attached: &mut Attached<W>,
) -> Result<Asks, NoMemory>
    requires these { acts_of attached.old ≡ acts_with list.now.sets }
    requires lies { LiesIn list.now.block e.what }
    ensures same { acts_of attached.new ≡ acts_of attached.old }
{
    deliver(list, &[e], attached)
}

// How many events the box of the last act has heard, in which step the last of them, and what the entry is.
fn found<W: Watcher>(alloc: Global, set: AttachedSet<W>) -> Result<(usize, u64, u64), NoMemory> {
    let (mut held, column) = set.into_parts();
    let entry = if column.len() > 0 {
        column.get(0)
    } else {
        u64::MAX
    };
    let Some(HeldAct::Cond { watcher, .. }) = held.pop() else {
        return Ok((0, 0, entry));
    };
    let rows = watcher.tally(alloc)?;
    let step = rows.last().map_or(0, |row| row.b);
    Ok((rows.len(), step, entry))
}

// Delivers the first instructions of the code, so many of them, until a box finds no memory: how many were delivered.
fn walk<W: Watcher>(list: &BlockList, steps: u64, attached: &mut Attached<W>) -> u64
    requires few { steps < 8 }
    requires place { list.now.block.pc ≡ 0x10000 }
    requires sites { length list.now.block.sites ≡ 7 }
    requires these { acts_of attached.old ≡ acts_with list.now.sets }
{
    for i in 0..steps {
        let what = What::Insn {
            pc: 0x10000 + 4 * i,
            word: 0x13,
        };
        let e = Event {
            hart: 0,
            step: i + 1,
            what,
        };
        if step(list, e, attached).is_err() {
            return i;
        }
    }
    steps
}

// How many of them are delivered, and what they leave of the set, whose box refuses its call of a number.
fn run(alloc: Global, steps: u64, refused: u64) -> Result<(u64, (usize, u64, u64)), NoMemory>
    requires few { steps < 8 }
{
    let block = code(alloc)?;
    let sets = [(1u8, each_third(alloc)?)];
    let list = build(alloc, &block, &sets)?;
    let mut attached = attached(alloc, &sets[0].1, Refuser::blank(alloc, refused))?;
    let delivered = walk(&list, steps, &mut attached);
    match attached.take(1) {
        Some(set) => Ok((delivered, found(alloc, set)?)),
        None => Err(NoMemory),
    }
}

#[test]
fn the_box_is_called_at_the_third_and_the_sixth_instruction(rt: HostRuntime) -> Result<(), Fail> {
    let rows = [
        (2, 9, (2, (0, 0, 2))),
        (3, 9, (3, (1, 3, 0))),
        (7, 9, (7, (2, 6, 1))),
        (7, 1, (2, (0, 0, 3))),
        (7, 2, (5, (1, 3, 3))),
        (7, 3, (7, (2, 6, 1))),
    ];
    for (steps, refused, want) in rows {
        assert_eq!(rt; run(rt.alloc(), steps, refused)?, want);
    }
    Ok(())
}

#[test]
fn a_list_is_built_where_none_is_kept(rt: HostRuntime) -> Result<(), Fail> {
    let block = code(rt.alloc())?;
    let sets = [(1u8, each_third(rt.alloc())?)];
    let mut cache = ListCache::new(rt.alloc())?;
    assert_eq!(rt; cache.made(), 0);
    assert!(rt; cache.lookup(0, &block, &sets).is_ok());
    assert_eq!(rt; cache.made(), 1);
    Ok(())
}
