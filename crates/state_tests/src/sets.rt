//! The sets of two plug-ins.

ghost use Rattle.std.specs.Prelude.{◌<◌, length};

use flat_model::limits::{CLASSES_ALL, KIND_INSN, READS_AND_WRITES};
use flat_model::{Act, Ask, Filter, Kind, KindName, NoMemory, Op, SetSpec, Sub, Subs};
use std::alloc::Global;

// A subscription to each instruction.
fn sub(act: Act) -> Sub {
    let filter = Filter {
        kinds: KIND_INSN,
        lo: 0,
        hi: u64::MAX,
        classes: CLASSES_ALL,
        rw: READS_AND_WRITES,
    };
    Sub { filter, act }
}

// Adds 1 to the entry.
fn add() -> Sub {
    sub(Act::Inline {
        op: Op::Add,
        entry: 0,
        imm: 1,
    })
}

// Calls a box of the kind.
fn call(name: KindName) -> Sub {
    let kind = Kind {
        name,
        quota: 0,
        ask: Ask::Stay,
    };
    sub(Act::Call { kind })
}

fn set(alloc: Global, entries: u8, subs: &[Sub]) -> Result<SetSpec, NoMemory>
    requires few { length subs.now < 9 }
{
    let subs = Subs::new(Vec::from_slice(alloc, subs)?);
    Ok(SetSpec { entries, subs })
}

/// The sets of the first plug-ins, two at most. The first has one entry, an addition to it and a call; the second has no entry
/// and two calls.
pub fn sets(alloc: Global, plugins: usize) -> Result<Vec<SetSpec>, NoMemory> {
    let mut sets = Vec::new(alloc);
    if plugins > 0 {
        sets.push(set(alloc, 1, &[add(), call(KindName::Exec)])?)?;
    }
    if plugins > 1 {
        let calls = [call(KindName::Exec), call(KindName::Counts)];
        sets.push(set(alloc, 0, &calls)?)?;
    }
    Ok(sets)
}
