use flat_model::limits::{CLASSES_ALL, KIND_INSN, READS_AND_WRITES};
use flat_model::{Act, Ask, Filter, Kind, KindName, OrderRefusal, Plan, SetSpec, Sub, Subs};
use host_core::first_refused;
use std::alloc::Global;
use std::test::*;

// A set of one subscription, which counts the instructions from `lo` to 9.
fn counts(alloc: Global, lo: u64) -> Result<SetSpec, Fail> {
    let filter = Filter {
        kinds: KIND_INSN,
        lo,
        hi: 9,
        classes: CLASSES_ALL,
        rw: READS_AND_WRITES,
    };
    let kind = Kind {
        name: KindName::Counts,
        quota: 0,
        ask: Ask::Stay,
    };
    let act = Act::Call { kind };
    let subs = Subs::new(Vec::from_slice(alloc, &[Sub { filter, act }])?);
    Ok(SetSpec { entries: 0, subs })
}

// The plan that installs such sets.
fn plan(alloc: Global, los: &[u64]) -> Result<Plan, Fail> {
    let mut installs = Vec::new(alloc);
    for lo in los {
        installs.push(counts(alloc, *lo)?)?;
    }
    let script = Vec::new(alloc);
    Ok(Plan { installs, script })
}

#[test]
fn the_first_install_that_is_refused_is_named(rt: HostRuntime) -> Result<(), Fail> {
    let alloc = rt.alloc();
    let full = OrderRefusal::Full { count: 8 };
    let few = OrderRefusal::FewBoxes { need: 32, left: 0 };
    let range = OrderRefusal::BadRange { index: 0 };
    for (los, harts, refused) in [
        ([0; 9].as_slice(), 1, Some((8, full))),
        (&[0; 5], 32, Some((4, few))),
        (&[0, 9, 10, 0, 10], 2, Some((2, range))),
        (&[0; 8], 16, None),
        (&[], 1, None),
    ] {
        let plan = plan(alloc, los)?;
        assert_eq!(rt; first_refused(alloc, &plan, harts)?, refused);
    }
    Ok(())
}
