ghost use Rattle.std.specs.Prelude.{◌<◌, length};

use flat_model::limits::{CLASSES_ALL, KIND_INSN, READS_AND_WRITES};
use flat_model::{
    Act, Ask, Filter, How, Kind, KindName, Op, Order, OrderRefusal, PlugState, SetSpec, Sub, Subs,
};
use plug_registry::Registry;
use std::alloc::Global;
use std::test::*;

fn sub(lo: u64, hi: u64, act: Act) -> Sub {
    let filter = Filter {
        kinds: KIND_INSN,
        lo,
        hi,
        classes: CLASSES_ALL,
        rw: READS_AND_WRITES,
    };
    Sub { filter, act }
}

fn call() -> Act {
    let kind = Kind {
        name: KindName::Exec,
        quota: 0,
        ask: Ask::Stay,
    };
    Act::Call { kind }
}

fn add(entry: u8) -> Act {
    let op = Op::Add;
    Act::Inline { op, entry, imm: 1 }
}

// A set with one entry.
fn set(alloc: Global, list: &[Sub]) -> Result<SetSpec, Fail>
    requires { length list.now < 9 }
{
    let subs = Subs::new(Vec::from_slice(alloc, list)?);
    Ok(SetSpec { entries: 1, subs })
}

// A set that calls so often, twice at most.
fn calls(alloc: Global, number: u8) -> Result<SetSpec, Fail> {
    let one = sub(0, 9, call());
    match number {
        0 => set(alloc, &[sub(0, 9, add(0))]),
        1 => set(alloc, &[one]),
        _ => set(alloc, &[one, one]),
    }
}

#[test]
fn a_fresh_registry_refuses_by_the_first_broken_rule(rt: HostRuntime) -> Result<(), Fail> {
    let alloc = rt.alloc();
    let registry = Registry::new(alloc, 2, 128)?;
    let plugin = 1;
    let none = OrderRefusal::NoPlugin { plugin, count: 0 };
    assert_eq!(rt; registry.check(&Order::Reset { plugin }), Err(none));
    let one = sub(0, 9, call());
    let many = OrderRefusal::TooManySubs {
        subs: 3,
        calling: 3,
    };
    let beyond = |index: u32| OrderRefusal::BadEntry {
        index,
        entry: 1,
        entries: 1,
    };
    for (list, refusal) in [
        ([one, one, one].as_slice(), many),
        (&[sub(2, 1, add(1))], OrderRefusal::BadRange { index: 0 }),
        (&[sub(0, 9, add(1))], beyond(0)),
        (&[one, sub(0, 9, add(1))], beyond(1)),
    ] {
        let spec = set(alloc, list)?;
        assert_eq!(rt; registry.check(&Order::Install { spec }), Err(refusal));
    }
    let spec = set(alloc, &[one, one])?;
    let few = OrderRefusal::FewBoxes { need: 16, left: 8 };
    let small = Registry::new(alloc, 8, 8)?;
    assert_eq!(rt; small.check(&Order::Install { spec }), Err(few));
    Ok(())
}

#[derive(Clone, Copy)]
enum Step {
    Install { calls: u8 },
    Register { plugin: u8 },
    Reset { plugin: u8 },
    Uninstall { plugin: u8 },
    Back { hart: u8, plugin: u8 },
    Done { plugin: u8 },
    Leave { hart: u8 },
}

// Places an order where it is allowed, and else gives its refusal.
fn place(registry: &mut Registry, order: Order) -> Result<Option<OrderRefusal>, Fail> {
    if let Err(refusal) = registry.check(&order) {
        return Ok(Some(refusal));
    }
    registry.reserve_for(&order)?;
    registry.apply(order);
    Ok(None)
}

fn take(alloc: Global, registry: &mut Registry, step: Step) -> Result<Option<OrderRefusal>, Fail> {
    match step {
        Step::Install { calls: number } => {
            let spec = calls(alloc, number)?;
            return place(registry, Order::Install { spec });
        }
        Step::Register { plugin } => {
            let spec = calls(alloc, 1)?;
            return place(registry, Order::Register { plugin, spec });
        }
        Step::Reset { plugin } => return place(registry, Order::Reset { plugin }),
        Step::Uninstall { plugin } => return place(registry, Order::Uninstall { plugin }),
        Step::Back { hart, plugin } if registry.outstanding(hart, plugin) => {
            registry.back(hart, plugin)
        }
        Step::Done { plugin } if registry.complete(plugin) => registry.done(plugin),
        Step::Leave { hart } if hart < registry.harts() => registry.left(hart),
        _ => return Err("not now".into()),
    }
    Ok(None)
}

// For each of two plug-ins its state, whether its set is being given back, and how many of two harts owe their Back.
fn seen(registry: &Registry) -> [(Option<PlugState>, bool, u8); 2] {
    let of = |plugin: u8| {
        let owing = u8::from(registry.outstanding(0, plugin))
            + u8::from(registry.outstanding(1, plugin));
        (
            registry.state(plugin),
            registry.is_withdrawing(plugin),
            owing,
        )
    };
    [of(1), of(2)]
}

#[test]
fn orders_and_duties_of_two_harts_in_a_row(rt: HostRuntime) -> Result<(), Fail> {
    let alloc = rt.alloc();
    let mut registry = Registry::new(alloc, 2, 6)?;
    let refused = |plugin: u8, state: PlugState| Some(OrderRefusal::State { plugin, state });
    let (live, idle, gone) = (
        Some(PlugState::Live),
        Some(PlugState::Idle),
        Some(PlugState::Gone),
    );
    let (resetting, leaving) = (Some(PlugState::Resetting), Some(PlugState::Leaving));
    let none = (None, false, 0);
    let few = OrderRefusal::FewBoxes { need: 4, left: 2 };
    for (step, refusal, one, two, boxes) in [
        (Step::Install { calls: 1 }, None, (live, false, 0), none, 4),
        (
            Step::Register { plugin: 1 },
            refused(1, PlugState::Live),
            (live, false, 0),
            none,
            4,
        ),
        (
            Step::Reset { plugin: 1 },
            None,
            (resetting, true, 2),
            none,
            4,
        ),
        (
            Step::Back { hart: 0, plugin: 1 },
            None,
            (resetting, true, 1),
            none,
            4,
        ),
        (
            Step::Uninstall { plugin: 1 },
            refused(1, PlugState::Resetting),
            (resetting, true, 1),
            none,
            4,
        ),
        (Step::Leave { hart: 1 }, None, (resetting, true, 0), none, 4),
        (Step::Done { plugin: 1 }, None, (idle, false, 0), none, 4),
        (
            Step::Reset { plugin: 1 },
            refused(1, PlugState::Idle),
            (idle, false, 0),
            none,
            4,
        ),
        (
            Step::Register { plugin: 1 },
            None,
            (live, false, 0),
            none,
            2,
        ),
        (
            Step::Install { calls: 2 },
            Some(few),
            (live, false, 0),
            none,
            2,
        ),
        (
            Step::Install { calls: 0 },
            None,
            (live, false, 0),
            (live, false, 0),
            2,
        ),
        (
            Step::Reset { plugin: 2 },
            None,
            (live, false, 0),
            (resetting, true, 1),
            2,
        ),
        (
            Step::Back { hart: 0, plugin: 2 },
            None,
            (live, false, 0),
            (resetting, true, 0),
            2,
        ),
        (
            Step::Done { plugin: 2 },
            None,
            (live, false, 0),
            (idle, false, 0),
            2,
        ),
        (
            Step::Uninstall { plugin: 1 },
            None,
            (leaving, true, 1),
            (idle, false, 0),
            2,
        ),
        (
            Step::Uninstall { plugin: 2 },
            None,
            (leaving, true, 1),
            (leaving, false, 1),
            2,
        ),
        (
            Step::Back { hart: 0, plugin: 1 },
            None,
            (leaving, true, 0),
            (leaving, false, 1),
            2,
        ),
        (
            Step::Done { plugin: 1 },
            None,
            (gone, false, 0),
            (leaving, false, 1),
            2,
        ),
        (
            Step::Register { plugin: 1 },
            refused(1, PlugState::Gone),
            (gone, false, 0),
            (leaving, false, 1),
            2,
        ),
        (
            Step::Leave { hart: 0 },
            None,
            (gone, false, 0),
            (leaving, false, 0),
            2,
        ),
        (
            Step::Done { plugin: 2 },
            None,
            (gone, false, 0),
            (gone, false, 0),
            2,
        ),
    ] {
        assert_eq!(rt; take(alloc, &mut registry, step)?, refusal);
        assert_eq!(rt; seen(&registry), [one, two]);
        assert_eq!(rt; registry.boxes(), boxes);
    }
    assert_eq!(rt;
        (
            registry.count(),
            registry.specs(1).len(),
            registry.specs(2).len()
        ),
        (2, 2, 1)
    );
    let ended = [
        registry.ending(1, 0),
        registry.ending(1, 1),
        registry.ending(1, 2),
        registry.ending(2, 0),
    ];
    assert_eq!(rt;
        ended,
        [
            Some(How::Reset),
            Some(How::Uninstall),
            None,
            Some(How::Reset)
        ]
    );
    assert_eq!(rt;
        [
            registry.has_left(0),
            registry.has_left(1),
            registry.has_left(2)
        ],
        [true, true, false]
    );
    Ok(())
}
