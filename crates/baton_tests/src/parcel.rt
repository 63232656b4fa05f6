//! A box of what harts share.
ghost use Rattle.std.specs.Prelude.{◌≡◌, ◌∷◌, [], IfOk};
ghost use Rattle.flat_model.specs.declared.journals.Item.TheVariants.{Step};
ghost use Rattle.baton_gate.specs.Passes.{carries};
ghost use Rattle.baton_tests.specs.Turns.{IsFree};

use crate::passes::both_of;
use baton_gate::{Gate, Kept, Pass};
use flat_model::{Image, Item, Mode, NoMemory, Order, SetSpec, Subs, Trace};
use guest_memory::Memory;
use rv_exec::{Hart, RawLog, Services};
use std::alloc::Global;
use std::sync::Wait;
use std::thread::{Threads, join};

/// What two harts share of a machine, its plug-ins and its past.
#[derive(Drop)]
pub struct Parcel {
    pub number: u8,
    /// How many holds there were.
    pub holds: u32,
    pub hart: Hart,
    pub memory: Memory,
    pub services: Services,
    pub events: RawLog,
    pub image: Image,
    pub order: Order,
    pub spec: SetSpec,
    pub past: Trace<Item>,
}

impl Kept for Parcel {
    type Item = Item;

    type Frame = u8;

    ghost use Rattle.flat_model.specs.Log.{party};

    ghost log = { λ p. p.past.items };

    ghost party = { party };

    ghost frame = { λ p. p.number };

    ghost caught_up = { λ p. Unit {0} };
}

impl Parcel {
    /// What two harts share before the first step of the image's program.
    pub fn new(alloc: Global, image: Image) -> Result<Parcel, NoMemory>
        ensures { IfOk result (λ p. p.past.items ≡ []) }
    {
        Ok(Parcel {
            number: 7,
            holds: 0,
            hart: Hart::first(&image, 0, 2, Mode::All),
            memory: Memory::new(alloc, &image, 2)?,
            services: Services::new(alloc, &image, 2, Mode::All)?,
            events: RawLog::new(alloc)?,
            image,
            order: Order::Reset { plugin: 1 },
            spec: SetSpec {
                entries: 3,
                subs: Subs::new(Vec::new(alloc)),
            },
            past: Trace::new(),
        })
    }

    /// Adds a step of the hart to the past.
    pub fn add(&mut self, hart: u8)
        ensures past { self.new.past.items ≡ Step hart ∷ self.old.past.items }
        ensures number { self.new.number ≡ self.old.number }
    {
        self.holds = self.holds.saturating_add(1);
        let item = Item::Step { hart };
        self.past = self.past.before(&item);
        end(item);
    }
}

// An item isn't `Drop`.
fn end(item: Item) {
    match item {
        Item::Ordered { origin: _, order } => drop(order),
        Item::Step { hart: _ } | Item::Left { hart: _ } => {}
        Item::GaveBack { hart: _, plugin: _ } | Item::Got { hart: _, plugin: _ } => {}
        Item::Told {
            party: _,
            plugin: _,
        }
        | Item::Took {
            party: _,
            plugin: _,
        } => {}
    }
}

// One hold, which adds a step of the pass's party.
fn add<R: Wait>(rt: &R, gate: &Gate<Box<Parcel>>, pass: &mut Pass<Box<Parcel>>)
    requires { IsFree gate.now pass.old }
    ensures free { IsFree gate.now pass.new }
    ensures frame { carries pass.new ≡ carries pass.old }
{
    let mut parcel = gate.take(rt, pass);
    parcel.add(pass.party());
    gate.give(rt, pass, parcel);
}

// So many holds.
fn add_all<R: Wait>(
    rt: &R,
    gate: &Gate<Box<Parcel>>,
    mut pass: Pass<Box<Parcel>>,
    count: u32,
) -> Pass<Box<Parcel>>
    requires { IsFree gate.now pass }
    ensures { IsFree gate.now result × (carries result ≡ carries pass) }
{
    for _ in 0..count {
        add(rt, gate, &mut pass);
    }
    pass
}

/// Two harts add so many steps each to the past of the parcel, in threads of their own, and a take finds it again.
pub fn add_by_two<R: Threads + Wait + Sync>(
    rt: &R,
    alloc: Global,
    parcel: Box<Parcel>,
    count: u32,
) -> Result<Box<Parcel>, NoMemory>
    ensures { IfOk result (λ p. p.value.number ≡ parcel.value.number) }
{
    let (gate, passes) = Gate::new(rt, alloc, parcel, 2)?;
    let (first, second) = both_of(passes);
    let shared = &gate;
    let (mut first, second) = join(
        rt,
        move || -> Pass<Box<Parcel>>
            requires free { IsFree shared.now first }
            ensures { IsFree shared.entry.now result × (carries result ≡ carries first) }
        { add_all(rt, shared, first, count) },
        move || -> Pass<Box<Parcel>>
            requires free { IsFree shared.now second }
            ensures { IsFree shared.entry.now result × (carries result ≡ carries second) }
        { add_all(rt, shared, second, count) },
    );
    gate.join(&mut first, second);
    Ok(gate.take(rt, &mut first))
}
