//! The slow reading: each event of a run against the filter of each subscription, one by one.

ghost use Rattle.std.specs.Prelude.{◌<◌};

use flat_model::{Act, Ask, Class, Cond, Event, Filter, Image, Kind, NoMemory, Op, SetSpec, What};
use rv_decode::word_class;
use std::alloc::Global;
use watcher_api::Asks;

/// What a run told: each event with the number of its delivery, and what each delivery answered.
#[derive(Drop)]
pub struct Told {
    pub events: Vec<(usize, Event)>,
    pub asks: Vec<Asks>,
}

/// An event that a box heard: that of a subscription, by its index, of a plug-in's set.
#[derive(Clone, Copy)]
struct Heard {
    plugin: u8,
    sub: usize,
    event: Event,
}

/// What the sets make of a run.
#[derive(Drop)]
pub struct Reading {
    heard: Vec<Heard>,
    /// Four entries of each plug-in.
    entries: [u64; 32],
    /// What each delivery should answer.
    pub asks: Vec<Asks>,
}

// The place of an entry of a plug-in.
fn place(plugin: u8, entry: u8) -> usize
    ensures { result < 32 }
{
    usize::from(plugin % 8) * 4 + usize::from(entry % 4)
}

// The bit of a class in a filter.
fn class_bit(class: Class) -> u16 {
    match class {
        Class::Alu => 0b0_0000_0001,
        Class::MulDiv => 0b0_0000_0010,
        Class::Load => 0b0_0000_0100,
        Class::Store => 0b0_0000_1000,
        Class::Branch => 0b0_0001_0000,
        Class::Jump => 0b0_0010_0000,
        Class::Atomic => 0b0_0100_0000,
        Class::System => 0b0_1000_0000,
        Class::Illegal => 0b1_0000_0000,
    }
}

// The number of a kind of event, the address of its word and whether its class matters, and its direction.
fn parts(what: &What) -> (u8, Option<(u64, bool)>, Option<u8>) {
    match *what {
        What::Init => (0, None, None),
        What::Block { pc, .. } => (1, Some((pc, false)), None),
        What::Insn { pc, .. } => (2, Some((pc, true)), None),
        What::Mem { pc, rw, .. } => (3, Some((pc, true)), Some(rw)),
        What::Sys { .. } => (4, None, None),
        What::SysRet { .. } => (5, None, None),
        What::Exit { .. } => (6, None, None),
    }
}

// Whether the filter lets the address and, where it matters, the class of the word there through.
fn has_word(image: &Image, filter: &Filter, pc: u64, classed: bool) -> bool {
    let bit = match image.word(pc) {
        Some(word) => class_bit(word_class(word)),
        None => 0,
    };
    filter.lo <= pc && pc <= filter.hi && (!classed || filter.classes & bit != 0)
}

// Whether the filter lets the event through.
fn lets_through(image: &Image, filter: &Filter, what: &What) -> bool {
    let (number, word, direction) = parts(what);
    let kinds = [1, 2, 4, 8, 16, 32, 64, 128];
    if filter.kinds & kinds[usize::from(number % 8)] == 0 {
        return false;
    }
    if let Some(rw) = direction
        && filter.rw & rw == 0
    {
        return false;
    }
    match word {
        Some((pc, classed)) => has_word(image, filter, pc, classed),
        None => true,
    }
}

// Whether the condition holds between two numbers.
fn holds(cond: Cond, value: u64, imm: u64) -> bool {
    match cond {
        Cond::Never => false,
        Cond::Always => true,
        Cond::Eq => value == imm,
        Cond::Ne => value != imm,
        Cond::Lt => value < imm,
        Cond::Le => value <= imm,
        Cond::Gt => value > imm,
        Cond::Ge => value >= imm,
    }
}

impl Reading {
    /// The events that a box heard.
    pub fn heard(&self, alloc: Global, plugin: u8, sub: usize) -> Result<Vec<Event>, NoMemory> {
        let mut events = Vec::new(alloc);
        for heard in &self.heard {
            if heard.plugin == plugin && heard.sub == sub {
                events.push(heard.event)?;
            }
        }
        Ok(events)
    }

    /// An entry of a plug-in.
    pub fn entry(&self, plugin: u8, entry: u8) -> u64 {
        self.entries[place(plugin, entry)]
    }

    // A box hears an event; what it asks for at its quota stands where its plug-in has asked for nothing yet.
    fn call(
        &mut self,
        plugin: u8,
        sub: usize,
        kind: Kind,
        event: Event,
        asks: &mut Asks,
    ) -> Result<(), NoMemory> {
        self.heard.push(Heard { plugin, sub, event })?;
        let calls = self
            .heard
            .iter()
            .filter(|heard| heard.plugin == plugin && heard.sub == sub)
            .count() as u64;
        let first = usize::from(plugin.wrapping_sub(1) % 8);
        if calls == kind.quota && asks.first[first] == Ask::Stay {
            asks.first[first] = kind.ask;
        }
        Ok(())
    }

    // Carries out the act of a subscription at an event.
    fn act(
        &mut self,
        plugin: u8,
        sub: usize,
        act: &Act,
        event: Event,
        asks: &mut Asks,
    ) -> Result<(), NoMemory> {
        match *act {
            Act::Call { kind } => self.call(plugin, sub, kind, event, asks),
            Act::Inline { op, entry, imm } => {
                let k = place(plugin, entry);
                self.entries[k] = match op {
                    Op::Add => self.entries[k].wrapping_add(imm),
                    Op::Store => imm,
                };
                Ok(())
            }
            Act::Cond {
                cond,
                entry,
                imm,
                then_store,
                kind,
            } => {
                let k = place(plugin, entry);
                if !holds(cond, self.entries[k], imm) {
                    return Ok(());
                }
                self.entries[k] = then_store.unwrap_or(self.entries[k]);
                self.call(plugin, sub, kind, event, asks)
            }
        }
    }

    // The acts of one set at an event.
    fn hear(
        &mut self,
        image: &Image,
        set: &(u8, SetSpec),
        event: Event,
        asks: &mut Asks,
    ) -> Result<(), NoMemory> {
        for (i, sub) in set.1.subs.as_slice().iter().enumerate() {
            if lets_through(image, &sub.filter, &event.what) {
                self.act(set.0, i, &sub.act, event, asks)?;
            }
        }
        Ok(())
    }

    // The events of one delivery.
    fn deliver(
        &mut self,
        image: &Image,
        sets: &[(u8, SetSpec); 2],
        told: &Told,
        number: usize,
    ) -> Result<(), NoMemory> {
        let mut asks = Asks::none();
        for (of, event) in &told.events {
            if *of == number {
                self.hear(image, &sets[0], *event, &mut asks)?;
                self.hear(image, &sets[1], *event, &mut asks)?;
            }
        }
        self.asks.push(asks)?;
        Ok(())
    }
}

/// What the sets make of all that a run told.
pub fn read(
    alloc: Global,
    image: &Image,
    sets: &[(u8, SetSpec); 2],
    told: &Told,
) -> Result<Reading, NoMemory> {
    let mut reading = Reading {
        heard: Vec::new(alloc),
        entries: [0; 32],
        asks: Vec::new(alloc),
    };
    for number in 0..told.asks.len() {
        reading.deliver(image, sets, told, number)?;
    }
    Ok(reading)
}
