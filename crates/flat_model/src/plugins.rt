//! What a plug-in subscribes to.

ghost use Rattle.std.specs.Prelude.{◌≡◌, ◌==◌, ◌<◌, ◌^◌, length, IfOk};
ghost use Rattle.flat_model.specs.Asks.{stays};

use crate::refusals::NoMemory;
use std::alloc::Global;
use std::marker::Model;

/// Which events a subscription hears. `docs/plug-ins.md` has the bits.
#[derive(Clone, Copy, Debug, PartialEq, Eq)]
pub struct Filter {
    /// A bit for each of Init 0, Block 1, Insn 2, Mem 3, Sys 4, SysRet 5, Exit 6.
    pub kinds: u8,
    /// The least pc of Block, Insn and Mem events.
    pub lo: u64,
    /// The greatest pc of Block, Insn and Mem events.
    pub hi: u64,
    /// A bit for each class: alu 0, muldiv 1, load 2, store 3, branch 4, jump 5, atomic 6, system 7, illegal 8.
    pub classes: u16,
    /// A bit for each direction: 1 for loads, 2 for stores, 3 for both.
    pub rw: u8,
}

/// What a box counts or keeps.
#[derive(Clone, Copy, Debug, PartialEq, Eq)]
pub enum KindName {
    Counts,
    Hot,
    Mem,
    Exec,
    Classes,
    Pages,
    /// A kind of the caller's own.
    Own { number: u32 },
}

/// What a box asks for at its quota.
#[derive(Clone, Copy, Debug, PartialEq, Eq)]
pub enum Ask {
    Stay,
    Reset,
    Uninstall,
}

/// The kind of a box, and its quota of calls: 0 for none.
#[derive(Clone, Copy, Debug, PartialEq, Eq)]
pub struct Kind {
    pub name: KindName,
    /// The number of the call at which the box asks; 0 exactly where `ask` is Stay.
    pub quota: u64,
    pub ask: Ask,
    pub ghost asks_at_quota: { stays ask ≡ (quota == 0) },
}

/// An inline operation on an entry.
#[derive(Clone, Copy, Debug, PartialEq, Eq)]
pub enum Op {
    /// Adds modulo 2^64.
    Add,
    Store,
}

/// A comparison of an entry with an immediate, both unsigned.
#[derive(Clone, Copy, Debug, PartialEq, Eq)]
pub enum Cond {
    Never,
    Always,
    Eq,
    Ne,
    Lt,
    Le,
    Gt,
    Ge,
}

/// What is done at each matching event.
#[derive(Clone, Copy, Debug, PartialEq, Eq)]
pub enum Act {
    Call {
        kind: Kind,
    },
    Inline {
        op: Op,
        entry: u8,
        imm: u64,
    },
    /// A call where the condition holds between the entry and `imm`; then `then_store` is stored, where given.
    Cond {
        cond: Cond,
        entry: u8,
        imm: u64,
        then_store: Option<u64>,
        kind: Kind,
    },
}

impl Act {
    ghost use Rattle.flat_model.specs.Acts.{calls};

    /// Whether the act calls a box.
    pub fn calls(&self) -> bool
        ensures calls { result ≡ calls self.now }
    {
        match self {
            Act::Call { .. } | Act::Cond { .. } => true,
            Act::Inline { .. } => false,
        }
    }
}

/// A subscription.
#[derive(Clone, Copy, Debug, PartialEq, Eq)]
pub struct Sub {
    pub filter: Filter,
    pub act: Act,
}

impl Sub {
    ghost use Rattle.flat_model.specs.Acts.{calling};

    /// How many of the subscriptions call a box.
    pub fn calling(subs: &[Sub]) -> usize
        ensures calling { result ≡ calling subs.now }
    {
        subs.iter().filter(|sub| sub.act.calls()).count()
    }
}

/// A list of subscriptions, fewer than 2^32.
#[derive(Debug, Drop)]
pub struct Subs {
    subs: Vec<Sub>,
}

impl Model for Subs {
    ghost use Rattle.std.specs.Prelude.{◌<◌, ◌^◌, List, length};
    ghost use Rattle.flat_model.specs.declared.plugins.Sub.{Sub};

    ghost Value = { List Sub };

    ghost view = { λ s. s.subs.items };

    ghost invariant = { λ s. length s.subs.items < 2 ^ 32 };
}

impl Subs {
    /// The subscriptions of `subs`, in order.
    pub fn new(subs: Vec<Sub>) -> Subs
        requires { length subs.items < 2 ^ 32 }
        ensures { result ≡ subs.items }
    {
        Subs { subs }
    }

    pub fn as_slice(&self) -> &[Sub]
        ensures subscriptions { result.now ≡ self.now }
        ensures fewer { length self.now < 2 ^ 32 }
    {
        &self.subs
    }
}

impl PartialEq for Subs {
    ghost use Rattle.std.specs.Cmp.Lexicographic.{pointwise, lists_per};
    ghost use Rattle.flat_model.specs.contracts.plugins.SubPartialEq.TheImpl.Laws.{laws-law};

    ghost eq = { pointwise ⟦<Sub as PartialEq>⟧.eq };

    ghost laws = { lists_per laws-law };

    fn eq(&self, other: &Subs) -> bool {
        self.as_slice() == other.as_slice()
    }
}

impl Eq for Subs {
    ghost use Rattle.std.specs.Cmp.Lexicographic.{lists_equiv};
    ghost use Rattle.flat_model.specs.contracts.plugins.SubEq.TheImpl.Laws.{laws-law};

    ghost laws = { lists_equiv laws-law };
}

/// A set of subscriptions with its number of scoreboard entries.
#[derive(Debug, PartialEq, Eq, Drop)]
pub struct SetSpec {
    pub entries: u8,
    pub subs: Subs,
}

impl SetSpec {
    ghost use Rattle.flat_model.specs.Acts.{calling};

    /// How many of its subscriptions call a box.
    pub fn calling(&self) -> u32
        ensures calling { result ≡ calling self.now.subs }
    {
        Sub::calling(self.subs.as_slice()) as u32
    }

    /// An equal set of its own.
    pub fn copied(&self, alloc: Global) -> Result<SetSpec, NoMemory>
        ensures { IfOk result (λ copy. copy ≡ self.now) }
    {
        let subs = Subs::new(Vec::from_slice(alloc, self.subs.as_slice())?);
        Ok(SetSpec {
            entries: self.entries,
            subs,
        })
    }
}

/// One line of a box's tally. `docs/plug-ins.md` says what the numbers are for each kind.
#[derive(Clone, Copy, Debug, PartialEq, Eq)]
pub struct Row {
    pub key: u64,
    pub a: u64,
    pub b: u64,
    pub c: u64,
    pub d: u64,
}
