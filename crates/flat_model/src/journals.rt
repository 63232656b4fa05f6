//! What a run's journal keeps, and the plan of a run.

ghost use Rattle.std.specs.Prelude.{◌≡◌, IfOk};

use crate::plugins::SetSpec;
use crate::refusals::NoMemory;
use std::alloc::Global;
use std::marker::Model;

/// What is done to a plug-in. Plug-ins are numbered from 1 in the order of their installs.
#[derive(Debug, PartialEq, Eq, Drop)]
pub enum Order {
    Install { spec: SetSpec },
    Register { plugin: u8, spec: SetSpec },
    Reset { plugin: u8 },
    Uninstall { plugin: u8 },
}

impl Order {
    /// An equal order of its own.
    pub fn copied(&self, alloc: Global) -> Result<Order, NoMemory>
        ensures { IfOk result (λ copy. copy ≡ self.now) }
    {
        match self {
            Order::Install { spec } => {
                let spec = spec.copied(alloc)?;
                Ok(Order::Install { spec })
            }
            Order::Register { plugin, spec } => {
                let spec = spec.copied(alloc)?;
                Ok(Order::Register {
                    plugin: *plugin,
                    spec,
                })
            }
            Order::Reset { plugin } => Ok(Order::Reset { plugin: *plugin }),
            Order::Uninstall { plugin } => Ok(Order::Uninstall { plugin: *plugin }),
        }
    }
}

/// Who gave an order.
#[derive(Clone, Copy, Debug, PartialEq, Eq)]
pub enum Origin {
    /// The plan, before all else.
    Start,
    /// Line `line` of the script, from 0, placed in a hold of `party`.
    Script { line: u32, party: u8 },
    /// A box of the plug-in on the hart reached its quota.
    Asked { hart: u8, plugin: u8 },
    /// A controller.
    Control { party: u8 },
}

/// One entry of a journal. `docs/journal.md` has the rules.
#[derive(Debug, PartialEq, Eq, Drop)]
pub enum Entry {
    /// The hart made `n` steps, at least 1.
    Turn { hart: u8, n: u32 },
    Order { origin: Origin, order: Order },
    /// The hart has given its boxes of the plug-in back.
    Back { hart: u8, plugin: u8 },
    Leave { hart: u8 },
    /// The party has told the plug-in's closer.
    Done { party: u8, plugin: u8 },
}

/// One item of a journal's log, in which a Turn of n is n steps. The last two stand in no journal: the state that the
/// harts share keeps them between the others. A log is a list that proofs alone read.
#[derive(Drop)]
pub enum Item {
    Step { hart: u8 },
    Ordered { origin: Origin, order: Order },
    GaveBack { hart: u8, plugin: u8 },
    Left { hart: u8 },
    Told { party: u8, plugin: u8 },
    /// The hart took the plug-in's set out of the state.
    Got { hart: u8, plugin: u8 },
    /// The party took the plug-in's closing.
    Took { party: u8, plugin: u8 },
}

/// An order and the total of steps at which it falls due.
#[derive(Debug, PartialEq, Eq, Drop)]
pub struct Timed {
    pub when: u64,
    pub order: Order,
}

/// What a run is to do beside its guest: the installs at the start, and the script, whose moments
/// never fall and which has fewer than 2^32 lines.
#[derive(Debug, Drop)]
pub struct Plan {
    pub installs: Vec<SetSpec>,
    pub script: Vec<Timed>,
}

impl Model for Plan {
    ghost use Rattle.flat_model.specs.Plan.{Planned, IsPlan};

    ghost Value = { Planned };

    ghost view = { λ p. record { installs = p.installs.items; script = p.script.items } };

    ghost invariant = { λ p. IsPlan p.script.items };
}

/// Which harts have their start from the first: all of them, or hart 0 alone.
#[derive(Clone, Copy, Debug, PartialEq, Eq)]
pub enum Mode {
    All,
    First,
}

/// The state of a plug-in.
#[derive(Clone, Copy, Debug, PartialEq, Eq)]
pub enum PlugState {
    Live,
    Idle,
    Resetting,
    Leaving,
    Gone,
}

/// How a set was withdrawn.
#[derive(Clone, Copy, Debug, PartialEq, Eq)]
pub enum How {
    Reset,
    Uninstall,
}
