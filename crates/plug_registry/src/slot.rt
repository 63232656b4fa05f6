//! One plug-in of the registry.

ghost use Rattle.std.specs.Prelude.{◌≡◌, ◌<◌, ◌-◌, ◌&&◌, ◌∷◌, [], true, false, not, map, length, replicate};
ghost use Rattle.std.specs.Prelude.{slice_get, slice_index_or, IfOk, OnOk, OnErr};
ghost use Rattle.std.specs.List.{list_any};
ghost use Rattle.flat_model.specs.declared.journals.How.TheVariants as how;
ghost use Rattle.flat_model.specs.declared.journals.PlugState.TheVariants as states;
ghost use Rattle.flat_model.specs.Registry.{withdrawn, withdraws, with_set, without_hart, done_state, is_closing};

use crate::rules::{done_state, is_closing, withdraws};
use flat_model::{How, NoMemory, PlugState, SetSpec};
use std::alloc::Global;
use std::marker::Model;

/// The parts of a plug-in that is to come.
#[derive(Drop)]
pub struct Spare {
    sets: Vec<SetSpec>,
    owing: Vec<bool>,
}

impl Model for Spare {
    ghost use Rattle.std.specs.Prelude.{ℕ, length};
    ghost use Rattle.plug_registry.specs.State.{IsSpare};

    ghost Value = { ℕ };

    ghost view = { λ s. length s.owing.items };

    ghost invariant = { λ s. IsSpare s.sets s.owing.items };
}

impl Spare {
    pub fn new(alloc: Global, harts: u8) -> Result<Spare, NoMemory>
        ensures { IfOk result (λ spare. spare ≡ harts) }
    {
        let sets = Vec::with_capacity(alloc, 1)?;
        let owing = vec![in alloc; false; harts as usize]?;
        Ok(Spare { sets, owing })
    }

    /// The plug-in with its first set.
    pub fn with_set(self, spec: SetSpec) -> Slot
        ensures { result.plugin ≡ record { state = states.Live; sets = spec ∷ []; endings = []; owing = replicate self false } }
    {
        let Spare { mut sets, owing } = self;
        let Ok(()) = sets.push(spec) else {
            unreachable!()
        };
        Slot {
            state: PlugState::Live,
            sets,
            last: None,
            owing,
        }
    }
}

/// A plug-in: its sets in order, and for each hart whether it owes its Back.
#[derive(Drop)]
pub struct Slot {
    state: PlugState,
    sets: Vec<SetSpec>,
    // How the last set has ended; None while it is there. Each set before it has ended by a reset.
    last: Option<How>,
    owing: Vec<bool>,
}

impl Model for Slot {
    ghost use Rattle.std.specs.Prelude.{length, nat_lt, vec_len, vec_capacity};
    ghost use Rattle.plug_registry.specs.State.{SlotState, ended, IsSlot};

    ghost Value = { SlotState };

    ghost view = { λ s. record {
      plugin = record { state = s.state; sets = s.sets.items; endings = ended (length s.sets.items) s.last; owing = s.owing.items };
      has_room = nat_lt (vec_len s.sets) (vec_capacity s.sets);
    } };

    ghost invariant = { λ s. IsSlot s.state s.sets.items s.last };
}

impl Slot {
    pub fn state(&self) -> PlugState
        ensures { result ≡ self.now.plugin.state }
    {
        self.state
    }

    pub fn sets(&self) -> &[SetSpec]
        ensures { result.now ≡ self.now.plugin.sets }
    {
        self.sets.as_slice()
    }

    /// How the set with this place, from 0, has ended; None while it is there.
    pub fn ending(&self, set: usize) -> Option<How>
        ensures { result ≡ slice_get self.now.plugin.endings set }
    {
        let last = self.sets.len() - 1;
        if set < last {
            Some(How::Reset)
        } else if set == last {
            self.last
        } else {
            None
        }
    }

    /// Whether the last set is being given back.
    pub fn is_withdrawing(&self) -> bool
        ensures { result ≡ withdraws self.now.plugin.state (slice_get self.now.plugin.endings (length self.now.plugin.sets - 1)) }
    {
        withdraws(self.state, self.ending(self.sets.len() - 1))
    }

    pub fn owes(&self, hart: u8) -> bool
        ensures { result ≡ slice_index_or self.now.plugin.owing hart false }
    {
        self.owing.get(hart as usize).copied().unwrap_or(false)
    }

    /// Whether harts were to give back and all have.
    pub fn is_complete(&self) -> bool
        ensures { result ≡ is_closing self.now.plugin.state && not (list_any (λ owed. owed) self.now.plugin.owing) }
    {
        is_closing(self.state) && !any_owes(&self.owing)
    }

    /// Takes room for one more set.
    pub fn reserve(&mut self) -> Result<(), NoMemory>
        ensures plugin { self.new.plugin ≡ self.old.plugin }
        ensures room { OnOk result (self.new.has_room ≡ true) }
        ensures kept { self.old.has_room ≡ true → self.new.has_room ≡ true }
        ensures unchanged { OnErr result (self.new ≡ self.old) }
    {
        self.sets.reserve(1)?;
        Ok(())
    }

    /// One more set, which makes an Idle plug-in Live.
    pub fn register(&mut self, spec: SetSpec)
        requires idle { self.old.plugin.state ≡ states.Idle }
        requires room { self.old.has_room ≡ true }
        ensures { self.new.plugin ≡ with_set self.old.plugin spec }
    {
        self.state = PlugState::Live;
        self.last = None;
        let Ok(()) = self.sets.push(spec) else {
            unreachable!()
        };
    }

    /// Each hart that has not left owes its Back of the set that is there.
    pub fn reset(&mut self, gone: &[bool])
        requires live { self.old.plugin.state ≡ states.Live }
        requires harts { length self.old.plugin.owing ≡ length gone.now }
        ensures { self.new ≡ record self.old { plugin = withdrawn self.old.plugin states.Resetting how.Reset gone.now } }
    {
        self.last = Some(How::Reset);
        self.state = PlugState::Resetting;
        owe_all(&mut self.owing, gone);
    }

    /// The same for the last time. Where there is no set, the harts give Back all the same.
    pub fn uninstall(&mut self, gone: &[bool])
        requires harts { length self.old.plugin.owing ≡ length gone.now }
        ensures { self.new ≡ record self.old { plugin = withdrawn self.old.plugin states.Leaving how.Uninstall gone.now } }
    {
        if self.state == PlugState::Live {
            self.last = Some(How::Uninstall);
        }
        self.state = PlugState::Leaving;
        owe_all(&mut self.owing, gone);
    }

    /// The hart owes nothing any more.
    pub fn give_back(&mut self, hart: u8)
        requires { hart < length self.old.plugin.owing }
        ensures { self.new ≡ record self.old { plugin = without_hart hart self.old.plugin } }
    {
        self.owing[hart as usize] = false;
    }

    /// The reset or uninstall is done.
    pub fn done(&mut self)
        ensures { self.new ≡ record self.old { plugin = record self.old.plugin { state = done_state self.old.plugin.state } } }
    {
        self.state = done_state(self.state);
    }
}

fn any_owes(owing: &[bool]) -> bool
    ensures { result ≡ list_any (λ owed. owed) owing.now }
{
    owing.iter().any(|owed| *owed)
}

// Each hart that has not left owes its Back.
fn owe_all(owing: &mut [bool], gone: &[bool])
    requires { length owing.old ≡ length gone.now }
    ensures { owing.new ≡ map not gone.now }
{
    for (i, owed) in owing.iter_mut().enumerate() {
        *owed = !gone[i];
    }
}
