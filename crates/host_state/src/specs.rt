//! The filters of the sets that are attached to a hart.

ghost use Rattle.std.specs.Prelude.{◌≡◌, ◌≤◌, ◌==◌, [], not, nat_lt, length, take, drop, filter, IfOk};
ghost use Rattle.kept_order.specs.Arriving.{with_spec};
ghost use Rattle.host_state.specs.Filters.{HasNoSpec};

use flat_model::limits::PLUGINS_MOST;
use flat_model::{NoMemory, SetSpec};
use std::alloc::Global;
use std::marker::Model;

/// The filters of a hart's attached sets with their plug-ins' numbers, in the order of these: at most one of each plug-in.
#[derive(Drop)]
pub struct Specs {
    sets: Vec<(u8, SetSpec)>,
}

impl Model for Specs {
    ghost use Rattle.std.specs.Prelude.{◌≤◌, ℕ, List, vec_capacity};
    ghost use Rattle.flat_model.specs.declared.plugins.SetSpec.{SetSpec};
    ghost use Rattle.host_state.specs.Filters.{AreSpecsInOrder, AreSpecsNumbered};

    ghost Value = { List (ℕ × SetSpec) };

    ghost view = { λ s. s.sets.items };

    ghost invariant = { λ s. (8 ≤ vec_capacity s.sets) × AreSpecsInOrder s.sets.items × AreSpecsNumbered s.sets.items };
}

impl Specs {
    /// No filters, with room for those of one set of each plug-in.
    pub fn new(alloc: Global) -> Result<Specs, NoMemory>
        ensures none { IfOk result (λ specs. specs ≡ []) }
    {
        Ok(Specs {
            sets: Vec::with_capacity(alloc, usize::from(PLUGINS_MOST))?,
        })
    }

    /// The numbers and filters, in their order.
    pub fn as_slice(&self) -> &[(u8, SetSpec)]
        ensures items { result.now ≡ self.now }
    {
        self.sets.as_slice()
    }

    /// How many sets have a smaller number.
    fn place(&self, plugin: u8) -> usize
        requires absent { HasNoSpec plugin self.now }
        ensures within { result ≤ length self.now }
        ensures below { take result self.now ≡ filter (λ s. nat_lt s.0 plugin) self.now }
        ensures above { drop result self.now ≡ filter (λ s. nat_lt plugin s.0) self.now }
    {
        for (place, set) in self.sets.iter().enumerate() {
            if plugin <= set.0 {
                return place;
            }
        }
        self.sets.len()
    }

    /// Puts the filters of a set in at their place. It takes no memory.
    pub(crate) fn put(&mut self, plugin: u8, spec: SetSpec)
        requires least { 1 ≤ plugin }
        requires most { plugin ≤ 8 }
        requires absent { HasNoSpec plugin self.old }
        ensures put { self.new ≡ with_spec (plugin, spec) self.old }
    {
        let place = self.place(plugin);
        self.sets.insert(place, (plugin, spec)).unwrap();
    }

    /// Drops the filters of a plug-in's set, where there is one.
    pub(crate) fn take(&mut self, plugin: u8)
        ensures left { self.new ≡ filter (λ s. not (s.0 == plugin)) self.old }
    {
        self.sets.retain(|set| set.0 != plugin);
    }
}
