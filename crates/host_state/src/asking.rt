//! Orders that the boxes of a hart ask for.

ghost use Rattle.std.specs.Prelude.{◌≡◌, ◌∷◌, ◌<◌, ◌≤◌, ◌+◌, ℕ, true, false, Some, None, length};
ghost use Rattle.flat_model.specs.Registry.{plugin_of};
ghost use Rattle.flat_model.specs.Worlds.{world};
ghost use Rattle.baton_gate.specs.Logs.{GoesOn};
ghost use Rattle.watcher_api.specs.Acting.{ask_of};
ghost use Rattle.run_rules.specs.Guest.{plugins};
ghost use Rattle.run_rules.specs.Due.{wanted};
ghost use Rattle.run_rules.specs.Heard.{is_live, waiting};
ghost use Rattle.run_rules.specs.Legal.{is_there, asks_nothing, asked_order};
ghost use Rattle.run_rules.specs.Places.{is_with_hart};
ghost use Rattle.run_order.specs.Sets.{sets_for};
ghost use Rattle.run_order.specs.InOrder.{task_run};
ghost use Rattle.kept_order.specs.Hearing.{specs_for};
ghost use Rattle.host_state.specs.Asking.{IsAskedBy, IsUnmoved, IsQuieted, withdrawal, asked_item};

use crate::committing::with_item;
use crate::states::HostState;
use flat_model::{Ask, Entry, How, Item, Order, Origin, PlugState};
use watcher_api::{Asks, Closer, Held, Watcher};

/// The order that withdraws the set of a plug-in.
fn withdrawal(plugin: u8, how: How) -> Order
    ensures order { result ≡ withdrawal plugin how }
{
    match how {
        How::Reset => Order::Reset { plugin },
        How::Uninstall => Order::Uninstall { plugin },
    }
}

impl<W: Watcher, C: Closer<Held<W>>> HostState<W, C> {
    /// How many plug-ins there are.
    fn plugin_count(&self) -> u8
        ensures count { result ≡ length (plugins (task_run self.now.task) self.now.past).plugins }
        ensures few { result ≤ 8 }
        ensures table { self.now.registry.table ≡ plugins (task_run self.now.task) self.now.past }
    {
        self.registry.count()
    }

    /// The ask of a plug-in that waits on the hart for its order.
    fn waiting_ask(&self, no: u8, plugin: u8, asks: &Asks) -> Ask
        requires least { 1 ≤ plugin }
        requires most { plugin ≤ 8 }
        requires asks { is_live (plugin_of (plugins (task_run self.now.task) self.now.past) plugin).state ≡ true
            → ask_of plugin asks.now.first ≡ waiting (task_run self.now.task) plugin no self.now.past }
        ensures ask { result ≡ waiting (task_run self.now.task) plugin no self.now.past }
    {
        let Some(PlugState::Live) = self.registry.state(plugin) else {
            return Ask::Stay;
        };
        asks.first[usize::from(plugin - 1)]
    }

    /// Records that a box of the plug-in on the hart asked for the withdrawal of its set, which waits.
    pub fn withdraw(&mut self, no: u8, plugin: u8, how: How)
        requires open { self.old.short ≡ false }
        requires least { 1 ≤ plugin }
        requires asked { asked_order plugin (waiting (task_run self.old.task) plugin no self.old.past) ≡ Some (withdrawal plugin how) }
        requires caught_up { wanted (task_run self.old.task) self.old.past ≡ None }
        requires room { 0 < self.old.journal.spare }
        ensures recorded { self.new.past ≡ asked_item no plugin how ∷ self.old.past }
        ensures rest { self.new ≡ record self.old { past = self.new.past; journal = self.new.journal; registry = self.new.registry } }
        ensures unmoved { IsUnmoved self.old.task no self.old.past self.new.past }
        ensures quieted { IsQuieted self.old.task no plugin self.old.past self.new.past }
        ensures caught_up { wanted (task_run self.new.task) self.new.past ≡ None }
        ensures room { self.old.journal.spare ≤ self.new.journal.spare + 1 }
    {
        // The moments of its lines never fall, so none is due behind an order.
        self.task.script();
        let origin = Origin::Asked { hart: no, plugin };
        self.registry.apply(withdrawal(plugin, how));
        self.journal.push(Entry::Order {
            origin,
            order: withdrawal(plugin, how),
        });
        self.past = with_item(
            &self.past,
            Item::Ordered {
                origin,
                order: withdrawal(plugin, how),
            },
        );
    }

    /// Records what the boxes of one plug-in on the hart asked for, if they asked.
    fn ask_one(&mut self, no: u8, plugin: u8, ask: Ask)
        requires open { self.old.short ≡ false }
        requires least { 1 ≤ plugin }
        requires ask { ask ≡ waiting (task_run self.old.task) plugin no self.old.past }
        requires caught_up { wanted (task_run self.old.task) self.old.past ≡ None }
        requires room { 0 < self.old.journal.spare }
        ensures asked { GoesOn (IsAskedBy no) self.old.past self.new.past }
        ensures rest { self.new ≡ record self.old { past = self.new.past; journal = self.new.journal; registry = self.new.registry } }
        ensures unmoved { IsUnmoved self.old.task no self.old.past self.new.past }
        ensures quieted { IsQuieted self.old.task no plugin self.old.past self.new.past }
        ensures caught_up { wanted (task_run self.new.task) self.new.past ≡ None }
        ensures room { self.old.journal.spare ≤ self.new.journal.spare + 1 }
    {
        match ask {
            Ask::Stay => {}
            Ask::Reset => self.withdraw(no, plugin, How::Reset),
            Ask::Uninstall => self.withdraw(no, plugin, How::Uninstall),
        }
    }

    /// Records what the hart's boxes asked for: for each plug-in that is Live and for which an ask is noted, by its number,
    /// the order.
    pub fn ask(&mut self, no: u8, asks: &Asks)
        requires open { self.old.short ≡ false }
        requires there { is_there (task_run self.old.task) no self.old.past ≡ true }
        requires caught_up { wanted (task_run self.old.task) self.old.past ≡ None }
        requires asks { (plugin : ℕ) → 1 ≤ plugin → is_live (plugin_of self.old.registry.table plugin).state ≡ true
            → ask_of plugin asks.now.first ≡ waiting (task_run self.old.task) plugin no self.old.past }
        requires room { 8 ≤ self.old.journal.spare }
        ensures asked { GoesOn (IsAskedBy no) self.old.past self.new.past }
        ensures rest { self.new ≡ record self.old { past = self.new.past; journal = self.new.journal; registry = self.new.registry } }
        ensures quiet { asks_nothing (task_run self.new.task) no self.new.past ≡ true }
        ensures caught_up { wanted (task_run self.new.task) self.new.past ≡ None }
        ensures there { is_there (task_run self.new.task) no self.new.past ≡ true }
        ensures sets { (sets_for is_with_hart (task_run self.new.task) no self.new.past
            ≡ sets_for is_with_hart (task_run self.old.task) no self.old.past)
            × (specs_for (task_run self.new.task) no self.new.past ≡ specs_for (task_run self.old.task) no self.old.past) }
        ensures world { world self.new.task.machine self.new.task.mode self.new.past
            ≡ world self.old.task.machine self.old.task.mode self.old.past }
        ensures room { self.old.journal.spare ≤ self.new.journal.spare + 8 }
    {
        for place in 0..self.plugin_count() {
            let ask = self.waiting_ask(no, place + 1, asks);
            self.ask_one(no, place + 1, ask);
        }
    }
}
