//! Lines of the plan's script, as they are placed behind the Turn in which they fall due.

ghost use Rattle.std.specs.Prelude.{◌≡◌, ◌<◌, ◌≤◌, ◌+◌, ◌-◌, ℕ, false, None, length, map, slice_index_or, OnOk};
ghost use Rattle.std.specs.List.Sorted.{IsNonDecreasingBy};
ghost use Rattle.flat_model.specs.declared.limits.TheConstants.{NO_PARTY};
ghost use Rattle.flat_model.specs.Log.{log, total_steps};
ghost use Rattle.plug_registry.specs.Installs.{start_order};
ghost use Rattle.baton_gate.specs.Logs.{GoesOn};
ghost use Rattle.flat_model.specs.declared.journals.Timed.{Timed as Line};
ghost use Rattle.run_rules.specs.Due.{wanted, turn_length};
ghost use Rattle.run_order.specs.InOrder.{task_run};
ghost use Rattle.script_order.specs.Judging.{IsLine, ComeBefore, IsJudging};
ghost use Rattle.script_order.specs.Totals.{last_steps};
ghost use Rattle.host_state.specs.Ordering.{ChangesByOrder};
ghost use Rattle.host_state.specs.Scripting.{IsLineOf, LetsAllBe, HasTurned, PlacesLines, HasJudged};

use crate::states::HostState;
use crate::tasks::Task;
use flat_model::limits::NO_PARTY;
use flat_model::{Entry, NoMemory, Origin, Timed};
use std::alloc::Global;
use watcher_api::{Closer, Held, Watcher};

/// How many lines of a script have a moment of at most `moment`. The moments never fall.
fn come_by(script: &[Timed], moment: u128) -> usize
    requires rising { IsNonDecreasingBy (λ t. t.when) script.now }
    ensures come { ComeBefore script.now moment result }
{
    script.partition_point(|line| u128::from(line.when) <= moment)
}

/// The steps of the last entry, where it is a Turn.
fn last_steps(entries: &[Entry]) -> u128
    ensures steps { result ≡ last_steps entries.now }
{
    match entries.last() {
        Some(Entry::Turn { hart: _, n }) => u128::from(*n),
        _ => 0,
    }
}

impl Task {
    /// A line of the script.
    fn line(&self, line: u32) -> &Timed
        requires there { line < length self.now.plan.script }
        ensures line { result.now ≡ slice_index_or self.now.plan.script line result.now }
    {
        &self.plan.script[line as usize]
    }

    /// How many lines of the script have a moment of at most `moment`.
    fn come_by(&self, moment: u128) -> u32
        ensures come { ComeBefore self.now.plan.script moment result }
        ensures rising { IsNonDecreasingBy (λ t. t.when) self.now.plan.script }
    {
        come_by(&self.plan.script, moment) as u32
    }
}

impl<W: Watcher, C: Closer<Held<W>>> HostState<W, C> {
    /// How many steps all harts made.
    fn total(&self) -> u128
        ensures total { result ≡ total_steps self.now.past }
    {
        // The journal is that of the log.
        let _ = &self.past;
        self.journal.total()
    }

    /// How many of them they made before the Turn in which the log ends.
    fn total_before_turn(&self) -> u128
        ensures before { (h : ℕ) → 0 < turn_length h self.now.past
            → result ≡ total_steps self.now.past - turn_length h self.now.past }
    {
        let _ = &self.past;
        self.journal
            .total()
            .saturating_sub(last_steps(self.journal.entries()))
    }

    /// Places a line that is judged next and whose moment has come, where the registry allows its order.
    fn place_line(&mut self, alloc: Global, no: u8, line: u32) -> Result<(), NoMemory>
        requires there { line < length self.old.task.plan.script }
        requires come { (t : Line) → IsLine self.old.task.plan.script line t → t.when ≤ total_steps self.old.past }
        requires judging { IsJudging (task_run self.old.task) no line self.old.past }
        ensures places { PlacesLines no self.old self.new }
        ensures judged { OnOk result (IsJudging (task_run self.new.task) no (line + 1) self.new.past) }
    {
        // The moments never fall.
        self.task.script();
        let due = self.task.line(line);
        if let Err(_) = self.registry.check(&due.order) {
            return Ok(());
        }
        let order = due.order.copied(alloc)?;
        self.order_by(alloc, Origin::Script { line, party: no }, order)
    }

    /// Places each line of the script that has fallen due in the hart's Turn and that the registry allows in its turn. With that
    /// the plan wants nothing. For want of memory the last of them may be missing.
    pub fn script_due(&mut self, alloc: Global, no: u8) -> Result<(), NoMemory>
        requires open { self.old.short ≡ false }
        requires turned { HasTurned (task_run self.old.task) no self.old.past }
        ensures placed { GoesOn (IsLineOf no) self.old.past self.new.past }
        ensures rest { ChangesByOrder self.old self.new }
        ensures lets_be { LetsAllBe self.old.task self.old.past self.new.past }
        ensures caught_up { OnOk result (wanted (task_run self.new.task) self.new.past ≡ None) }
    {
        let first = self.task.come_by(self.total_before_turn());
        let end = self.task.come_by(self.total());
        for line in first..end {
            self.place_line(alloc, no, line)?;
        }
        Ok(())
    }

    /// Places each line of moment 0 that the registry allows in its turn, behind the plan's installs. With that the plan wants
    /// nothing. For want of memory the last of them may be missing.
    pub fn script_opening(&mut self, alloc: Global) -> Result<(), NoMemory>
        requires open { self.old.short ≡ false }
        requires installed { self.old.past ≡ log (map start_order self.old.task.plan.installs) }
        ensures placed { GoesOn (IsLineOf NO_PARTY) self.old.past self.new.past }
        ensures rest { ChangesByOrder self.old self.new }
        ensures caught_up { OnOk result (wanted (task_run self.new.task) self.new.past ≡ None) }
    {
        let end = self.task.come_by(0);
        for line in 0..end {
            self.place_line(alloc, NO_PARTY, line)?;
        }
        Ok(())
    }
}
