//! Following the entries of a journal, one after the other.

ghost use Rattle.std.specs.Prelude.{◌≡◌, ◌≤◌, ◌<◌, ◌+◌, ℕ, take, length, slice_index_or, OnOk, IfErr, IfOk};
ghost use Rattle.flat_model.specs.declared.journals.Entry.TheVariants as entries;
ghost use Rattle.flat_model.specs.declared.refusals.Refused.TheVariants.{Because};
ghost use Rattle.flat_model.specs.Log.{log, journaled, IsJoined};
ghost use Rattle.run_rules.specs.Due.{turn_length};
ghost use Rattle.run_order.specs.InOrder.{task_run};
ghost use Rattle.run_replay.specs.Ahead.{IsAhead};
ghost use Rattle.run_replay.specs.Following.{IsFollowing, IsFollowed};
ghost use Rattle.run_replay.specs.Replays.{IsRefusedAs};

use crate::lines::is_line;
use crate::replays::{Followed, Replay};
use flat_model::{Entry, NoMemory, NotThisRun, Refused};
use watcher_api::{Closer, Held, Watcher};

/// The refusal of a journal that isn't whole, by the place of what is wrong.
pub(crate) fn not_this_run(place: usize) -> Refused<NotThisRun>
    ensures place { result ≡ Because (record { place = place }) }
{
    Refused::Because(NotThisRun {
        place: place as u64,
    })
}

/// The entry of an index.
fn entry_at(entries: &[Entry], place: usize) -> &Entry
    requires there { place < length entries.now }
    ensures entry { slice_index_or entries.now place result.now ≡ result.now }
{
    &entries[place]
}

impl<W: Watcher, C: Closer<Held<W>>> Replay<W, C> {
    /// Follows one entry.
    fn entry(&mut self, entry: &Entry) -> Result<Followed, NoMemory>
        requires following { IsFollowing self.old.state self.old.berths.items self.old.blocks }
        requires anew { (h n : ℕ) → entry.now ≡ entries.Turn h n → (turn_length h self.old.state.past ≡ 0) × (0 < n) }
        ensures followed { IfOk result
            (λ f. IsFollowed f entry.now self.old.state self.new.state self.new.berths.items self.new.blocks) }
    {
        match entry {
            Entry::Turn { hart, n } => self.turn(*hart, *n),
            Entry::Order { origin, order } => self.order(*origin, order),
            Entry::Back { hart, plugin } => self.back(*hart, *plugin),
            Entry::Leave { hart } => self.leave(*hart),
            Entry::Done { party, plugin } => self.done(*party, *plugin),
        }
    }

    /// Follows the entry of an index, where the state has no line there yet.
    fn follow_next(&mut self, entries: &[Entry], place: usize) -> Result<(), Refused<NotThisRun>>
        requires joined { IsJoined entries.now }
        requires within { place < length entries.now }
        requires following { IsFollowing self.old.state self.old.berths.items self.old.blocks }
        requires told { journaled self.old.state.past ≡ log (take place entries.now) }
        ensures following { OnOk result (IsFollowing self.new.state self.new.berths.items self.new.blocks) }
        ensures ahead { OnOk result (IsAhead (place + 1) entries.now self.new.state.journal.entries) }
        ensures task { OnOk result (self.new.state.task ≡ self.old.state.task) }
        ensures broken { IfErr result (IsRefusedAs (task_run self.old.state.task) entries.now) }
    {
        // Each state is in order.
        let _ = self.state.task();
        let followed = self.entry(entry_at(entries, place))?;
        // And the Turns of its journal are joined.
        let _ = self.state.task();
        let _ = self.state.journal().entries();
        match followed {
            Followed::Went => Ok(()),
            Followed::Overdue => Err(not_this_run(place + 1)),
            Followed::Breaks => Err(not_this_run(place)),
        }
    }

    /// Follows the entry of an index. Where the state has placed a line there, the entry is to be that line.
    fn follow_one(&mut self, entries: &[Entry], place: usize) -> Result<(), Refused<NotThisRun>>
        requires joined { IsJoined entries.now }
        requires within { place < length entries.now }
        requires following { IsFollowing self.old.state self.old.berths.items self.old.blocks }
        requires ahead { IsAhead place entries.now self.old.state.journal.entries }
        ensures following { OnOk result (IsFollowing self.new.state self.new.berths.items self.new.blocks) }
        ensures ahead { OnOk result (IsAhead (place + 1) entries.now self.new.state.journal.entries) }
        ensures task { OnOk result (self.new.state.task ≡ self.old.state.task) }
        ensures broken { IfErr result (IsRefusedAs (task_run self.old.state.task) entries.now) }
    {
        // Each state is in order.
        let _ = self.state.task();
        if place >= self.state.journal().len() {
            return self.follow_next(entries, place);
        }
        if is_line(entry_at(entries, place), self.state.journal().get(place)) {
            return Ok(());
        }
        Err(not_this_run(place))
    }

    /// Follows the entries from an index on. The first that breaks a rule is told by its index.
    pub(crate) fn follow(
        &mut self,
        entries: &[Entry],
        first: usize,
    ) -> Result<(), Refused<NotThisRun>>
        requires joined { IsJoined entries.now }
        requires within { first ≤ length entries.now }
        requires following { IsFollowing self.old.state self.old.berths.items self.old.blocks }
        requires ahead { IsAhead first entries.now self.old.state.journal.entries }
        ensures following { OnOk result (IsFollowing self.new.state self.new.berths.items self.new.blocks) }
        ensures ahead { OnOk result (IsAhead (length entries.now) entries.now self.new.state.journal.entries) }
        ensures task { OnOk result (self.new.state.task ≡ self.old.state.task) }
        ensures broken { IfErr result (IsRefusedAs (task_run self.old.state.task) entries.now) }
    {
        for place in first..entries.len() {
            match self.follow_one(entries, place) {
                Ok(()) => {}
                Err(why) => return Err(why),
            }
        }
        Ok(())
    }
}
