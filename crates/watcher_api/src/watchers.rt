//! What a box is to those who hold it.

ghost use Rattle.std.specs.Prelude.{◌≡◌, List, [], Option, IsSome, IfOk, MatchResult};
ghost use Rattle.flat_model.specs.declared.events.Event.{Event};
ghost use Rattle.flat_model.specs.declared.plugins.Kind.{Kind};
ghost use Rattle.flat_model.specs.Kinds.{ask_at};
ghost use Rattle.watcher_api.specs.Tallies.{rows};
ghost use Rattle.watcher_api.specs.Meaning.{IsHeard, IsKept};

use flat_model::{Ask, Event, Kind, NoMemory, Row};
use std::alloc::Global;

/// A box that hears events, one at a time. It is blank, or it has a kind and stands for the list of the
/// events that it heard. What it keeps of them is its own affair: it may keep each event, or counts alone.
pub trait Watcher: Drop {
    // `None` while it is blank
    ghost kind_of: { Self → Option Kind };

    // The box may be what is left of hearing these events, in this order. A box that keeps only counts stands for
    // many lists
    ghost stands: { Self → List Event → Type 0 };

    /// Gives a blank box its kind. It has heard nothing then.
    fn prepare(&mut self, kind: Kind)
        requires blank { kind_of self.old ≡ None }
        ensures kind { kind_of self.new ≡ Some kind }
        ensures nothing { stands self.new [] };

    /// Hears one event, and answers what the box asks for: its kind's ask at the call of its quota, and
    /// else Stay. A call that is refused has heard nothing.
    fn call(&mut self, e: &Event) -> Result<Ask, NoMemory>
        requires prepared { IsSome (kind_of self.old) }
        ensures kind { kind_of self.new ≡ kind_of self.old }
        ensures heard { MatchResult result
            (λ ask. IsHeard kind_of stands self.old self.new e.now ask)
            (λ _. IsKept stands self.old self.new) };

    /// The rows of its kind for the events that it heard.
    fn tally(&self, alloc: Global) -> Result<Vec<Row>, NoMemory>
        ensures rows { IfOk result (λ tally.
            (kind : Kind) (events : List Event)
            → kind_of self.now ≡ Some kind → stands self.now events → tally.items ≡ rows kind events) };
}

/// What a box of the kind asks for at its call of number `calls`, from 1.
pub fn asked(kind: &Kind, calls: u64) -> Ask
    ensures { result ≡ ask_at kind.now calls }
{
    if calls == kind.quota {
        kind.ask
    } else {
        Ask::Stay
    }
}
