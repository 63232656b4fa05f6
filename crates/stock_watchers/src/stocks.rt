//! The box that is handed in for each subscription that calls.

ghost use Rattle.std.specs.Prelude.{◌≡◌};

use crate::keeping::Kept;
use flat_model::{Ask, Event, Kind, NoMemory, Row};
use std::alloc::Global;
use watcher_api::Watcher;

/// A blank box, or one of a kind. It keeps what the rows of its kind need, and how many calls are left to its quota.
#[derive(Drop)]
pub struct Stock {
    alloc: Global,
    kind: Option<Kind>,
    left: u64,
    kept: Kept,
}

impl Stock {
    /// A blank box. It takes no memory until it is called.
    pub fn blank(alloc: Global) -> Stock
        ensures { ⟦<Stock as Watcher>⟧.kind_of result ≡ None }
    {
        Stock {
            alloc,
            kind: None,
            left: 0,
            kept: Kept::Nothing,
        }
    }
}

impl Watcher for Stock {
    ghost use Rattle.stock_watchers.specs.Keeping.{StandsWith};

    ghost kind_of = { λ b. b.kind };

    ghost stands = { λ b heard. StandsWith b.kind b.kept b.left heard };

    fn prepare(&mut self, kind: Kind) {
        self.kind = Some(kind);
        self.left = kind.quota;
        self.kept = Kept::of_none(self.alloc, kind.name);
    }

    fn call(&mut self, e: &Event) -> Result<Ask, NoMemory> {
        let Some(kind) = self.kind else {
            return Ok(Ask::Stay);
        };
        self.kept.hear(e)?;
        let left = self.left;
        self.left = left.saturating_sub(1);
        if left == 1 {
            Ok(kind.ask)
        } else {
            Ok(Ask::Stay)
        }
    }

    fn tally(&self, alloc: Global) -> Result<Vec<Row>, NoMemory> {
        self.kept.rows(alloc)
    }
}
