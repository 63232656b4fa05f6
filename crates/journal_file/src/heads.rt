//! What a journal file holds.

ghost use Rattle.std.specs.Prelude.{◌≡◌};
ghost use Rattle.journal_file.specs.Head.{IsHead, head_of, are_within};

use flat_model::Mode;
use flat_model::limits::{HARTS_MOST, LIMIT_MOST, TOTAL_MOST};
use run_journal::Journal;
use std::marker::Model;

/// The number of harts of a run, its mode, and the limit of each hart's steps. The harts are 1 to 32, the limit is 1 to
/// 4,000,000, and their product at most 32,000,000.
#[derive(Clone, Copy, Debug, PartialEq, Eq)]
pub struct RunHead {
    harts: u8,
    mode: Mode,
    limit: u64,
}

impl Model for RunHead {
    ghost use Rattle.std.specs.Prelude.{◌≡◌, true};
    ghost use Rattle.journal_file.specs.Head.{Head, are_within};

    ghost Value = { Head };

    ghost view = { λ h. record { harts = h.harts; mode = h.mode; limit = h.limit } };

    ghost invariant = { λ h. are_within h.harts h.limit ≡ true };

    ghost inverse = { λ h. record { harts = h.harts; mode = h.mode; limit = h.limit } };
}

impl RunHead {
    /// None where a number isn't within its limits.
    pub fn new(harts: u8, mode: Mode, limit: u64) -> Option<RunHead>
        ensures { result ≡ head_of harts mode limit }
    {
        if !are_within(harts, limit) {
            return None;
        }
        Some(RunHead { harts, mode, limit })
    }

    pub fn harts(&self) -> u8
        ensures harts { result ≡ self.now.harts }
        ensures within { IsHead self.now }
    {
        self.harts
    }

    pub fn mode(&self) -> Mode
        ensures { result ≡ self.now.mode }
    {
        self.mode
    }

    pub fn limit(&self) -> u64
        ensures limit { result ≡ self.now.limit }
        ensures within { IsHead self.now }
    {
        self.limit
    }
}

fn are_within(harts: u8, limit: u64) -> bool
    ensures { result ≡ are_within harts limit }
{
    let few_harts = 1 <= harts && harts <= HARTS_MOST;
    let few_steps = 1 <= limit && limit <= LIMIT_MOST;
    few_harts && few_steps && u64::from(harts) * limit <= TOTAL_MOST
}

/// A journal, and what its file says of the run: a file of version 1 says nothing.
#[derive(Debug, Drop)]
pub struct JournalFile {
    pub head: Option<RunHead>,
    pub journal: Journal,
}
