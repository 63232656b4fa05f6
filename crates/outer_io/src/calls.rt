//! Calls that are counted, of which some are to fail.

ghost use Rattle.std.specs.Prelude.{◌≡◌, []};
ghost use Rattle.outer_io.specs.Calls.{is_listed};
ghost use Rattle.outer_io.specs.Counts.{next};

use std::alloc::Global;

/// The calls of one kind on a value in memory.
#[derive(Drop)]
pub struct Calls {
    /// The numbers of the calls that are to fail, from 1.
    pub to_fail: Vec<u64>,
    /// How many calls were made; it stays at 2^64 - 1.
    pub made: u64,
    /// How many of them met a fault; it stays at 2^64 - 1.
    pub faults: u64,
}

impl Calls {
    /// No call was made.
    pub fn new(to_fail: Vec<u64>) -> Calls
        ensures { result ≡ record { to_fail = to_fail; made = 0; faults = 0 } }
    {
        Calls {
            to_fail,
            made: 0,
            faults: 0,
        }
    }

    /// Counts one more call, and says whether it is to fail.
    pub fn next_is_to_fail(&mut self) -> bool
        ensures answer { result ≡ is_listed self.old.to_fail.items (next self.old.made) }
        ensures counted { self.new ≡ record self.old { made = next self.old.made } }
    {
        self.made = self.made.saturating_add(1);
        self.to_fail.contains(&self.made)
    }

    /// Counts one more fault.
    pub fn fault(&mut self)
        ensures { self.new ≡ record self.old { faults = next self.old.faults } }
    {
        self.faults = self.faults.saturating_add(1);
    }
}
