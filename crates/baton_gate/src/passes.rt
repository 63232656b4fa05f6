//! Passes.
ghost use Rattle.std.specs.Prelude.{◌≡◌};

use crate::kept::Kept;
use crate::rule::Baton;
use crate::views::View;

pub(crate) type Place<S> = crossbeam_queue::Pass<
    Baton<S>,
    View<<S as Kept>::Item, <S as Kept>::Frame>,
>;

/// The leave of one party to take the value and give it back. It goes with the party's thread.
#[derive(Drop)]
pub struct Pass<S: Kept> {
    pub(crate) place: Place<S>,
    pub(crate) party: u8,
    pub(crate) takes: u64,
}

impl<S: Kept> Pass<S> {
    /// The number of the pass's party, from 0.
    pub fn party(&self) -> u8
        ensures { result ≡ self.now.party }
    {
        self.party
    }

    /// How often the value was taken by this pass; it stays at 2^64 - 1.
    pub fn takes(&self) -> u64
        ensures { result ≡ self.now.takes }
    {
        self.takes
    }
}
