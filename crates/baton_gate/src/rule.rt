//! The rule of the gate, and what each atomic step tells the pass that makes it.

use crate::kept::Kept;
use crate::views::View;
use crossbeam_queue::protocol::{Join, Outcome, Protocol, Split};
use std::marker::PhantomData;

/// What the queue carries: the value, and the number of parties.
#[derive(Drop)]
pub struct Baton<S> {
    pub state: S,
    pub parties: u64,
}

/// The rule.
pub struct InTurn<S> {
    of: PhantomData<S>,
}

impl<S: Kept> Protocol<Baton<S>, View<S::Item, S::Frame>> for InTurn<S> {
    ghost use Rattle.baton_gate.specs.Course.{Course, unopened, InCourse};

    ghost holds = { InCourse S.log S.party S.frame S.caught_up };

    ghost first = { unopened };
}

/// The push of the opening value.
pub struct Opens<S> {
    of: PhantomData<S>,
}

impl<S: Kept> Outcome<Baton<S>, View<S::Item, S::Frame>> for Opens<S> {
    ghost use Rattle.std.specs.Prelude.{◌≡◌};
    ghost use Rattle.baton_gate.specs.Course.{opened};

    ghost then = { λ v x w. w ≡ opened x.parties (S.frame x.state) (S.log x.state) };
}

/// A pop.
pub struct Takes<S> {
    of: PhantomData<S>,
}

impl<S: Kept> Outcome<Baton<S>, View<S::Item, S::Frame>> for Takes<S> {
    ghost use Rattle.std.specs.Prelude.{◌≡◌};
    ghost use Rattle.baton_gate.specs.Course.{taken, IsTaken};

    ghost then = { λ v x w. (w ≡ taken v (S.log x.state)) × IsTaken S.log S.party S.frame S.caught_up v x.state };
}

/// A later push.
pub struct Gives<S> {
    of: PhantomData<S>,
}

impl<S: Kept> Outcome<Baton<S>, View<S::Item, S::Frame>> for Gives<S> {
    ghost use Rattle.std.specs.Prelude.{◌≡◌};
    ghost use Rattle.baton_gate.specs.Course.{given};

    ghost then = { λ v x w. w ≡ given v (S.log x.state) };
}

/// The making of a further pass, by that of party 0.
pub struct Makes;

impl<I, F> Split<View<I, F>> for Makes {
    ghost use Rattle.baton_gate.specs.Course.{one_more, newcomer};

    ghost left = { one_more };

    ghost right = { newcomer };
}

/// The join of one pass into another.
pub struct Joins;

impl<I, F> Join<View<I, F>> for Joins {
    ghost use Rattle.baton_gate.specs.Course.{joined, spent_view};

    ghost both = { joined };

    ghost spent = { spent_view };
}
