//! Closings in a party's hand.

ghost use Rattle.std.specs.Prelude.{◌≡◌, ◌++◌, [], None, Some, OnOk, OnErr, map, option_map};
ghost use Rattle.std.specs.List.{cons_option};
ghost use Rattle.run_order.specs.Sets.{as_notice};
ghost use Rattle.run_controls.specs.Hands.{told};

use flat_model::NoMemory;
use host_state::Closing;
use std::marker::Model;
use watcher_api::{Closer, Held, Returned, Watcher};

/// A closing that a party has taken in one hold: it tells the closer, and puts it back in a later one.
#[derive(Drop)]
pub struct ClosingInHand<W: Watcher, C: Closer<Held<W>>> {
    pub(crate) plugin: u8,
    pub(crate) closer: C,
    // What the closer is to be told, until it has been.
    pub(crate) back: Option<Returned<Held<W>>>,
}

impl<W: Watcher, C: Closer<Held<W>>> Model for ClosingInHand<W, C> {
    ghost use Rattle.std.specs.Prelude.{map, option_map};
    ghost use Rattle.run_order.specs.InOrder.{InHand};
    ghost use Rattle.run_order.specs.Sets.{as_notice};

    ghost Value = { InHand };

    ghost view = { λ c. record {
      plugin = c.plugin;
      notices = map as_notice (C.notices c.closer);
      back = option_map as_notice c.back;
    } };
}

impl<W: Watcher, C: Closer<Held<W>>> ClosingInHand<W, C> {
    /// A closing whose closer hasn't been told yet.
    pub(crate) fn untold(closing: Closing<W, C>) -> ClosingInHand<W, C>
        ensures plugin { result.plugin ≡ closing.plugin }
        ensures notices { result.notices ≡ map as_notice (C.notices closing.closer) }
        ensures back { result.back ≡ Some (as_notice closing.back) }
    {
        let Closing {
            plugin,
            closer,
            back,
        } = closing;
        ClosingInHand {
            plugin,
            closer,
            back: Some(back),
        }
    }
}

/// Gives a closer its notice, where there is one that it hasn't been given; where it has no memory for it, the notice stays.
fn hand_over<W: Watcher, C: Closer<Held<W>>>(
    closer: &mut C,
    back: &mut Option<Returned<Held<W>>>,
) -> Result<(), NoMemory>
    ensures given { OnOk result (C.notices closer.new ≡ C.notices closer.old ++ cons_option back.old []) }
    ensures none_left { OnOk result (back.new ≡ None) }
    ensures unchanged { OnErr result (C.notices closer.new ≡ C.notices closer.old) }
    ensures kept { OnErr result (back.new ≡ back.old) }
{
    let Some(notice) = back.take() else {
        return Ok(());
    };
    match closer.closed(notice) {
        Ok(()) => Ok(()),
        Err(handed_back) => {
            *back = Some(handed_back);
            Err(NoMemory)
        }
    }
}

/// Tells the closer of the closing in hand what it is to be told, unless it has been told.
pub(crate) fn tell<W: Watcher, C: Closer<Held<W>>>(
    hand: &mut Option<ClosingInHand<W, C>>,
) -> Result<(), NoMemory>
    ensures told { OnOk result (hand.new ≡ option_map told hand.old) }
    ensures kept { OnErr result (hand.new ≡ hand.old) }
{
    let Some(closing) = hand else {
        return Ok(());
    };
    hand_over(&mut closing.closer, &mut closing.back)
}
