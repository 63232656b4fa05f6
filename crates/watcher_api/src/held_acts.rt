//! An act beside the box that it calls.

ghost use Rattle.std.specs.Prelude.{◌≡◌, length, true, MatchResult};
ghost use Rattle.watcher_api.specs.Attachment.{IsWithin, calls_at};
ghost use Rattle.watcher_api.specs.HeldActs.{act_of, carried_out, CarriedOut};

use crate::holders::Held;
use crate::watchers::Watcher;
use flat_model::{Ask, Cond, Event, NoMemory, Op};
use score_boards::Column;

/// An act of a subscription, with its box where it calls one.
#[derive(Debug, Drop)]
pub enum HeldAct<B> {
    Call(B),
    Inline {
        op: Op,
        entry: u8,
        imm: u64,
    },
    Cond {
        cond: Cond,
        entry: u8,
        imm: u64,
        then_store: Option<u64>,
        watcher: B,
    },
}

/// Carries out the act at an event, on a hart's entries. What the act's box asks for then; a call that is refused has
/// changed nothing.
#[inline]
#[tactic(auto, unfolding(crate::specs::HeldActs::carried_out))]
pub(crate) fn carry_out<W: Watcher>(
    held: &mut HeldAct<Held<W>>,
    column: &mut Column,
    e: &Event,
) -> Result<Ask, NoMemory>
    requires within { IsWithin (length column.old) (act_of held.old) }
    ensures done { MatchResult result
        (λ ask. carried_out e.now held.old column.old ≡ record { held = held.new; column = column.new; ask = ask })
        (λ _. calls_at (act_of held.old) column.old ≡ true) }
    ensures refused { MatchResult result
        (λ _. act_of held.new ≡ act_of held.old)
        (λ _. (held.new ≡ held.old) × (column.new ≡ column.old)) }
{
    match held {
        HeldAct::Call(watcher) => watcher.call(e),
        HeldAct::Inline { op, entry, imm } => {
            column.apply(*op, *entry, *imm);
            Ok(Ask::Stay)
        }
        HeldAct::Cond {
            cond,
            entry,
            imm,
            then_store,
            watcher,
        } => {
            if !column.holds(*cond, *entry, *imm) {
                return Ok(Ask::Stay);
            }
            let ask = watcher.call(e)?;
            if let Some(value) = *then_store {
                column.apply(Op::Store, *entry, value);
            }
            Ok(ask)
        }
    }
}
