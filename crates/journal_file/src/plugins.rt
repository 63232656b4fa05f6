//! Reading a set of subscriptions.

ghost use Rattle.std.specs.Prelude.{◌≡◌, length, IfOk};
ghost use Rattle.journal_file.specs.Reading.{Gives, stored_at, inline_at, conditional_at, act_at, filter_at, sub_at, subs_at, set_at};

use crate::fields::{Field, read_cond, read_kind, read_op, read_u8, read_u16, read_u64};
use crate::refusal::Fault;
use flat_model::{Act, Filter, Refused, SetSpec, Sub, Subs};
use std::alloc::Global;

/// What is stored after a call, behind its flag.
#[tactic(auto, unfolding(crate::specs::Reading::stored_at))]
fn read_stored(bytes: &[u8]) -> Field<'_, Option<u64>>
    ensures { Gives (λ x. (x.0, x.1.now)) result (stored_at bytes.now) }
{
    let (flag, rest) = read_u8(bytes)?;
    match flag {
        0 => Ok((None, rest)),
        1 => {
            let (value, rest) = read_u64(rest)?;
            Ok((Some(value), rest))
        }
        _ => Err(Refused::Because(Fault::Bad(flag))),
    }
}

#[tactic(auto, unfolding(crate::specs::Reading::inline_at))]
fn read_inline(bytes: &[u8]) -> Field<'_, Act>
    ensures { Gives (λ x. (x.0, x.1.now)) result (inline_at bytes.now) }
{
    let (op, rest) = read_op(bytes)?;
    let (entry, rest) = read_u8(rest)?;
    let (imm, rest) = read_u64(rest)?;
    Ok((Act::Inline { op, entry, imm }, rest))
}

#[tactic(auto, unfolding(crate::specs::Reading::conditional_at))]
fn read_conditional(bytes: &[u8]) -> Field<'_, Act>
    ensures { Gives (λ x. (x.0, x.1.now)) result (conditional_at bytes.now) }
{
    let (cond, rest) = read_cond(bytes)?;
    let (entry, rest) = read_u8(rest)?;
    let (imm, rest) = read_u64(rest)?;
    let (kind, rest) = read_kind(rest)?;
    let (then_store, rest) = read_stored(rest)?;
    let act = Act::Cond {
        cond,
        entry,
        imm,
        then_store,
        kind,
    };
    Ok((act, rest))
}

#[tactic(auto, unfolding(crate::specs::Reading::act_at))]
fn read_act(bytes: &[u8]) -> Field<'_, Act>
    ensures { Gives (λ x. (x.0, x.1.now)) result (act_at bytes.now) }
{
    let (tag, rest) = read_u8(bytes)?;
    match tag {
        0 => {
            let (kind, rest) = read_kind(rest)?;
            Ok((Act::Call { kind }, rest))
        }
        1 => read_inline(rest),
        2 => read_conditional(rest),
        _ => Err(Refused::Because(Fault::Bad(tag))),
    }
}

#[tactic(auto, unfolding(crate::specs::Reading::filter_at))]
fn read_filter(bytes: &[u8]) -> Field<'_, Filter>
    ensures { Gives (λ x. (x.0, x.1.now)) result (filter_at bytes.now) }
{
    let (kinds, rest) = read_u8(bytes)?;
    let (lo, rest) = read_u64(rest)?;
    let (hi, rest) = read_u64(rest)?;
    let (classes, rest) = read_u16(rest)?;
    let (rw, rest) = read_u8(rest)?;
    let filter = Filter {
        kinds,
        lo,
        hi,
        classes,
        rw,
    };
    Ok((filter, rest))
}

#[tactic(auto, unfolding(crate::specs::Reading::sub_at))]
fn read_sub(bytes: &[u8]) -> Field<'_, Sub>
    ensures { Gives (λ x. (x.0, x.1.now)) result (sub_at bytes.now) }
{
    let (filter, rest) = read_filter(bytes)?;
    let (act, rest) = read_act(rest)?;
    Ok((Sub { filter, act }, rest))
}

fn read_subs(alloc: Global, count: u8, bytes: &[u8]) -> Field<'_, Vec<Sub>>
    ensures subscriptions { Gives (λ x. (x.0.items, x.1.now)) result (subs_at count bytes.now) }
    ensures number { IfOk result (λ x. length x.0.items ≡ count) }
{
    let mut subs = Vec::new(alloc);
    let mut rest = bytes;
    for _ in 0..count {
        let (sub, after) = read_sub(rest)?;
        if subs.push(sub).is_err() {
            return Err(Refused::NoMemory);
        }
        rest = after;
    }
    Ok((subs, rest))
}

/// A set with its number of entries and its number of subscriptions in front.
#[tactic(auto, unfolding(crate::specs::Reading::set_at))]
pub fn read_set(alloc: Global, bytes: &[u8]) -> Field<'_, SetSpec>
    ensures { Gives (λ x. (x.0, x.1.now)) result (set_at bytes.now) }
{
    let (entries, rest) = read_u8(bytes)?;
    let (count, rest) = read_u8(rest)?;
    let (subs, rest) = read_subs(alloc, count, rest)?;
    let subs = Subs::new(subs);
    Ok((SetSpec { entries, subs }, rest))
}
