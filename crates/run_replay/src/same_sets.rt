//! Whether two sets are the same, in each of their subscriptions.

ghost use Rattle.std.specs.Prelude.{◌≡◌, ◌↔◌, IsTrue};

use flat_model::{Act, Cond, Filter, Kind, Op, SetSpec, Sub};

fn same_filter(one: &Filter, other: &Filter) -> bool
    ensures same { IsTrue result ↔ (one.now ≡ other.now) }
{
    one == other
}

fn same_kind(one: &Kind, other: &Kind) -> bool
    ensures same { IsTrue result ↔ (one.now ≡ other.now) }
{
    one == other
}

fn same_op(one: Op, other: Op) -> bool
    ensures same { IsTrue result ↔ (one ≡ other) }
{
    one == other
}

fn same_cond(one: Cond, other: Cond) -> bool
    ensures same { IsTrue result ↔ (one ≡ other) }
{
    one == other
}

fn same_store(one: Option<u64>, other: Option<u64>) -> bool
    ensures same { IsTrue result ↔ (one ≡ other) }
{
    one == other
}

fn same_act(one: &Act, other: &Act) -> bool
    ensures same { IsTrue result ↔ (one.now ≡ other.now) }
{
    match (one, other) {
        (Act::Call { kind }, Act::Call { kind: wanted }) => same_kind(kind, wanted),
        (
            Act::Inline { op, entry, imm },
            Act::Inline {
                op: wanted_op,
                entry: wanted_entry,
                imm: wanted_imm,
            },
        ) => same_op(*op, *wanted_op) && *entry == *wanted_entry && *imm == *wanted_imm,
        (
            Act::Cond {
                cond,
                entry,
                imm,
                then_store,
                kind,
            },
            Act::Cond {
                cond: wanted_cond,
                entry: wanted_entry,
                imm: wanted_imm,
                then_store: wanted_store,
                kind: wanted,
            },
        ) => {
            same_cond(*cond, *wanted_cond)
                && *entry == *wanted_entry
                && *imm == *wanted_imm
                && same_store(*then_store, *wanted_store)
                && same_kind(kind, wanted)
        }
        _ => false,
    }
}

fn same_sub(one: &Sub, other: &Sub) -> bool
    ensures same { IsTrue result ↔ (one.now ≡ other.now) }
{
    same_filter(&one.filter, &other.filter) && same_act(&one.act, &other.act)
}

fn same_subs(one: &[Sub], other: &[Sub]) -> bool
    ensures same { IsTrue result ↔ (one.now ≡ other.now) }
{
    if one.len() != other.len() {
        return false;
    }
    for (place, sub) in one.iter().enumerate() {
        if !same_sub(sub, &other[place]) {
            return false;
        }
    }
    true
}

/// Whether two sets are the same.
pub(crate) fn same_set(one: &SetSpec, other: &SetSpec) -> bool
    ensures same { IsTrue result ↔ (one.now ≡ other.now) }
{
    one.entries == other.entries && same_subs(one.subs.as_slice(), other.subs.as_slice())
}
