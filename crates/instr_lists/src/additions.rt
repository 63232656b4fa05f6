//! Where all that is done is to add.

ghost use Rattle.std.specs.Prelude.{◌≡◌};
ghost use Rattle.std.specs.List.{list_all};
ghost use Rattle.instr_lists.specs.Silence.{is_add, is_code_sort, only_adds};

use crate::sorts::{Sort, passes};
use flat_model::{Act, Op, SetSpec, Sub};

/// Whether the act adds to an entry, whatever the event and the entries are.
fn is_add(act: &Act) -> bool
    ensures { result ≡ is_add act.now }
{
    matches!(act, Act::Inline { op: Op::Add, .. })
}

/// Whether events of this sort say that a block starts or that a word is executed.
fn is_code(sort: &Sort) -> bool
    ensures { result ≡ is_code_sort sort.now }
{
    matches!(sort, Sort::Block { .. } | Sort::Insn { .. })
}

/// Whether each of these subscriptions only adds where a block starts or at a word, if it hears events of this sort.
fn set_only_adds(sort: &Sort, subs: &[Sub]) -> bool
    ensures { result ≡ list_all (only_adds sort.now) subs.now }
{
    subs.iter().all(|sub| !passes(&sub.filter, sort) || is_code(sort) && is_add(&sub.act))
}

/// The same of all subscriptions of these sets.
pub(crate) fn only_adds(sort: &Sort, sets: &[(u8, SetSpec)]) -> bool
    ensures { result ≡ list_all (λ s. list_all (only_adds sort.now) s.1.subs) sets.now }
{
    sets.iter()
        .all(|(_, spec)| set_only_adds(sort, spec.subs.as_slice()))
}
