//! What of an event filters look at.

ghost use Rattle.std.specs.Prelude.{◌≡◌};
ghost use Rattle.event_walk.specs.Matches.{class_bit, meet, is_within};
ghost use Rattle.instr_lists.specs.Sorts.{passes};

use flat_model::limits::{
    KIND_BLOCK, KIND_EXIT, KIND_INIT, KIND_INSN, KIND_MEM, KIND_SYS, KIND_SYSRET,
};
use flat_model::{Class, Filter};

/// A sort of event: two events of one sort pass the same filters.
#[derive(Clone, Copy, Debug)]
pub(crate) enum Sort {
    Init,
    Block { pc: u64 },
    Insn { pc: u64, class: Class },
    Mem { pc: u64, class: Class, rw: u8 },
    Sys,
    SysRet,
    Exit,
}

/// The bit of a class in a filter.
fn class_bit(class: Class) -> u16
    ensures { result ≡ class_bit class }
{
    match class {
        Class::Alu => 1,
        Class::MulDiv => 2,
        Class::Load => 4,
        Class::Store => 8,
        Class::Branch => 16,
        Class::Jump => 32,
        Class::Atomic => 64,
        Class::System => 128,
        Class::Illegal => 256,
    }
}

/// Whether the filter has this kind of event.
fn has_kind(filter: &Filter, kind: u8) -> bool
    ensures { result ≡ meet filter.now.kinds kind }
{
    filter.kinds & kind != 0
}

/// Whether `pc` is between the filter's bounds, both included.
fn is_within(filter: &Filter, pc: u64) -> bool
    ensures { result ≡ is_within filter.now pc }
{
    filter.lo <= pc && pc <= filter.hi
}

/// Whether the filter has this class of words.
fn has_class(filter: &Filter, class: Class) -> bool
    ensures { result ≡ meet filter.now.classes (class_bit class) }
{
    filter.classes & class_bit(class) != 0
}

/// Whether a filter lets events of this sort through.
#[tactic(auto, unfolding(crate::specs::Sorts::passes))]
pub(crate) fn passes(filter: &Filter, sort: &Sort) -> bool
    ensures passes { result ≡ passes filter.now sort.now }
{
    match *sort {
        Sort::Init => has_kind(filter, KIND_INIT),
        Sort::Block { pc } => has_kind(filter, KIND_BLOCK) && is_within(filter, pc),
        Sort::Insn { pc, class } => has_kind(filter, KIND_INSN)
            && (is_within(filter, pc) && has_class(filter, class)),
        Sort::Mem { pc, class, rw } => {
            has_kind(filter, KIND_MEM)
                && (is_within(filter, pc) && (has_class(filter, class) && filter.rw & rw != 0))
        }
        Sort::Sys => has_kind(filter, KIND_SYS),
        Sort::SysRet => has_kind(filter, KIND_SYSRET),
        Sort::Exit => has_kind(filter, KIND_EXIT),
    }
}
