//! The names of kinds, conditions, events and classes.

ghost use Rattle.std.specs.Prelude.{◌≡◌, ◌<◌, ◌^◌, IfSome};
ghost use Rattle.run_script.specs.Names.{event_names, class_names, rw_names, ask_names, named, kind_named, cond_named};
ghost use Rattle.run_script.specs.Names.{width, bit_named, mask};

use crate::bytes::{cut, is};
use flat_model::limits::{
    KIND_BLOCK, KIND_EXIT, KIND_INIT, KIND_INSN, KIND_MEM, KIND_SYS, KIND_SYSRET, READS,
    READS_AND_WRITES, WRITES,
};
use flat_model::{Ask, Cond, KindName};

/// Which names a list has.
#[derive(Clone, Copy)]
pub enum Names {
    Events,
    Classes,
}

/// The kind of a box.
pub fn kind_named(text: &[u8]) -> Option<KindName>
    ensures { result ≡ kind_named text.now }
{
    if is(text, "counts") {
        Some(KindName::Counts)
    } else if is(text, "hot") {
        Some(KindName::Hot)
    } else if is(text, "mem") {
        Some(KindName::Mem)
    } else if is(text, "exec") {
        Some(KindName::Exec)
    } else if is(text, "classes") {
        Some(KindName::Classes)
    } else if is(text, "pages") {
        Some(KindName::Pages)
    } else {
        None
    }
}

/// The condition of a conditional act.
pub fn cond_named(text: &[u8]) -> Option<Cond>
    ensures { result ≡ cond_named text.now }
{
    if is(text, "never") {
        Some(Cond::Never)
    } else if is(text, "always") {
        Some(Cond::Always)
    } else if is(text, "eq") {
        Some(Cond::Eq)
    } else if is(text, "ne") {
        Some(Cond::Ne)
    } else if is(text, "lt") {
        Some(Cond::Lt)
    } else if is(text, "le") {
        Some(Cond::Le)
    } else if is(text, "gt") {
        Some(Cond::Gt)
    } else if is(text, "ge") {
        Some(Cond::Ge)
    } else {
        None
    }
}

/// Which of loads and stores are heard.
pub fn direction_named(text: &[u8]) -> Option<u8>
    ensures { result ≡ named rw_names text.now }
{
    if is(text, "r") {
        Some(READS)
    } else if is(text, "w") {
        Some(WRITES)
    } else if is(text, "rw") {
        Some(READS_AND_WRITES)
    } else {
        None
    }
}

/// What is asked for at a quota.
pub fn ask_named(text: &[u8]) -> Option<Ask>
    ensures { result ≡ named ask_names text.now }
{
    if is(text, "reset") {
        Some(Ask::Reset)
    } else if is(text, "uninstall") {
        Some(Ask::Uninstall)
    } else {
        None
    }
}

fn event_bit(text: &[u8]) -> Option<u8>
    ensures { result ≡ named event_names text.now }
{
    if is(text, "init") {
        Some(KIND_INIT)
    } else if is(text, "block") {
        Some(KIND_BLOCK)
    } else if is(text, "insn") {
        Some(KIND_INSN)
    } else if is(text, "mem") {
        Some(KIND_MEM)
    } else if is(text, "sys") {
        Some(KIND_SYS)
    } else if is(text, "sysret") {
        Some(KIND_SYSRET)
    } else if is(text, "exit") {
        Some(KIND_EXIT)
    } else {
        None
    }
}

fn class_bit(text: &[u8]) -> Option<u16>
    ensures { result ≡ named class_names text.now }
{
    if is(text, "alu") {
        Some(1)
    } else if is(text, "muldiv") {
        Some(2)
    } else if is(text, "load") {
        Some(4)
    } else if is(text, "store") {
        Some(8)
    } else if is(text, "branch") {
        Some(16)
    } else if is(text, "jump") {
        Some(32)
    } else if is(text, "atomic") {
        Some(64)
    } else if is(text, "system") {
        Some(128)
    } else if is(text, "illegal") {
        Some(256)
    } else {
        None
    }
}

fn bit_named(names: Names, text: &[u8]) -> Option<u16>
    ensures value { result ≡ bit_named names text.now }
    ensures small { IfSome result (λ bit. bit < 2 ^ width names) }
{
    match names {
        Names::Events => event_bit(text).map(u16::from),
        Names::Classes => class_bit(text),
    }
}

/// The bits of the names between slashes.
pub fn mask(names: Names, text: &[u8]) -> Option<u16>
    ensures value { result ≡ mask names text.now }
    ensures small { IfSome result (λ bits. bits < 2 ^ width names) }
{
    let mut bits = 0u16;
    let mut rest = Some(text);
    while let Some(list) = rest {
        let (name, more) = cut(list, b'/');
        match bit_named(names, name) {
            None => return None,
            Some(bit) => bits |= bit,
        }
        rest = more;
    }
    Some(bits)
}
