//! The head of a part, and the subscription that a part spells.

ghost use Rattle.std.specs.Prelude.{◌≡◌, ◌<◌, IfOk};
ghost use Rattle.std.specs.Option.{ForSome};
ghost use Rattle.run_script.specs.Bytes.{colon, tail_len};
ghost use Rattle.run_script.specs.Heads.{inline_of, inline_head, when_of, when_numbers, when_named, when_tail, when_head, worded_head};
ghost use Rattle.run_script.specs.Heads.{head_of, calls_a_box, is_when, does_call, kind_events, usual_events};
ghost use Rattle.run_script.specs.Heads.{kind_of, act_of, filter_of, sub_of};
ghost use Rattle.flat_model.specs.declared.limits.TheConstants.{ENTRIES_MOST};
ghost use Rattle.run_script.specs.Heads.{entries_of, EntryFits};

use crate::bytes::{cut, is, tail_len};
use crate::items::{Items, Span};
use crate::names::{cond_named, kind_named};
use crate::numbers::{DECIMAL, DECIMAL_DIGITS, entry_number, number};
use crate::refusals::SpecRule;
use flat_model::limits::{
    CLASSES_ALL, KIND_BLOCK, KIND_INSN, KIND_MEM, KINDS_ALL, READS_AND_WRITES,
};
use flat_model::{Act, Ask, Cond, Filter, Kind, KindName, Op, Sub};

/// A head. An entry is below `ENTRIES_MOST`.
#[derive(Clone, Copy)]
pub enum Head {
    Boxed(KindName),
    Inline {
        op: Op,
        entry: u8,
        imm: u64,
    },
    When {
        cond: Cond,
        entry: u8,
        imm: u64,
        kind: KindName,
    },
}

fn inline_of(op: Op, entry: Option<u8>, imm: Option<u64>) -> Result<Head, SpecRule>
    requires { ForSome entry (λ n. n < ENTRIES_MOST) }
    ensures value { result ≡ inline_of op entry imm }
    ensures small { IfOk result EntryFits }
{
    match (entry, imm) {
        (Some(entry), Some(imm)) => Ok(Head::Inline { op, entry, imm }),
        _ => Err(SpecRule::Number),
    }
}

#[tactic(auto, unfolding(crate::specs::Heads::inline_head))]
fn inline_head(op: Op, text: &[u8]) -> Result<Head, SpecRule>
    ensures value { result ≡ inline_head op text.now }
    ensures small { IfOk result EntryFits }
{
    let (entry, imm) = cut(text, b':');
    match imm {
        None => Err(SpecRule::Name),
        Some(imm) => inline_of(
            op,
            entry_number(entry),
            number(DECIMAL, DECIMAL_DIGITS, imm),
        ),
    }
}

fn when_of(
    cond: Cond,
    kind: KindName,
    entry: Option<u8>,
    imm: Option<u64>,
) -> Result<Head, SpecRule>
    requires { ForSome entry (λ n. n < ENTRIES_MOST) }
    ensures value { result ≡ when_of cond kind entry imm }
    ensures small { IfOk result EntryFits }
{
    match (entry, imm) {
        (Some(entry), Some(imm)) => Ok(Head::When {
            cond,
            entry,
            imm,
            kind,
        }),
        _ => Err(SpecRule::Number),
    }
}

fn when_named(cond: Option<Cond>, kind: Option<KindName>, text: &[u8]) -> Result<Head, SpecRule>
    ensures value { result ≡ when_named cond kind text.now }
    ensures small { IfOk result EntryFits }
{
    let (Some(cond), Some(kind)) = (cond, kind) else {
        return Err(SpecRule::Name);
    };
    let (entry, imm) = cut(text, b':');
    match imm {
        None => Err(SpecRule::Name),
        Some(imm) => {
            let imm = number(DECIMAL, DECIMAL_DIGITS, imm);
            when_of(cond, kind, entry_number(entry), imm)
        }
    }
}

fn when_tail(cond: Option<Cond>, text: &[u8]) -> Result<Head, SpecRule>
    ensures value { result ≡ when_tail cond text.now (tail_len colon text.now) }
    ensures small { IfOk result EntryFits }
{
    match tail_len(text, b':') {
        None => Err(SpecRule::Name),
        Some(len) => {
            let place = text.len() - len;
            when_named(cond, kind_named(&text[place..]), &text[..place - 1])
        }
    }
}

#[tactic(auto, unfolding(crate::specs::Heads::when_head))]
fn when_head(text: &[u8]) -> Result<Head, SpecRule>
    ensures value { result ≡ when_head text.now }
    ensures small { IfOk result EntryFits }
{
    let (cond, rest) = cut(text, b':');
    match rest {
        None => Err(SpecRule::Name),
        Some(rest) => when_tail(cond_named(cond), rest),
    }
}

#[tactic(auto, unfolding(crate::specs::Heads::worded_head))]
fn worded_head(word: &[u8], text: &[u8]) -> Result<Head, SpecRule>
    ensures value { result ≡ worded_head word.now text.now }
    ensures small { IfOk result EntryFits }
{
    if is(word, "add") {
        inline_head(Op::Add, text)
    } else if is(word, "set") {
        inline_head(Op::Store, text)
    } else if is(word, "when") {
        when_head(text)
    } else {
        Err(SpecRule::Name)
    }
}

/// The head that a text spells.
#[tactic(auto, unfolding(crate::specs::Heads::head_of))]
pub fn head_of(text: &[u8]) -> Result<Head, SpecRule>
    ensures value { result ≡ head_of text.now }
    ensures small { IfOk result EntryFits }
{
    if let Some(kind) = kind_named(text) {
        return Ok(Head::Boxed(kind));
    }
    let (word, rest) = cut(text, b':');
    match rest {
        None => Err(SpecRule::Name),
        Some(rest) => worded_head(word, rest),
    }
}

/// Whether the head is a kind's name or begins with `when:`.
#[tactic(auto, unfolding(crate::specs::Heads::calls_a_box))]
pub fn calls_a_box(text: &[u8]) -> bool
    ensures { result ≡ calls_a_box text.now }
{
    let (word, rest) = cut(text, b':');
    kind_named(text).is_some() || is(word, "when") && rest.is_some()
}

/// Whether the head is conditional.
pub fn is_when(head: Head) -> bool
    ensures { result ≡ is_when head }
{
    match head {
        Head::When { .. } => true,
        Head::Boxed(_) | Head::Inline { .. } => false,
    }
}

/// Whether the act of the head calls a box.
pub fn does_call(head: Head) -> bool
    ensures { result ≡ does_call head }
{
    match head {
        Head::Boxed(_) | Head::When { .. } => true,
        Head::Inline { .. } => false,
    }
}

/// How many entries a head needs.
pub fn entries_of(head: Head) -> u8
    requires { EntryFits head }
    ensures { result ≡ entries_of head }
{
    match head {
        Head::Boxed(_) => 0,
        Head::Inline { entry, .. } | Head::When { entry, .. } => entry + 1,
    }
}

fn kind_events(kind: KindName) -> u8
    ensures { result ≡ kind_events kind }
{
    match kind {
        KindName::Counts => KINDS_ALL,
        KindName::Hot => KIND_BLOCK,
        KindName::Mem | KindName::Pages => KIND_MEM,
        KindName::Exec | KindName::Classes | KindName::Own { .. } => KIND_INSN,
    }
}

fn usual_events(head: Head) -> u8
    ensures { result ≡ usual_events head }
{
    match head {
        Head::Boxed(kind) => kind_events(kind),
        Head::Inline { .. } | Head::When { .. } => KIND_INSN,
    }
}

// The kind of a name, which asks at its quota.
fn kind_of(name: KindName, quota: Option<u64>, ask: Option<Ask>) -> Kind
    ensures { result ≡ kind_of name quota ask }
{
    match (quota, ask) {
        (Some(quota @ 1..), Some(Ask::Reset)) => Kind {
            name,
            quota,
            ask: Ask::Reset,
        },
        (Some(quota @ 1..), Some(Ask::Uninstall)) => Kind {
            name,
            quota,
            ask: Ask::Uninstall,
        },
        _ => Kind {
            name,
            quota: 0,
            ask: Ask::Stay,
        },
    }
}

fn act_of(head: Head, items: Items) -> Act
    ensures { result ≡ act_of head items }
{
    match head {
        Head::Boxed(kind) => Act::Call {
            kind: kind_of(kind, items.quota, items.ask),
        },
        Head::Inline { op, entry, imm } => Act::Inline { op, entry, imm },
        Head::When {
            cond,
            entry,
            imm,
            kind,
        } => Act::Cond {
            cond,
            entry,
            imm,
            then_store: items.then_store,
            kind: kind_of(kind, items.quota, items.ask),
        },
    }
}

fn filter_of(head: Head, items: Items) -> Filter
    ensures { result ≡ filter_of head items }
{
    let span = items.pc.unwrap_or(Span {
        lo: 0,
        hi: u64::MAX,
    });
    Filter {
        kinds: items.kinds.unwrap_or(usual_events(head)),
        lo: span.lo,
        hi: span.hi,
        classes: items.classes.unwrap_or(CLASSES_ALL),
        rw: items.rw.unwrap_or(READS_AND_WRITES),
    }
}

/// The subscription of a head and its items, with the defaults of what is not given.
pub fn sub_of(head: Head, items: Items) -> Sub
    ensures { result ≡ sub_of head items }
{
    Sub {
        filter: filter_of(head, items),
        act: act_of(head, items),
    }
}
