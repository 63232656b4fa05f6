//! Plug-in words.

ghost use Rattle.std.specs.Prelude.{◌≡◌, ◌+◌, ◌<◌, ◌≤◌, ◌^◌, List, length, option_map, IfOk, OnOk};
ghost use Rattle.std.specs.Option.{ForSome};
ghost use Rattle.run_script.specs.Bytes.{plus, comma, pieces};
ghost use Rattle.run_script.specs.Words.{placed, with_text, items_from, items_after, with_head, with_room};
ghost use Rattle.run_script.specs.Words.{with_part, parts_from, spelt_from, spelt};
ghost use Rattle.run_script.specs.Words.{drafted, Gives};
ghost use Rattle.run_script.specs.Heads.{EntryFits};
ghost use Rattle.run_script.specs.Grammar.{Part, SpellsWord};
ghost use Rattle.run_script.specs.Parts.{set_of, KeepsRules};
ghost use Rattle.flat_model.specs.declared.limits.TheConstants.{SUBS_MOST};
ghost use Rattle.flat_model.specs.Registry.{set_refusal};

use crate::bytes::cut;
use crate::heads::{Head, calls_a_box, entries_of, head_of, sub_of};
use crate::items::{Items, is_paired, item_of, with_item};
use crate::refusals::{SpecRefusal, SpecRule};
use flat_model::limits::{CALLING_MOST, SUBS_MOST};
use flat_model::{Refused, SetSpec, Sub, Subs};
use std::alloc::Global;

/// A set that is being read.
#[derive(Drop)]
pub struct Draft {
    pub entries: u8,
    pub subs: Vec<Sub>,
}

#[tactic(auto, unfolding(crate::specs::Words::with_text))]
fn with_text(head: Head, items: Items, text: &[u8]) -> Result<Items, SpecRule>
    ensures { result ≡ with_text head items text.now }
{
    match item_of(text) {
        Ok(item) => with_item(head, items, item),
        Err(rule) => Err(rule),
    }
}

fn placed_text(head: Head, column: u64, items: Items, text: &[u8]) -> Result<Items, SpecRefusal>
    ensures { result ≡ placed column (with_text head items text.now) }
{
    match with_text(head, items, text) {
        Ok(now) => Ok(now),
        Err(rule) => Err(SpecRefusal { column, rule }),
    }
}

#[tactic(auto, using(crate::proofs::Cuts::whole, crate::proofs::Cuts::first_off))]
fn items_from(head: Head, column: u64, items: Items, text: &[u8]) -> Result<Items, SpecRefusal>
    requires { column + length text.now < 2 ^ 64 }
    ensures { result ≡ items_from head column items (pieces comma text.now) }
{
    let (piece, rest) = cut(text, b',');
    match placed_text(head, column, items, piece) {
        Err(why) => Err(why),
        Ok(now) => match rest {
            None => Ok(now),
            Some(rest) => items_from(head, column + piece.len() as u64 + 1, now, rest),
        },
    }
}

fn items_after(head: Head, column: u64, rest: Option<&[u8]>) -> Result<Items, SpecRefusal>
    requires { ForSome rest (λ text. column + length text.now < 2 ^ 64) }
    ensures { result ≡ items_after head column (option_map (λ text. text.now) rest.entry) }
{
    let items = Items {
        kinds: None,
        pc: None,
        classes: None,
        rw: None,
        quota: None,
        ask: None,
        then_store: None,
    };
    match rest {
        None => Ok(items),
        Some(text) => items_from(head, column, items, text),
    }
}

#[tactic(auto, unfolding(crate::specs::Words::with_room))]
fn with_room(subs: &[Sub], entries: u8, text: &[u8]) -> Result<Head, SpecRule>
    ensures value { result ≡ with_room (record { entries = entries; subs = subs.now }) text.now }
    ensures room { OnOk result (length subs.now < SUBS_MOST) }
    ensures small { IfOk result EntryFits }
{
    if subs.len() >= SUBS_MOST as usize {
        return Err(SpecRule::Subs);
    }
    if calls_a_box(text) && Sub::calling(subs) >= CALLING_MOST as usize {
        return Err(SpecRule::Boxes);
    }
    head_of(text)
}

fn with_head(
    column: u64,
    mut draft: Draft,
    len: usize,
    rest: Option<&[u8]>,
    head: Head,
) -> Result<Draft, Refused<SpecRefusal>>
    requires small { EntryFits head }
    requires columns { ForSome rest (λ text. column + len + 1 + length text.now < 2 ^ 64) }
    requires fits { column + len + 1 < 2 ^ 64 }
    ensures value { Gives drafted result
        (with_head column (drafted draft) len (option_map (λ text. text.now) rest.entry) head) }
    ensures one { IfOk result (λ now. length now.subs.items ≡ length draft.subs.items + 1) }
{
    match items_after(head, column + len as u64 + 1, rest) {
        Err(why) => Err(Refused::Because(why)),
        Ok(items) if !is_paired(items) => Err(Refused::Because(SpecRefusal {
            column,
            rule: SpecRule::Pair,
        })),
        Ok(items) => {
            draft.entries = draft.entries.max(entries_of(head));
            match draft.subs.push(sub_of(head, items)) {
                Ok(()) => Ok(draft),
                Err(_) => Err(Refused::NoMemory),
            }
        }
    }
}

#[tactic(auto, unfolding(crate::specs::Words::with_part))]
fn with_part(column: u64, draft: Draft, text: &[u8]) -> Result<Draft, Refused<SpecRefusal>>
    requires { column + length text.now + 1 < 2 ^ 64 }
    ensures value { Gives drafted result (with_part column (drafted draft) text.now) }
    ensures few { IfOk result (λ now. length now.subs.items ≤ SUBS_MOST) }
{
    let (first, rest) = cut(text, b',');
    match with_room(&draft.subs, draft.entries, first) {
        Err(rule) => Err(Refused::Because(SpecRefusal { column, rule })),
        Ok(head) => with_head(column, draft, first.len(), rest, head),
    }
}

#[tactic(auto, using(crate::proofs::Cuts::whole, crate::proofs::Cuts::first_off))]
fn parts_from(column: u64, draft: Draft, text: &[u8]) -> Result<Draft, Refused<SpecRefusal>>
    requires { column + length text.now + 1 < 2 ^ 64 }
    ensures value { Gives drafted result (parts_from column (drafted draft) (pieces plus text.now)) }
    ensures few { IfOk result (λ now. length now.subs.items ≤ SUBS_MOST) }
{
    let (piece, rest) = cut(text, b'+');
    match with_part(column, draft, piece) {
        Err(why) => Err(why),
        Ok(now) => match rest {
            None => Ok(now),
            Some(rest) => parts_from(column + piece.len() as u64 + 1, now, rest),
        },
    }
}

/// The set that a word spells whose first byte stands at the column, or its first refusal.
pub fn word(alloc: Global, column: u64, text: &[u8]) -> Result<SetSpec, Refused<SpecRefusal>>
    requires { column + length text.now + 1 < 2 ^ 64 }
    ensures { Gives (λ set. set) result (spelt_from column text.now) }
{
    let draft = Draft {
        entries: 0,
        subs: Vec::new(alloc),
    };
    match parts_from(column, draft, text) {
        Err(why) => Err(why),
        Ok(draft) => Ok(SetSpec {
            entries: draft.entries,
            subs: Subs::new(draft.subs),
        }),
    }
}

/// The set that a plug-in word spells. The refusal is the first one, and its column is in bytes from 1.
pub fn plugin_word(alloc: Global, text: &str) -> Result<SetSpec, Refused<SpecRefusal>>
    // An accepted word is one of the grammar. Its parts keep the rules, its set is theirs, and it breaks no rule of sets.
    ensures only { IfOk result (λ set. (parts : List Part) × SpellsWord parts text.now) }
    ensures parts { IfOk result (λ set. (parts : List Part) → SpellsWord parts text.now
        → KeepsRules parts × (set ≡ set_of parts)) }
    ensures sound { IfOk result (λ set. set_refusal set ≡ None) }

    // Each word of the grammar that keeps the rules is read as its parts, want of memory aside.
    ensures read { (parts : List Part) → SpellsWord parts text.now → KeepsRules parts
        → Gives (λ set. set) result (Ok (set_of parts)) }

    // Any other word is refused, with the first rule that it breaks from the left.
    ensures first { Gives (λ set. set) result (spelt text.now) }
{
    word(alloc, 1, text.as_bytes())
}
