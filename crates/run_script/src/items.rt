//! The items of a part.

ghost use Rattle.std.specs.Prelude.{◌≡◌, true};
ghost use Rattle.run_script.specs.Items.{bits_item, rw_item, quota_item, ask_item, then_item, address, span_item, pc_item};
ghost use Rattle.run_script.specs.Items.{named_item, item_of, has, add, goes_with, with_item, is_paired};

use crate::bytes::{cut, is};
use crate::heads::{Head, does_call, is_when};
use crate::names::{Names, ask_named, direction_named, mask};
use crate::numbers::{DECIMAL, DECIMAL_DIGITS, HEXADECIMAL, HEXADECIMAL_DIGITS, number};
use crate::refusals::SpecRule;
use flat_model::Ask;

/// The addresses of a filter, both inclusive.
#[derive(Clone, Copy)]
pub struct Span {
    pub lo: u64,
    pub hi: u64,
}

/// One item.
#[derive(Clone, Copy)]
pub enum Item {
    Kinds(u8),
    Pc(Span),
    Class(u16),
    Rw(u8),
    Quota(u64),
    Asks(Ask),
    Then(u64),
}

/// The items of a part, as far as they were given.
#[derive(Clone, Copy)]
pub struct Items {
    pub kinds: Option<u8>,
    pub pc: Option<Span>,
    pub classes: Option<u16>,
    pub rw: Option<u8>,
    pub quota: Option<u64>,
    pub ask: Option<Ask>,
    pub then_store: Option<u64>,
}

#[tactic(auto, unfolding(crate::specs::Items::bits_item))]
fn bits_item(names: Names, value: &[u8]) -> Result<Item, SpecRule>
    ensures { result ≡ bits_item names value.now }
{
    match (names, mask(names, value)) {
        (_, None) => Err(SpecRule::Name),
        (Names::Events, Some(bits)) => Ok(Item::Kinds(bits as u8)),
        (Names::Classes, Some(bits)) => Ok(Item::Class(bits)),
    }
}

#[tactic(auto, unfolding(crate::specs::Items::rw_item))]
fn rw_item(value: &[u8]) -> Result<Item, SpecRule>
    ensures { result ≡ rw_item value.now }
{
    match direction_named(value) {
        None => Err(SpecRule::Name),
        Some(rw) => Ok(Item::Rw(rw)),
    }
}

#[tactic(auto, unfolding(crate::specs::Items::quota_item))]
fn quota_item(value: &[u8]) -> Result<Item, SpecRule>
    ensures { result ≡ quota_item value.now }
{
    match number(DECIMAL, DECIMAL_DIGITS, value) {
        Some(calls) if calls > 0 => Ok(Item::Quota(calls)),
        _ => Err(SpecRule::Number),
    }
}

#[tactic(auto, unfolding(crate::specs::Items::ask_item))]
fn ask_item(value: &[u8]) -> Result<Item, SpecRule>
    ensures { result ≡ ask_item value.now }
{
    match ask_named(value) {
        None => Err(SpecRule::Name),
        Some(ask) => Ok(Item::Asks(ask)),
    }
}

#[tactic(auto, unfolding(crate::specs::Items::then_item))]
fn then_item(value: &[u8]) -> Result<Item, SpecRule>
    ensures { result ≡ then_item value.now }
{
    match number(DECIMAL, DECIMAL_DIGITS, value) {
        None => Err(SpecRule::Number),
        Some(stored) => Ok(Item::Then(stored)),
    }
}

#[tactic(auto, unfolding(crate::specs::Items::address))]
fn address(text: &[u8]) -> Option<u64>
    ensures { result ≡ address text.now }
{
    number(HEXADECIMAL, HEXADECIMAL_DIGITS, text)
}

fn span_item(lo: Option<u64>, hi: Option<u64>) -> Result<Item, SpecRule>
    ensures { result ≡ span_item lo hi }
{
    match (lo, hi) {
        (Some(lo), Some(hi)) if lo > hi => Err(SpecRule::Range),
        (Some(lo), Some(hi)) => Ok(Item::Pc(Span { lo, hi })),
        _ => Err(SpecRule::Number),
    }
}

#[tactic(auto, unfolding(crate::specs::Items::pc_item))]
fn pc_item(value: &[u8]) -> Result<Item, SpecRule>
    ensures { result ≡ pc_item value.now }
{
    let (lo, rest) = cut(value, b'-');
    match rest {
        None => Err(SpecRule::Name),
        Some(hi) => span_item(address(lo), address(hi)),
    }
}

#[tactic(auto, unfolding(crate::specs::Items::named_item))]
fn named_item(name: &[u8], value: &[u8]) -> Result<Item, SpecRule>
    ensures { result ≡ named_item name.now value.now }
{
    if is(name, "kinds") {
        bits_item(Names::Events, value)
    } else if is(name, "class") {
        bits_item(Names::Classes, value)
    } else if is(name, "rw") {
        rw_item(value)
    } else if is(name, "pc") {
        pc_item(value)
    } else if is(name, "quota") {
        quota_item(value)
    } else if is(name, "ask") {
        ask_item(value)
    } else if is(name, "then") {
        then_item(value)
    } else {
        Err(SpecRule::Name)
    }
}

/// The item that a text spells.
#[tactic(auto, unfolding(crate::specs::Items::item_of))]
pub fn item_of(text: &[u8]) -> Result<Item, SpecRule>
    ensures { result ≡ item_of text.now }
{
    let (name, value) = cut(text, b'=');
    match value {
        None => Err(SpecRule::Name),
        Some(value) => named_item(name, value),
    }
}

// Whether the item's name stood before.
fn has(items: Items, item: Item) -> bool
    ensures { result ≡ has items item }
{
    match item {
        Item::Kinds(_) => items.kinds.is_some(),
        Item::Pc(_) => items.pc.is_some(),
        Item::Class(_) => items.classes.is_some(),
        Item::Rw(_) => items.rw.is_some(),
        Item::Quota(_) => items.quota.is_some(),
        Item::Asks(_) => items.ask.is_some(),
        Item::Then(_) => items.then_store.is_some(),
    }
}

fn add(items: Items, item: Item) -> Items
    ensures { result ≡ add items item }
{
    let mut next = items;
    match item {
        Item::Kinds(bits) => next.kinds = Some(bits),
        Item::Pc(span) => next.pc = Some(span),
        Item::Class(bits) => next.classes = Some(bits),
        Item::Rw(rw) => next.rw = Some(rw),
        Item::Quota(calls) => next.quota = Some(calls),
        Item::Asks(ask) => next.ask = Some(ask),
        Item::Then(stored) => next.then_store = Some(stored),
    }
    next
}

// Whether an item may stand behind the head.
fn goes_with(head: Head, item: Item) -> bool
    ensures { result ≡ goes_with head item }
{
    match item {
        Item::Kinds(_) | Item::Pc(_) | Item::Class(_) | Item::Rw(_) => true,
        Item::Quota(_) | Item::Asks(_) => does_call(head),
        Item::Then(_) => is_when(head),
    }
}

/// The items behind a head with one more.
pub fn with_item(head: Head, items: Items, item: Item) -> Result<Items, SpecRule>
    ensures { result ≡ with_item head items item }
{
    if has(items, item) {
        Err(SpecRule::Repeat)
    } else if goes_with(head, item) {
        Ok(add(items, item))
    } else {
        Err(SpecRule::Place)
    }
}

/// Whether a quota and an ask are given together, or neither.
pub fn is_paired(items: Items) -> bool
    ensures { result ≡ is_paired items }
{
    items.quota.is_some() == items.ask.is_some()
}
