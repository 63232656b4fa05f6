//! Scripts.

ghost use Rattle.std.specs.Prelude.{◌≡◌, ◌++◌, ◌+◌, ◌<◌, ◌≤◌, ◌∷◌, [], List, length, Ok, IfOk};
ghost use Rattle.std.specs.List.{cons_option};
ghost use Rattle.std.specs.Str.Lines.{strip_carriage_return, lines};
ghost use Rattle.flat_model.specs.declared.limits.TheConstants.{SCRIPT_MOST};
ghost use Rattle.flat_model.specs.declared.journals.Timed.{Timed};
ghost use Rattle.flat_model.specs.Plan.{IsPlan};
ghost use Rattle.run_script.specs.declared.fields.OrderName.TheVariants.{Install, Register};
ghost use Rattle.run_script.specs.Words.{Gives};
ghost use Rattle.run_script.specs.Scripts.{order, named_order, timed, is_passed_over, entry, moment_after, script};
ghost use Rattle.run_script.specs.ScriptGrammar.{SpellsScript};

use crate::bytes::cut;
use crate::fields::{Fault, OrderName, last_plug, last_word, moment, opening, order_name, plug};
use crate::refusals::ScriptRefusal;
use flat_model::{Order, Refused, Timed};
use std::alloc::Global;

#[tactic(auto, unfolding(crate::specs::Scripts::order))]
fn install(alloc: Global, line: &[u8]) -> Result<Order, Refused<Fault>>
    ensures { Gives (λ order. order) result (order Install line.now) }
{
    match last_word(alloc, 3, line) {
        Err(why) => Err(why),
        Ok(spec) => Ok(Order::Install { spec }),
    }
}

#[tactic(auto, unfolding(crate::specs::Scripts::order))]
fn register(alloc: Global, line: &[u8]) -> Result<Order, Refused<Fault>>
    ensures { Gives (λ order. order) result (order Register line.now) }
{
    match plug(line) {
        Err(why) => Err(Refused::Because(why)),
        Ok(plugin) => match last_word(alloc, 4, line) {
            Err(why) => Err(why),
            Ok(spec) => Ok(Order::Register { plugin, spec }),
        },
    }
}

// The order of a line by its name.
#[tactic(auto, unfolding(crate::specs::Scripts::order))]
fn order(alloc: Global, name: OrderName, line: &[u8]) -> Result<Order, Refused<Fault>>
    ensures { Gives (λ order. order) result (order name line.now) }
{
    match name {
        OrderName::Install => install(alloc, line),
        OrderName::Register => register(alloc, line),
        OrderName::Reset => match last_plug(line) {
            Ok(plugin) => Ok(Order::Reset { plugin }),
            Err(why) => Err(Refused::Because(why)),
        },
        OrderName::Uninstall => match last_plug(line) {
            Ok(plugin) => Ok(Order::Uninstall { plugin }),
            Err(why) => Err(Refused::Because(why)),
        },
    }
}

#[tactic(auto, unfolding(crate::specs::Scripts::named_order))]
fn named_order(alloc: Global, line: &[u8]) -> Result<Order, Refused<Fault>>
    ensures { Gives (λ order. order) result (named_order line.now) }
{
    match order_name(line) {
        Err(why) => Err(Refused::Because(why)),
        Ok(name) => order(alloc, name, line),
    }
}

// The order of a line and its moment, which is at least `least`.
#[tactic(auto, unfolding(crate::specs::Scripts::timed))]
fn timed(alloc: Global, least: u64, line: &[u8]) -> Result<Timed, Refused<Fault>>
    ensures { Gives (λ timed. timed) result (timed least line.now) }
{
    if let Err(why) = opening(line) {
        return Err(Refused::Because(why));
    }
    match moment(least, line) {
        Err(why) => Err(Refused::Because(why)),
        Ok(when) => match named_order(alloc, line) {
            Err(why) => Err(why),
            Ok(order) => Ok(Timed { when, order }),
        },
    }
}

fn is_passed_over(line: &[u8]) -> bool
    ensures { result ≡ is_passed_over line.now }
{
    match line.first() {
        None => true,
        Some(byte) => *byte == b'#',
    }
}

// What a line spells, where it is not passed over.
#[tactic(auto, unfolding(crate::specs::Scripts::entry))]
fn entry(
    alloc: Global,
    number: u64,
    least: u64,
    line: &[u8],
) -> Result<Option<Timed>, Refused<ScriptRefusal>>
    ensures { Gives (λ entry. entry) result (entry number least line.now) }
{
    if is_passed_over(line) {
        return Ok(None);
    }
    match timed(alloc, least, line) {
        Ok(timed) => Ok(Some(timed)),
        Err(Refused::NoMemory) => Err(Refused::NoMemory),
        Err(Refused::Because(fault)) => Err(Refused::Because(ScriptRefusal {
            line: number,
            column: fault.column,
            rule: fault.rule,
        })),
    }
}

fn moment_after(least: u64, entry: &Option<Timed>) -> u64
    ensures { result ≡ moment_after least entry.now }
{
    match entry {
        None => least,
        Some(timed) => timed.when,
    }
}

fn without_return(line: &[u8]) -> &[u8]
    ensures { result.now ≡ strip_carriage_return line.now }
{
    match line.last() {
        Some(b'\r') => &line[..line.len() - 1],
        _ => line,
    }
}

// The first line of a text, and what stands after its line feed.
fn first_line(text: &[u8]) -> (&[u8], &[u8])
    requires { 0 < length text.now }
    ensures lines { lines text.now ≡ result.0.now ∷ lines result.1.now }
    ensures shorter { length result.1.now < length text.now }
{
    let (front, rest) = cut(text, b'\n');
    match rest {
        None => (front, &[]),
        Some(rest) => (without_return(front), rest),
    }
}

fn with_entry(
    mut list: Vec<Timed>,
    entry: Option<Timed>,
) -> Result<Vec<Timed>, Refused<ScriptRefusal>>
    ensures { Gives (λ now. now.items) result (Ok (list.items ++ cons_option entry [])) }
{
    if let Some(timed) = entry
        && list.push(timed).is_err()
    {
        return Err(Refused::NoMemory);
    }
    Ok(list)
}

// What the lines of a text spell, or the first refusal.
fn all_entries(alloc: Global, bytes: &[u8]) -> Result<Vec<Timed>, Refused<ScriptRefusal>>
    ensures { Gives (λ list. list.items) result (script bytes.now) }
{
    let mut list = Vec::new(alloc);
    let mut rest = bytes;
    let mut number = 0u64;
    let mut least = 0u64;
    while !rest.is_empty() {
        let (line, more) = first_line(rest);
        number += 1;
        let entry = entry(alloc, number, least, line)?;
        least = moment_after(least, &entry);
        list = with_entry(list, entry)?;
        rest = more;
    }
    Ok(list)
}

/// The orders that a script spells, with their moments. The refusal is the first one in the text.
pub fn script(alloc: Global, bytes: &[u8]) -> Result<Vec<Timed>, Refused<ScriptRefusal>>
    requires size { length bytes.now ≤ SCRIPT_MOST }

    // An accepted text is a script of the grammar, with the orders that it spells. They are those of a plan.
    ensures only { IfOk result (λ list. SpellsScript list.items bytes.now) }
    ensures plan { IfOk result (λ list. IsPlan list.items) }

    // Each script of the grammar is read as its orders, want of memory aside.
    ensures read { (list : List Timed) → SpellsScript list bytes.now → Gives (λ list. list.items) result (Ok list) }

    // Any other text is refused, with the first rule that it breaks.
    ensures first { Gives (λ list. list.items) result (script bytes.now) }
{
    all_entries(alloc, bytes)
}
