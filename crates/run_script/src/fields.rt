//! The fields of a script's line.

ghost use Rattle.std.specs.Prelude.{◌≡◌, ◌+◌, ◌<◌, ◌≤◌, ◌^◌, length, slice_get, option_map, IfSome, IfOk};
ghost use Rattle.std.specs.List.{list_all};
ghost use Rattle.std.specs.Char.{is_ascii};
ghost use Rattle.std.specs.Result.{result_map_both};
ghost use Rattle.run_script.specs.Bytes.{space, pieces};
ghost use Rattle.run_script.specs.Names.{named};
ghost use Rattle.run_script.specs.Words.{Gives};
ghost use Rattle.run_script.specs.Fields.{placed_from, field_at, wanted_field, read, opening, moment};
ghost use Rattle.run_script.specs.Fields.{order_name, plug, word, end};
ghost use Rattle.run_script.specs.Fields.{last_plug, last_word};

use crate::bytes::{cut, is};
use crate::numbers::{DECIMAL, DECIMAL_DIGITS, number};
use crate::refusals::ScriptRule;
use crate::words;
use flat_model::{Refused, SetSpec};
use std::alloc::Global;

/// The rule that a line breaks, and the column of what breaks it, in bytes from 1.
#[derive(Clone, Copy)]
pub struct Fault {
    pub column: u64,
    pub rule: ScriptRule,
}

/// A field with the column of its first byte.
#[derive(Clone, Copy)]
pub struct Field<'a> {
    pub column: u64,
    pub text: &'a [u8],
}

/// The name of an order.
#[derive(Clone, Copy)]
pub enum OrderName {
    Install,
    Register,
    Reset,
    Uninstall,
}

// The field of a number, from 0, among those of a text that begins at the column.
fn field_from(column: u64, text: &[u8], k: usize) -> Option<Field<'_>>
    requires { column + length text.now + 1 < 2 ^ 64 }
    ensures value { option_map (λ f. (f.column, f.text.now)) result ≡ slice_get (placed_from column (pieces space text.now)) k }
    ensures within { IfSome result (λ f. column ≤ f.column × f.column + length f.text.now ≤ column + length text.now) }
{
    let (front, rest) = cut(text, b' ');
    if k == 0 {
        return Some(Field {
            column,
            text: front,
        });
    }
    match rest {
        None => None,
        Some(rest) => field_from(column + front.len() as u64 + 1, rest, k - 1),
    }
}

fn field_at(k: usize, line: &[u8]) -> Option<Field<'_>>
    ensures value { option_map (λ f. (f.column, f.text.now)) result ≡ field_at k line.now }
    ensures within { IfSome result (λ f. 1 ≤ f.column × f.column + length f.text.now ≤ length line.now + 1) }
{
    field_from(1, line, k)
}

fn all_ascii(text: &[u8]) -> bool
    ensures { result ≡ list_all is_ascii text.now }
{
    text.iter().all(|byte| byte.is_ascii())
}

#[tactic(auto, unfolding(crate::specs::Fields::wanted_field))]
fn wanted_field(k: usize, line: &[u8]) -> Result<Field<'_>, Fault>
    ensures value { result_map_both (λ f. (f.column, f.text.now)) (λ why. why) result ≡ wanted_field k line.now }
    ensures within { IfOk result (λ f. 1 ≤ f.column × f.column + length f.text.now ≤ length line.now + 1) }
{
    match field_at(k, line) {
        None => Err(Fault {
            column: line.len() as u64 + 1,
            rule: ScriptRule::Form,
        }),
        Some(field) if all_ascii(field.text) => Ok(field),
        Some(field) => Err(Fault {
            column: field.column,
            rule: ScriptRule::Form,
        }),
    }
}

fn opens(text: &[u8]) -> Result<(), ScriptRule>
    ensures { result ≡ opening text.now }
{
    if is(text, "at") {
        Ok(())
    } else {
        Err(ScriptRule::Form)
    }
}

/// Whether the first field is `at`.
pub fn opening(line: &[u8]) -> Result<(), Fault>
    ensures { result ≡ read 0 line.now opening }
{
    match wanted_field(0, line) {
        Err(why) => Err(why),
        Ok(Field { column, text }) => opens(text).map_err(|rule| Fault { column, rule }),
    }
}

fn moment_of(least: u64, text: &[u8]) -> Result<u64, ScriptRule>
    ensures { result ≡ moment least text.now }
{
    match number(DECIMAL, DECIMAL_DIGITS, text) {
        None => Err(ScriptRule::Number),
        Some(when) if when < least => Err(ScriptRule::Backwards),
        Some(when) => Ok(when),
    }
}

/// The moment of a line, at least `least`.
pub fn moment(least: u64, line: &[u8]) -> Result<u64, Fault>
    ensures { result ≡ read 1 line.now (moment least) }
{
    match wanted_field(1, line) {
        Err(why) => Err(why),
        Ok(Field { column, text }) => moment_of(least, text).map_err(|rule| Fault { column, rule }),
    }
}

fn name_of(text: &[u8]) -> Result<OrderName, ScriptRule>
    ensures { result ≡ order_name text.now }
{
    if is(text, "install") {
        Ok(OrderName::Install)
    } else if is(text, "register") {
        Ok(OrderName::Register)
    } else if is(text, "reset") {
        Ok(OrderName::Reset)
    } else if is(text, "uninstall") {
        Ok(OrderName::Uninstall)
    } else {
        Err(ScriptRule::Form)
    }
}

/// The name of a line's order.
pub fn order_name(line: &[u8]) -> Result<OrderName, Fault>
    ensures { result ≡ read 2 line.now order_name }
{
    match wanted_field(2, line) {
        Err(why) => Err(why),
        Ok(Field { column, text }) => name_of(text).map_err(|rule| Fault { column, rule }),
    }
}

fn plug_of(text: &[u8]) -> Result<u8, ScriptRule>
    ensures { result ≡ plug text.now }
{
    match number(DECIMAL, DECIMAL_DIGITS, text) {
        Some(plugin) if plugin <= u64::from(u8::MAX) => Ok(plugin as u8),
        _ => Err(ScriptRule::Number),
    }
}

/// The plug-in's number that a line's fourth field spells.
pub fn plug(line: &[u8]) -> Result<u8, Fault>
    ensures { result ≡ read 3 line.now plug }
{
    match wanted_field(3, line) {
        Err(why) => Err(why),
        Ok(Field { column, text }) => plug_of(text).map_err(|rule| Fault { column, rule }),
    }
}

#[tactic(auto, using(crate::proofs::Shifts::word_in_line))]
fn word(alloc: Global, k: usize, line: &[u8]) -> Result<SetSpec, Refused<Fault>>
    ensures { Gives (λ set. set) result (word k line.now) }
{
    match wanted_field(k, line) {
        Err(why) => Err(Refused::Because(why)),
        Ok(Field { column, text }) => match words::word(alloc, column, text) {
            Ok(set) => Ok(set),
            Err(Refused::NoMemory) => Err(Refused::NoMemory),
            Err(Refused::Because(why)) => Err(Refused::Because(Fault {
                column: why.column,
                rule: ScriptRule::Word(why.rule),
            })),
        },
    }
}

fn end(k: usize, line: &[u8]) -> Result<(), Fault>
    ensures { result ≡ end k line.now }
{
    match field_at(k, line) {
        None => Ok(()),
        Some(field) => Err(Fault {
            column: field.column,
            rule: ScriptRule::Form,
        }),
    }
}

/// The plug-in's number with which a line ends, as its fourth field.
#[tactic(auto, unfolding(crate::specs::Fields::last_plug))]
pub fn last_plug(line: &[u8]) -> Result<u8, Fault>
    ensures { result ≡ last_plug line.now }
{
    match plug(line) {
        Err(why) => Err(why),
        Ok(plugin) => match end(4, line) {
            Err(why) => Err(why),
            Ok(()) => Ok(plugin),
        },
    }
}

/// The set that a line's field `k`, from 0, spells, with which the line ends.
#[tactic(auto, unfolding(crate::specs::Fields::last_word))]
pub fn last_word(alloc: Global, k: usize, line: &[u8]) -> Result<SetSpec, Refused<Fault>>
    requires { k < 5 }
    ensures { Gives (λ set. set) result (last_word k line.now) }
{
    match word(alloc, k, line) {
        Err(why) => Err(why),
        Ok(set) => match end(k + 1, line) {
            Err(why) => Err(Refused::Because(why)),
            Ok(()) => Ok(set),
        },
    }
}
