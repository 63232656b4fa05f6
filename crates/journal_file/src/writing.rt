//! Writing a journal file.

ghost use Rattle.std.specs.Prelude.{◌≡◌, ◌+◌, ◌++◌, ◌∷◌, ◌<◌, ◌≤◌, ◌^◌, ◌*◌, [], Some, Ok, List};
ghost use Rattle.std.specs.Prelude.{IfSome, IfOk, OnOk, length};
ghost use Rattle.std.specs.List.{All, AllByRecursion, flat_map};
ghost use Rattle.std.specs.Int.{w16, w64, to_le_bytes};
ghost use Rattle.journal_file.specs.Head.{IsHead, mode_byte};
ghost use Rattle.journal_file.specs.Reading.{file_at};
ghost use Rattle.journal_file.specs.Spelling.{name, kind, stored, act, filter, sub, set, origin, order, entry};
ghost use Rattle.journal_file.specs.Spelling.{header, head_bytes, spelling};
ghost use Rattle.journal_file.specs.Spelling.{HasFewSubs, HasFewSubsIn, FitsName, FitsKind, FitsInline, FitsAct, FitsFilter, FitsSub};
ghost use Rattle.journal_file.specs.Spelling.{FitsSet, FitsOrigin, FitsOrder, FitsEntry};
ghost use Rattle.journal_file.specs.Table.{op_byte, cond_byte, ask_byte};

use crate::heads::RunHead;
use flat_model::{
    Act, Ask, Cond, Entry, Filter, Kind, KindName, Mode, NoMemory, Op, Order, Origin, SetSpec, Sub,
};
use run_journal::Journal;
use std::alloc::Global;

/// The bytes before the entries of version 2.
const HEADER_BYTES: usize = 26;

fn op_code(op: Op) -> u8
    ensures { result ≡ op_byte op }
{
    match op {
        Op::Add => 0,
        Op::Store => 1,
    }
}

fn cond_code(cond: Cond) -> u8
    ensures { result ≡ cond_byte cond }
{
    match cond {
        Cond::Never => 0,
        Cond::Always => 1,
        Cond::Eq => 2,
        Cond::Ne => 3,
        Cond::Lt => 4,
        Cond::Le => 5,
        Cond::Gt => 6,
        Cond::Ge => 7,
    }
}

fn ask_code(ask: Ask) -> u8
    ensures { result ≡ ask_byte ask }
{
    match ask {
        Ask::Stay => 0,
        Ask::Reset => 1,
        Ask::Uninstall => 2,
    }
}

fn put_name(out: &mut Vec<u8>, called: &KindName) -> Result<(), NoMemory>
    ensures spelled { OnOk result (out.new.items ≡ out.old.items ++ name called.now) }
    ensures fits { OnOk result (FitsName called.now) }
{
    match called {
        KindName::Counts => out.push(0)?,
        KindName::Hot => out.push(1)?,
        KindName::Mem => out.push(2)?,
        KindName::Exec => out.push(3)?,
        KindName::Classes => out.push(4)?,
        KindName::Pages => out.push(5)?,
        KindName::Own { number } => {
            out.push(6)?;
            out.extend_from_slice(&number.to_le_bytes())?;
        }
    }
    Ok(())
}

fn put_kind(out: &mut Vec<u8>, what: &Kind) -> Result<(), NoMemory>
    ensures spelled { OnOk result (out.new.items ≡ out.old.items ++ kind what.now) }
    ensures fits { OnOk result (FitsKind what.now) }
{
    put_name(out, &what.name)?;
    out.extend_from_slice(&what.quota.to_le_bytes())?;
    out.push(ask_code(what.ask))?;
    Ok(())
}

fn put_stored(out: &mut Vec<u8>, value: &Option<u64>) -> Result<(), NoMemory>
    ensures spelled { OnOk result (out.new.items ≡ out.old.items ++ stored value.now) }
    ensures fits { OnOk result (IfSome value.now (λ v. v < 2 ^ 64)) }
{
    match value {
        None => out.push(0)?,
        Some(value) => {
            out.push(1)?;
            out.extend_from_slice(&value.to_le_bytes())?;
        }
    }
    Ok(())
}

fn put_inline(out: &mut Vec<u8>, op: Op, slot: u8, imm: u64) -> Result<(), NoMemory>
    ensures spelled { OnOk result (out.new.items ≡ out.old.items ++ 1 ∷ op_byte op ∷ slot ∷ to_le_bytes w64 imm) }
    ensures fits { FitsInline slot imm }
{
    out.extend_from_slice(&[1, op_code(op), slot])?;
    out.extend_from_slice(&imm.to_le_bytes())?;
    Ok(())
}

/// The front of a conditional call: what is compared.
fn put_compared(out: &mut Vec<u8>, cond: Cond, slot: u8, imm: u64) -> Result<(), NoMemory>
    ensures spelled { OnOk result (out.new.items ≡ out.old.items ++ 2 ∷ cond_byte cond ∷ slot ∷ to_le_bytes w64 imm) }
    ensures fits { FitsInline slot imm }
{
    out.extend_from_slice(&[2, cond_code(cond), slot])?;
    out.extend_from_slice(&imm.to_le_bytes())?;
    Ok(())
}

fn put_act(out: &mut Vec<u8>, what: &Act) -> Result<(), NoMemory>
    ensures spelled { OnOk result (out.new.items ≡ out.old.items ++ act what.now) }
    ensures fits { OnOk result (FitsAct what.now) }
{
    match what {
        Act::Call { kind } => {
            out.push(0)?;
            put_kind(out, kind)
        }
        Act::Inline { op, entry, imm } => put_inline(out, *op, *entry, *imm),
        Act::Cond {
            cond,
            entry,
            imm,
            then_store,
            kind,
        } => {
            put_compared(out, *cond, *entry, *imm)?;
            put_kind(out, kind)?;
            put_stored(out, then_store)
        }
    }
}

fn put_range(out: &mut Vec<u8>, lo: u64, hi: u64) -> Result<(), NoMemory>
    ensures spelled { OnOk result (out.new.items ≡ out.old.items ++ (to_le_bytes w64 lo ++ to_le_bytes w64 hi)) }
{
    out.extend_from_slice(&lo.to_le_bytes())?;
    out.extend_from_slice(&hi.to_le_bytes())?;
    Ok(())
}

fn put_classes(out: &mut Vec<u8>, classes: u16, access: u8) -> Result<(), NoMemory>
    ensures spelled { OnOk result (out.new.items ≡ out.old.items ++ (to_le_bytes w16 classes ++ access ∷ [])) }
{
    out.extend_from_slice(&classes.to_le_bytes())?;
    out.push(access)?;
    Ok(())
}

fn put_filter(out: &mut Vec<u8>, what: &Filter) -> Result<(), NoMemory>
    ensures spelled { OnOk result (out.new.items ≡ out.old.items ++ filter what.now) }
    ensures fits { OnOk result (FitsFilter what.now) }
{
    out.push(what.kinds)?;
    put_range(out, what.lo, what.hi)?;
    put_classes(out, what.classes, what.rw)?;
    Ok(())
}

fn put_sub(out: &mut Vec<u8>, what: &Sub) -> Result<(), NoMemory>
    ensures spelled { OnOk result (out.new.items ≡ out.old.items ++ sub what.now) }
    ensures fits { OnOk result (FitsSub what.now) }
{
    put_filter(out, &what.filter)?;
    put_act(out, &what.act)
}

fn put_subs(out: &mut Vec<u8>, subs: &[Sub]) -> Result<(), NoMemory>
    ensures spelled { OnOk result (out.new.items ≡ out.old.items ++ flat_map sub subs.now) }
    ensures fits { OnOk result (AllByRecursion FitsSub subs.now) }
{
    for each in subs {
        put_sub(out, each)?;
    }
    Ok(())
}

fn put_set(out: &mut Vec<u8>, spec: &SetSpec) -> Result<(), NoMemory>
    requires { length spec.now.subs ≤ 255 }
    ensures spelled { OnOk result (out.new.items ≡ out.old.items ++ set spec.now) }
    ensures fits { OnOk result (FitsSet spec.now) }
{
    let subs = spec.subs.as_slice();
    out.push(spec.entries)?;
    out.push(subs.len() as u8)?;
    put_subs(out, subs)
}

fn put_origin(out: &mut Vec<u8>, from: &Origin) -> Result<(), NoMemory>
    ensures spelled { OnOk result (out.new.items ≡ out.old.items ++ origin from.now) }
    ensures fits { OnOk result (FitsOrigin from.now) }
{
    match from {
        Origin::Start => out.push(0)?,
        Origin::Script { line, party } => {
            out.push(1)?;
            out.extend_from_slice(&line.to_le_bytes())?;
            out.push(*party)?;
        }
        Origin::Asked { hart, plugin } => {
            out.push(2)?;
            out.push(*hart)?;
            out.push(*plugin)?;
        }
        Origin::Control { party } => {
            out.push(3)?;
            out.push(*party)?;
        }
    }
    Ok(())
}

fn put_order(out: &mut Vec<u8>, what: &Order) -> Result<(), NoMemory>
    requires { HasFewSubs what.now }
    ensures spelled { OnOk result (out.new.items ≡ out.old.items ++ order what.now) }
    ensures fits { OnOk result (FitsOrder what.now) }
{
    match what {
        Order::Install { spec } => {
            out.push(0)?;
            put_set(out, spec)
        }
        Order::Register { plugin, spec } => {
            out.push(1)?;
            out.push(*plugin)?;
            put_set(out, spec)
        }
        Order::Reset { plugin } => {
            out.push(2)?;
            out.push(*plugin)?;
            Ok(())
        }
        Order::Uninstall { plugin } => {
            out.push(3)?;
            out.push(*plugin)?;
            Ok(())
        }
    }
}

fn put_entry(out: &mut Vec<u8>, what: &Entry) -> Result<(), NoMemory>
    requires { HasFewSubsIn what.now }
    ensures spelled { OnOk result (out.new.items ≡ out.old.items ++ entry what.now) }
    ensures fits { OnOk result (FitsEntry what.now) }
{
    match what {
        Entry::Turn { hart, n } => {
            out.push(1)?;
            out.push(*hart)?;
            out.extend_from_slice(&n.to_le_bytes())?;
        }
        Entry::Order { origin, order } => {
            out.push(2)?;
            put_origin(out, origin)?;
            put_order(out, order)?;
        }
        Entry::Back { hart, plugin } => {
            out.push(3)?;
            out.push(*hart)?;
            out.push(*plugin)?;
        }
        Entry::Leave { hart } => {
            out.push(4)?;
            out.push(*hart)?;
        }
        Entry::Done { party, plugin } => {
            out.push(5)?;
            out.push(*party)?;
            out.push(*plugin)?;
        }
    }
    Ok(())
}

fn put_entries(out: &mut Vec<u8>, entries: &[Entry]) -> Result<(), NoMemory>
    requires { All HasFewSubsIn entries.now }
    ensures spelled { OnOk result (out.new.items ≡ out.old.items ++ flat_map entry entries.now) }
    ensures fits { OnOk result (AllByRecursion FitsEntry entries.now) }
{
    for each in entries {
        put_entry(out, each)?;
    }
    Ok(())
}

fn put_header(out: &mut Vec<u8>, count: usize) -> Result<(), NoMemory>
    ensures spelled { OnOk result (out.new.items ≡ out.old.items ++ header 2 count) }
    ensures fits { count < 2 ^ 64 }
{
    out.extend_from_slice(b"TCGJ")?;
    out.extend_from_slice(&2u32.to_le_bytes())?;
    out.extend_from_slice(&(count as u64).to_le_bytes())?;
    Ok(())
}

fn mode_code(mode: Mode) -> u8
    ensures { result ≡ mode_byte mode }
{
    match mode {
        Mode::All => 0,
        Mode::First => 1,
    }
}

fn put_head(out: &mut Vec<u8>, head: &RunHead) -> Result<(), NoMemory>
    ensures spelled { OnOk result (out.new.items ≡ out.old.items ++ head_bytes (Some head.now)) }
    ensures fits { IsHead head.now }
{
    out.extend_from_slice(&[head.harts(), mode_code(head.mode())])?;
    out.extend_from_slice(&head.limit().to_le_bytes())?;
    Ok(())
}

/// The one spelling of a journal and the head of its run, in one buffer of its size.
pub fn write(alloc: Global, head: &RunHead, journal: &Journal) -> Result<Vec<u8>, NoMemory>
    requires { All HasFewSubsIn journal.now.entries }
    ensures spelled { IfOk result (λ bytes. bytes.items ≡ spelling (Some head.now) journal.now.entries) }
    // What is written is read again.
    ensures again { IfOk result (λ bytes. file_at bytes.items ≡ Ok (record { head = Some head.now; entries = journal.now.entries })) }
{
    let entries = journal.entries();
    let Some(size) = file_size(entries) else {
        return Err(NoMemory);
    };
    let mut out = Vec::with_capacity(alloc, size)?;
    put_header(&mut out, entries.len())?;
    put_head(&mut out, head)?;
    put_entries(&mut out, entries)?;
    Ok(out)
}

fn name_size(called: &KindName) -> usize
    ensures size { result ≡ length (name called.now) }
    ensures small { result ≤ 5 }
{
    match called {
        KindName::Own { number: _ } => 5,
        _ => 1,
    }
}

fn kind_size(what: &Kind) -> usize
    ensures size { result ≡ length (kind what.now) }
    ensures small { result ≤ 14 }
{
    name_size(&what.name) + 9
}

fn stored_size(value: &Option<u64>) -> usize
    ensures size { result ≡ length (stored value.now) }
    ensures small { result ≤ 9 }
{
    if value.is_some() { 9 } else { 1 }
}

fn act_size(what: &Act) -> usize
    ensures size { result ≡ length (act what.now) }
    ensures small { result ≤ 34 }
{
    match what {
        Act::Call { kind } => 1 + kind_size(kind),
        Act::Inline {
            op: _,
            entry: _,
            imm: _,
        } => 11,
        Act::Cond {
            cond: _,
            entry: _,
            imm: _,
            then_store,
            kind,
        } => 11 + kind_size(kind) + stored_size(then_store),
    }
}

fn sub_size(what: &Sub) -> usize
    ensures size { result ≡ length (sub what.now) }
    ensures small { result ≤ 54 }
{
    20 + act_size(&what.act)
}

fn subs_size(subs: &[Sub]) -> usize
    requires { length subs.now ≤ 255 }
    ensures size { result ≡ length (flat_map sub subs.now) }
    ensures small { result ≤ 54 * length subs.now }
{
    let mut size = 0;
    for each in subs {
        size += sub_size(each);
    }
    size
}

fn set_size(spec: &SetSpec) -> usize
    requires { length spec.now.subs ≤ 255 }
    ensures size { result ≡ length (set spec.now) }
    ensures small { result ≤ 13772 }
{
    2 + subs_size(spec.subs.as_slice())
}

fn origin_size(from: &Origin) -> usize
    ensures size { result ≡ length (origin from.now) }
    ensures small { result ≤ 6 }
{
    match from {
        Origin::Start => 1,
        Origin::Script { line: _, party: _ } => 6,
        Origin::Asked { hart: _, plugin: _ } => 3,
        Origin::Control { party: _ } => 2,
    }
}

fn order_size(what: &Order) -> usize
    requires { HasFewSubs what.now }
    ensures size { result ≡ length (order what.now) }
    ensures small { result ≤ 13774 }
{
    match what {
        Order::Install { spec } => 1 + set_size(spec),
        Order::Register { plugin: _, spec } => 2 + set_size(spec),
        Order::Reset { plugin: _ } | Order::Uninstall { plugin: _ } => 2,
    }
}

fn entry_size(what: &Entry) -> usize
    requires { HasFewSubsIn what.now }
    ensures { result ≡ length (entry what.now) }
{
    match what {
        Entry::Turn { hart: _, n: _ } => 6,
        Entry::Order { origin, order } => 1 + origin_size(origin) + order_size(order),
        Entry::Back { hart: _, plugin: _ } => 3,
        Entry::Leave { hart: _ } => 2,
        Entry::Done {
            party: _,
            plugin: _,
        } => 3,
    }
}

/// The length of a file, or None where it passes the memory.
fn file_size(entries: &[Entry]) -> Option<usize>
    requires { All HasFewSubsIn entries.now }
    ensures { IfSome result (λ size. size ≡ length (flat_map entry entries.now) + 26) }
{
    let mut size = HEADER_BYTES;
    for each in entries {
        size = size.checked_add(entry_size(each))?;
    }
    Some(size)
}
