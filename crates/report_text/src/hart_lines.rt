//! The report's line of a hart.

ghost use Rattle.std.specs.Prelude.{◌≡◌, ◌++◌, None, Some, IfOk, OnOk};
ghost use Rattle.std.specs.Fmt.{decimal};
ghost use Rattle.flat_model.specs.Texts.{fault_name, group_text, ending_text, fate_text, hart_line};

use flat_model::{Ending, FaultKind, NoMemory};
use number_text::{put_decimal, put_hex, put_signed, put_text};
use rv_exec::Hart;
use std::alloc::Global;

/// What the report calls a fault.
fn fault_name(kind: FaultKind) -> &'static str
    ensures name { result.now ≡ fault_name kind }
{
    match kind {
        FaultKind::Fetch => "fetch",
        FaultKind::Illegal => "illegal",
        FaultKind::MisalignedJump => "jump",
        FaultKind::MisalignedAtomic => "atomic",
        FaultKind::Load => "load",
        FaultKind::Store => "store",
        FaultKind::Break => "break",
    }
}

/// Puts the fault and its address.
fn put_fault(out: &mut Vec<u8>, kind: FaultKind, pc: u64) -> Result<(), NoMemory>
    ensures text { OnOk result (out.new.items ≡ out.old.items ++ ending_text None (Some (Ending.Fault kind pc))) }
{
    put_text(out, "fault ")?;
    put_text(out, fault_name(kind))?;
    put_text(out, " at 0x")?;
    put_hex(out, pc, 16)
}

/// Puts how the group ended.
fn put_group(out: &mut Vec<u8>, group: Option<i32>) -> Result<(), NoMemory>
    ensures text { OnOk result (out.new.items ≡ out.old.items ++ group_text group) }
{
    match group {
        None => put_text(out, "group"),
        Some(code) => {
            put_text(out, "group ")?;
            put_signed(out, i64::from(code))
        }
    }
}

/// Puts how a hart ended.
fn put_ending(out: &mut Vec<u8>, group: Option<i32>, ending: Option<Ending>) -> Result<(), NoMemory>
    ensures text { OnOk result (out.new.items ≡ out.old.items ++ ending_text group ending) }
{
    let Some(ending) = ending else {
        return put_text(out, "stopped");
    };
    match ending {
        Ending::Exited(code) => {
            put_text(out, "exit ")?;
            put_signed(out, i64::from(code))
        }
        Ending::Group => put_group(out, group),
        Ending::Fault { kind, pc } => put_fault(out, kind, pc),
        Ending::Limit => put_text(out, "limit"),
    }
}

/// Puts what became of a hart.
fn put_fate(out: &mut Vec<u8>, group: Option<i32>, hart: &Hart) -> Result<(), NoMemory>
    ensures text { OnOk result (out.new.items ≡ out.old.items ++ fate_text group hart.now) }
{
    if hart.parked {
        put_text(out, "unstarted")
    } else {
        put_ending(out, group, hart.ending)
    }
}

/// The report's line of hart `no`, whose group ended with this code, if it has ended.
#[tactic(auto, unfolding(flat_model::specs::Texts::hart_line))]
pub fn hart_line(
    alloc: Global,
    no: u8,
    group: Option<i32>,
    hart: &Hart,
) -> Result<Vec<u8>, NoMemory>
    ensures line { IfOk result (λ line. line.items ≡ hart_line no group hart.now) }
{
    let mut out = Vec::new(alloc);
    put_text(&mut out, "hart ")?;
    put_decimal(&mut out, u64::from(no))?;
    put_text(&mut out, " steps ")?;
    put_decimal(&mut out, hart.steps)?;
    put_text(&mut out, " blocks ")?;
    put_decimal(&mut out, hart.blocks)?;
    put_text(&mut out, " ")?;
    put_fate(&mut out, group, hart)?;
    put_text(&mut out, "\n")?;
    Ok(out)
}
