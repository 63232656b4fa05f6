//! The fields of all entries: bytes, numbers and the bytes of the tables.

ghost use Rattle.std.specs.Prelude.{◌≡◌, List, ℕ};
ghost use Rattle.std.specs.Int.{w16, w32, w64};
ghost use Rattle.journal_file.specs.Table.{op_of, cond_of};
ghost use Rattle.journal_file.specs.Reading.{Gives, byte_at, number_at, op_at, cond_at, name_at, kind_at, kind_of};

use crate::refusal::Fault;
use flat_model::{Ask, Cond, Kind, KindName, Op, Refused};

/// What was read, and the bytes behind it.
pub type Field<'a, T> = Result<(T, &'a [u8]), Refused<Fault>>;

pub fn read_u8(bytes: &[u8]) -> Field<'_, u8>
    ensures { Gives (λ x. (x.0, x.1.now)) result (byte_at bytes.now) }
{
    match bytes {
        [] => Err(Refused::Because(Fault::Short)),
        [first, rest @ ..] => Ok((*first, rest)),
    }
}

pub fn read_u16(bytes: &[u8]) -> Field<'_, u16>
    ensures { Gives (λ x. (x.0, x.1.now)) result (number_at w16 bytes.now) }
{
    if bytes.len() < 2 {
        return Err(Refused::Because(Fault::Short));
    }
    let (front, rest) = bytes.split_at(2);
    let number = u16::from_le_bytes([front[0], front[1]]);
    Ok((number, rest))
}

pub fn read_u32(bytes: &[u8]) -> Field<'_, u32>
    ensures { Gives (λ x. (x.0, x.1.now)) result (number_at w32 bytes.now) }
{
    if bytes.len() < 4 {
        return Err(Refused::Because(Fault::Short));
    }
    let (front, rest) = bytes.split_at(4);
    let number = u32::from_le_bytes([front[0], front[1], front[2], front[3]]);
    Ok((number, rest))
}

pub fn read_u64(bytes: &[u8]) -> Field<'_, u64>
    ensures { Gives (λ x. (x.0, x.1.now)) result (number_at w64 bytes.now) }
{
    if bytes.len() < 8 {
        return Err(Refused::Because(Fault::Short));
    }
    let (front, rest) = bytes.split_at(8);
    let number = u64::from_le_bytes([
        front[0], front[1], front[2], front[3], front[4], front[5], front[6], front[7],
    ]);
    Ok((number, rest))
}

#[tactic(auto, unfolding(crate::specs::Reading::op_at))]
pub fn read_op(bytes: &[u8]) -> Field<'_, Op>
    ensures { Gives (λ x. (x.0, x.1.now)) result (op_at bytes.now) }
{
    let (byte, rest) = read_u8(bytes)?;
    match byte {
        0 => Ok((Op::Add, rest)),
        1 => Ok((Op::Store, rest)),
        _ => Err(Refused::Because(Fault::Bad(byte))),
    }
}

#[tactic(auto, unfolding(crate::specs::Reading::cond_at))]
pub fn read_cond(bytes: &[u8]) -> Field<'_, Cond>
    ensures { Gives (λ x. (x.0, x.1.now)) result (cond_at bytes.now) }
{
    let (byte, rest) = read_u8(bytes)?;
    match byte {
        0 => Ok((Cond::Never, rest)),
        1 => Ok((Cond::Always, rest)),
        2 => Ok((Cond::Eq, rest)),
        3 => Ok((Cond::Ne, rest)),
        4 => Ok((Cond::Lt, rest)),
        5 => Ok((Cond::Le, rest)),
        6 => Ok((Cond::Gt, rest)),
        7 => Ok((Cond::Ge, rest)),
        _ => Err(Refused::Because(Fault::Bad(byte))),
    }
}

#[tactic(auto, unfolding(crate::specs::Reading::name_at))]
pub fn read_name(bytes: &[u8]) -> Field<'_, KindName>
    ensures { Gives (λ x. (x.0, x.1.now)) result (name_at bytes.now) }
{
    let (byte, rest) = read_u8(bytes)?;
    match byte {
        0 => Ok((KindName::Counts, rest)),
        1 => Ok((KindName::Hot, rest)),
        2 => Ok((KindName::Mem, rest)),
        3 => Ok((KindName::Exec, rest)),
        4 => Ok((KindName::Classes, rest)),
        5 => Ok((KindName::Pages, rest)),
        6 => {
            let (number, rest) = read_u32(rest)?;
            Ok((KindName::Own { number }, rest))
        }
        _ => Err(Refused::Because(Fault::Bad(byte))),
    }
}

#[tactic(auto, unfolding(crate::specs::Reading::kind_at))]
pub fn read_kind(bytes: &[u8]) -> Field<'_, Kind>
    ensures { Gives (λ x. (x.0, x.1.now)) result (kind_at bytes.now) }
{
    let (name, rest) = read_name(bytes)?;
    let (quota, rest) = read_u64(rest)?;
    let (ask, rest) = read_u8(rest)?;
    let kind = kind_from(name, quota, ask)?;
    Ok((kind, rest))
}

/// The kind with the ask that a byte stands for.
fn kind_from(name: KindName, quota: u64, ask: u8) -> Result<Kind, Refused<Fault>>
    ensures { Gives (λ kind. kind) result (kind_of name quota ask) }
{
    match (quota, ask) {
        (0, 0) => Ok(Kind {
            name,
            quota,
            ask: Ask::Stay,
        }),
        (1.., 1) => Ok(Kind {
            name,
            quota,
            ask: Ask::Reset,
        }),
        (1.., 2) => Ok(Kind {
            name,
            quota,
            ask: Ask::Uninstall,
        }),
        _ => Err(Refused::Because(Fault::Bad(ask))),
    }
}
