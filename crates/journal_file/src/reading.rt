//! Reading a journal file.

ghost use Rattle.std.specs.Prelude.{◌≡◌, ◌<◌, false, None, IfOk};
ghost use Rattle.std.specs.Int.{w32, w64};
ghost use Rattle.std.specs.List.{All};
ghost use Rattle.std.specs.Option.{option_and_then};
ghost use Rattle.flat_model.specs.Log.{turning, are_one, HasSteps};
ghost use Rattle.journal_file.specs.File.{held};
ghost use Rattle.journal_file.specs.Head.{FileState, head_of, mode_of};
ghost use Rattle.journal_file.specs.Reading.{Gives, byte_at, number_at, origin_at, order_at, turn_at, entry_at, entries_at, body_at};
ghost use Rattle.journal_file.specs.Reading.{placed, refused_at, version_at, run_head_at, head_at, file_at};
ghost use Rattle.journal_file.specs.Spelling.{IsFile, HasFewSubsIn, spelling};

use crate::fields::{Field, read_u8, read_u32, read_u64};
use crate::heads::{JournalFile, RunHead};
use crate::plugins::read_set;
use crate::refusal::{Fault, FileRefusal};
use flat_model::{Entry, Mode, Order, Origin, Refused};
use run_journal::Journal;
use std::alloc::Global;

/// The first four bytes of a file, the text TCGJ.
const MAGIC: u32 = 0x4A47_4354;

#[tactic(auto, unfolding(crate::specs::Reading::origin_at))]
fn read_origin(bytes: &[u8]) -> Field<'_, Origin>
    ensures { Gives (λ x. (x.0, x.1.now)) result (origin_at bytes.now) }
{
    let (tag, rest) = read_u8(bytes)?;
    match tag {
        0 => Ok((Origin::Start, rest)),
        1 => {
            let (line, rest) = read_u32(rest)?;
            let (party, rest) = read_u8(rest)?;
            Ok((Origin::Script { line, party }, rest))
        }
        2 => {
            let (hart, rest) = read_u8(rest)?;
            let (plugin, rest) = read_u8(rest)?;
            Ok((Origin::Asked { hart, plugin }, rest))
        }
        3 => {
            let (party, rest) = read_u8(rest)?;
            Ok((Origin::Control { party }, rest))
        }
        _ => Err(Refused::Because(Fault::Bad(tag))),
    }
}

#[tactic(auto, unfolding(crate::specs::Reading::order_at))]
fn read_order(alloc: Global, bytes: &[u8]) -> Field<'_, Order>
    ensures { Gives (λ x. (x.0, x.1.now)) result (order_at bytes.now) }
{
    let (tag, rest) = read_u8(bytes)?;
    match tag {
        0 => {
            let (spec, rest) = read_set(alloc, rest)?;
            Ok((Order::Install { spec }, rest))
        }
        1 => {
            let (plugin, rest) = read_u8(rest)?;
            let (spec, rest) = read_set(alloc, rest)?;
            Ok((Order::Register { plugin, spec }, rest))
        }
        2 => {
            let (plugin, rest) = read_u8(rest)?;
            Ok((Order::Reset { plugin }, rest))
        }
        3 => {
            let (plugin, rest) = read_u8(rest)?;
            Ok((Order::Uninstall { plugin }, rest))
        }
        _ => Err(Refused::Because(Fault::Bad(tag))),
    }
}

/// A Turn that may follow a Turn of the hart `last`.
#[tactic(auto, unfolding(crate::specs::Reading::turn_at))]
fn read_turn(last: Option<u8>, bytes: &[u8]) -> Field<'_, Entry>
    ensures entry { Gives (λ x. (x.0, x.1.now)) result (turn_at last bytes.now) }
    ensures steps { IfOk result (λ x. HasSteps x.0) }
    ensures other { IfOk result (λ x. are_one last (turning x.0) ≡ false) }
{
    let (hart, rest) = read_u8(bytes)?;
    if last == Some(hart) {
        return Err(Refused::Because(Fault::Bad(hart)));
    }
    let (n, rest) = read_u32(rest)?;
    if n == 0 {
        return Err(Refused::Because(Fault::Bad(0)));
    }
    Ok((Entry::Turn { hart, n }, rest))
}

/// An entry that may follow a Turn of the hart `last`.
#[tactic(auto, unfolding(crate::specs::Reading::entry_at))]
fn read_entry(alloc: Global, last: Option<u8>, bytes: &[u8]) -> Field<'_, Entry>
    ensures entry { Gives (λ x. (x.0, x.1.now)) result (entry_at last bytes.now) }
    ensures steps { IfOk result (λ x. HasSteps x.0) }
    ensures other { IfOk result (λ x. are_one last (turning x.0) ≡ false) }
{
    let (tag, rest) = read_u8(bytes)?;
    match tag {
        1 => read_turn(last, rest),
        2 => {
            let (origin, rest) = read_origin(rest)?;
            let (order, rest) = read_order(alloc, rest)?;
            Ok((Entry::Order { origin, order }, rest))
        }
        3 => {
            let (hart, rest) = read_u8(rest)?;
            let (plugin, rest) = read_u8(rest)?;
            Ok((Entry::Back { hart, plugin }, rest))
        }
        4 => {
            let (hart, rest) = read_u8(rest)?;
            Ok((Entry::Leave { hart }, rest))
        }
        5 => {
            let (party, rest) = read_u8(rest)?;
            let (plugin, rest) = read_u8(rest)?;
            Ok((Entry::Done { party, plugin }, rest))
        }
        _ => Err(Refused::Because(Fault::Bad(tag))),
    }
}

/// The hart of a Turn.
fn hart_of(entry: &Entry) -> Option<u8>
    ensures { result ≡ turning entry.now }
{
    match entry {
        Entry::Turn { hart, n: _ } => Some(*hart),
        _ => None,
    }
}

/// What is wrong with the entry with index `place`.
fn refused_at(place: u64, fault: Refused<Fault>) -> Refused<FileRefusal>
    ensures { result ≡ refused_at place fault }
{
    match fault {
        Refused::Because(Fault::Short) => Refused::Because(FileRefusal::Short { place }),
        Refused::Because(Fault::Bad(byte)) => {
            Refused::Because(FileRefusal::BadEntry { place, byte })
        }
        Refused::NoMemory => Refused::NoMemory,
    }
}

/// A byte of the header.
#[tactic(auto, using(crate::proofs::Placed::fails_placed))]
fn header_u8(bytes: &[u8]) -> Result<(u8, &[u8]), Refused<FileRefusal>>
    ensures { Gives (λ x. (x.0, x.1.now)) result (placed 0 (byte_at bytes.now)) }
{
    match read_u8(bytes) {
        Ok(read) => Ok(read),
        Err(fault) => Err(refused_at(0, fault)),
    }
}

/// A number of the header.
#[tactic(auto, using(crate::proofs::Placed::fails_placed))]
fn header_u32(bytes: &[u8]) -> Result<(u32, &[u8]), Refused<FileRefusal>>
    ensures { Gives (λ x. (x.0, x.1.now)) result (placed 0 (number_at w32 bytes.now)) }
{
    match read_u32(bytes) {
        Ok(read) => Ok(read),
        Err(fault) => Err(refused_at(0, fault)),
    }
}

#[tactic(auto, using(crate::proofs::Placed::fails_placed))]
fn header_u64(bytes: &[u8]) -> Result<(u64, &[u8]), Refused<FileRefusal>>
    ensures { Gives (λ x. (x.0, x.1.now)) result (placed 0 (number_at w64 bytes.now)) }
{
    match read_u64(bytes) {
        Ok(read) => Ok(read),
        Err(fault) => Err(refused_at(0, fault)),
    }
}

/// The version, behind the first four bytes.
#[tactic(auto, unfolding(crate::specs::Reading::version_at))]
fn read_version(bytes: &[u8]) -> Result<(u32, &[u8]), Refused<FileRefusal>>
    ensures { Gives (λ x. (x.0, x.1.now)) result (version_at bytes.now) }
{
    let (magic, rest) = header_u32(bytes)?;
    if magic != MAGIC {
        return Err(Refused::Because(FileRefusal::Magic));
    }
    let (version, rest) = header_u32(rest)?;
    if version != 1 && version != 2 {
        return Err(Refused::Because(FileRefusal::Version { got: version }));
    }
    Ok((version, rest))
}

/// The mode that a byte stands for.
fn mode_of(byte: u8) -> Option<Mode>
    ensures { result ≡ mode_of byte }
{
    match byte {
        0 => Some(Mode::All),
        1 => Some(Mode::First),
        _ => None,
    }
}

/// A head of these numbers, judged together.
fn judge(harts: u8, mode: u8, limit: u64) -> Option<RunHead>
    ensures { result ≡ option_and_then (λ m. head_of harts m limit) (mode_of mode) }
{
    let mode = mode_of(mode)?;
    RunHead::new(harts, mode, limit)
}

/// The head of version 2, which is read to its end before it is judged.
#[tactic(auto, unfolding(crate::specs::Reading::run_head_at))]
fn read_run_head(bytes: &[u8]) -> Result<(Option<RunHead>, &[u8]), Refused<FileRefusal>>
    ensures { Gives (λ x. (x.0, x.1.now)) result (run_head_at bytes.now) }
{
    let (harts, rest) = header_u8(bytes)?;
    let (mode, rest) = header_u8(rest)?;
    let (limit, rest) = header_u64(rest)?;
    match judge(harts, mode, limit) {
        Some(head) => Ok((Some(head), rest)),
        None => Err(Refused::Because(FileRefusal::BadHead)),
    }
}

/// The head that a version has.
#[tactic(auto, unfolding(crate::specs::Reading::head_at))]
fn read_head(version: u32, bytes: &[u8]) -> Result<(Option<RunHead>, &[u8]), Refused<FileRefusal>>
    ensures { Gives (λ x. (x.0, x.1.now)) result (head_at version bytes.now) }
{
    if version == 1 {
        return Ok((None, bytes));
    }
    read_run_head(bytes)
}

/// The entry with index `place`, which may follow a Turn of the hart `last`.
#[tactic(auto, using(crate::proofs::Placed::fails_placed))]
fn read_placed(
    alloc: Global,
    place: u64,
    last: Option<u8>,
    bytes: &[u8],
) -> Result<(Entry, &[u8]), Refused<FileRefusal>>
    ensures entry { Gives (λ x. (x.0, x.1.now)) result (placed place (entry_at last bytes.now)) }
    ensures steps { IfOk result (λ x. HasSteps x.0) }
    ensures other { IfOk result (λ x. are_one last (turning x.0) ≡ false) }
{
    match read_entry(alloc, last, bytes) {
        Ok(read) => Ok(read),
        Err(fault) => Err(refused_at(place, fault)),
    }
}

fn read_entries(
    alloc: Global,
    count: u64,
    bytes: &[u8],
) -> Result<(Journal, &[u8]), Refused<FileRefusal>>
    ensures { Gives (λ x. (x.0.entries, x.1.now)) result (entries_at 0 None count bytes.now) }
{
    let Ok(mut journal) = Journal::new(alloc) else {
        return Err(Refused::NoMemory);
    };
    let mut last = None;
    let mut rest = bytes;
    for place in 0..count {
        let (entry, after) = read_placed(alloc, place, last, rest)?;
        let Ok(()) = journal.reserve(1) else {
            return Err(Refused::NoMemory);
        };
        last = hart_of(&entry);
        journal.push(entry);
        rest = after;
    }
    Ok((journal, rest))
}

/// As many entries as said, and nothing behind them.
#[tactic(auto, unfolding(crate::specs::Reading::body_at))]
fn read_body(alloc: Global, count: u64, bytes: &[u8]) -> Result<Journal, Refused<FileRefusal>>
    ensures { Gives (λ journal. journal.entries) result (body_at count bytes.now) }
{
    let (journal, rest) = read_entries(alloc, count, bytes)?;
    if !rest.is_empty() {
        return Err(Refused::Because(FileRefusal::Extra {
            bytes: rest.len() as u64,
        }));
    }
    Ok(journal)
}

#[tactic(auto, unfolding(crate::specs::Reading::file_at))]
fn read_all(alloc: Global, bytes: &[u8]) -> Result<JournalFile, Refused<FileRefusal>>
    ensures { Gives held result (file_at bytes.now) }
{
    let (version, rest) = read_version(bytes)?;
    let (count, rest) = header_u64(rest)?;
    match read_head(version, rest) {
        Ok((head, rest)) => {
            let journal = read_body(alloc, count, rest)?;
            Ok(JournalFile { head, journal })
        }
        Err(refusal) => Err(refusal),
    }
}

/// What the bytes spell, all of the bytes. It takes memory by the entries that are there, whatever number the header says.
pub fn read(alloc: Global, bytes: &[u8]) -> Result<JournalFile, Refused<FileRefusal>>
    // What is read is spelled so.
    ensures found { IfOk result (λ file. IsFile (held file) × (bytes.now ≡ spelling file.head file.journal.entries)) }
    // It can be written again.
    ensures writable { IfOk result (λ file. All HasFewSubsIn file.journal.entries) }
    // What is spelled so is read, unless memory runs out.
    ensures only { (file : FileState) → IsFile file → bytes.now ≡ spelling file.head file.entries → Gives held result (Ok file) }
    // Which rule is the first that is broken.
    ensures exact { Gives held result (file_at bytes.now) }
{
    read_all(alloc, bytes)
}
