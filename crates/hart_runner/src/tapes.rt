//! The events of the blocks that a hart makes in one hold behind the first.

ghost use Rattle.std.specs.Prelude.{◌≡◌, ◌<◌, ◌++◌, ◌∷◌, [], true, false, IfOk, IfSome, IsSome, vec_len, vec_capacity};

use flat_model::NoMemory;
use rv_exec::RawLog;
use std::alloc::Global;

/// How many blocks a hart makes in a hold behind the first, at most, while it has sets. It is a number of speed alone.
const PIECES_MOST: usize = 16;

/// What a hart's boxes are to hear of one block.
#[derive(Drop)]
pub struct Piece {
    /// Where the block begins.
    pub pc: u64,
    /// The events of the hart in it.
    pub raw: RawLog,
}

/// The blocks that a hart made in its last hold behind the first, in their order, and logs for more.
#[derive(Drop)]
pub struct Tape {
    pub pieces: Vec<Piece>,
    pub spare: Vec<RawLog>,
}

impl Tape {
    /// A tape without blocks, with its room taken.
    pub fn new(alloc: Global) -> Result<Tape, NoMemory>
        ensures empty { IfOk result (λ tape. tape.pieces.items ≡ []) }
    {
        let pieces = Vec::with_capacity(alloc, PIECES_MOST)?;
        let mut spare = Vec::with_capacity(alloc, PIECES_MOST)?;
        for _ in 0..PIECES_MOST {
            spare.push(RawLog::new(alloc)?)?;
        }
        Ok(Tape { pieces, spare })
    }

    /// The blocks.
    pub(crate) fn further(&self) -> &[Piece]
        ensures pieces { result.now ≡ self.now.pieces.items }
    {
        &self.pieces
    }

    /// Forgets the blocks, and has their logs for others.
    pub(crate) fn rewind(&mut self)
        ensures empty { self.new.pieces.items ≡ [] }
    {
        for _ in 0..self.pieces.len() {
            let Some(piece) = self.pieces.pop() else {
                break;
            };
            if self.spare.push(piece.raw).is_err() {
                break;
            }
        }
        self.pieces.clear();
    }

    /// A log without events for one block more, where there is one, and a place for the block.
    pub(crate) fn take(&mut self) -> Option<RawLog>
        ensures empty { IfSome result (λ raw. raw ≡ record { events = []; kept = true }) }
        ensures pieces { self.new.pieces ≡ self.old.pieces }
        ensures room { IsSome result → vec_len self.new.pieces < vec_capacity self.new.pieces }
    {
        if self.pieces.len() >= self.pieces.capacity() {
            return None;
        }
        let mut raw = self.spare.pop()?;
        if !raw.is_kept() {
            return None;
        }
        raw.clear();
        Some(raw)
    }

    /// Adds the block at `pc` with its events where somebody is to hear them, and else has its log for another.
    pub(crate) fn add(&mut self, is_heard: bool, pc: u64, raw: RawLog)
        requires room { vec_len self.old.pieces < vec_capacity self.old.pieces }
        ensures added { is_heard ≡ true → self.new.pieces.items ≡ self.old.pieces.items ++ record { pc = pc; raw = raw } ∷ [] }
        ensures same { is_heard ≡ false → self.new.pieces.items ≡ self.old.pieces.items }
    {
        if is_heard {
            self.pieces.push(Piece { pc, raw }).unwrap();
        } else {
            let _ = self.spare.push(raw);
        }
    }
}
