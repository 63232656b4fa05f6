//! What takes bytes.

ghost use Rattle.std.specs.Prelude.{◌≡◌, ◌<◌, ◌≤◌, ◌++◌, ◌∷◌, [], ℕ, List, MatchResult, OnOk, length};
ghost use Rattle.std.specs.Prelude.{Option};
ghost use Rattle.std.specs.Option.{option_map};
ghost use Rattle.outer_io.specs.Counts.{IsCount, IsFaultless};
ghost use Rattle.outer_io.specs.Pieces.{one_piece, cut};
ghost use Rattle.outer_io.specs.Sinks.{Gained, StoppedAtFault, bytes_of};

/// A fault of a file or a sink, which its count tells.
#[derive(Clone, Copy, Debug, PartialEq, Eq)]
pub struct Failed;

/// A place that takes bytes, such as standard output.
pub trait Sink {
    // How many faults there were, at most 2^64 - 1.
    ghost faults: { Self → ℕ };

    // The pieces that the sink holds, one for each `put`, or None where it does not tell them. Its bytes are these one after the other.
    ghost pieces: { Self → Option (List (List ℕ)) };

    /// Puts the bytes at the end, as one piece. A fault may leave a prefix of them there, as a piece where it is not empty.
    fn put(&mut self, bytes: &[u8]) -> Result<(), Failed>
        ensures cases { MatchResult result
            (λ _. Gained (pieces self.old) (pieces self.new) (bytes.now ∷ []))
            (λ _. StoppedAtFault one_piece (pieces self.old) (pieces self.new) bytes.now
            (faults self.old) (faults self.new)) }
        ensures faultless { OnOk result (IsFaultless (faults self.old) (faults self.new)) }
        ensures count { IsCount (faults self.old) (faults self.new) };
}

/// Puts a text in pieces of `size` bytes, of which the last may be shorter and none is empty, up to the first fault.
pub fn put_pieces<O: Sink>(out: &mut O, size: usize, text: &[u8]) -> Result<(), Failed>
    requires some { 0 < size }
    ensures cases { MatchResult result
        (λ _. Gained (O.pieces out.old) (O.pieces out.new) (cut size text.now))
        (λ _. StoppedAtFault (cut size) (O.pieces out.old) (O.pieces out.new) text.now
        (O.faults out.old) (O.faults out.new)) }
    ensures faultless { OnOk result (IsFaultless (O.faults out.old) (O.faults out.new)) }
    ensures never_falls { O.faults out.old ≤ O.faults out.new }

    // The pieces one after the other are the text.
    ensures bytes { OnOk result (bytes_of (O.pieces out.new) ≡ option_map (λ held. held ++ text.now) (bytes_of (O.pieces out.old))) }
{
    let mut done = 0;
    while done < text.len() {
        let end = done.saturating_add(size).min(text.len());
        out.put(&text[done..end])?;
        done = end;
    }
    Ok(())
}
