//! What a gate keeps.
ghost use Rattle.std.specs.Prelude.{ℕ, List};

/// A value that a gate passes from holder to holder. It has a log, and each item of the log is of a party.
pub trait Kept: Drop {
    /// An item of the log: plain data.
    type Item;
    /// What no hold changes: plain data.
    type Frame;

    /// The log, latest first.
    ghost log: { Self → List Self.Item };

    /// The party that an item is of.
    ghost party: { Self.Item → ℕ };

    ghost frame: { Self → Self.Frame };

    /// Whether the value may be given.
    ghost caught_up: { Self → Type 0 };
}

/// A box is kept as what it holds is, and a hold then moves the box alone.
impl<S: Kept> Kept for Box<S> {
    type Item = S::Item;

    type Frame = S::Frame;

    ghost log = { λ b. S.log b.value };

    ghost party = { S.party };

    ghost frame = { λ b. S.frame b.value };

    ghost caught_up = { λ b. S.caught_up b.value };
}
