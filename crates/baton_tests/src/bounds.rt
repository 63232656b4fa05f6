//! What a shelf is generic in.
ghost use Rattle.std.specs.Prelude.{◌≡◌, ℕ, List, [], ◌∷◌, ◌++◌, OnOk, OnErr};

use flat_model::NoMemory;

/// A box that a hart calls with its numbers.
pub trait Listener: Drop {
    /// Which lists of numbers it may have heard.
    ghost stands: { Self → List ℕ → Type 0 };

    fn hear(&mut self, number: u32)
        ensures { (heard : List ℕ) → stands self.old heard → stands self.new (heard ++ number ∷ []) };
}

/// What is told of each hart whose box is put on the shelf.
pub trait Teller: Drop {
    ghost told: { Self → List ℕ };

    fn tell(&mut self, hart: u8) -> Result<(), NoMemory>
        ensures ok { OnOk result (told self.new ≡ told self.old ++ hart ∷ []) }
        ensures err { OnErr result (told self.new ≡ told self.old) };
}
