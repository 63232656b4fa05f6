//! A shelf of boxes, which says for each of them what it has heard.
ghost use Rattle.std.specs.Prelude.{◌≡◌, [], ◌∷◌, ◌++◌, OnOk, OnErr};
ghost use Rattle.baton_tests.specs.declared.entries.Entry.TheVariants.{Step, Parked as Put};
ghost use Rattle.baton_tests.specs.Shelf.{heard_by, HasBox};
ghost use Rattle.baton_tests.specs.Boxes.{KnowsBoxes};

use crate::bounds::{Listener, Teller};
use crate::entries::Entry;
use baton_gate::Kept;
use flat_model::NoMemory;
use std::alloc::Global;
use std::marker::Model;

/// A box on the shelf, with the hart that it is of.
#[derive(Drop)]
pub struct Parked<W> {
    pub hart: u8,
    pub listener: W,
}

/// The boxes that were put on the shelf have each heard what its hart came to in the shelf's own log.
#[derive(Drop)]
pub struct Shelf<C: Teller, W: Listener> {
    number: u32,
    // Oldest first.
    entries: Vec<Entry>,
    boxes: Vec<Parked<W>>,
    teller: C,
}

impl<C: Teller, W: Listener> Model for Shelf<C, W> {
    ghost use Rattle.std.specs.Prelude.{reverse};
    ghost use Rattle.baton_tests.specs.Shelf.{Contents};
    ghost use Rattle.baton_tests.specs.Boxes.{KnowsBoxes};

    ghost Value = { Contents };

    ghost view = { λ s. record { number = s.number; log = reverse s.entries.items; told = C.told s.teller } };

    ghost invariant = { λ s. KnowsBoxes W.stands s.boxes.items (reverse s.entries.items) };
}

impl<C: Teller, W: Listener> Kept for Shelf<C, W> {
    type Item = Entry;

    type Frame = u32;

    ghost use Rattle.baton_tests.specs.Shelf.{hart_of, IsTold};

    ghost log = { λ s. s.log };

    ghost party = { hart_of };

    ghost frame = { λ s. s.number };

    ghost caught_up = { IsTold };
}

impl<C: Teller, W: Listener> Shelf<C, W> {
    pub fn new(alloc: Global, number: u32, teller: C) -> Shelf<C, W>
        ensures { result ≡ record { number = number; log = []; told = C.told teller } }
    {
        Shelf {
            number,
            entries: Vec::new(alloc),
            boxes: Vec::new(alloc),
            teller,
        }
    }

    /// Notes a number that the hart came to.
    pub fn note(&mut self, hart: u8, number: u32) -> Result<(), NoMemory>
        requires { HasBox hart self.old.log }
        ensures ok { OnOk result (self.new ≡ record self.old { log = Step hart number ∷ self.old.log }) }
        ensures err { OnErr result (self.new ≡ self.old) }
    {
        self.entries.push(Entry::Step { hart, number })?;
        Ok(())
    }

    /// Puts the hart's box on the shelf, and tells of it.
    pub fn park(&mut self, hart: u8, listener: W) -> Result<(), NoMemory>
        requires own { HasBox hart self.old.log }
        requires heard { W.stands listener (heard_by hart self.old.log) }
        ensures ok { OnOk result (self.new ≡ record self.old { log = Put hart ∷ self.old.log; told = self.old.told ++ hart ∷ [] }) }
        ensures err { OnErr result (self.new ≡ self.old) }
    {
        self.boxes.reserve(1)?;
        self.entries.reserve(1)?;
        self.teller.tell(hart)?;
        self.entries.push_reserved(Entry::Parked { hart });
        self.boxes.push_reserved(Parked { hart, listener });
        Ok(())
    }

    pub fn into_boxes(self) -> Vec<Parked<W>>
        ensures { KnowsBoxes W.stands result.items self.log }
    {
        let Shelf { boxes, .. } = self;
        boxes
    }
}
