//! What the services keep for all harts.

ghost use Rattle.std.specs.Prelude.{◌≡◌, ◌<◌, ◌≤◌, ◌-◌, ◌∷◌, ◌↔◌, length, replicate, IfOk, OnOk, IsTrue};
ghost use Rattle.std.specs.Prelude.{Some};
ghost use Rattle.flat_model.specs.World.{start_at, opening_start};
ghost use Rattle.flat_model.specs.Outcome.{with_start};
ghost use Rattle.rv_exec.specs.Sharing.{starts_of, AreStarts, AreOpening, HasRoom};

use crate::harts::HartStart;
use flat_model::limits::{OUTPUT_MOST, WRITE_MOST};
use flat_model::{Image, Mode, NoMemory};
use std::alloc::Global;
use std::marker::Model;

/// What the services keep for all harts.
#[derive(Debug, Drop)]
pub struct Services {
    /// What the guest has written, at most 16,777,216 bytes.
    pub output: Vec<u8>,
    /// The code that `exit_group` was called with, once it was.
    pub group: Option<i32>,
    /// Each hart's start, `None` where the hart is parked.
    pub starts: Vec<Option<HartStart>>,
}

impl Model for Services {
    ghost use Rattle.rv_exec.specs.Sharing.{ServicesState};

    ghost Value = { ServicesState };

    ghost use Rattle.std.specs.Prelude.{◌≤◌, length, vec_capacity};

    ghost view = { λ s. record { output = s.output.items; group = s.group; starts = s.starts.items; room = vec_capacity s.output } };

    ghost invariant = { λ s. length s.output.items ≤ 16777216 };
}

/// The start of hart 0 from the first.
fn first_start(image: &Image) -> HartStart
    ensures start { result ≡ start_at image.now }
{
    HartStart {
        pc: image.entry,
        arg: 0,
    }
}

/// The start of the other harts from the first.
fn other_start(image: &Image, mode: Mode) -> Option<HartStart>
    ensures start { result ≡ opening_start image.now mode 1 }
{
    match mode {
        Mode::All => Some(first_start(image)),
        Mode::First => None,
    }
}

/// The starts of so many harts from the first.
fn opening_starts(
    alloc: Global,
    image: &Image,
    harts: u8,
    mode: Mode,
) -> Result<Vec<Option<HartStart>>, NoMemory>
    requires some { 1 ≤ harts }
    ensures starts { IfOk result (λ starts. AreStarts image.now mode harts starts.items) }
{
    let mut starts = Vec::new(alloc);
    starts.push(Some(first_start(image)))?;
    starts.resize(harts as usize, other_start(image, mode))?;
    Ok(starts)
}

impl Services {
    /// What a run of the image starts with: no output, a group that goes on, and the starts of the mode.
    pub fn new(alloc: Global, image: &Image, harts: u8, mode: Mode) -> Result<Services, NoMemory>
        requires some { 1 ≤ harts }
        ensures opening { IfOk result (λ services. AreOpening image.now mode harts services) }
    {
        let starts = opening_starts(alloc, image, harts, mode)?;
        Ok(Services {
            output: Vec::new(alloc),
            group: None,
            starts,
        })
    }

    /// Whether the output has room for what one call of `write` appends.
    pub fn has_room(&self) -> bool
        ensures room { IsTrue result ↔ HasRoom self.now }
    {
        let len = self.output.len() as u64;
        (len + WRITE_MOST).min(OUTPUT_MOST) <= self.output.capacity() as u64
    }

    /// Takes room for what one call of `write` appends.
    pub fn make_room(&mut self) -> Result<(), NoMemory>
        ensures room { OnOk result (HasRoom self.new) }
        ensures kept { self.new ≡ record self.old { room = self.new.room } }
        ensures no_less { self.old.room ≤ self.new.room }
    {
        let left = OUTPUT_MOST - self.output.len() as u64;
        self.output.reserve(left.min(WRITE_MOST) as usize)?;
        Ok(())
    }

    /// Gives hart `k` its start.
    pub(crate) fn give_start(&mut self, k: usize, start: HartStart)
        requires hart { k < length self.old.starts }
        ensures given { starts_of self.new ≡ with_start (starts_of self.old) k start }
        ensures kept { self.new ≡ record self.old { starts = self.new.starts } }
        ensures places { length self.new.starts ≡ length self.old.starts }
    {
        self.starts[k] = Some(start);
    }
}
