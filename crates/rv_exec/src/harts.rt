//! A hart: its pc, its registers and what is counted of it.

ghost use Rattle.std.specs.Prelude.{◌≡◌, ◌<◌};
ghost use Rattle.flat_model.specs.World.{opening_hart, started_hart, opening_registers};
ghost use Rattle.flat_model.specs.Effect.{register};

use flat_model::limits::{STACK_BYTES, STACK_STRIDE, STACKS_END};
use flat_model::{Ending, Image, Mode};
use std::marker::Model;

/// Where a hart begins.
#[derive(Clone, Copy, Debug, PartialEq, Eq)]
pub struct HartStart {
    /// A multiple of 4.
    pub pc: u64,
    /// What the hart finds in a2.
    pub arg: u64,
}

impl Model for HartStart {
    ghost use Rattle.std.specs.Prelude.{◌≡◌, ◌%◌};
    ghost use Rattle.flat_model.specs.World.{Start};

    ghost Value = { Start };

    ghost view = { λ a. record { pc = a.pc; arg = a.arg } };

    ghost invariant = { λ a. a.pc % 4 ≡ 0 };

    ghost inverse = { λ d. record { pc = d.pc; arg = d.arg } };
}

/// One hart (RISC-V Unprivileged ISA 20191213, 2.1).
#[derive(Clone, Copy, Debug)]
pub struct Hart {
    /// The address of the next instruction, a multiple of 4.
    pub pc: u64,
    /// The registers x0 to x31; x0 reads as 0 whatever stands here.
    pub x: [u64; 32],
    /// 0 exactly where the next step starts a block, else the steps since the last block start.
    pub since: u16,
    /// The steps made.
    pub steps: u64,
    /// The blocks started at a present word.
    pub blocks: u64,
    /// How the hart ended; `None` while it runs or is parked.
    pub ending: Option<Ending>,
    /// Whether the hart has no start yet.
    pub parked: bool,
}

impl Model for Hart {
    ghost use Rattle.flat_model.specs.World.{HartState, IsHart};

    ghost Value = { HartState };

    ghost view = { λ a. record {
      pc = a.pc;
      x = a.x;
      since = a.since;
      steps = a.steps;
      blocks = a.blocks;
      ending = a.ending;
      parked = a.parked;
    } };

    ghost invariant = { λ a. IsHart
        (record { pc = a.pc; x = a.x; since = a.since; steps = a.steps; blocks = a.blocks; ending = a.ending; parked = a.parked }) };

    ghost inverse = { λ d. record {
      pc = d.pc;
      x = d.x;
      since = d.since;
      steps = d.steps;
      blocks = d.blocks;
      ending = d.ending;
      parked = d.parked;
    } };
}

/// The registers of a hart that begins: the end of its stack in sp, its number in a0, the number of harts in a1 and
/// the argument in a2.
fn opening_registers(no: u8, harts: u8, arg: u64) -> [u64; 32]
    ensures registers { result ≡ opening_registers no harts arg }
{
    let mut x = [0; 32];
    x[2] = STACKS_END - (u64::from(no) + 1) * STACK_STRIDE + STACK_BYTES;
    x[10] = u64::from(no);
    x[11] = u64::from(harts);
    x[12] = arg;
    x
}

impl Hart {
    /// Hart number `no` of `harts` from the first: at the image's entry, or parked there where the mode gives it no
    /// start.
    pub fn first(image: &Image, no: u8, harts: u8, mode: Mode) -> Hart
        ensures opening { result ≡ opening_hart image.now mode no harts }
    {
        let begins = match mode {
            Mode::All => true,
            Mode::First => no == 0,
        };
        if begins {
            let start = HartStart {
                pc: image.entry,
                arg: 0,
            };
            return Hart::started(no, harts, start);
        }
        Hart {
            pc: image.entry,
            x: [0; 32],
            since: 0,
            steps: 0,
            blocks: 0,
            ending: None,
            parked: true,
        }
    }

    /// Hart number `no` of `harts` before its first step, by its start.
    pub fn started(no: u8, harts: u8, start: HartStart) -> Hart
        ensures started { result ≡ started_hart no harts start }
    {
        Hart {
            pc: start.pc,
            x: opening_registers(no, harts, start.arg),
            since: 0,
            steps: 0,
            blocks: 0,
            ending: None,
            parked: false,
        }
    }

    /// The register `n`.
    #[inline(always)]
    pub(crate) fn register(&self, n: u8) -> u64
        requires below { n < 32 }
        ensures value { result ≡ register self.now.x n }
    {
        if n == 0 { 0 } else { self.x[n as usize] }
    }
}
