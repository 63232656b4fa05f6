//! What is run.

ghost use Rattle.std.specs.Prelude.{◌≡◌};
ghost use Rattle.std.specs.List.Sorted.{IsNonDecreasingBy};

use flat_model::{Image, Mode, Plan, Timed};
use std::marker::Model;
use std::sync::Arc;

/// What is run: an image on so many harts, each for at most `limit` steps, in a mode, and the plan of installs and script
/// lines. No hold of the state changes it.
#[derive(Drop)]
pub struct Task {
    pub image: Arc<Image>,
    pub harts: u8,
    pub limit: u64,
    pub mode: Mode,
    pub plan: Plan,
}

impl Model for Task {
    ghost use Rattle.run_order.specs.InOrder.{Task as Given};

    ghost Value = { Given };

    ghost view = { λ t. record {
      machine = record { image = t.image.value; harts = t.harts; limit = t.limit };
      mode = t.mode;
      plan = t.plan;
    } };
}

impl Task {
    pub fn image(&self) -> &Image
        ensures image { result.now ≡ self.now.machine.image }
    {
        &self.image
    }

    /// How many harts there are.
    pub fn harts(&self) -> u8
        ensures harts { result ≡ self.now.machine.harts }
    {
        self.harts
    }

    /// The steps that each hart makes at most.
    pub fn limit(&self) -> u64
        ensures limit { result ≡ self.now.machine.limit }
    {
        self.limit
    }

    pub fn mode(&self) -> Mode
        ensures mode { result ≡ self.now.mode }
    {
        self.mode
    }

    /// The lines of the script. Their moments never fall.
    pub fn script(&self) -> &[Timed]
        ensures script { result.now ≡ self.now.plan.script }
        ensures rising { IsNonDecreasingBy (λ t. t.when) self.now.plan.script }
    {
        &self.plan.script
    }
}
