//! The boxes and closers that a run begins with.

ghost use Rattle.std.specs.Prelude.{◌≡◌, None, [], All};

use crate::closers::Closer;
use crate::holders::Held;
use crate::watchers::Watcher;

/// Blank boxes, and closers that were given no notice. How many there are is the caller's affair: a run that installs
/// sets up to all limits takes 128 boxes and 8 closers.
#[derive(Drop)]
pub struct Rack<W: Watcher, C: Closer<Held<W>>> {
    pub watchers: Vec<W>,
    pub closers: Vec<C>,
    pub ghost blank: { All (λ w. W.kind_of w ≡ None) watchers.items },
    pub ghost untold: { All (λ c. C.notices c ≡ []) closers.items },
}
