//! What boxes asked for.

ghost use Rattle.std.specs.Prelude.{◌≡◌, ◌<◌, ◌≤◌, ◌-◌, length, replicate, slice_set};
ghost use Rattle.flat_model.specs.declared.plugins.Ask.TheVariants.{Stay};
ghost use Rattle.event_walk.specs.Walk.{first_ask};
ghost use Rattle.watcher_api.specs.Acting.{ask_of};

use flat_model::Ask;
use flat_model::limits::PLUGINS_MOST;

/// The first ask of each plug-in: that of plug-in p at place p - 1.
#[derive(Clone, Copy, Debug, PartialEq, Eq)]
pub struct Asks {
    pub first: [Ask; PLUGINS_MOST as usize],
}

impl Asks {
    /// Nobody has asked.
    #[inline]
    pub fn none() -> Asks
        ensures none { result.first ≡ replicate 8 Stay }
    {
        Asks {
            first: [Ask::Stay; PLUGINS_MOST as usize],
        }
    }

    /// The ask of one plug-in, with Stay for the others.
    pub fn only(&self, plugin: u8) -> Asks
        requires number { 1 ≤ plugin }
        requires most { plugin ≤ 8 }
        ensures only { result.first ≡ slice_set (replicate 8 Stay) (plugin - 1) (ask_of plugin self.now.first) }
    {
        let place = usize::from(plugin - 1);
        let mut only = Asks::none();
        only.first[place] = self.first[place];
        only
    }

    /// Notes what a plug-in asks for, where it has asked for nothing yet.
    #[inline]
    pub(crate) fn note(&mut self, plugin: u8, ask: Ask)
        requires number { 1 ≤ plugin }
        requires most { plugin ≤ 8 }
        ensures noted { self.new.first ≡ slice_set self.old.first (plugin - 1) (first_ask (ask_of plugin self.old.first) ask) }
        ensures all { length self.old.first ≡ 8 }
    {
        let place = usize::from(plugin - 1);
        if self.first[place] == Ask::Stay {
            self.first[place] = ask;
        }
    }
}
