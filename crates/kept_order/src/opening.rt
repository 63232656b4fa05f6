//! The state before any item, and registrations.

ghost use Rattle.kept_order.specs.Opening.{OpensInOrder, InstallsKeepOrder, NextInstallsStand, NothingIsWanted};

/// The state before any item is in order.
pub fn opens_in_order()
    ensures law { OpensInOrder }
{}

/// An install keeps the state in order.
#[tactic(auto, using(crate::proofs::Openings::installs_keep_order))]
pub fn installs_keep_order()
    ensures law { InstallsKeepOrder }
{}

/// The plan's installs may stand one after the other, and then a plan without a script wants nothing more.
#[tactic(auto, using(crate::proofs::Openings::next_installs_stand, crate::proofs::Openings::nothing_is_wanted))]
pub fn installs_stand()
    ensures next { NextInstallsStand }
    ensures nothing { NothingIsWanted }
{}
