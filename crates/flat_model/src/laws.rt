//! What holds of the definitions, stated on functions that do nothing.

ghost use Rattle.flat_model.specs.Worlds.{RunsAlone, TellsItsSteps, TellsByStepsAlone};

/// Steps of one hart in a row, after any log, are its own steps from where that log left it.
#[tactic(auto, using(crate::proofs::Worlds::runs_alone))]
pub fn runs_alone()
    ensures run { RunsAlone }
{}

/// What a hart tells comes of its own steps, one after the other.
#[tactic(auto, using(crate::proofs::Worlds::tells_its_steps, crate::proofs::Worlds::tells_by_steps_alone))]
pub fn tells_by_steps_alone()
    ensures own { TellsItsSteps }
    ensures others { TellsByStepsAlone }
{}
