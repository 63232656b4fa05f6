//! What holds of the journal of a log, stated on a function that does nothing.

ghost use Rattle.flat_model.specs.Log.{JournalIsOne};

/// A journal with its Turns joined is the only one of its log.
#[tactic(auto, using(crate::proofs::OneJournal::journal_is_one))]
pub fn journal_is_one()
    ensures { JournalIsOne }
{}
