//! What holds of a closing in hand while the log goes on.

ghost use Rattle.run_controls.specs.Hands.{ClosingsStayInHand};

/// A closing that a party has in hand stays the one that the log says, until the party records a Done.
pub fn closings_stay_in_hand()
    ensures law { ClosingsStayInHand }
{}
