//! What a comparison tells.

/// What two lists of events of a hart are beside each other. Indices are from 1.
#[derive(Clone, Copy, Debug, PartialEq, Eq)]
pub enum Verdict {
    /// Each list has so many events, and they are the same.
    Same {
        events: u64,
    },
    /// The events at the index are the first that differ; they are of these steps of the hart, from 1.
    Differs {
        index: u64,
        first_step: u64,
        second_step: u64,
    },
    /// List `which`, 1 or 2, has ended at the index, where the other still has an event; before it they are the same.
    Ends {
        which: u8,
        index: u64,
    },
}
