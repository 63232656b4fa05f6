//! What a pass knows. No value of these types is made.

use std::collections::LinkedList;

/// A pass that was joined into another: its party, and the log that it had seen.
pub struct Ended<I> {
    pub party: u8,
    pub seen: LinkedList<I>,
}

/// What one pass knows of the value and of the other passes.
pub struct View<I, F> {
    /// The pass was joined into another.
    pub spent: bool,
    pub holds: bool,
    pub party: u8,
    /// The number of passes that were made, as the pass of party 0 knows it.
    pub made: u8,
    /// The number of parties.
    pub parties: u64,
    /// None until the value is in the gate.
    pub frame: Option<F>,
    /// The log of the value that the gate was made with.
    pub opening: LinkedList<I>,
    pub seen: LinkedList<I>,
    /// The passes that were joined into this one.
    pub ended: LinkedList<Ended<I>>,
}
