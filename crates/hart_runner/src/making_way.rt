//! Pauses of a hart between two holds.

use baton_gate::{Gate, Kept};
use crossbeam_utils::Backoff;

/// After so many pauses a hart takes the state again, also where others wait for it.
const PAUSES_MOST: u32 = 10_000;

/// So many pauses a hart makes at least that found nothing to do.
pub(crate) const IDLE_PAUSES: u32 = 100;

/// Pauses as long as another hart waits for the state, so that one whose holds are short doesn't take it over and over before the
/// others have had it. The later pauses leave the processor to others.
pub(crate) fn make_way<S: Kept>(gate: &Gate<S>, least: u32) {
    let backoff = Backoff::new();
    for pause in 0..PAUSES_MOST {
        if least <= pause && !gate.is_wanted() {
            return;
        }
        backoff.snooze();
    }
}
