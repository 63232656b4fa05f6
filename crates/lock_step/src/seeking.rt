//! The next step of a journal.

ghost use Rattle.std.specs.Prelude.{◌≡◌, ◌<◌, ◌≤◌, ◌+◌, ◌^◌, ℕ, length, slice_get, Some, MatchOption, IfSome};
ghost use Rattle.flat_model.specs.declared.journals.Entry.TheVariants as entry;
ghost use Rattle.lock_step.specs.Positions.{so_far, steps_alone, IsMade, IsPlace, HasStep};

use flat_model::Entry;

/// The entry at a place, if there is one.
fn entry_at(entries: &[Entry], place: usize) -> Option<&Entry>
    ensures entry { MatchOption result (length entries.now ≤ place) (λ e. slice_get entries.now place ≡ Some e.now) }
{
    entries.get(place)
}

/// The hart of an entry's next step, of which so many were made.
fn turning(next: &Entry, made: u32) -> Option<u8>
    ensures turning { MatchOption result (IsMade next.now made) (λ h. (n : ℕ) × (next.now ≡ entry.Turn h n) × (made < n)) }
    ensures fits { IfSome result (λ _. made + 1 < 2 ^ 32) }
{
    match next {
        Entry::Turn { hart, n } if made < *n => Some(*hart),
        _ => None,
    }
}

/// Goes on to the next entry with a further step, where the one at the place has none. Answers the step's hart, or none at the
/// journal's end.
pub(crate) fn seek(entries: &[Entry], place: &mut usize, made: &mut u32) -> Option<u8>
    requires at { IsPlace entries.now place.old made.old }
    ensures at { IsPlace entries.now place.new made.new }
    ensures same { steps_alone (so_far entries.now place.new made.new) ≡ steps_alone (so_far entries.now place.old made.old) }
    ensures next { MatchOption result (place.new ≡ length entries.now)
        (λ h. HasStep entries.now place.new made.new h) }
    ensures fits { IfSome result (λ _. made.new + 1 < 2 ^ 32) }
{
    while let Some(next) = entry_at(entries, *place) {
        if let Some(hart) = turning(next, *made) {
            return Some(hart);
        }
        *place += 1;
        *made = 0;
    }
    None
}
