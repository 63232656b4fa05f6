//! The reservations of the harts.

ghost use Rattle.std.specs.Prelude.{◌≡◌, ℕ, ◌+◌, ◌<◌, ◌≤◌, ◌^◌, length, slice_index_or, None, ◌&&◌, nat_le};
ghost use Rattle.std.specs.Prelude.{if◌then◌else◌};
ghost use Rattle.flat_model.specs.Access.{touches, left_by, ended, is_reserved, with_reservation};

/// Whether the 8 bytes reserved at `a` share one with the `n` from `addr`.
fn touches(addr: u64, n: u64, a: u64) -> bool
    ensures { result ≡ touches addr n a }
{
    if addr <= a {
        a - addr < n
    } else {
        addr - a < 8
    }
}

/// Ends the reservations of the other harts that a hart's store of `n` bytes touches.
pub fn end_others(reservations: &mut [Option<u64>], hart: usize, addr: u64, n: u64)
    ensures others { (k : ℕ) → k < length reservations.old → slice_index_or reservations.new k None
        ≡ ended (λ j. slice_index_or reservations.old j None) hart addr n k }
{
    for (k, reservation) in reservations.iter_mut().enumerate() {
        *reservation = left(k == hart, addr, n, *reservation);
    }
}

/// Ends the hart's own reservation and, where it stored `n` bytes, those of other harts that the store touches.
pub fn conclude(reservations: &mut [Option<u64>], hart: usize, stored: bool, addr: u64, n: u64)
    requires { hart < length reservations.old }
    ensures concluded { (k : ℕ) → k < length reservations.old → slice_index_or reservations.new k None
        ≡ with_reservation (if stored then ended (λ j. slice_index_or reservations.old j None) hart addr n
        else (λ j. slice_index_or reservations.old j None)) hart None k }
{
    if stored {
        end_others(reservations, hart, addr, n);
    }
    reservations[hart] = None;
}

/// What a store leaves of a reservation, which may be the storing hart's own.
fn left(own: bool, addr: u64, n: u64, reservation: Option<u64>) -> Option<u64>
    ensures { result ≡ (if own then reservation else left_by addr n reservation) }
{
    if own {
        reservation
    } else {
        left_by(addr, n, reservation)
    }
}

/// What a store of another hart leaves of a reservation.
#[tactic(auto, unfolding(flat_model::specs::Access::left_by))]
fn left_by(addr: u64, n: u64, reservation: Option<u64>) -> Option<u64>
    ensures { result ≡ left_by addr n reservation }
{
    match reservation {
        Some(a) if !touches(addr, n, a) => reservation,
        _ => None,
    }
}

/// Whether the reservation holds all `n` bytes from `addr`.
#[tactic(auto, unfolding(flat_model::specs::Access::is_reserved))]
pub fn is_reserved(addr: u64, n: u64, reservation: Option<u64>) -> bool
    requires { n ≤ 8 }
    ensures { result ≡ is_reserved addr n reservation }
{
    match reservation {
        Some(a) => a <= addr && addr - a <= 8 - n,
        None => false,
    }
}
