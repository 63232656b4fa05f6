//! Two harts that take turns with a shelf.
ghost use Rattle.std.specs.Prelude.{◌≡◌, ℕ, List, [], ◌∷◌, ◌++◌, ◌⊎◌, map, take, All, Contains, IfOk, OnOk, OnErr};
ghost use Rattle.baton_gate.specs.Passes.{seen};
ghost use Rattle.baton_tests.specs.Shelf.{heard_by};
ghost use Rattle.baton_tests.specs.Turns.{IsAtWork, IsDone};
ghost use Rattle.baton_tests.specs.Boxes.{HasBoth};

use crate::bounds::{Listener, Teller};
use crate::passes::both_of;
use crate::shelf::{Parked, Shelf};
use baton_gate::{Gate, Pass};
use flat_model::NoMemory;
use std::alloc::Global;
use std::sync::Wait;
use std::thread::{Threads, join};

/// What the harts pass to each other is the box, and not the shelf itself.
pub type BoxedShelf<C, W> = Box<Shelf<C, W>>;

// One hold, in which the hart comes to a number.
fn step<C: Teller, W: Listener, R: Wait>(
    rt: &R,
    gate: &Gate<BoxedShelf<C, W>>,
    pass: &mut Pass<BoxedShelf<C, W>>,
    number: u32,
) -> Result<(), NoMemory>
    requires { IsAtWork gate.now pass.old pass.old.party }
    ensures work { OnOk result (IsAtWork gate.now pass.new pass.old.party) }
    ensures heard { OnOk result (heard_by pass.old.party (seen pass.new) ≡ heard_by pass.old.party (seen pass.old) ++ number ∷ []) }
{
    let mut shelf = gate.take(rt, pass);
    let noted = shelf.note(pass.party(), number);
    gate.give(rt, pass, shelf);
    noted
}

// The last hold, in which the hart puts its box on the shelf.
fn put_away<C: Teller, W: Listener, R: Wait>(
    rt: &R,
    gate: &Gate<BoxedShelf<C, W>>,
    pass: &mut Pass<BoxedShelf<C, W>>,
    listener: W,
) -> Result<(), NoMemory>
    requires work { IsAtWork gate.now pass.old pass.old.party }
    requires heard { W.stands listener (heard_by pass.old.party (seen pass.old)) }
    ensures { OnOk result (IsDone gate.now pass.new pass.old.party (heard_by pass.old.party (seen pass.old))) }
{
    let mut shelf = gate.take(rt, pass);
    let parked = shelf.park(pass.party(), listener);
    gate.give(rt, pass, shelf);
    parked
}

// Comes to each number in a hold of its own, after which the hart's box hears it.
fn come_to_all<C: Teller, W: Listener, R: Wait>(
    rt: &R,
    gate: &Gate<BoxedShelf<C, W>>,
    pass: &mut Pass<BoxedShelf<C, W>>,
    listener: &mut W,
    numbers: &[u32],
) -> Result<(), NoMemory>
    requires work { IsAtWork gate.now pass.old pass.old.party }
    requires none { heard_by pass.old.party (seen pass.old) ≡ [] }
    requires blank { W.stands listener.old [] }
    ensures work { OnOk result (IsAtWork gate.now pass.new pass.old.party) }
    ensures heard { OnOk result (heard_by pass.old.party (seen pass.new) ≡ numbers.now) }
    ensures stands { OnOk result (W.stands listener.new numbers.now) }
{
    for number in numbers {
        step(rt, gate, pass, *number)?;
        listener.hear(*number);
    }
    Ok(())
}

// All holds of one hart.
fn play<C: Teller, W: Listener, R: Wait>(
    rt: &R,
    gate: &Gate<BoxedShelf<C, W>>,
    mut pass: Pass<BoxedShelf<C, W>>,
    mut listener: W,
    numbers: &[u32],
) -> Result<Pass<BoxedShelf<C, W>>, NoMemory>
    requires work { IsAtWork gate.now pass pass.party }
    requires none { heard_by pass.party (seen pass) ≡ [] }
    requires blank { W.stands listener [] }
    ensures { IfOk result (λ p. IsDone gate.now p pass.party numbers.now) }
{
    come_to_all(rt, gate, &mut pass, &mut listener, numbers)?;
    put_away(rt, gate, &mut pass, listener)?;
    Ok(pass)
}

/// Two harts take turns with a shelf, in threads of their own, and each puts its box on it at the end. Once both
/// threads have ended and one pass was joined into the other, one take knows what the box of each hart has heard.
pub fn take_turns<C: Teller + Send, W: Listener + Send, R: Threads + Wait + Sync>(
    rt: &R,
    alloc: Global,
    teller: C,
    listeners: (W, W),
    numbers: (&[u32], &[u32]),
) -> Result<Vec<Parked<W>>, NoMemory>
    requires told { C.told teller ≡ [] }
    requires blank { W.stands listeners.0 [] × W.stands listeners.1 [] }
    ensures { IfOk result (λ v. HasBoth W.stands v.items numbers.entry.0.now numbers.entry.1.now) }
{
    let (one, two) = listeners;
    let (ones, twos) = numbers;
    let shelf = Box::new(alloc, Shelf::new(alloc, 7, teller))?;
    let (gate, passes) = Gate::new(rt, alloc, shelf, 2)?;
    let (first, second) = both_of(passes);
    let shared = &gate;
    let (first, second) = join(
        rt,
        move || -> Result<Pass<BoxedShelf<C, W>>, NoMemory>
            requires work { IsAtWork shared.now first first.party }
            requires none { heard_by first.party (seen first) ≡ [] }
            requires blank { W.stands one [] }
            ensures { IfOk result (λ p. IsDone shared.entry.now p first.party ones.entry.now) }
        { play(rt, shared, first, one, ones) },
        move || -> Result<Pass<BoxedShelf<C, W>>, NoMemory>
            requires work { IsAtWork shared.now second second.party }
            requires none { heard_by second.party (seen second) ≡ [] }
            requires blank { W.stands two [] }
            ensures { IfOk result (λ p. IsDone shared.entry.now p second.party twos.entry.now) }
        { play(rt, shared, second, two, twos) },
    );
    let mut first = first?;
    gate.join(&mut first, second?);
    let shelf = gate.take(rt, &mut first);
    Ok(Box::into_inner(shelf).into_boxes())
}
