//! A list of numbers, each of a party.
ghost use Rattle.std.specs.Prelude.{◌≡◌, ◌∷◌, [], ◌++◌, reverse, All, IfOk};
ghost use Rattle.baton_gate.specs.Passes.{seen};
ghost use Rattle.baton_tests.specs.Turns.{IsFree};

use baton_gate::{Gate, Kept, Pass};
use std::alloc::{AllocError, Global};
use std::sync::Wait;
use std::sync::atomic::AtomicBool;
use std::sync::atomic::Ordering::SeqCst;
use std::thread;
use std::thread::Threads;

/// Marks of parties and their numbers, in the order in which they came. It has the room from the start.
#[derive(Drop)]
pub struct Tape {
    pub marks: Vec<(u8, u32)>,
}

impl Kept for Tape {
    type Item = (u8, u32);

    type Frame = ();

    ghost log = { λ t. reverse t.marks.items };

    ghost party = { λ m. m.0 };

    ghost frame = { λ t. tt };

    ghost caught_up = { λ t. Unit {0} };
}

impl Tape {
    pub fn new(alloc: Global, room: usize) -> Result<Tape, AllocError>
        ensures { IfOk result (λ t. t.marks.items ≡ []) }
    {
        Ok(Tape {
            marks: Vec::with_capacity(alloc, room)?,
        })
    }
}

/// One hold, which adds the party's mark.
fn mark<R: Wait>(rt: &R, gate: &Gate<Tape>, pass: &mut Pass<Tape>, number: u32)
    requires { IsFree gate.now pass.old }
    ensures { IsFree gate.now pass.new }
{
    let mut tape = gate.take(rt, pass);
    let _ = tape.marks.push((pass.party(), number));
    gate.give(rt, pass, tape);
}

/// Holds that add the numbers from 0.
fn mark_all<R: Wait>(rt: &R, gate: &Gate<Tape>, mut pass: Pass<Tape>, count: u32) -> Pass<Tape>
    requires { IsFree gate.now pass }
    ensures { IsFree gate.now result }
{
    for number in 0..count {
        mark(rt, gate, &mut pass, number);
    }
    pass
}

/// A thread for each pass adds the numbers from 0.
pub fn mark_by_all<R: Threads + Wait + Sync>(
    rt: &R,
    gate: &Gate<Tape>,
    passes: Vec<Pass<Tape>>,
    count: u32,
) -> Result<Vec<Pass<Tape>>, AllocError>
    requires { All (IsFree gate.now) passes.items }
    ensures { IfOk result (λ v. All (IsFree gate.now) v.items) }
{
    thread::map_vec(
        rt,
        passes,
        &|pass: Pass<Tape>| -> Pass<Tape>
            requires { IsFree gate.now pass }
            ensures { IsFree gate.entry.now result }
        { mark_all(rt, gate, pass, count) },
    )
}

/// One hold, which adds nothing and ends once another thread waits for the tape.
fn keep_until_wanted<R: Wait>(rt: &R, gate: &Gate<Tape>, pass: &mut Pass<Tape>)
    requires { IsFree gate.now pass.old }
    ensures { IsFree gate.now pass.new }
{
    let tape = gate.take(rt, pass);
    for _ in rt.forever() {
        if gate.is_wanted() {
            break;
        }
        thread::yield_now();
    }
    gate.give(rt, pass, tape);
}

/// Holds that add nothing, until another thread has ended.
fn hold_until<R: Wait>(rt: &R, gate: &Gate<Tape>, pass: &mut Pass<Tape>, ended: &AtomicBool)
    requires { IsFree gate.now pass.old }
    ensures { IsFree gate.now pass.new }
{
    for _ in rt.forever() {
        if ended.load(SeqCst) {
            return;
        }
        let tape = gate.take(rt, pass);
        gate.give(rt, pass, tape);
    }
}

/// The thread of party 0 keeps the tape until another waits for it, and the others hold the tape until that one has ended.
pub fn keep_and_wait<R: Threads + Wait + Sync>(
    rt: &R,
    gate: &Gate<Tape>,
    passes: Vec<Pass<Tape>>,
) -> Result<Vec<Pass<Tape>>, AllocError>
    requires { All (IsFree gate.now) passes.items }
    ensures { IfOk result (λ v. All (IsFree gate.now) v.items) }
{
    let ended = AtomicBool::new(false);
    let ended = &ended;
    thread::map_vec(
        rt,
        passes,
        &|mut pass: Pass<Tape>| -> Pass<Tape>
            requires { IsFree gate.now pass }
            ensures { IsFree gate.entry.now result }
        {
            if pass.party() == 0 {
                keep_until_wanted(rt, gate, &mut pass);
                ended.store(true, SeqCst);
            } else {
                hold_until(rt, gate, &mut pass, ended);
            }
            pass
        },
    )
}
