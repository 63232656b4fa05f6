ghost use Rattle.std.specs.Prelude.{◌≡◌, ◌%◌, ◌^◌, length};

use crate::bounds::{Listener, Teller};
use crate::parcel::{Parcel, add_by_two};
use crate::tape::{Tape, keep_and_wait, mark_by_all};
use crate::turns::take_turns;
use baton_gate::Gate;
use flat_model::{Image, NoMemory, Order};
use std::test::*;

// How many numbers of the party there are, where they are those from 0 in order.
fn numbers_in_order(marks: &[(u8, u32)], party: u8) -> Option<u32> {
    let mut next = 0u32;
    for mark in marks {
        if mark.0 == party {
            if mark.1 != next {
                return None;
            }
            next = next.checked_add(1)?;
        }
    }
    Some(next)
}

#[test]
fn four_parties_of_250_holds(rt: HostRuntime) -> Result<(), Fail> {
    let tape = Tape::new(rt.alloc(), 1000)?;
    let (gate, passes) = Gate::new(&rt, rt.alloc(), tape, 4)?;
    let passes = mark_by_all(&rt, &gate, passes, 250)?;
    assert_eq!(rt; passes.len(), 4);
    for mut pass in passes {
        let tape = gate.take(&rt, &mut pass);
        assert_eq!(rt; tape.marks.len(), 1000);
        for party in 0..4 {
            assert_eq!(rt; numbers_in_order(tape.marks.as_slice(), party), Some(250));
        }
        gate.give(&rt, &mut pass, tape);
    }
    Ok(())
}

#[test]
fn a_thread_that_waits_is_seen(rt: HostRuntime) -> Result<(), Fail> {
    let tape = Tape::new(rt.alloc(), 0)?;
    let (gate, passes) = Gate::new(&rt, rt.alloc(), tape, 2)?;
    assert!(rt; !gate.is_wanted());
    let passes = keep_and_wait(&rt, &gate, passes)?;
    assert_eq!(rt; passes.len(), 2);
    assert!(rt; !gate.is_wanted());
    Ok(())
}

// A box that only counts its calls.
#[derive(Drop)]
struct Counted {
    calls: u64,
}

impl Listener for Counted {
    ghost stands = { λ c heard. c.calls ≡ length heard % 2 ^ 64 };

    fn hear(&mut self, _number: u32) {
        self.calls = self.calls.wrapping_add(1);
    }
}

#[derive(Drop)]
struct Roll {
    harts: Vec<u8>,
}

impl Teller for Roll {
    ghost told = { λ r. r.harts.items };

    fn tell(&mut self, hart: u8) -> Result<(), NoMemory> {
        self.harts.push(hart)?;
        Ok(())
    }
}

#[test]
fn two_harts_leave_their_boxes(rt: HostRuntime) -> Result<(), Fail> {
    let alloc = rt.alloc();
    let roll = Roll {
        harts: Vec::new(alloc),
    };
    let blank = (Counted { calls: 0 }, Counted { calls: 0 });
    let boxes = take_turns(&rt, alloc, roll, blank, (&[7, 7, 9], &[1, 2]))?;
    assert_eq!(rt; boxes.len(), 2);
    for parked in &boxes {
        let calls = if parked.hart == 0 { 3 } else { 2 };
        assert_eq!(rt; parked.listener.calls, calls);
    }
    Ok(())
}

#[test]
fn what_harts_share_goes_through_two_threads(rt: HostRuntime) -> Result<(), Fail> {
    let alloc = rt.alloc();
    let image = Image {
        regions: Vec::new(alloc),
        entry: 0x10000,
    };
    let parcel = Box::new(alloc, Parcel::new(alloc, image)?)?;
    let parcel = add_by_two(&rt, alloc, parcel, 100)?;
    assert_eq!(rt; parcel.number, 7);
    assert_eq!(rt; parcel.holds, 200);
    assert_eq!(rt; (parcel.hart.pc, parcel.hart.steps), (0x10000, 0));
    assert_eq!(rt; parcel.services.starts.len(), 2);
    assert_eq!(rt; parcel.image.entry, 0x10000);
    assert_eq!(rt; parcel.order, Order::Reset { plugin: 1 });
    assert_eq!(rt; parcel.spec.entries, 3);
    Ok(())
}
