//! What the caches of harts count of events.

ghost use Rattle.std.specs.Prelude.{◌≡◌, ◌+◌, ◌^◌, ◌<◌, ◌≤◌, length};

use cache_model::{Caches, Tallied};
use flat_model::{Ending, Event, NoMemory, What};
use std::test::Fail;

/// An access of 2^`shift` bytes at `addr`: a load where `rw` is 1, a store where it is 2 and an AMO where it is 3.
fn access(caches: &mut Caches, hart: u8, addr: u64, shift: u8, rw: u8) -> Result<(), NoMemory>
    requires hart { hart < length caches.old.harts }
    requires shift { shift ≤ 3 }
    requires reach { addr + 2 ^ shift ≤ 2 ^ 64 }
    ensures harts { length caches.new.harts ≡ length caches.old.harts }
{
    caches.event(&Event {
        hart,
        step: 3,
        what: What::Mem {
            pc: 0x10008,
            addr,
            shift,
            signed: false,
            rw,
            read: 0,
            written: 0,
        },
    })
}

const fn tallied(touches: u64, hits: u64) -> Tallied {
    Tallied { touches, hits }
}

#[test]
fn two_harts_share_a_line(rt: HostRuntime) -> Result<(), Fail> {
    let mut caches = Caches::new(rt.alloc(), 2, 1, 1, 64)?;
    let fetched = What::Insn {
        pc: 0x10008,
        word: 0x1002_B32F,
    };
    caches.event(&Event {
        hart: 0,
        step: 3,
        what: fetched,
    })?;
    access(&mut caches, 0, 0x20000, 3, 1)?;
    access(&mut caches, 1, 0x20001, 0, 2)?;
    let ending = Ending::Exited(1);
    caches.event(&Event {
        hart: 0,
        step: 6,
        what: What::Exit { ending },
    })?;
    assert_eq!(rt; caches.hart(0), tallied(1, 0));
    assert_eq!(rt; caches.hart(1), tallied(1, 0));
    assert_eq!(rt; caches.shared(), tallied(2, 1));
    Ok(())
}

#[test]
fn an_access_over_the_end_of_a_line_touches_two(rt: HostRuntime) -> Result<(), Fail> {
    let mut caches = Caches::new(rt.alloc(), 1, 1, 1, 64)?;
    access(&mut caches, 0, 0x2003C, 3, 2)?;
    assert_eq!(rt; caches.shared(), tallied(2, 0));
    access(&mut caches, 0, 0x20040, 0, 1)?;
    assert_eq!(rt; caches.shared(), tallied(3, 1));
    access(&mut caches, 0, 0x20038, 3, 1)?;
    assert_eq!(rt; caches.shared(), tallied(4, 1));
    access(&mut caches, 0, 0x2003C, 2, 1)?;
    assert_eq!(rt; caches.shared(), tallied(5, 2));
    assert_eq!(rt; caches.hart(0), tallied(5, 2));
    Ok(())
}

#[test]
fn an_amo_touches_once(rt: HostRuntime) -> Result<(), Fail> {
    let mut caches = Caches::new(rt.alloc(), 32, 4, 2, 8)?;
    access(&mut caches, 31, 0x20000, 3, 3)?;
    access(&mut caches, 31, 0xFFFF_FFFF_FFFF_FFF8, 3, 3)?;
    access(&mut caches, 31, 0x20000, 2, 3)?;
    assert_eq!(rt; caches.hart(31), tallied(3, 1));
    assert_eq!(rt; caches.hart(30), tallied(0, 0));
    assert_eq!(rt; caches.shared(), tallied(3, 1));
    Ok(())
}
