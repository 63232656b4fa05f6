//! Which touches of small caches are hits.

ghost use Rattle.std.specs.Prelude.{◌≤◌};

use cache_model::{Cache, is_line_size};
use flat_model::NoMemory;
use std::alloc::Global;
use std::test::Fail;

/// What a new cache with lines of 64 bytes answers to these touches.
fn answers(alloc: Global, sets: u32, ways: u8, touches: &[u64]) -> Result<Vec<bool>, NoMemory>
    requires sets { (1 ≤ sets) × (sets ≤ 4096) }
    requires ways { (1 ≤ ways) × (ways ≤ 16) }
{
    let mut cache = Cache::new(alloc, sets, ways, 64)?;
    let mut hits = Vec::new(alloc);
    for number in touches {
        hits.push(cache.touch(*number)?)?;
    }
    Ok(hits)
}

#[test]
fn the_line_that_was_used_least_recently_goes(rt: HostRuntime) -> Result<(), Fail> {
    let alloc = rt.alloc();
    assert_eq!(rt;
        answers(alloc, 1, 1, &[5, 5, 6, 5])?.as_slice(),
        [false, true, false, false].as_slice()
    );
    assert_eq!(rt;
        answers(alloc, 1, 2, &[1, 2, 1, 3, 2, 1])?.as_slice(),
        [false, false, true, false, false, false].as_slice()
    );
    assert_eq!(rt;
        answers(alloc, 1, 2, &[1, 2, 2, 2, 1])?.as_slice(),
        [false, false, true, true, true].as_slice()
    );
    assert_eq!(rt;
        answers(alloc, 1, 3, &[1, 2, 3, 1, 4, 2, 1, 3])?.as_slice(),
        [false, false, false, true, false, false, true, false].as_slice()
    );
    Ok(())
}

#[test]
fn each_set_keeps_its_own_lines(rt: HostRuntime) -> Result<(), Fail> {
    let alloc = rt.alloc();
    assert_eq!(rt;
        answers(alloc, 2, 1, &[1, 2, 3, 1, 2])?.as_slice(),
        [false, false, false, false, true].as_slice()
    );
    assert_eq!(rt;
        answers(alloc, 2, 2, &[0, 2, 1, 0, 4, 2, 3, 5, 1, 0, 2])?.as_slice(),
        [
            false, false, false, true, false, false, false, false, false, false, true
        ]
        .as_slice()
    );
    Ok(())
}

#[test]
fn the_largest_cache_takes_the_greatest_numbers(rt: HostRuntime) -> Result<(), Fail> {
    let touches = [u64::MAX, u64::MAX - 4096, u64::MAX, 4095, u64::MAX - 4096];
    assert_eq!(rt;
        answers(rt.alloc(), 4096, 16, &touches)?.as_slice(),
        [false, false, true, false, true].as_slice()
    );
    let seventeen = [
        1, 2, 3, 4, 5, 6, 7, 8, 9, 10, 11, 12, 13, 14, 15, 16, 17, 1, 3,
    ];
    let answers = answers(rt.alloc(), 1, 16, &seventeen)?;
    assert_eq!(rt; answers.iter().position(|hit| *hit), Some(18));
    Ok(())
}

#[test]
fn a_line_has_a_power_of_two_of_bytes(rt: HostRuntime) {
    assert!(rt; is_line_size(8) && is_line_size(64) && is_line_size(256));
    assert!(rt; !is_line_size(4) && !is_line_size(24) && !is_line_size(512));
}
