ghost use Rattle.std.specs.Prelude.{◌≡◌, ◌%◌, Some};
ghost use Rattle.block_finder.specs.Caches.{MayServe};

use crate::guests::image_of;
use block_finder::{BlockCache, find, length};
use flat_model::{Image, NoMemory};
use small_files::{CODE, elf, nops_and_exit};
use std::test::Fail;

#[test]
fn blocks_stop_at_512_words_at_the_page_and_at_an_absent_word(rt: HostRuntime) -> Result<(), Fail> {
    let alloc = rt.alloc();
    for (base, nops, pc, n) in [
        (0x10000, 513, 0x10000, 512),
        (0x10000, 513, 0x10800, 4),
        (0x10FF8, 2, 0x10FF8, 2),
        (0x10FF8, 2, 0x11000, 3),
        (0x10FF8, 2, 0x1100C, 0),
    ] {
        let image = image_of(alloc, &elf(alloc, base, &nops_and_exit(alloc, nops)?)?)?;
        let block = find(alloc, &image, pc / 4 * 4)?;
        assert_eq!(rt; (block.n, block.sites.len()), (n, n as usize));
        assert_eq!(rt; length(&image, pc / 4 * 4), n);
    }
    Ok(())
}

// How many words the block has that the cache gives.
fn kept_length(cache: &mut BlockCache, image: &Image, pc: u64) -> Result<u32, NoMemory>
    requires aligned { pc % 4 ≡ 0 }
    requires serves { MayServe cache.old image.now }
    ensures serves { cache.new ≡ Some image.now }
{
    let block = cache.lookup(image, pc)?;
    Ok(block.n)
}

// At how many of the words from 0x10000 on, twice as many as a cache keeps blocks, it gives a block of another length.
fn differing(cache: &mut BlockCache, image: &Image) -> Result<u32, NoMemory>
    requires serves { MayServe cache.old image.now }
    ensures serves { MayServe cache.new image.now }
{
    let mut differing = 0u32;
    for k in 0..2048u64 {
        let pc = 0x10000 + 4 * k;
        if kept_length(cache, image, pc)? != length(image, pc) {
            differing = differing.wrapping_add(1);
        }
    }
    Ok(differing)
}

#[test]
fn a_cache_gives_the_same_blocks_again_when_others_took_their_places(
    rt: HostRuntime,
) -> Result<(), Fail> {
    let alloc = rt.alloc();
    let image = image_of(alloc, &elf(alloc, CODE, &nops_and_exit(alloc, 1000)?)?)?;
    let mut cache = BlockCache::new(alloc)?;
    assert_eq!(rt; differing(&mut cache, &image)?, 0);
    assert_eq!(rt; differing(&mut cache, &image)?, 0);
    assert_eq!(rt; kept_length(&mut cache, &image, CODE)?, 512);
    Ok(())
}
