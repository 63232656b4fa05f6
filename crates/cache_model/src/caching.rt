//! One cache.

ghost use Rattle.std.specs.Prelude.{◌≡◌, ◌+◌, ◌^◌, ◌≤◌, ◌==◌, ◌∷◌, [], if◌then◌else◌, true};
ghost use Rattle.std.specs.Prelude.{is_some, nat_eq, replicate, IfOk, OnOk, OnErr, IsOk, IsTrue};
ghost use Rattle.std.specs.Map.{lookup};
ghost use Rattle.lru.specs.LruCache.{lru_cache, put_entries};
ghost use Rattle.cache_model.specs.declared.limits.TheConstants.{SETS_MOST, WAYS_MOST};
ghost use Rattle.cache_model.specs.Hits.{is_hit, is_line_size};
ghost use Rattle.cache_model.specs.Touches.{lines_of};

use flat_model::{NoMemory, Trace};
use lru::LruCache;
use std::alloc::Global;
use std::marker::Model;
use std::num::NonZeroUsize;

/// A set of lines, the one that was touched last first.
type Set = LruCache<u64, ()>;

/// Whether a line may have this many bytes: 8, 16, 32, 64, 128 or 256.
pub fn is_line_size(line: u32) -> bool
    ensures { result ≡ is_line_size line }
{
    line == 8 || line == 16 || line == 32 || line == 64 || line == 128 || line == 256
}

/// A cache of lines: the line with number n is in the set n modulo the number of sets, and has the bytes from n times its
/// size on. Each set keeps the lines that were touched last. A clause sees the cache's shape and the lines touched so far.
#[derive(Drop)]
pub struct Cache {
    ways: u8,
    line: u32,
    sets: Vec<Set>,
    touched: Trace<u64>,
}

impl Model for Cache {
    ghost use Rattle.std.specs.Prelude.{vec_len};
    ghost use Rattle.cache_model.specs.Studies.{Touched};
    ghost use Rattle.cache_model.specs.Kept.{AreKept};

    ghost Value = { Touched };

    ghost view = { λ c. record { shape = record { sets = vec_len c.sets; ways = c.ways; line = c.line }; touches = c.touched.items } };

    ghost invariant = { λ c. AreKept c.ways c.line c.touched.items (vec_len c.sets) c.sets.items };
}

impl Cache {
    ghost use Rattle.cache_model.specs.Studies.{with_touches};

    /// A cache of so many sets of so many lines of `line` bytes, in which nothing was touched.
    pub fn new(alloc: Global, sets: u32, ways: u8, line: u32) -> Result<Cache, NoMemory>
        requires sets { (1 ≤ sets) × (sets ≤ SETS_MOST) }
        requires ways { (1 ≤ ways) × (ways ≤ WAYS_MOST) }
        requires line { IsTrue (is_line_size line) }
        ensures shape { IfOk result (λ cache. cache.shape ≡ record { sets = sets; ways = ways; line = line }) }
        ensures untouched { IfOk result (λ cache. cache.touches ≡ []) }
    {
        Ok(Cache {
            ways,
            line,
            sets: empty_sets(alloc, sets, ways)?,
            touched: Trace::new(),
        })
    }

    /// Touches the line with this number, and answers whether that is a hit. Only a touch that isn't one takes memory.
    #[inline]
    pub fn touch(&mut self, number: u64) -> Result<bool, NoMemory>
        ensures hit { IfOk result (λ hit. hit ≡ is_hit self.old.shape self.old.touches number) }
        ensures touched { OnOk result (self.new ≡ with_touches self.old (number ∷ [])) }
        ensures unchanged { OnErr result (self.new ≡ self.old) }
        ensures hits_succeed { is_hit self.old.shape self.old.touches number ≡ true → IsOk result }
    {
        let place = (number % self.sets.len() as u64) as usize;
        let hit = touch_in(&mut self.sets[place], number)?;
        self.touched = self.touched.and(&number);
        Ok(hit)
    }

    /// The lines of the first and of the last of 2^`shift` bytes at `addr`, which are one line or two that adjoin.
    #[inline]
    pub(crate) fn ends_of(&self, addr: u64, shift: u8) -> (u64, u64)
        requires shift { shift ≤ 3 }
        requires reach { addr + 2 ^ shift ≤ 2 ^ 64 }
        ensures lines { lines_of self.now.shape.line addr shift
            ≡ (if result.0 == result.1 then result.0 ∷ [] else result.0 ∷ result.1 ∷ []) }
    {
        let line = u64::from(self.line);
        let last = addr + ((1u64 << shift) - 1);
        (addr / line, last / line)
    }
}

/// So many sets without lines, with room for `ways` lines each.
fn empty_sets(alloc: Global, sets: u32, ways: u8) -> Result<Vec<Set>, NoMemory>
    requires ways { 1 ≤ ways }
    ensures empty { IfOk result (λ all. all.items ≡ replicate sets (lru_cache [] ways)) }
{
    let most = NonZeroUsize::new(usize::from(ways)).unwrap();
    let mut all = Vec::new(alloc);
    for _ in 0..sets {
        all.push(LruCache::new(alloc, most)?)?;
    }
    Ok(all)
}

/// Touches a line in its set, and answers whether it was there.
#[inline]
fn touch_in(set: &mut Set, number: u64) -> Result<bool, NoMemory>
    ensures there { IfOk result (λ there. there ≡ is_some (lookup (nat_eq number) set.old.entries)) }
    ensures first { OnOk result (set.new ≡ lru_cache (put_entries nat_eq set.old number tt) set.old.cap) }
    ensures unchanged { OnErr result (set.new ≡ set.old) }
    ensures kept { is_some (lookup (nat_eq number) set.old.entries) ≡ true → IsOk result }
{
    match set.put(number, ()) {
        Ok(old) => Ok(old.is_some()),
        Err(_) => Err(NoMemory),
    }
}
