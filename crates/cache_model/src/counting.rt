//! A cache whose touches and hits are counted.

ghost use Rattle.std.specs.Prelude.{◌≡◌, ◌+◌, ◌^◌, ◌≤◌, ◌∷◌, [], IfOk, OnOk, OnErr, IsTrue};
ghost use Rattle.cache_model.specs.declared.limits.TheConstants.{SETS_MOST, WAYS_MOST};
ghost use Rattle.cache_model.specs.Hits.{tallied, is_line_size};
ghost use Rattle.cache_model.specs.Touches.{lines_of};

use crate::caching::Cache;
use crate::tallies::Tallied;
use flat_model::NoMemory;
use std::alloc::Global;
use std::marker::Model;

/// A cache with the numbers of its touches and hits. A clause sees the cache.
#[derive(Drop)]
pub(crate) struct Counted {
    cache: Cache,
    so_far: Tallied,
}

impl Model for Counted {
    ghost use Rattle.std.specs.Prelude.{◌≡◌};
    ghost use Rattle.cache_model.specs.Hits.{tallied};
    ghost use Rattle.cache_model.specs.Studies.{Touched};

    ghost Value = { Touched };

    ghost view = { λ c. c.cache };

    ghost invariant = { λ c. c.so_far ≡ tallied c.cache.shape c.cache.touches };
}

impl Counted {
    ghost use Rattle.cache_model.specs.Studies.{with_touches, TouchesSome};

    /// A cache in which nothing was touched.
    pub(crate) fn new(alloc: Global, sets: u32, ways: u8, line: u32) -> Result<Counted, NoMemory>
        requires sets { (1 ≤ sets) × (sets ≤ SETS_MOST) }
        requires ways { (1 ≤ ways) × (ways ≤ WAYS_MOST) }
        requires line { IsTrue (is_line_size line) }
        ensures shape { IfOk result (λ cache. cache.shape ≡ record { sets = sets; ways = ways; line = line }) }
        ensures untouched { IfOk result (λ cache. cache.touches ≡ []) }
    {
        Ok(Counted {
            cache: Cache::new(alloc, sets, ways, line)?,
            so_far: Tallied {
                touches: 0,
                hits: 0,
            },
        })
    }

    #[inline]
    fn touch(&mut self, number: u64) -> Result<(), NoMemory>
        ensures touched { OnOk result (self.new ≡ with_touches self.old (number ∷ [])) }
        ensures unchanged { OnErr result (self.new ≡ self.old) }
    {
        let hit = self.cache.touch(number)?;
        self.so_far = self.so_far.with(hit);
        Ok(())
    }

    /// Touches the lines of 2^`shift` bytes at `addr`. Where there is no memory, only the first of them are touched.
    #[inline]
    pub(crate) fn access(&mut self, addr: u64, shift: u8) -> Result<(), NoMemory>
        requires shift { shift ≤ 3 }
        requires reach { addr + 2 ^ shift ≤ 2 ^ 64 }
        ensures touched { OnOk result (self.new ≡ with_touches self.old (lines_of self.old.shape.line addr shift)) }
        ensures earlier { OnErr result (TouchesSome self.old self.new (lines_of self.old.shape.line addr shift)) }
        ensures shape { self.new.shape ≡ self.old.shape }
    {
        let (first, last) = self.cache.ends_of(addr, shift);
        self.touch(first)?;
        if first != last {
            self.touch(last)?;
        }
        Ok(())
    }

    /// The touches and hits so far.
    pub(crate) fn so_far(&self) -> Tallied
        ensures { result ≡ tallied self.now.shape self.now.touches }
    {
        self.so_far
    }
}
