//! Numbers of touches and hits.

ghost use Rattle.std.specs.Prelude.{◌≡◌, ◌+◌, ◌%◌, ◌^◌, if◌then◌else◌};

/// How often a cache was touched.
#[derive(Clone, Copy, Debug, PartialEq, Eq)]
pub struct Tallied {
    /// The touches so far, modulo 2^64.
    pub touches: u64,
    /// Those of them that were hits, modulo 2^64.
    pub hits: u64,
}

impl Tallied {
    /// With one touch more.
    #[inline]
    pub(crate) fn with(self, hit: bool) -> Tallied
        ensures touches { result.touches ≡ (self.touches + 1) % 2 ^ 64 }
        ensures hits { result.hits ≡ (self.hits + (if hit then 1 else 0)) % 2 ^ 64 }
    {
        Tallied {
            touches: self.touches.wrapping_add(1),
            hits: self.hits.wrapping_add(u64::from(hit)),
        }
    }
}
