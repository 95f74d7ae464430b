//! Counters by name, where most names have the same count. Only the others take memory.

ghost use Rattle.std.specs.Prelude.{◌≡◌, ◌==◌, ◌+◌, ◌*◌, cond, max, Ok, ℕ, IfOk};
ghost use Rattle.users.specs.Counts.{count_of, bounded};

use std::alloc::{AllocError, Global};
use vec_collections::VecMap;
use vec_collections::laws::{combined_is_pointwise, mapped_is_pointwise, standing_is_at};
use vec_collections::total_vec_map::TotalVecMap;

/// A count at every name.
#[derive(Drop)]
pub struct Counters {
    counts: TotalVecMap<u32, u64, 8>,
}

impl Counters {
    /// The same count at every name.
    pub fn all(alloc: Global, count: u64) -> Self
        ensures { (name : ℕ) → count_of result name ≡ count }
    {
        Counters {
            counts: TotalVecMap::constant(alloc, count),
        }
    }

    /// A count at one name, and none at the others.
    pub fn one(alloc: Global, name: u32, count: u64) -> Result<Self, AllocError>
        ensures { IfOk result
            (λ made. (other : ℕ) → count_of made other ≡ cond (other == name) count 0) }
    {
        let counts = TotalVecMap::new(VecMap::single(alloc, (name, count))?, 0);
        Ok(Counters { counts })
    }

    /// The count of a name.
    pub fn count(&self, name: u32) -> u64
        ensures { result ≡ count_of self.now name }
    {
        self.counts[&name]
    }

    /// The sums of two counts, or the greatest number where a sum does not fit.
    pub fn sum(&self, other: &Self) -> Result<Self, AllocError>
        ensures { IfOk result (λ made. (name : ℕ)
            → count_of made name ≡ bounded (count_of self.now name + count_of other.now name)) }
    {
        let add = |x: &u64, y: &u64| -> Result<u64, AllocError>
            ensures { result ≡ Ok (bounded (x.now + y.now)) }
        { Ok(x.saturating_add(*y)) };
        combined_is_pointwise::<u32, u64, _>(&add);
        let counts = self.counts.combine_ref(&other.counts, add)?;
        Ok(Counters { counts })
    }

    /// The greater of two counts.
    pub fn greater(&self, other: &Self) -> Result<Self, AllocError>
        ensures { IfOk result (λ made. (name : ℕ)
            → count_of made name ≡ max (count_of self.now name) (count_of other.now name)) }
    {
        standing_is_at::<u32, u64>();
        let counts = self.counts.supremum(&other.counts)?;
        Ok(Counters { counts })
    }

    /// Each count times `factor`, or the greatest number where that does not fit.
    pub fn scaled(&self, factor: u64) -> Result<Self, AllocError>
        ensures { IfOk result
            (λ made. (name : ℕ) → count_of made name ≡ bounded (count_of self.now name * factor)) }
    {
        let scale = |x: &u64| -> Result<u64, AllocError>
            ensures { result ≡ Ok (bounded (x.now * factor)) }
        { Ok(x.saturating_mul(factor)) };
        mapped_is_pointwise::<u32, u64, u64, _>(&scale);
        let counts = self.counts.map_values(scale)?;
        Ok(Counters { counts })
    }
}
