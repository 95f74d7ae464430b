//! Pairs removed from a map, one by its key or all, and its memory given back.
ghost use Rattle.std.specs.Prelude.{◌≡◌, [], cond, None, IsOk};
ghost use Rattle.std.specs.Ordering.{eq_by_cmp};
ghost use Rattle.vc_joins.specs.Entries.{entry_at, value_at};

use super::VecMap;
use std::alloc::{AllocError, Allocator};
use std::default::MadeWith;

impl<K: Ord + Drop, V: Drop, const N: usize, A: Allocator + Copy> VecMap<K, V, N, A>
where
    (K, V): MadeWith<A>,
{
    /// Removes the pair whose key is equal to `key`, and returns its value, or none where no such
    /// pair is held. The key that was held is dropped; all other pairs stay, and the list keeps its
    /// capacity.
    ///
    /// Compares fewer than `1.5 * log2(n) + 4` times among `n` pairs, moves the pairs after the
    /// removed one, and takes no memory.
    ///
    /// ```
    /// assert!(rt; ports.remove(&80) == Some(true));
    /// assert!(rt; ports.get(&80).is_none());
    /// ```
    pub fn remove(&mut self, key: &K) -> Option<V>
        ensures old { result ≡ value_at K.cmp self.old key.now }
        ensures values { (k : K) → value_at K.cmp self.new k
            ≡ cond (eq_by_cmp K.cmp k key.now) None (value_at K.cmp self.old k) }
        ensures entries { (k : K) → entry_at K.cmp self.new k
            ≡ cond (eq_by_cmp K.cmp k key.now) None (entry_at K.cmp self.old k) }
    {
        self.remove_by(key)
    }

    /// Drops all pairs. The list keeps its capacity, so that as many can be inserted again without
    /// memory; `shrink_to_fit` gives it back. Takes no memory.
    pub fn clear(&mut self)
        ensures { self.new ≡ [] }
    {
        self.pairs.clear();
    }

    /// Gives back memory that the pairs do not need. Where the allocator refuses, the list stays
    /// where it is, so the call always succeeds.
    pub fn shrink_to_fit(&mut self) -> Result<(), AllocError>
        ensures pairs { self.new ≡ self.old }
        ensures succeeds { IsOk result }
    {
        self.pairs.shrink_to_fit();
        Ok(())
    }
}
