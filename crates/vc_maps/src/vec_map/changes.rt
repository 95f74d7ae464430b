//! Pairs that a test removes, and copies of a map.
ghost use Rattle.std.specs.Prelude.{◌≡◌, [], filter, Bool, IfOk};
ghost use Rattle.std.specs.Fn.{CalledAt};
ghost use Rattle.std.specs.Iterator.{CallableOnAllAt, YieldsFirst};
ghost use Rattle.std.specs.List.{AllZip};
ghost use Rattle.std.specs.List.Retain.{IsFiltered};
ghost use Rattle.vc_joins.specs.Entries.{entry_at};
ghost use Rattle.vc_merge.specs.Retaining.{AnswersAs, IsRetained};
ghost use Rattle.vc_merge.specs.Clones.{ClonesAreEqual};
ghost use Rattle.vc_sets.specs.EqualClones.{lists_equal, pairs_equal};

use super::VecMap;
use std::alloc::{AllocError, Allocator};
use std::default::MadeWith;
use vc_merge::lists::keep_in_front;
use vc_merge::states::clones_of;
use vc_sets::cloning::ClonesEqual;

impl<K: Ord + Drop, V: Drop, const N: usize, A: Allocator + Copy> VecMap<K, V, N, A>
where
    (K, V): MadeWith<A>,
{
    /// Keeps the pairs for which `f` answers true, and drops the others. `f` is called once with
    /// each pair, in ascending order of the keys.
    ///
    /// Makes at most one swap for each pair, and takes no memory.
    pub fn retain<F: FnMut(&(K, V)) -> bool>(&mut self, f: F)
        requires { CallableOnAllAt (YieldsFirst (λ rest. rest)) F.FnMut self.old f }
        ensures filtered { IsFiltered (CalledAt F.FnMut) f self.old self.new }
        ensures entries { (k : K) → IsRetained (CalledAt F.FnMut) (entry_at K.cmp self.old k)
            (entry_at K.cmp self.new k) }

        // With a pure test, exactly what passes it stays.
        ensures plain { (test : K × V → Bool) → AnswersAs (CalledAt F.FnMut) f test
            → self.new ≡ filter test self.old }
    {
        let kept = keep_in_front(self.pairs.as_mut_slice(), f);
        self.pairs.truncate(kept);
    }
}

impl<K: Ord + Clone, V: Clone, const N: usize, A: Allocator + Copy> VecMap<K, V, N, A>
where
    (K, V): MadeWith<A>,
{
    /// A copy, pair by pair, with the allocator of this map.
    ///
    /// Where there are more than `N` pairs, it takes as much memory as a map that grew to hold
    /// them. The clones may take memory too. On refusal it drops what was copied.
    pub fn clone(&self) -> Result<Self, AllocError>
        requires { ClonesAreEqual K.cmp K.is_clone }
        ensures { IfOk result
            (λ copy. AllZip (λ p q. K.is_clone p.0 q.0 × V.is_clone p.1 q.1) self.now copy) }
    {
        let pairs = clones_of(*self.pairs.allocator(), self.pairs.as_slice())?;
        Ok(VecMap { pairs })
    }
}

/// Takes memory as [`clone`](VecMap::clone) does.
impl<K: ClonesEqual, V: Clone, const N: usize, A: Allocator + Copy> Clone for VecMap<K, V, N, A>
where
    (K, V): MadeWith<A>,
{
    ghost is_clone = { AllZip (λ p q. K.is_clone p.0 q.0 × V.is_clone p.1 q.1) };

    fn clone(&self) -> Result<Self, AllocError> {
        VecMap::clone(self)
    }
}

impl<K: ClonesEqual, V: ClonesEqual, const N: usize, A: Allocator + Copy> ClonesEqual
    for VecMap<K, V, N, A>
where
    (K, V): MadeWith<A>,
{
    ghost clones_equal = { lists_equal (pairs_equal K.clones_equal V.clones_equal) };
}

/// The map with no pair. Takes no memory.
impl<K: Ord + Drop, V: Drop, const N: usize, A: Allocator + Copy> MadeWith<A> for VecMap<K, V, N, A>
where
    (K, V): MadeWith<A>,
{
    ghost is_made_with = { λ m. m ≡ [] };

    fn made_with(alloc: A) -> Self {
        Self::empty(alloc)
    }
}
