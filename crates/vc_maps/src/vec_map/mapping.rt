//! Maps with each value mapped by a closure.
ghost use Rattle.std.specs.Prelude.{◌≡◌, ◌≤◌, [], IfOk, IsOk, length};
ghost use Rattle.smallvec.specs.SmallVec.{HasRoomFor};
ghost use Rattle.std.specs.Iterator.{CallableOnAll, YieldsFirst};
ghost use Rattle.std.specs.Map.{keys_of, values_of};
ghost use Rattle.vc_joins.specs.Entries.{entry_at};
ghost use Rattle.vc_maps.specs.Mapping.{AnswersInTurn, MapsEntry};

use super::VecMap;
use smallvec::SmallVec;
use std::alloc::{AllocError, Allocator};
use std::default::MadeWith;
use std::mem;

impl<K: Ord + Drop, V: Drop, const N: usize, A: Allocator + Copy> VecMap<K, V, N, A>
where
    (K, V): MadeWith<A>,
{
    /// The map with the result of `f` on each value, under the same keys. `f` takes each value
    /// once, in ascending order of the keys.
    ///
    /// The pairs are moved. Takes memory only where there are more than `M`, and before the first
    /// call. On refusal it drops the map, and has not called `f`.
    ///
    /// ```
    /// let lengths: VecMap<u32, usize, 4> = names.map_values(|name| name.len())?;
    /// ```
    pub fn map_values<X: Drop, const M: usize, F: FnMut(V) -> X + Drop>(
        self,
        f: F,
    ) -> Result<VecMap<K, X, M, A>, AllocError>
    where
        (K, X): MadeWith<A>,
        requires callable { CallableOnAll (YieldsFirst (λ rest. rest)) F.FnMut (values_of self) f }
        ensures keys { IfOk result (λ m. keys_of m ≡ keys_of self) }
        ensures values { IfOk result
            (λ m. (last : _) × AnswersInTurn F.step f (values_of self) (values_of m) last) }
        ensures entries { IfOk result
            (λ m. (k : K) → MapsEntry F.step (entry_at K.cmp self k) (entry_at K.cmp m k)) }
        ensures room { length self ≤ M → IsOk result }
    {
        let alloc = *self.pairs.allocator();
        let mut pairs = self.into_inner();
        let mut mapped = SmallVec::with_capacity(alloc, pairs.len())?;
        push_mapped(alloc, &mut mapped, pairs.as_mut_slice(), f);
        Ok(VecMap { pairs: mapped })
    }
}

/// Appends to an empty list, which has room for all, the result of `f` on the value of each pair,
/// under the same key. Leaves blanks instead of the pairs.
fn push_mapped<
    K: Drop,
    V: Drop,
    X: Drop,
    const M: usize,
    A: Allocator + Copy,
    F: FnMut(V) -> X + Drop,
>(alloc: A, mapped: &mut SmallVec<(K, X), M, A>, pairs: &mut [(K, V)], mut f: F)
where
    (K, V): MadeWith<A>,
    requires callable { CallableOnAll (YieldsFirst (λ rest. rest)) F.FnMut (values_of pairs.old) f }
    requires empty { mapped.old.items ≡ [] }
    requires room { HasRoomFor mapped.old (length pairs.old) }
    ensures keys { keys_of mapped.new.items ≡ keys_of pairs.old }
    ensures values { (last : _)
        × AnswersInTurn F.step f (values_of pairs.old) (values_of mapped.new.items) last }
{
    'pairs: for at in 0..pairs.len() {
        let (key, value) = mem::replace(&mut pairs[at], <(K, V)>::made_with(alloc));
        let answer = f(value);
        mapped.push_reserved((key, answer));
    }
}
