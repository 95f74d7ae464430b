//! Maps that are collected from pairs in any order.
ghost use Rattle.std.specs.Prelude.{◌≡◌, reverse, OnOk};
ghost use Rattle.vc_joins.specs.Entries.{AscendsByKey, entry_at};
ghost use Rattle.vc_maps.specs.Collecting.{IsCollected, IsExtended};

use super::VecMap;
use smallvec::SmallVec;
use std::alloc::{AllocError, Allocator};
use std::default::MadeWith;

/// Puts the pairs of a list in ascending order of their keys, and keeps only the last of those with
/// equal keys.
///
/// Takes memory where there are more than 20; on refusal it leaves the pairs in any order.
fn put_in_order<K: Ord + Drop, V: Drop, const N: usize, A: Allocator + Copy>(
    alloc: A,
    list: &mut SmallVec<(K, V), N, A>,
) -> Result<(), AllocError>
where
    (K, V): MadeWith<A>,
    ensures ascends { OnOk result (AscendsByKey K.cmp list.new.items) }
    ensures entries { OnOk result ((k : K)
        → entry_at K.cmp list.new.items k ≡ entry_at K.cmp (reverse list.old.items) k) }
{
    let pairs = list.as_mut_slice();
    pairs.reverse();
    // A stable sort of the reversed list puts the last of equal keys before the others.
    pairs.sort_by(alloc, |left, right| left.0.cmp(&right.0))?;
    list.dedup_by(|later, kept| later.0 == kept.0);
    Ok(())
}

/// The map of the pairs of an iterator that ends, in any order. Of pairs with equal keys the last
/// one is kept, as if each were inserted in turn.
///
/// All pairs are taken first, and then sorted with `O(n * log(n))` comparisons. Takes memory where
/// there are more than `N` pairs, and for the sort where there are more than 20. On refusal it
/// drops the pairs that came and the iterator.
///
/// ```
/// let squares: VecMap<u32, u32, 4> = (0..4).rev().map(|n| (n, n * n)).collect(alloc)?;
/// ```
impl<K: Ord + Drop, V: Drop, const N: usize, A: Allocator + Copy> FromIterator<(K, V)>
    for VecMap<K, V, N, A>
where
    (K, V): MadeWith<A>,
{
    type Alloc = A;

    ghost from_iter_gives = { IsCollected K.cmp };

    fn from_iter<U: IntoIterator<Item = (K, V)>>(alloc: A, iter: U) -> Result<Self, AllocError> {
        let mut pairs = SmallVec::new(alloc);
        pairs.extend(iter)?;
        put_in_order(alloc, &mut pairs)?;
        Ok(VecMap { pairs })
    }
}

/// Inserts the pairs of an iterator that ends, in turn and in any order. A key that is held is
/// replaced together with its value.
///
/// Each pair compares and moves as [`insert`](VecMap::insert) does. Where there are many pairs,
/// collect them into a map first, and call `merge_with`. On refusal at a pair it drops that pair
/// and the iterator; the pairs before it are in the map.
impl<K: Ord + Drop, V: Drop, const N: usize, A: Allocator + Copy> Extend<(K, V)>
    for VecMap<K, V, N, A>
where
    (K, V): MadeWith<A>,
{
    ghost extend_gives = { IsExtended K.cmp };

    fn extend<U: IntoIterator<Item = (K, V)>>(&mut self, iter: U) -> Result<(), AllocError> {
        for pair in iter {
            let (key, value) = pair;
            let _old = self.insert(key, value)?;
        }
        Ok(())
    }
}
