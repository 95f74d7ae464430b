//! Maps from pairs and lists, and lists from maps.
ghost use Rattle.std.specs.Prelude.{◌≡◌, ◌≤◌, [], ◌∷◌, length, reverse, IsOk, IfOk, OnErr};
ghost use Rattle.std.specs.Iterator.{Drains, IsFinite};
ghost use Rattle.std.specs.Iterator.Runs.{WholeRun};
ghost use Rattle.vc_joins.specs.Entries.{AscendsByKey, entry_at, value_at};
ghost use Rattle.vc_sets.specs.Collecting.{GivesMoreThan};

use super::VecMap;
use smallvec::SmallVec;
use std::alloc::{AllocError, Allocator};
use std::collections::BTreeMap;
use std::default::MadeWith;
use vc_merge::iterators::SortedByKey;
use vc_sets::vec_set::VecSet;
use vc_sets::vec_set::conversions::{list_of_items, set_of_list};

/// The map of a list whose keys ascend strictly. Takes no memory.
pub fn map_of_list<K: Ord, V, const N: usize, A: Allocator>(
    pairs: SmallVec<(K, V), N, A>,
) -> VecMap<K, V, N, A>
    requires { AscendsByKey K.cmp pairs.items }
    ensures { result ≡ pairs.items }
{
    VecMap { pairs }
}

/// The pairs of a list in ascending order of their keys, and of those with equal keys only the
/// last.
fn in_order<K: Ord + Drop, V: Drop>(vec: Vec<(K, V)>) -> Result<Vec<(K, V)>, AllocError>
    ensures ascends { IfOk result (λ list. AscendsByKey K.cmp list.items) }
    ensures values { IfOk result
        (λ list. (k : K) → value_at K.cmp list.items k ≡ value_at K.cmp (reverse vec.items) k) }
    ensures entries { IfOk result
        (λ list. (k : K) → entry_at K.cmp list.items k ≡ entry_at K.cmp (reverse vec.items) k) }
{
    let mut list = vec;
    list.reverse();
    // A stable sort of the reversed list puts the last of equal keys before the others.
    list.sort_by(|left, right| left.0.cmp(&right.0))?;
    list.dedup_by(|later, kept| later.0 == kept.0);
    Ok(list)
}

impl<K: Ord, V, const N: usize, A: Allocator> VecMap<K, V, N, A> {
    /// The pairs in ascending order of their keys, as the list that holds them. Takes no memory.
    pub fn into_inner(self) -> SmallVec<(K, V), N, A>
        ensures pairs { result.items ≡ self }
        ensures ascends { AscendsByKey K.cmp self }
    {
        self.pairs
    }
}

impl<K: Ord + Drop, V: Drop, const N: usize, A: Allocator + Copy> VecMap<K, V, N, A>
where
    (K, V): MadeWith<A>,
{
    /// The pairs in ascending order of their keys, as a `Vec`.
    ///
    /// Takes memory where they are inline; on refusal it drops them.
    pub fn into_vec(self) -> Result<Vec<(K, V), A>, AllocError>
        ensures pairs { IfOk result (λ v. v.items ≡ self) }
        ensures ascends { AscendsByKey K.cmp self }
    {
        Ok(self.pairs.into_vec()?)
    }

    /// The map of one pair. Takes memory only where `N` is 0; on refusal it drops the pair.
    pub fn single(alloc: A, item: (K, V)) -> Result<Self, AllocError>
        ensures pair { IfOk result (λ m. m ≡ item ∷ []) }
        ensures room { 1 ≤ N → IsOk result }
    {
        let mut pairs = SmallVec::new(alloc);
        pairs.push(item)?;
        Ok(VecMap { pairs })
    }

    /// The map of a list whose keys ascend strictly, as
    /// [`ascends_by_key`](vc_merge::iterators::ascends_by_key) checks. The pairs are moved.
    ///
    /// Takes memory where there are more than `N`; on refusal it drops the pairs.
    pub fn from_vec(alloc: A, vec: Vec<(K, V)>) -> Result<Self, AllocError>
        requires { AscendsByKey K.cmp vec.items }
        ensures pairs { IfOk result (λ m. m ≡ vec.items) }
        ensures room { length vec.items ≤ N → IsOk result }
    {
        let pairs = list_of_items(alloc, vec.into_iter())?;
        Ok(VecMap { pairs })
    }

    /// The map of the pairs of a list that may be in any order. Of pairs with equal keys the last
    /// one of the list is kept, as if each were inserted in turn. The pairs are moved.
    ///
    /// Sorts the list in place, with `O(n * log(n))` comparisons. Takes memory for the sort where
    /// there are more than 20, from the allocator of the list, and where more than `N` are left; on
    /// refusal it drops the pairs.
    ///
    /// ```
    /// let pairs = vec![in alloc; (80, true), (22, true), (22, false)]?;
    /// let ports: VecMap<u16, bool, 4> = VecMap::from_unsorted(alloc, pairs)?;
    /// assert!(rt; ports.as_ref() == [(22, false), (80, true)].as_slice());
    /// ```
    pub fn from_unsorted(alloc: A, vec: Vec<(K, V)>) -> Result<Self, AllocError>
        ensures values { IfOk result
            (λ m. (k : K) → value_at K.cmp m k ≡ value_at K.cmp (reverse vec.items) k) }
        ensures entries { IfOk result
            (λ m. (k : K) → entry_at K.cmp m k ≡ entry_at K.cmp (reverse vec.items) k) }
    {
        Self::from_vec(alloc, in_order(vec)?)
    }

    /// The map of the items of an iterator whose keys ascend strictly and which ends. The items are
    /// moved.
    ///
    /// Takes memory where there are more than `N`; on refusal it drops the items that came and the
    /// iterator.
    pub fn from_iter<I: Iterator<Item = (K, V)> + SortedByKey<K, V>>(
        alloc: A,
        iter: I,
    ) -> Result<Self, AllocError>
        requires can { I.can_next iter }
        requires ends { IsFinite (I.remaining iter) }
        requires sorted { I.is_sorted_by_key iter }
        ensures items { IfOk result (λ m. Drains I.next_gives iter m) }
        ensures runs { IfOk result (λ m. WholeRun I.next_gives iter (λ p. m ≡ p.items)) }

        // It is refused only where more than `N` items come.
        ensures room { OnErr result (GivesMoreThan I.next_gives N iter) }
    {
        let pairs = list_of_items(alloc, iter)?;
        Ok(VecMap { pairs })
    }

    /// The map with the pairs of a `BTreeMap`, which are moved.
    ///
    /// Takes memory where there are more than `N`; on refusal it drops the pairs.
    pub fn from_btree_map(alloc: A, map: BTreeMap<K, V>) -> Result<Self, AllocError>
        ensures pairs { IfOk result (λ m. m ≡ map.entries) }
        ensures room { length map.entries ≤ N → IsOk result }
    {
        Self::from_iter(alloc, map.into_iter())
    }
}

/// The pairs in ascending order of their keys. Takes no memory.
impl<K: Ord, V, const N: usize, A: Allocator> From<VecMap<K, V, N, A>> for SmallVec<(K, V), N, A> {
    ghost from_gives = { λ m list. list.items ≡ m };

    fn from(map: VecMap<K, V, N, A>) -> SmallVec<(K, V), N, A> {
        map.into_inner()
    }
}

/// The set of the pairs. Takes no memory.
impl<K: Ord, V: Ord, const N: usize, A: Allocator> From<VecMap<K, V, N, A>>
    for VecSet<(K, V), N, A> {
    ghost from_gives = { λ m s. s ≡ m };

    fn from(map: VecMap<K, V, N, A>) -> VecSet<(K, V), N, A> {
        set_of_list(map.into_inner())
    }
}
