//! Sets that are collected from items in any order.
ghost use Rattle.std.specs.Prelude.{◌≡◌, reverse, OnOk};
ghost use Rattle.vc_merge.specs.Ascending.{Ascends, element_at};
ghost use Rattle.vc_sets.specs.Collecting.{IsCollected, IsExtended};

use super::VecSet;
use smallvec::SmallVec;
use std::alloc::{AllocError, Allocator};
use std::default::MadeWith;

/// Puts the elements of a list in ascending order, and keeps only the last of equal ones.
///
/// Takes memory where there are more than 20; where that is refused, the elements are left in any
/// order.
fn put_in_order<T: Ord + MadeWith<A> + Drop, const N: usize, A: Allocator + Copy>(
    alloc: A,
    list: &mut SmallVec<T, N, A>,
) -> Result<(), AllocError>
    ensures ascends { OnOk result (Ascends T.cmp list.new.items) }
    ensures kept { OnOk result ((x : T)
        → element_at T.cmp list.new.items x ≡ element_at T.cmp (reverse list.old.items) x) }
{
    let items = list.as_mut_slice();
    items.reverse();
    // A stable sort of the reversed list puts the last of equal elements before the others.
    items.sort(alloc)?;
    list.dedup();
    Ok(())
}

/// The set of the items of an iterator that ends, in any order. Of equal items the last one is
/// kept, as if each were inserted in turn.
///
/// All items are taken first, and then sorted with `O(n * log(n))` comparisons. Takes memory where
/// there are more than `N` items, and for the sort where there are more than 20. Where memory is
/// refused, the items that came and the iterator are dropped.
///
/// ```
/// let digits: VecSet<u32, 4> = text.chars().filter_map(|c| c.to_digit(10)).collect(alloc)?;
/// ```
impl<T: Ord + MadeWith<A> + Drop, const N: usize, A: Allocator + Copy> FromIterator<T>
    for VecSet<T, N, A> {
    type Alloc = A;

    ghost from_iter_gives = { IsCollected T.cmp };

    fn from_iter<U: IntoIterator<Item = T>>(alloc: A, iter: U) -> Result<Self, AllocError> {
        let mut elements = SmallVec::new(alloc);
        elements.extend(iter)?;
        put_in_order(alloc, &mut elements)?;
        Ok(VecSet { elements })
    }
}

/// Inserts the items of an iterator that ends, in turn and in any order. Each replaces an equal
/// element if there is one.
///
/// Each item compares and moves as [`insert`](VecSet::insert) does. Where there are many items,
/// collect them into a set first, and take the union with it. Where an item is refused, that item
/// and the iterator are dropped; the items before it are in the set.
impl<T: Ord + MadeWith<A> + Drop, const N: usize, A: Allocator + Copy> Extend<T>
    for VecSet<T, N, A> {
    ghost extend_gives = { IsExtended T.cmp };

    fn extend<U: IntoIterator<Item = T>>(&mut self, iter: U) -> Result<(), AllocError> {
        for item in iter {
            self.insert(item)?;
        }
        Ok(())
    }
}
