//! Sets from elements and lists, and lists from sets.
ghost use Rattle.std.specs.Prelude.{◌≡◌, ◌≤◌, [], ◌∷◌, length, reverse, IsOk, IfOk, OnErr, OnOk};
ghost use Rattle.std.specs.Iterator.{Drains, IsFinite};
ghost use Rattle.std.specs.Iterator.Runs.{WholeRun};
ghost use Rattle.std.specs.List.{AllZip};
ghost use Rattle.vc_merge.specs.Ascending.{Ascends, element_at, member};
ghost use Rattle.vc_merge.specs.Clones.{ClonesAreEqual};
ghost use Rattle.vc_sets.specs.Collecting.{GivesMoreThan};

use super::VecSet;
use crate::cloning::ClonesEqual;
use smallvec::SmallVec;
use std::alloc::{AllocError, Allocator};
use std::collections::BTreeSet;
use std::default::MadeWith;
use vc_merge::iterators::SortedByItem;
use vc_merge::states::clones_of;

/// The set of a list that ascends strictly. Takes no memory.
pub fn set_of_list<T: Ord, const N: usize, A: Allocator>(
    elements: SmallVec<T, N, A>,
) -> VecSet<T, N, A>
    requires { Ascends T.cmp elements.items }
    ensures { result ≡ elements.items }
{
    VecSet { elements }
}

/// The elements of a list in ascending order, and of equal ones only the last.
fn in_order<T: Ord + Drop>(vec: Vec<T>) -> Result<Vec<T>, AllocError>
    ensures ascends { IfOk result (λ list. Ascends T.cmp list.items) }
    ensures kept { IfOk result
        (λ list. (x : T) → element_at T.cmp list.items x ≡ element_at T.cmp (reverse vec.items) x) }
{
    let mut list = vec;
    list.reverse();
    // A stable sort of the reversed list puts the last of equal elements before the others.
    list.sort()?;
    list.dedup();
    Ok(list)
}

/// The list of the items of an iterator that ends. The items are moved.
///
/// Takes memory where there are more than `N`; where it is refused, the items that came and the
/// iterator are dropped.
pub fn list_of_items<
    T: MadeWith<A> + Drop,
    I: Iterator<Item = T>,
    const N: usize,
    A: Allocator + Copy,
>(alloc: A, iter: I) -> Result<SmallVec<T, N, A>, AllocError>
    requires can { I.can_next iter }
    requires ends { IsFinite (I.remaining iter) }
    ensures items { IfOk result (λ list. Drains I.next_gives iter list.items) }
    ensures runs { IfOk result (λ list. WholeRun I.next_gives iter (λ p. list.items ≡ p.items)) }
    ensures room { OnErr result (GivesMoreThan I.next_gives N iter) }
{
    let mut list = SmallVec::new(alloc);
    list.extend(iter)?;
    Ok(list)
}

impl<T: Ord, const N: usize, A: Allocator> VecSet<T, N, A> {
    /// The elements in ascending order, as the list that holds them. Takes no memory.
    pub fn into_inner(self) -> SmallVec<T, N, A>
        ensures elements { result.items ≡ self }
        ensures ascends { Ascends T.cmp self }
    {
        self.elements
    }
}

impl<T: Ord + MadeWith<A> + Drop, const N: usize, A: Allocator + Copy> VecSet<T, N, A> {
    /// The set of one element. Takes memory only where `N` is 0; where it is refused, the element
    /// is dropped.
    pub fn single(alloc: A, value: T) -> Result<Self, AllocError>
        ensures element { IfOk result (λ s. s ≡ value ∷ []) }
        ensures room { 1 ≤ N → IsOk result }
    {
        let mut elements = SmallVec::new(alloc);
        elements.push(value)?;
        Ok(VecSet { elements })
    }

    /// The set of the items of an iterator that ascends strictly and ends. The items are moved.
    ///
    /// Takes memory where there are more than `N`; where it is refused, the items that came and the
    /// iterator are dropped.
    pub fn from_iter<I: Iterator<Item = T> + SortedByItem>(
        alloc: A,
        iter: I,
    ) -> Result<Self, AllocError>
        requires can { I.can_next iter }
        requires ends { IsFinite (I.remaining iter) }
        requires sorted { I.is_sorted iter }
        ensures items { IfOk result (λ s. Drains I.next_gives iter s) }
        ensures runs { IfOk result (λ s. WholeRun I.next_gives iter (λ p. s ≡ p.items)) }

        // It is refused only where more than `N` items come.
        ensures room { OnErr result (GivesMoreThan I.next_gives N iter) }
    {
        let elements = list_of_items(alloc, iter)?;
        Ok(VecSet { elements })
    }

    /// The set with the elements of a `BTreeSet`, which are moved.
    ///
    /// Takes memory where there are more than `N`; on refusal it drops the elements.
    pub fn from_btree_set(alloc: A, set: BTreeSet<T>) -> Result<Self, AllocError>
        ensures elements { IfOk result (λ s. s ≡ set.keys) }
        ensures room { length set.keys ≤ N → IsOk result }
    {
        Self::from_iter(alloc, set.into_iter())
    }

    /// The set of the elements of a list that may be in any order. Of equal elements the last
    /// one of the list is kept, as if each were inserted in turn. The elements are moved.
    ///
    /// Sorts the list in place, with `O(n * log(n))` comparisons. Takes memory for the sort where
    /// there are more than 20, from the allocator of the list, and where more than `N` are left; on
    /// refusal it drops the elements.
    ///
    /// ```
    /// let primes: VecSet<u32, 4> = VecSet::from_unsorted(alloc, vec![in alloc; 5, 2, 3, 2]?)?;
    /// assert!(rt; primes.as_ref() == [2, 3, 5].as_slice());
    /// ```
    pub fn from_unsorted(alloc: A, vec: Vec<T>) -> Result<Self, AllocError>
        ensures members { IfOk result
            (λ s. (x : T) → member T.cmp s x ≡ member T.cmp vec.items x) }
        ensures kept { IfOk result
            (λ s. (x : T) → element_at T.cmp s x ≡ element_at T.cmp (reverse vec.items) x) }
    {
        Self::from_vec(alloc, in_order(vec)?)
    }

    /// The elements in ascending order, as a `Vec`.
    ///
    /// Takes memory where they are inline; on refusal it drops them.
    pub fn into_vec(self) -> Result<Vec<T, A>, AllocError>
        ensures elements { IfOk result (λ v. v.items ≡ self) }
        ensures ascends { Ascends T.cmp self }
    {
        Ok(self.elements.into_vec()?)
    }
}

impl<T: Ord + Clone + MadeWith<A>, const N: usize, A: Allocator + Copy> VecSet<T, N, A> {
    /// A copy, element by element, with the allocator of this set.
    ///
    /// Where there are more than `N` elements, it takes as much memory as a set that grew to hold
    /// them. The clones of the elements may take memory too. Where memory is refused, what was
    /// copied is dropped.
    #[inline(always)]
    pub fn clone(&self) -> Result<Self, AllocError>
        requires { ClonesAreEqual T.cmp T.is_clone }
        ensures { IfOk result (λ copy. AllZip T.is_clone self.now copy) }
    {
        let elements = clones_of(*self.elements.allocator(), self.elements.as_slice())?;
        Ok(VecSet { elements })
    }
}

/// Takes memory as [`clone`](VecSet::clone) does.
impl<T: ClonesEqual + MadeWith<A>, const N: usize, A: Allocator + Copy> Clone for VecSet<T, N, A> {
    ghost is_clone = { AllZip T.is_clone };

    fn clone(&self) -> Result<Self, AllocError> {
        VecSet::clone(self)
    }
}

/// The set with no element. Takes no memory.
impl<T: Ord + MadeWith<A> + Drop, const N: usize, A: Allocator + Copy> MadeWith<A>
    for VecSet<T, N, A> {
    ghost is_made_with = { λ s. s ≡ [] };

    fn made_with(alloc: A) -> Self {
        Self::empty(alloc)
    }
}

/// The elements in ascending order. Takes no memory.
impl<T: Ord, const N: usize, A: Allocator> From<VecSet<T, N, A>> for SmallVec<T, N, A> {
    ghost from_gives = { λ s list. list.items ≡ s };

    fn from(set: VecSet<T, N, A>) -> SmallVec<T, N, A> {
        set.into_inner()
    }
}
