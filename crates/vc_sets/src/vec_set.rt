//! `VecSet`, a small set as an ascending list.
ghost use Rattle.std.specs.Prelude.{◌≡◌, ◌<◌, ◌≤◌, ◌-◌, ◌||◌, ◌↔◌, [], ◌==◌, List, not, cond, Some, filter, length, slice_get, IfOk, IsOk, OnErr, IsTrue};
ghost use Rattle.std.specs.BTreeMap.Range.{range_contains};
ghost use Rattle.std.specs.Option.{option_copied};
ghost use Rattle.std.specs.Ordering.{eq_by_cmp};
ghost use Rattle.vc_merge.specs.Ascending.{Ascends, member, element_at};
ghost use Rattle.std.specs.declared.cmp.Ordering.TheVariants.{Equal};
ghost use Rattle.vc_sets.specs.Borrowed.{member_by, element_by};
ghost use Rattle.vc_sets.specs.Iterating.{Shows};
ghost use Rattle.vc_sets.specs.Tests.{IsDisjoint, IsSubset};

mod algebra;
mod borrowed;
mod collecting;
mod comparisons;
pub mod conversions;
mod in_place;
mod iteration;
mod ordered;
mod removal;

use crate::borrowed::Borrowed;
pub use algebra::{SetOp, SetTest, difference, intersection, symmetric_difference, union};
use borrowed::find_by;
use iteration::elements_of;
use smallvec::SmallVec;
use std::alloc::{AllocError, Allocator, Global};
use std::default::MadeWith;
use std::marker::Model;
use std::ops::RangeBounds;
use std::slice;
use vc_merge::iterators::VecSetIter;
use vc_merge::moving::insert_at;
use vc_merge::search::{elements_between, find};

/// A set, as a list of its elements in ascending order. Up to `N` of them are held inline, without
/// an allocation. A list that once spilled to the heap keeps its block until `shrink_to_fit`.
///
/// Contracts see it as that list.
///
/// ```
/// let mut primes: VecSet<u32, 4> = VecSet::single(alloc, 5)?;
/// assert!(rt; primes.insert(2)?);
/// assert!(rt; primes.as_ref() == [2, 5].as_slice());
/// ```
#[derive(Drop)]
pub struct VecSet<T: Ord, const N: usize, A: Allocator = Global> {
    elements: SmallVec<T, N, A>,
}

/// A set with room for two elements inline.
pub type VecSet2<T> = VecSet<T, 2>;

impl<T: Ord, const N: usize, A: Allocator> Model for VecSet<T, N, A> {
    ghost use Rattle.std.specs.Prelude.{List};
    ghost use Rattle.vc_merge.specs.Ascending.{Ascends};

    ghost Value = { List T };

    ghost view = { λ s. s.elements.items };

    ghost invariant = { λ s. Ascends T.cmp s.elements.items };
}

impl<T: Ord, const N: usize, A: Allocator> VecSet<T, N, A> {
    /// The number of elements. Takes no memory.
    pub fn len(&self) -> usize
        ensures { result ≡ length self.now }
    {
        self.elements.len()
    }

    /// Whether there is no element. Takes no memory.
    pub fn is_empty(&self) -> bool
        ensures { IsTrue result ↔ (self.now ≡ []) }
    {
        self.elements.is_empty()
    }

    /// The elements in ascending order. Takes no memory.
    pub fn as_ref(&self) -> &[T]
        ensures elements { result.now ≡ self.now }
        ensures ascends { Ascends T.cmp self.now }
    {
        self.elements.as_slice()
    }
}

impl<T: Ord + MadeWith<A> + Drop, const N: usize, A: Allocator + Copy> VecSet<T, N, A> {
    /// The set with no element. Takes no memory.
    pub fn empty(alloc: A) -> Self
        ensures { result ≡ [] }
    {
        VecSet {
            elements: SmallVec::new(alloc),
        }
    }

    /// The set of a list that ascends strictly, as [`ascends`](vc_merge::iterators::ascends)
    /// checks. The elements are moved.
    ///
    /// Takes memory where there are more than `N`; where it is refused, the elements are dropped.
    #[inline(always)]
    pub fn from_vec(alloc: A, vec: Vec<T>) -> Result<Self, AllocError>
        requires { Ascends T.cmp vec.items }
        ensures elements { IfOk result (λ s. s ≡ vec.items) }
        ensures room { length vec.items ≤ N → IsOk result }
    {
        if vec.len() > N {
            let elements = SmallVec::from_vec(moved(alloc, vec)?);
            return Ok(VecSet { elements });
        }
        let mut elements = SmallVec::new(alloc);
        for element in vec {
            elements.push_reserved(element);
        }
        Ok(VecSet { elements })
    }

    /// Inserts an element, or replaces an equal one, and answers whether there was none.
    ///
    /// Compares as often as `contains`, and moves the elements after a new one. It takes memory
    /// only for a new element, where `N` or more are held. Where that is refused, the set is
    /// unchanged, and the element is dropped.
    pub fn insert(&mut self, that: T) -> Result<bool, AllocError>
        ensures answer { IfOk result (λ is_new. is_new ≡ not (member T.cmp self.old that)) }
        ensures members { IfOk result (λ _. (x : T)
            → member T.cmp self.new x ≡ (eq_by_cmp T.cmp that x || member T.cmp self.old x)) }
        ensures kept { IfOk result (λ _. (x : T)
            → element_at T.cmp self.new x
            ≡ cond (eq_by_cmp T.cmp that x) (Some that) (element_at T.cmp self.old x)) }

        // It succeeds where an equal element is held, and where fewer than `N` are held.
        ensures known { IsTrue (member T.cmp self.old that) → IsOk result }
        ensures room { length self.old < N → IsOk result }
        ensures err { OnErr result (self.new ≡ self.old) }
    {
        match find(self.elements.as_slice(), &that) {
            Ok(index) => {
                self.elements.as_mut_slice()[index] = that;
                Ok(false)
            }
            Err(index) => {
                insert_at(&mut self.elements, index, that)?;
                Ok(true)
            }
        }
    }
}

/// Moves the elements of a `Vec` into one of another allocator, with room for exactly these.
#[inline(never)]
fn moved<T: Drop, A: Allocator>(alloc: A, vec: Vec<T>) -> Result<Vec<T, A>, AllocError>
    ensures { IfOk result (λ list. list.items ≡ vec.items) }
{
    let mut list = Vec::with_capacity(alloc, vec.len())?;
    for element in vec {
        list.push_reserved(element);
    }
    Ok(list)
}

/// A set whose elements can be read as one ascending list.
///
/// An implementation writes only `as_slice`, and the elements that contracts see.
pub trait AbstractVecSet<T: Ord> {
    ghost elements: { Self → List T };

    /// The elements in ascending order. Takes no memory.
    fn as_slice(&self) -> &[T]
        ensures elements { result.now ≡ elements self.now }
        ensures ascends { Ascends T.cmp (elements self.now) };

    /// Whether there is no element. Takes no memory.
    fn is_empty(&self) -> bool
        ensures { IsTrue result ↔ (elements self.now ≡ []) }
    {
        self.as_slice().is_empty()
    }

    /// The least element, or none where there is no element. Makes no comparison, and takes no
    /// memory.
    fn first(&self) -> Option<&T>
        ensures { option_copied result ≡ slice_get (elements self.now) 0 }
    {
        self.as_slice().first()
    }

    /// The greatest element, or none where there is no element. Makes no comparison, and takes no
    /// memory.
    fn last(&self) -> Option<&T>
        ensures { option_copied result
            ≡ slice_get (elements self.now) (length (elements self.now) - 1) }
    {
        self.as_slice().last()
    }

    /// The elements in ascending order, by reference. Takes no memory.
    fn iter(&self) -> VecSetIter<slice::Iter<'_, T>>
        ensures { Shows T.cmp (elements self.now) result }
    {
        elements_of(self.as_slice())
    }

    /// Whether an element is equal to `value`. Compares fewer than `1.5 * log2(n) + 4` times among
    /// `n` elements, and takes no memory.
    fn contains(&self, value: &T) -> bool
        ensures { result ≡ member T.cmp (elements self.now) value.now }
    {
        find(self.as_slice(), value).is_ok()
    }

    /// Whether an element is equal to a borrowed form, such as a `&str` among `String`s. Compares
    /// as often as `contains`, and takes no memory.
    ///
    /// ```
    /// assert!(rt; names.contains_by("ada"));
    /// ```
    final fn contains_by<Q: Borrowed<T>>(&self, sought: Q) -> bool
        ensures answer { result ≡ member_by (Q.side sought) (elements self.now) }

        // It answers as `contains` does by any element that is equal to the form.
        ensures equal { (x : T) → Q.side sought x ≡ Equal
            → result ≡ member T.cmp (elements self.now) x }
    {
        find_by(self.as_slice(), sought).is_ok()
    }

    /// The element that is equal to a borrowed form, as the set holds it. With a reference to an
    /// element, it shows which of two equal ones is held.
    ///
    /// Compares as often as `contains`, and takes no memory.
    ///
    /// ```
    /// assert!(rt; names.get_by("ada").is_some());
    /// ```
    final fn get_by<Q: Borrowed<T>>(&self, sought: Q) -> Option<&T>
        ensures element { option_copied result ≡ element_by (Q.side sought) (elements self.now) }
        ensures equal { (x : T) → Q.side sought x ≡ Equal
            → option_copied result ≡ element_at T.cmp (elements self.now) x }
    {
        let elements = self.as_slice();
        match find_by(elements, sought) {
            Ok(place) => Some(&elements[place]),
            Err(_) => None,
        }
    }

    /// The elements that lie in a range of elements, in ascending order. A range that runs
    /// backwards has none.
    ///
    /// Compares as often as `contains` for each end that the range has, and takes no memory.
    ///
    /// ```
    /// assert!(rt; primes.range(3..11) == [3, 5, 7].as_slice());
    /// assert!(rt; primes.range(..=2) == [2].as_slice());
    /// ```
    final fn range<R: RangeBounds<T>>(&self, range: R) -> &[T]
        ensures { R.has_bounds range → result.now ≡ filter
            (range_contains T.cmp (R.start_bound range) (R.end_bound range)) (elements self.now) }
    {
        elements_between(self.as_slice(), range)
    }

    /// Whether no element is in both sets. It stops at the first that is, and takes no memory.
    final fn is_disjoint<S: AbstractVecSet<T>>(&self, that: &S) -> bool
        ensures { IsTrue result ↔ IsDisjoint T.cmp (elements self.now) (S.elements that.now) }
    {
        algebra::is_disjoint(self, that)
    }

    /// Whether each element of this set is in the other. It stops at the first that is not, and
    /// makes no comparison where this set has more elements. Takes no memory.
    final fn is_subset<S: AbstractVecSet<T>>(&self, that: &S) -> bool
        ensures { IsTrue result ↔ IsSubset T.cmp (elements self.now) (S.elements that.now) }
    {
        algebra::is_subset(self, that)
    }

    /// Whether each element of the other set is in this one. It stops at the first that is not, and
    /// makes no comparison where the other set has more elements. Takes no memory.
    final fn is_superset<S: AbstractVecSet<T>>(&self, that: &S) -> bool
        ensures { IsTrue result ↔ IsSubset T.cmp (S.elements that.now) (elements self.now) }
    {
        algebra::is_superset(self, that)
    }
}

impl<T: Ord, const N: usize, A: Allocator> AbstractVecSet<T> for VecSet<T, N, A> {
    ghost elements = { λ s. s };

    fn as_slice(&self) -> &[T] {
        self.as_ref()
    }
}
