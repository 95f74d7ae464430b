//! Two total maps combined at every key.
ghost use Rattle.std.specs.Prelude.{◌≡◌, [], Ok, IfOk, ⊤};
ghost use Rattle.std.specs.Fn.{FnReturnsAtPair};
ghost use Rattle.std.specs.Ordering.{max_by_ordering, min_by_ordering};
ghost use Rattle.vc_joins.specs.Entries.{AscendsByKey};
ghost use Rattle.vc_joins.specs.Join.{IsAsked};
ghost use Rattle.vc_joins.specs.Question.{left_spelling};
ghost use Rattle.vc_merge.specs.Clones.{ClonesAreEqual};
ghost use Rattle.vc_total_maps.specs.Asking.{left_value, right_value, MayPlace};
ghost use Rattle.vc_total_maps.specs.CombinedTotals.{HoldsEverywhere, IsCombined};
ghost use Rattle.vc_total_maps.specs.MappedTotals.{HoldsOfEach};
ghost use Rattle.vc_total_maps.specs.TotalMap.{total_map};

use super::TotalVecMap;
use smallvec::SmallVec;
use std::alloc::{AllocError, Allocator};
use std::cmp;
use std::default::MadeWith;
use vc_joins::answers::Question;
use vc_joins::question::{JoinKind, OuterJoinArg};
use vc_maps::vec_map::conversions::map_of_list;
use vc_maps::vec_map::join_asking;

/// How the values of two maps at one key are combined.
pub(super) trait CombineValues<V, X> {
    /// Whether it may be called with these values.
    ghost can: { Self → V → V → Type 0 };

    /// Whether it may give this answer.
    ghost may: { Self → V → V → X → Type 0 };

    /// The combined value.
    fn combine(&self, left: &V, right: &V) -> Result<X, AllocError>
        requires { can self.now left.now right.now }
        ensures { IfOk result (may self.now left.now right.now) };
}

/// Two maps that are combined, as pairs and defaults, and what their join asks at a key. A map that
/// lacks the key has its default there. An answer that equals the default of the result is left
/// out.
#[derive(Drop)]
pub(super) struct Combination<'q, K, V, X, C> {
    left: &'q [(K, V)],
    left_default: &'q V,
    right: &'q [(K, V)],
    right_default: &'q V,
    new_default: &'q X,
    combine: &'q C,
}

impl<'q, K: Ord, V: Eq, X, C: CombineValues<V, X>> Combination<'q, K, V, X, C> {
    /// Two maps, and the default of the result. It can answer all that the outer join of their
    /// pairs asks.
    fn of_two<const N: usize, A: Allocator>(
        this: &'q TotalVecMap<K, V, N, A>,
        that: &'q TotalVecMap<K, V, N, A>,
        new_default: &'q X,
        combine: &'q C,
    ) -> Self
        requires callable { HoldsEverywhere K.cmp (C.can combine.now) this.now that.now }
        requires default { C.may combine.now this.now.default that.now.default new_default.now }
        ensures left { total_map result.left.now result.left_default.now ≡ this.now }
        ensures right { total_map result.right.now result.right_default.now ≡ that.now }
        ensures same { (result.new_default.now ≡ new_default.now)
            × (result.combine.now ≡ combine.now) }
        ensures left_ascends { AscendsByKey K.cmp result.left.now }
        ensures right_ascends { AscendsByKey K.cmp result.right.now }
        ensures takes { (a : _) → IsAsked K.cmp JoinKind.Outer left_spelling result.left.now
            result.right.now a → C.can result.combine.now (left_value result.left_default.now a)
            (right_value result.right_default.now a) }
        ensures default { C.may result.combine.now result.left_default.now result.right_default.now
            result.new_default.now }
    {
        Combination {
            left: this.non_default_mappings().as_ref(),
            left_default: this.default_value(),
            right: that.non_default_mappings().as_ref(),
            right_default: that.default_value(),
            new_default,
            combine,
        }
    }

    /// A map, with one that lists nothing and has the same default, and the default of the result.
    pub(super) fn of_one<const N: usize, A: Allocator>(
        map: &'q TotalVecMap<K, V, N, A>,
        new_default: &'q X,
        combine: &'q C,
    ) -> Self
        requires callable { HoldsOfEach K.cmp (λ x. C.can combine.now x map.now.default) map.now }
        requires default { C.may combine.now map.now.default map.now.default new_default.now }
        ensures left { total_map result.left.now result.left_default.now ≡ map.now }
        ensures right { total_map result.right.now result.right_default.now
            ≡ total_map [] map.now.default }
        ensures same { (result.new_default.now ≡ new_default.now)
            × (result.combine.now ≡ combine.now) }
        ensures left_ascends { AscendsByKey K.cmp result.left.now }
        ensures right_ascends { AscendsByKey K.cmp result.right.now }
        ensures takes { (a : _) → IsAsked K.cmp JoinKind.Outer left_spelling result.left.now
            result.right.now a → C.can result.combine.now (left_value result.left_default.now a)
            (right_value result.right_default.now a) }
        ensures default { C.may result.combine.now result.left_default.now result.right_default.now
            result.new_default.now }
    {
        let pairs = map.non_default_mappings().as_ref();
        Combination {
            left: pairs,
            left_default: map.default_value(),
            right: &pairs[..0],
            right_default: map.default_value(),
            new_default,
            combine,
        }
    }
}

impl<'q, K, V, X: Eq + Drop, C: CombineValues<V, X>> Question<K, V, V, X>
    for Combination<'q, K, V, X, C> {
    ghost takes = { λ q a.
        C.can q.combine.now (left_value q.left_default.now a) (right_value q.right_default.now a) };

    ghost may = { λ q a r. MayPlace X.eq (C.may q.combine.now (left_value q.left_default.now a)
        (right_value q.right_default.now a)) q.new_default.now r };

    fn ask(&self, arg: OuterJoinArg<&K, &V, &V>) -> Result<Option<X>, AllocError> {
        let value = match arg {
            OuterJoinArg::Left(_, left) => self.combine.combine(left, self.right_default)?,
            OuterJoinArg::Right(_, right) => self.combine.combine(self.left_default, right)?,
            OuterJoinArg::Both(_, left, right) => self.combine.combine(left, right)?,
        };
        if value == *self.new_default {
            Ok(None)
        } else {
            Ok(Some(value))
        }
    }
}

/// The pairs of the combination of the two maps.
pub(super) fn combine_pairs<
    K: Ord + Clone + Drop,
    V,
    X: Eq + Drop,
    C: CombineValues<V, X>,
    const N: usize,
    A: Allocator + Copy,
>(alloc: A, maps: &Combination<'_, K, V, X, C>) -> Result<SmallVec<(K, X), N, A>, AllocError>
where
    (K, X): MadeWith<A>,
    requires left_ascends { AscendsByKey K.cmp maps.now.left.now }
    requires right_ascends { AscendsByKey K.cmp maps.now.right.now }
    requires clones { ClonesAreEqual K.cmp K.is_clone }
    requires takes { (a : _) → IsAsked K.cmp JoinKind.Outer left_spelling maps.now.left.now
        maps.now.right.now a → C.can maps.now.combine.now (left_value maps.now.left_default.now a)
        (right_value maps.now.right_default.now a) }
    requires default { C.may maps.now.combine.now maps.now.left_default.now
        maps.now.right_default.now maps.now.new_default.now }
    ensures ascends { IfOk result (λ pairs. AscendsByKey K.cmp pairs.items) }
    ensures combined { IfOk result (λ pairs.
        IsCombined K.cmp X.eq (C.may maps.now.combine.now) K.is_clone
        (total_map maps.now.left.now maps.now.left_default.now)
        (total_map maps.now.right.now maps.now.right_default.now)
        (total_map pairs.items maps.now.new_default.now)) }
{
    join_asking(alloc, maps.left, maps.right, maps)
}

/// The result of `combine` on two total maps.
///
/// It is called for the new default first, on the two defaults, and then once at each key that one
/// of the maps lists, in ascending order.
pub(super) fn combine_by<
    K: Ord + Clone + Drop,
    V: Eq + Drop,
    C: CombineValues<V, V>,
    const N: usize,
    A: Allocator + Copy,
>(
    this: &TotalVecMap<K, V, N, A>,
    that: &TotalVecMap<K, V, N, A>,
    combine: &C,
) -> Result<TotalVecMap<K, V, N, A>, AllocError>
where
    (K, V): MadeWith<A>,
    requires clones { ClonesAreEqual K.cmp K.is_clone }
    requires callable { HoldsEverywhere K.cmp (C.can combine.now) this.now that.now }
    ensures { IfOk result (IsCombined K.cmp V.eq (C.may combine.now) K.is_clone this.now that.now) }
{
    let default = combine.combine(this.default_value(), that.default_value())?;
    let maps = Combination::of_two(this, that, &default, combine);
    let made = combine_pairs(this.mappings.allocator(), &maps)?;
    let mappings = map_of_list(made);
    Ok(TotalVecMap { mappings, default })
}

/// A closure on the two values.
#[derive(Drop)]
struct ByClosure<'f, F>(&'f F);

impl<'f, V, F: Fn(&V, &V) -> Result<V, AllocError>> CombineValues<V, V> for ByClosure<'f, F> {
    ghost can = { λ c x y. (p : _) (q : _) → p.now ≡ x → q.now ≡ y → F.pre c.0.now p q };

    ghost may = { λ c x y v. FnReturnsAtPair F.Fn c.0.now x y (Ok v) };

    fn combine(&self, left: &V, right: &V) -> Result<V, AllocError> {
        (self.0)(left, right)
    }
}

/// A clone of the greater value, and of the right one of two equal ones.
#[derive(Drop)]
struct Greater;

impl<V: Ord + Clone> CombineValues<V, V> for Greater {
    ghost can = { λ _ x y. ⊤ };

    ghost may = { λ _ x y. V.is_clone (max_by_ordering (V.cmp x y) x y) };

    fn combine(&self, left: &V, right: &V) -> Result<V, AllocError> {
        cmp::max(left, right).clone()
    }
}

/// A clone of the lesser value, and of the left one of two equal ones.
#[derive(Drop)]
struct Lesser;

impl<V: Ord + Clone> CombineValues<V, V> for Lesser {
    ghost can = { λ _ x y. ⊤ };

    ghost may = { λ _ x y. V.is_clone (min_by_ordering (V.cmp x y) x y) };

    fn combine(&self, left: &V, right: &V) -> Result<V, AllocError> {
        cmp::min(left, right).clone()
    }
}

impl<K: Ord + Clone + Drop, V: Eq + Drop, const N: usize, A: Allocator + Copy> TotalVecMap<
    K,
    V,
    N,
    A,
>
where
    (K, V): MadeWith<A>,
{
    /// The result of `f` on the values of both maps at every key, and on the defaults.
    ///
    /// `f` is called for the new default first, with the two defaults, and then once at each key
    /// that one of the maps lists, in ascending order. An answer that equals the new default is
    /// dropped. A key is listed as a clone of the one of this map, where it lists the key, and
    /// otherwise of the other's. It is refused where memory, a clone of a key or an answer of `f`
    /// is.
    ///
    /// ```
    /// let sums = a.combine_ref(&b, |x: &u32, y: &u32| Ok(x.saturating_add(*y)))?;
    /// ```
    pub fn combine_ref<F: Fn(&V, &V) -> Result<V, AllocError> + Drop>(
        &self,
        that: &Self,
        f: F,
    ) -> Result<Self, AllocError>
        requires clones { ClonesAreEqual K.cmp K.is_clone }
        requires callable { HoldsEverywhere K.cmp
            (λ x y. (p : _) (q : _) → p.now ≡ x → q.now ≡ y → F.pre f p q) self.now that.now }
        ensures { IfOk result (IsCombined K.cmp V.eq (λ x y v. FnReturnsAtPair F.Fn f x y (Ok v))
            K.is_clone self.now that.now) }
    {
        combine_by(self, that, &ByClosure(&f))
    }
}

impl<K: Ord + Clone + Drop, V: Ord + Clone + Drop, const N: usize, A: Allocator + Copy> TotalVecMap<
    K,
    V,
    N,
    A,
>
where
    (K, V): MadeWith<A>,
{
    /// The greater of the two values at every key, and of the defaults, as a clone: that of `that`
    /// where the two are equal.
    ///
    /// Keys are listed as by [`combine_ref`](TotalVecMap::combine_ref), and no closure is called.
    /// It is refused where memory, or a clone of a key or of a value, is.
    pub fn supremum(&self, that: &Self) -> Result<Self, AllocError>
        requires clones { ClonesAreEqual K.cmp K.is_clone }
        ensures { IfOk result (IsCombined K.cmp V.eq
            (λ x y. V.is_clone (max_by_ordering (V.cmp x y) x y)) K.is_clone self.now that.now) }
    {
        combine_by(self, that, &Greater)
    }

    /// The lesser of the two values at every key, and of the defaults, as a clone: that of this map
    /// where the two are equal.
    ///
    /// Keys are listed as by [`combine_ref`](TotalVecMap::combine_ref), and no closure is called.
    /// It is refused where memory, or a clone of a key or of a value, is.
    pub fn infimum(&self, that: &Self) -> Result<Self, AllocError>
        requires clones { ClonesAreEqual K.cmp K.is_clone }
        ensures { IfOk result (IsCombined K.cmp V.eq
            (λ x y. V.is_clone (min_by_ordering (V.cmp x y) x y)) K.is_clone self.now that.now) }
    {
        combine_by(self, that, &Lesser)
    }
}
