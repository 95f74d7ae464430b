//! A total map with its value changed at every key.
ghost use Rattle.std.specs.Prelude.{◌≡◌, Ok, IfOk};
ghost use Rattle.std.specs.Fn.{FnReturnsAt};
ghost use Rattle.vc_merge.specs.Clones.{ClonesAreEqual};
ghost use Rattle.vc_total_maps.specs.MappedTotals.{HoldsOfEach, IsMapped, CanOnClone, GivesOnClone};

use super::TotalVecMap;
use super::combine::{Combination, CombineValues, combine_pairs};
use std::alloc::{AllocError, Allocator};
use std::default::MadeWith;
use std::ops::Neg;
use vc_maps::vec_map::conversions::map_of_list;

/// A closure on only the left value.
#[derive(Drop)]
struct OfLeft<'f, F>(&'f F);

impl<'f, V, X, F: Fn(&V) -> Result<X, AllocError>> CombineValues<V, X> for OfLeft<'f, F> {
    ghost can = { λ c x _. (p : _) → p.now ≡ x → F.pre c.0.now p };

    ghost may = { λ c x _ v. FnReturnsAt F.Fn c.0.now x (Ok v) };

    fn combine(&self, left: &V, _right: &V) -> Result<X, AllocError> {
        (self.0)(left)
    }
}

/// The negated left value, as a clone.
#[derive(Drop)]
struct Opposite;

impl<V: Clone + Neg<Output = V>> CombineValues<V, V> for Opposite {
    ghost can = { λ _ x _. CanOnClone V.is_clone V.can_neg x };

    ghost may = { λ _ x _. GivesOnClone V.is_clone V.neg_gives x };

    fn combine(&self, left: &V, _right: &V) -> Result<V, AllocError> {
        Ok(-left.clone()?)
    }
}

/// The result of `change` on the left value at every key, and on the default.
///
/// It is called for the new default first, and then once at each key that the map lists, in
/// ascending order.
fn change_by<
    K: Ord + Clone + Drop,
    V: Eq,
    X: Eq + Drop,
    C: CombineValues<V, X>,
    const N: usize,
    const M: usize,
    A: Allocator + Copy,
>(map: &TotalVecMap<K, V, N, A>, change: &C) -> Result<TotalVecMap<K, X, M, A>, AllocError>
where
    (K, X): MadeWith<A>,
    requires clones { ClonesAreEqual K.cmp K.is_clone }
    requires callable { HoldsOfEach K.cmp (λ x. C.can change.now x map.now.default) map.now }
    ensures { IfOk result
        (IsMapped K.cmp X.eq (λ x. C.may change.now x map.now.default) K.is_clone map.now) }
{
    let default = change.combine(map.default_value(), map.default_value())?;
    let maps = Combination::of_one(map, &default, change);
    let made = combine_pairs(map.mappings.allocator(), &maps)?;
    let mappings = map_of_list(made);
    Ok(TotalVecMap { mappings, default })
}

impl<K: Ord + Clone + Drop, V: Eq, const N: usize, A: Allocator + Copy> TotalVecMap<K, V, N, A> {
    /// The result of `f` on the value at every key, and on the default.
    ///
    /// `f` is called for the new default first, with the old one, and then once at each key that is
    /// listed, in ascending order. An answer that equals the new default is dropped. A key is
    /// listed as a clone. It is refused where memory, a clone of a key or an answer of `f` is.
    ///
    /// ```
    /// let is_called: TotalVecMap<u16, bool, 4> = counts.map_values(|count: &u32| Ok(*count > 0))?;
    /// ```
    pub fn map_values<W: Eq + Drop, const M: usize, F: Fn(&V) -> Result<W, AllocError> + Drop>(
        &self,
        f: F,
    ) -> Result<TotalVecMap<K, W, M, A>, AllocError>
    where
        (K, W): MadeWith<A>,
        requires clones { ClonesAreEqual K.cmp K.is_clone }
        requires callable { HoldsOfEach K.cmp (λ x. (p : _) → p.now ≡ x → F.pre f p) self.now }
        ensures { IfOk result
            (IsMapped K.cmp W.eq (λ x v. FnReturnsAt F.Fn f x (Ok v)) K.is_clone self.now) }
    {
        change_by(self, &OfLeft(&f))
    }
}

/// `-a` is at every key the negated value of `a`.
///
/// The caller must ensure that negation does not fail for the default, nor for the value at each
/// key that the map lists. A value that equals the new default is not listed. Takes memory as
/// [`map_values`](TotalVecMap::map_values) does; the map is dropped.
impl<
    K: Ord + Clone + Drop,
    V: Eq + Clone + Drop + Neg<Output = V>,
    const N: usize,
    A: Allocator + Copy,
> Neg for TotalVecMap<K, V, N, A>
where
    (K, V): MadeWith<A>,
{
    type Output = Result<TotalVecMap<K, V, N, A>, AllocError>;

    ghost can_neg = { λ a. HoldsOfEach K.cmp (CanOnClone V.is_clone V.can_neg) a
        × ClonesAreEqual K.cmp K.is_clone };

    ghost neg_gives = { λ a r.
        IfOk r (IsMapped K.cmp V.eq (GivesOnClone V.is_clone V.neg_gives) K.is_clone a) };

    fn neg(self) -> Result<TotalVecMap<K, V, N, A>, AllocError> {
        change_by(&self, &Opposite)
    }
}
