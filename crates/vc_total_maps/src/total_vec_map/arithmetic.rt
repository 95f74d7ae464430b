//! Arithmetic of total maps: that of their values, at every key. It is done on clones of the
//! values.
ghost use Rattle.std.specs.Prelude.{IfOk};
ghost use Rattle.vc_merge.specs.Clones.{ClonesAreEqual};
ghost use Rattle.vc_total_maps.specs.CombinedTotals.{HoldsEverywhere, IsCombined, CanOnClones, GivesOnClones};

use super::TotalVecMap;
use super::combine::{CombineValues, combine_by};
use std::alloc::{AllocError, Allocator};
use std::default::MadeWith;
use std::ops::{Add, Div, Mul, Sub};

/// The sum of clones.
#[derive(Drop)]
struct Sum;

impl<V: Clone + Add<V, Output = V>> CombineValues<V, V> for Sum {
    ghost can = { λ _. CanOnClones V.is_clone V.can_add };

    ghost may = { λ _. GivesOnClones V.is_clone V.add_gives };

    fn combine(&self, left: &V, right: &V) -> Result<V, AllocError> {
        Ok(left.clone()? + right.clone()?)
    }
}

/// The difference of clones.
#[derive(Drop)]
struct Difference;

impl<V: Clone + Sub<V, Output = V>> CombineValues<V, V> for Difference {
    ghost can = { λ _. CanOnClones V.is_clone V.can_sub };

    ghost may = { λ _. GivesOnClones V.is_clone V.sub_gives };

    fn combine(&self, left: &V, right: &V) -> Result<V, AllocError> {
        Ok(left.clone()? - right.clone()?)
    }
}

/// The product of clones.
#[derive(Drop)]
struct Product;

impl<V: Clone + Mul<V, Output = V>> CombineValues<V, V> for Product {
    ghost can = { λ _. CanOnClones V.is_clone V.can_mul };

    ghost may = { λ _. GivesOnClones V.is_clone V.mul_gives };

    fn combine(&self, left: &V, right: &V) -> Result<V, AllocError> {
        Ok(left.clone()? * right.clone()?)
    }
}

/// The quotient of clones.
#[derive(Drop)]
struct Quotient;

impl<V: Clone + Div<V, Output = V>> CombineValues<V, V> for Quotient {
    ghost can = { λ _. CanOnClones V.is_clone V.can_div };

    ghost may = { λ _. GivesOnClones V.is_clone V.div_gives };

    fn combine(&self, left: &V, right: &V) -> Result<V, AllocError> {
        Ok(left.clone()? / right.clone()?)
    }
}

/// `a + b` is at every key the sum of the values.
///
/// The caller must ensure that the operation does not fail for the two defaults, nor for the values
/// at each key that one of the maps lists. A value that equals the new default is not listed. Takes
/// memory as [`combine_ref`](TotalVecMap::combine_ref) does; both maps are dropped.
impl<
    K: Ord + Clone + Drop,
    V: Eq + Clone + Drop + Add<V, Output = V>,
    const N: usize,
    A: Allocator + Copy,
> Add for TotalVecMap<K, V, N, A>
where
    (K, V): MadeWith<A>,
{
    type Output = Result<TotalVecMap<K, V, N, A>, AllocError>;

    ghost can_add = { λ a b. HoldsEverywhere K.cmp (CanOnClones V.is_clone V.can_add) a b
        × ClonesAreEqual K.cmp K.is_clone };

    ghost add_gives = { λ a b r.
        IfOk r (IsCombined K.cmp V.eq (GivesOnClones V.is_clone V.add_gives) K.is_clone a b) };

    fn add(self, that: Self) -> Result<TotalVecMap<K, V, N, A>, AllocError> {
        combine_by(&self, &that, &Sum)
    }
}

/// `a - b` is at every key the value of `a` less that of `b`.
///
/// The caller must ensure that the operation does not fail for the two defaults, nor for the values
/// at each key that one of the maps lists. A value that equals the new default is not listed. Takes
/// memory as [`combine_ref`](TotalVecMap::combine_ref) does; both maps are dropped.
impl<
    K: Ord + Clone + Drop,
    V: Eq + Clone + Drop + Sub<V, Output = V>,
    const N: usize,
    A: Allocator + Copy,
> Sub for TotalVecMap<K, V, N, A>
where
    (K, V): MadeWith<A>,
{
    type Output = Result<TotalVecMap<K, V, N, A>, AllocError>;

    ghost can_sub = { λ a b. HoldsEverywhere K.cmp (CanOnClones V.is_clone V.can_sub) a b
        × ClonesAreEqual K.cmp K.is_clone };

    ghost sub_gives = { λ a b r.
        IfOk r (IsCombined K.cmp V.eq (GivesOnClones V.is_clone V.sub_gives) K.is_clone a b) };

    fn sub(self, that: Self) -> Result<TotalVecMap<K, V, N, A>, AllocError> {
        combine_by(&self, &that, &Difference)
    }
}

/// `a * b` is at every key the product of the values.
///
/// The caller must ensure that the operation does not fail for the two defaults, nor for the values
/// at each key that one of the maps lists. A value that equals the new default is not listed. Takes
/// memory as [`combine_ref`](TotalVecMap::combine_ref) does; both maps are dropped.
impl<
    K: Ord + Clone + Drop,
    V: Eq + Clone + Drop + Mul<V, Output = V>,
    const N: usize,
    A: Allocator + Copy,
> Mul for TotalVecMap<K, V, N, A>
where
    (K, V): MadeWith<A>,
{
    type Output = Result<TotalVecMap<K, V, N, A>, AllocError>;

    ghost can_mul = { λ a b. HoldsEverywhere K.cmp (CanOnClones V.is_clone V.can_mul) a b
        × ClonesAreEqual K.cmp K.is_clone };

    ghost mul_gives = { λ a b r.
        IfOk r (IsCombined K.cmp V.eq (GivesOnClones V.is_clone V.mul_gives) K.is_clone a b) };

    fn mul(self, that: Self) -> Result<TotalVecMap<K, V, N, A>, AllocError> {
        combine_by(&self, &that, &Product)
    }
}

/// `a / b` is at every key the value of `a` divided by that of `b`.
///
/// The caller must ensure that the operation does not fail for the two defaults, nor for the values
/// at each key that one of the maps lists. A value that equals the new default is not listed. Takes
/// memory as [`combine_ref`](TotalVecMap::combine_ref) does; both maps are dropped.
impl<
    K: Ord + Clone + Drop,
    V: Eq + Clone + Drop + Div<V, Output = V>,
    const N: usize,
    A: Allocator + Copy,
> Div for TotalVecMap<K, V, N, A>
where
    (K, V): MadeWith<A>,
{
    type Output = Result<TotalVecMap<K, V, N, A>, AllocError>;

    ghost can_div = { λ a b. HoldsEverywhere K.cmp (CanOnClones V.is_clone V.can_div) a b
        × ClonesAreEqual K.cmp K.is_clone };

    ghost div_gives = { λ a b r.
        IfOk r (IsCombined K.cmp V.eq (GivesOnClones V.is_clone V.div_gives) K.is_clone a b) };

    fn div(self, that: Self) -> Result<TotalVecMap<K, V, N, A>, AllocError> {
        combine_by(&self, &that, &Quotient)
    }
}

/// `&a + &b` is what `a + b` is, under the same condition; both maps are unchanged.
impl<
    'a,
    'b,
    K: Ord + Clone + Drop,
    V: Eq + Clone + Drop + Add<V, Output = V>,
    const N: usize,
    A: Allocator + Copy,
> Add<&'b TotalVecMap<K, V, N, A>> for &'a TotalVecMap<K, V, N, A>
where
    (K, V): MadeWith<A>,
{
    type Output = Result<TotalVecMap<K, V, N, A>, AllocError>;

    ghost can_add = { λ a b. HoldsEverywhere K.cmp (CanOnClones V.is_clone V.can_add) a.now b.now
        × ClonesAreEqual K.cmp K.is_clone };

    ghost add_gives = { λ a b r. IfOk r
        (IsCombined K.cmp V.eq (GivesOnClones V.is_clone V.add_gives) K.is_clone a.now b.now) };

    fn add(self, that: &'b TotalVecMap<K, V, N, A>) -> Result<TotalVecMap<K, V, N, A>, AllocError> {
        combine_by(self, that, &Sum)
    }
}

/// `&a - &b` is what `a - b` is, under the same condition; both maps are unchanged.
impl<
    'a,
    'b,
    K: Ord + Clone + Drop,
    V: Eq + Clone + Drop + Sub<V, Output = V>,
    const N: usize,
    A: Allocator + Copy,
> Sub<&'b TotalVecMap<K, V, N, A>> for &'a TotalVecMap<K, V, N, A>
where
    (K, V): MadeWith<A>,
{
    type Output = Result<TotalVecMap<K, V, N, A>, AllocError>;

    ghost can_sub = { λ a b. HoldsEverywhere K.cmp (CanOnClones V.is_clone V.can_sub) a.now b.now
        × ClonesAreEqual K.cmp K.is_clone };

    ghost sub_gives = { λ a b r. IfOk r
        (IsCombined K.cmp V.eq (GivesOnClones V.is_clone V.sub_gives) K.is_clone a.now b.now) };

    fn sub(self, that: &'b TotalVecMap<K, V, N, A>) -> Result<TotalVecMap<K, V, N, A>, AllocError> {
        combine_by(self, that, &Difference)
    }
}

/// `&a * &b` is what `a * b` is, under the same condition; both maps are unchanged.
impl<
    'a,
    'b,
    K: Ord + Clone + Drop,
    V: Eq + Clone + Drop + Mul<V, Output = V>,
    const N: usize,
    A: Allocator + Copy,
> Mul<&'b TotalVecMap<K, V, N, A>> for &'a TotalVecMap<K, V, N, A>
where
    (K, V): MadeWith<A>,
{
    type Output = Result<TotalVecMap<K, V, N, A>, AllocError>;

    ghost can_mul = { λ a b. HoldsEverywhere K.cmp (CanOnClones V.is_clone V.can_mul) a.now b.now
        × ClonesAreEqual K.cmp K.is_clone };

    ghost mul_gives = { λ a b r. IfOk r
        (IsCombined K.cmp V.eq (GivesOnClones V.is_clone V.mul_gives) K.is_clone a.now b.now) };

    fn mul(self, that: &'b TotalVecMap<K, V, N, A>) -> Result<TotalVecMap<K, V, N, A>, AllocError> {
        combine_by(self, that, &Product)
    }
}

/// `&a / &b` is what `a / b` is, under the same condition; both maps are unchanged.
impl<
    'a,
    'b,
    K: Ord + Clone + Drop,
    V: Eq + Clone + Drop + Div<V, Output = V>,
    const N: usize,
    A: Allocator + Copy,
> Div<&'b TotalVecMap<K, V, N, A>> for &'a TotalVecMap<K, V, N, A>
where
    (K, V): MadeWith<A>,
{
    type Output = Result<TotalVecMap<K, V, N, A>, AllocError>;

    ghost can_div = { λ a b. HoldsEverywhere K.cmp (CanOnClones V.is_clone V.can_div) a.now b.now
        × ClonesAreEqual K.cmp K.is_clone };

    ghost div_gives = { λ a b r. IfOk r
        (IsCombined K.cmp V.eq (GivesOnClones V.is_clone V.div_gives) K.is_clone a.now b.now) };

    fn div(self, that: &'b TotalVecMap<K, V, N, A>) -> Result<TotalVecMap<K, V, N, A>, AllocError> {
        combine_by(self, that, &Quotient)
    }
}
