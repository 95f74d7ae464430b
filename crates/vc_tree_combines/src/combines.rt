//! The combines of two trees that build a new one: how each treats values, and trees that only one
//! side has.

ghost use Rattle.std.specs.Prelude.{◌≡◌, ◌+◌, ◌*◌, ◌<◌, ◌≤◌, List, Option, Some, None, Ok, IfOk, false};
ghost use Rattle.std.specs.Prelude.{length, option_map, refl};
ghost use Rattle.std.specs.Option.{option_copied};
ghost use Rattle.vc_tree_model.specs.Asking.{MayAnswer, CanAsk};
ghost use Rattle.vc_tree_model.specs.Canonical.{IsCanonical};
ghost use Rattle.vc_tree_model.specs.Combine.{IsCombined, IsInnerAt, IsOuterAt, IsUnionAt};
ghost use Rattle.vc_tree_model.specs.Combine.{IsIntersectionAt, IsDifferenceAt};
ghost use Rattle.vc_tree_model.specs.Map.{lookup};
ghost use Rattle.vc_tree_model.specs.Same.{IsAlike};
ghost use Rattle.vc_tree_model.specs.Shortened.{weight, IsShortened};
ghost use Rattle.vc_tree_model.specs.Tree.{shortened};
ghost use Rattle.vc_tree_model.specs.Value.{Copies};

use crate::engine::combine_whole;
use crate::operation::Combine;
use std::alloc::{AllocError, Global};
use std::marker::PhantomData;
use vc_merge::merge::Count;
use vc_merge::states::Uncounted;
use vc_tree_nodes::building::Build;
use vc_tree_nodes::copying::{clone_value, copy_onto, copy_shortened};
use vc_tree_nodes::reading::{RadixNode, TKey, TValue};

/// Keeps the shared keys, with the answers of a closure.
#[derive(Drop)]
struct Inner<'f, F, M> {
    answer: &'f F,
    made: PhantomData<M>,
}

impl<
    'f,
    K: TKey,
    V: TValue,
    W: TValue,
    A: RadixNode<K, V>,
    B: RadixNode<K, W>,
    M: Build<K, V>,
    F: Fn(&V, &W) -> Result<Option<V>, AllocError>,
> Combine<K, V, W, A, B> for Inner<'f, F, M> {
    type Made = M;

    ghost says = { λ op. IsInnerAt (λ v w z. MayAnswer F.Fn op.answer.now v w (Ok z)) };

    ghost asks = { λ op. CanAsk F.Fn op.answer.now };

    ghost says_none = { λ op. refl };

    ghost asks_none = { λ op. tt };

    #[inline(always)]
    fn keeps_left(&self) -> bool {
        false
    }

    #[inline(always)]
    fn keeps_right(&self) -> bool {
        false
    }

    fn at_values(&self, v: Option<&V>, w: Option<&W>) -> Result<Option<V>, AllocError> {
        match v {
            Some(v) => match w {
                Some(w) => (self.answer)(v, w),
                None => Ok(None),
            },
            None => Ok(None),
        }
    }

    fn add_left(
        &self,
        alloc: Global,
        tree: &A,
        from: usize,
        made: &mut Vec<M>,
    ) -> Result<(), AllocError> {
        Ok(())
    }

    fn add_right(
        &self,
        alloc: Global,
        tree: &B,
        from: usize,
        made: &mut Vec<M>,
    ) -> Result<(), AllocError> {
        Ok(())
    }
}

/// Keeps the keys of only one side, and the shared ones with the answers of a closure.
#[derive(Drop)]
struct Outer<'f, F, M> {
    answer: &'f F,
    made: PhantomData<M>,
}

impl<
    'f,
    K: TKey,
    V: TValue,
    A: RadixNode<K, V>,
    B: RadixNode<K, V>,
    M: Build<K, V>,
    F: Fn(&V, &V) -> Result<Option<V>, AllocError>,
> Combine<K, V, V, A, B> for Outer<'f, F, M> {
    type Made = M;

    ghost says = { λ op.
        IsOuterAt V.is_clone V.is_clone (λ v w z. MayAnswer F.Fn op.answer.now v w (Ok z)) };

    ghost asks = { λ op. CanAsk F.Fn op.answer.now };

    ghost says_none = { λ op. tt };

    ghost asks_none = { λ op. tt };

    #[inline(always)]
    fn keeps_left(&self) -> bool {
        true
    }

    #[inline(always)]
    fn keeps_right(&self) -> bool {
        true
    }

    fn at_values(&self, v: Option<&V>, w: Option<&V>) -> Result<Option<V>, AllocError> {
        match v {
            Some(v) => match w {
                Some(w) => (self.answer)(v, w),
                None => clone_value(Some(v)),
            },
            None => clone_value(w),
        }
    }

    fn add_left(
        &self,
        alloc: Global,
        tree: &A,
        from: usize,
        made: &mut Vec<M>,
    ) -> Result<(), AllocError> {
        copy_onto(alloc, tree, from, made)
    }

    fn add_right(
        &self,
        alloc: Global,
        tree: &B,
        from: usize,
        made: &mut Vec<M>,
    ) -> Result<(), AllocError> {
        copy_onto(alloc, tree, from, made)
    }
}

/// Keeps all keys, the shared ones with the left value.
#[derive(Drop)]
struct CopyAll<M> {
    made: PhantomData<M>,
}

impl<K: TKey, V: TValue, A: RadixNode<K, V>, B: RadixNode<K, V>, M: Build<K, V>> Combine<
    K,
    V,
    V,
    A,
    B,
> for CopyAll<M> {
    type Made = M;

    ghost says = { λ _. IsUnionAt (Copies V.is_clone) V.is_clone };

    ghost asks = { λ _ _ _. Unit {0} };

    ghost says_none = { λ _. tt };

    ghost asks_none = { λ _. tt };

    #[inline(always)]
    fn keeps_left(&self) -> bool {
        true
    }

    #[inline(always)]
    fn keeps_right(&self) -> bool {
        true
    }

    fn at_values(&self, v: Option<&V>, w: Option<&V>) -> Result<Option<V>, AllocError> {
        match v {
            Some(v) => clone_value(Some(v)),
            None => clone_value(w),
        }
    }

    fn add_left(
        &self,
        alloc: Global,
        tree: &A,
        from: usize,
        made: &mut Vec<M>,
    ) -> Result<(), AllocError> {
        copy_onto(alloc, tree, from, made)
    }

    fn add_right(
        &self,
        alloc: Global,
        tree: &B,
        from: usize,
        made: &mut Vec<M>,
    ) -> Result<(), AllocError> {
        copy_onto(alloc, tree, from, made)
    }
}

/// Keeps the shared keys, with the left value.
#[derive(Drop)]
struct CopyShared<M> {
    made: PhantomData<M>,
}

impl<K: TKey, V: TValue, W: TValue, A: RadixNode<K, V>, B: RadixNode<K, W>, M: Build<K, V>> Combine<
    K,
    V,
    W,
    A,
    B,
> for CopyShared<M> {
    type Made = M;

    ghost says = { λ _. IsIntersectionAt (Copies V.is_clone) };

    ghost asks = { λ _ _ _. Unit {0} };

    ghost says_none = { λ _. refl };

    ghost asks_none = { λ _. tt };

    #[inline(always)]
    fn keeps_left(&self) -> bool {
        false
    }

    #[inline(always)]
    fn keeps_right(&self) -> bool {
        false
    }

    fn at_values(&self, v: Option<&V>, w: Option<&W>) -> Result<Option<V>, AllocError> {
        match w {
            Some(_) => clone_value(v),
            None => Ok(None),
        }
    }

    fn add_left(
        &self,
        alloc: Global,
        tree: &A,
        from: usize,
        made: &mut Vec<M>,
    ) -> Result<(), AllocError> {
        Ok(())
    }

    fn add_right(
        &self,
        alloc: Global,
        tree: &B,
        from: usize,
        made: &mut Vec<M>,
    ) -> Result<(), AllocError> {
        Ok(())
    }
}

/// Keeps the keys that only the left tree has.
#[derive(Drop)]
struct CopyLeft<M> {
    made: PhantomData<M>,
}

impl<K: TKey, V: TValue, W: TValue, A: RadixNode<K, V>, B: RadixNode<K, W>, M: Build<K, V>> Combine<
    K,
    V,
    W,
    A,
    B,
> for CopyLeft<M> {
    type Made = M;

    ghost says = { λ _. IsDifferenceAt (Copies V.is_clone) };

    ghost asks = { λ _ _ _. Unit {0} };

    ghost says_none = { λ _. tt };

    ghost asks_none = { λ _. tt };

    #[inline(always)]
    fn keeps_left(&self) -> bool {
        true
    }

    #[inline(always)]
    fn keeps_right(&self) -> bool {
        false
    }

    fn at_values(&self, v: Option<&V>, w: Option<&W>) -> Result<Option<V>, AllocError> {
        match w {
            Some(_) => Ok(None),
            None => clone_value(v),
        }
    }

    fn add_left(
        &self,
        alloc: Global,
        tree: &A,
        from: usize,
        made: &mut Vec<M>,
    ) -> Result<(), AllocError> {
        copy_onto(alloc, tree, from, made)
    }

    fn add_right(
        &self,
        alloc: Global,
        tree: &B,
        from: usize,
        made: &mut Vec<M>,
    ) -> Result<(), AllocError> {
        Ok(())
    }
}

/// The tree of the keys that both trees bind, with the answers of the closure.
pub fn inner_combine<
    K: TKey,
    V: TValue,
    W: TValue,
    A: RadixNode<K, V>,
    B: RadixNode<K, W>,
    M: Build<K, V>,
    F: Fn(&V, &W) -> Result<Option<V>, AllocError>,
>(this: &A, that: &B, f: &F) -> Result<M, AllocError>
    requires asks { (k : List K)
        → CanAsk F.Fn f.now (lookup K.cmp (A.tree this.now) k) (lookup K.cmp (B.tree that.now) k) }
    ensures made { IfOk result (λ made.
        IsCombined K.cmp (IsInnerAt (λ v w z. MayAnswer F.Fn f.now v w (Ok z)))
        (A.tree this.now) (B.tree that.now) (M.tree made)) }
    ensures canonical { IfOk result (λ made. IsCanonical K.cmp (M.tree made)) }
{
    let op: Inner<'_, F, M> = Inner {
        answer: f,
        made: PhantomData,
    };
    combine_whole(this, that, &op, &mut Uncounted)
}

/// The tree of the keys of either tree, the shared ones with the answers of the closure.
pub fn outer_combine<
    K: TKey,
    V: TValue,
    A: RadixNode<K, V>,
    B: RadixNode<K, V>,
    M: Build<K, V>,
    F: Fn(&V, &V) -> Result<Option<V>, AllocError>,
    C: Count,
>(this: &A, that: &B, f: &F, steps: &mut C) -> Result<M, AllocError>
    requires asks { (k : List K)
        → CanAsk F.Fn f.now (lookup K.cmp (A.tree this.now) k) (lookup K.cmp (B.tree that.now) k) }
    ensures made { IfOk result (λ made. IsCombined K.cmp
        (IsOuterAt V.is_clone V.is_clone (λ v w z. MayAnswer F.Fn f.now v w (Ok z)))
        (A.tree this.now) (B.tree that.now) (M.tree made)) }
    ensures canonical { IfOk result (λ made. IsCanonical K.cmp (M.tree made)) }
    ensures counted { C.counted steps.new
        ≤ C.counted steps.old + 3 * (weight (A.tree this.now) + weight (B.tree that.now)) }
{
    let op: Outer<'_, F, M> = Outer {
        answer: f,
        made: PhantomData,
    };
    combine_whole(this, that, &op, steps)
}

/// The tree of the keys of either tree, the shared ones with the left value.
pub fn union<K: TKey, V: TValue, A: Build<K, V>, B: RadixNode<K, V>>(
    this: &A,
    that: &B,
) -> Result<A, AllocError>
    ensures made { IfOk result (λ made. IsCombined K.cmp (IsUnionAt (Copies V.is_clone) V.is_clone)
        (A.tree this.now) (B.tree that.now) (A.tree made)) }
    ensures canonical { IfOk result (λ made. IsCanonical K.cmp (A.tree made)) }
{
    let op: CopyAll<A> = CopyAll { made: PhantomData };
    combine_whole(this, that, &op, &mut Uncounted)
}

/// The tree of the keys that both trees bind, with the left values.
pub fn intersection<K: TKey, V: TValue, W: TValue, A: Build<K, V>, B: RadixNode<K, W>>(
    this: &A,
    that: &B,
) -> Result<A, AllocError>
    ensures made { IfOk result (λ made. IsCombined K.cmp (IsIntersectionAt (Copies V.is_clone))
        (A.tree this.now) (B.tree that.now) (A.tree made)) }
    ensures canonical { IfOk result (λ made. IsCanonical K.cmp (A.tree made)) }
{
    let op: CopyShared<A> = CopyShared { made: PhantomData };
    combine_whole(this, that, &op, &mut Uncounted)
}

/// The tree of the keys that only the left tree binds.
pub fn difference<K: TKey, V: TValue, W: TValue, A: Build<K, V>, B: RadixNode<K, W>>(
    this: &A,
    that: &B,
) -> Result<A, AllocError>
    ensures made { IfOk result (λ made. IsCombined K.cmp (IsDifferenceAt (Copies V.is_clone))
        (A.tree this.now) (B.tree that.now) (A.tree made)) }
    ensures canonical { IfOk result (λ made. IsCanonical K.cmp (A.tree made)) }
{
    let op: CopyLeft<A> = CopyLeft { made: PhantomData };
    combine_whole(this, that, &op, &mut Uncounted)
}

/// The tree without the first `n` components of every key.
pub fn materialize_shortened<K: TKey, V: TValue, A: RadixNode<K, V>, M: Build<K, V>>(
    tree: &A,
    n: usize,
) -> Result<M, AllocError>
    requires { n < length (A.tree tree.now).prefix }
    ensures alike { IfOk result
        (λ made. IsAlike V.is_clone (shortened n (A.tree tree.now)) (M.tree made)) }
    ensures map { IfOk result
        (λ made. IsShortened K.cmp V.is_clone n (A.tree tree.now) (M.tree made)) }
    ensures canonical { IfOk result (λ made. IsCanonical K.cmp (M.tree made)) }
{
    copy_shortened(tree.allocator(), tree, n)
}
