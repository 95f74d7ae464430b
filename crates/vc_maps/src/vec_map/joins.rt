//! Joins of two maps that build a new one.
ghost use Rattle.std.specs.Prelude.{◌+◌, ◌≤◌, Ok, length, IfOk};
ghost use Rattle.vc_joins.specs.Answers.{seen, seen_left, seen_right, seen_inner, MayAnswer, MayAnswerLeft, MayAnswerRight, MayAnswerInner};
ghost use Rattle.vc_joins.specs.Join.{ClonedKey, IsAsked, IsJoin, IsJoinBy};
ghost use Rattle.vc_joins.specs.Question.{left_spelling};
ghost use Rattle.vc_joins.specs.Values.{in_both, in_either, in_kind, in_left, in_right, AnswersBy, AnswersInnerBy, AnswersLeftBy, AnswersRightBy, JoinsValues};
ghost use Rattle.vc_merge.specs.Count.{bound};
ghost use Rattle.vc_merge.specs.Clones.{ClonesAreEqual};

use super::{AbstractVecMap, VecMap};
use crate::fresh::join;
use std::alloc::{AllocError, Allocator};
use std::default::MadeWith;
use vc_joins::answers::{AskInner, AskLeft, AskOuter, AskRight};
use vc_joins::question::{JoinKind, OuterJoinArg};
use vc_merge::merge::{Steps, Uncounted};

/// Calls `f` at each key of either map, and binds the key to the answer, if there is one.
///
/// Calls `f` once for each key, in ascending order. Of a key of both maps, `f` sees the left one.
/// The result holds clones of the keys that `f` saw. It is refused where memory, a clone or an
/// answer of `f` is.
///
/// Where a map has more than `N` pairs, it makes room for as many as both have, at the start.
/// Otherwise it begins inline, and grows where the result has more than `N`.
///
/// ```
/// let sums: VecMap<u32, u32, 4> =
///     outer_join(alloc, &a, &b, |at: OuterJoinArg<&u32, &u32, &u32>| match at {
///         OuterJoinArg::Left(_, v) | OuterJoinArg::Right(_, v) => Ok(Some(*v)),
///         OuterJoinArg::Both(_, v, w) => Ok(v.checked_add(*w)),
///     })?;
/// ```
pub fn outer_join<
    K: Ord + Clone + Drop,
    V,
    W,
    X: Drop,
    L: AbstractVecMap<K, V>,
    M: AbstractVecMap<K, W>,
    F: Fn(OuterJoinArg<&K, &V, &W>) -> Result<Option<X>, AllocError> + Drop,
    const N: usize,
    A: Allocator + Copy,
>(alloc: A, this: &L, that: &M, f: F) -> Result<VecMap<K, X, N, A>, AllocError>
where
    (K, X): MadeWith<A>,
    requires clones { ClonesAreEqual K.cmp K.is_clone }
    requires callable { (a : _) → IsAsked K.cmp JoinKind.Outer left_spelling (L.pairs this.now)
        (M.pairs that.now) (seen a) → F.pre f a }
    ensures joins { IfOk result (λ c. IsJoin K.cmp JoinKind.Outer left_spelling (L.pairs this.now)
        (M.pairs that.now) (λ a r. MayAnswer F.Fn f a (Ok r)) (ClonedKey K.is_clone) c) }
    ensures function { IfOk result (λ c. (h : _)
        → IsJoinBy K.cmp JoinKind.Outer left_spelling (L.pairs this.now) (M.pairs that.now)
        (λ a r. MayAnswer F.Fn f a (Ok r)) h c) }
    ensures values { IfOk result (λ c. (h : _) → AnswersBy F.Fn f h
        → JoinsValues K.cmp (in_either h) (L.pairs this.now) (M.pairs that.now) c) }
{
    let (left, right) = (this.as_slice(), that.as_slice());
    let ask = AskOuter(&f);
    let pairs = join(alloc, left, right, JoinKind::Outer, &ask, &mut Uncounted)?;
    Ok(VecMap { pairs })
}

/// Calls `f` at each key of the left map, and binds the key to the answer, if there is one. `f`
/// sees the value of the right map, where that has the key.
///
/// Calls `f` once for each key, in ascending order. Of a key of both maps, `f` sees the left one.
/// The result holds clones of the keys that `f` saw. It is refused where memory, a clone or an
/// answer of `f` is.
///
/// It makes room for as many pairs as the left map has, at the start.
pub fn left_join<
    K: Ord + Clone + Drop,
    V,
    W,
    X: Drop,
    L: AbstractVecMap<K, V>,
    M: AbstractVecMap<K, W>,
    F: Fn(&K, &V, Option<&W>) -> Result<Option<X>, AllocError> + Drop,
    const N: usize,
    A: Allocator + Copy,
>(alloc: A, this: &L, that: &M, f: F) -> Result<VecMap<K, X, N, A>, AllocError>
where
    (K, X): MadeWith<A>,
    requires clones { ClonesAreEqual K.cmp K.is_clone }
    requires callable { (k : _) (v : _) (w : _)
        → IsAsked K.cmp JoinKind.Left left_spelling (L.pairs this.now) (M.pairs that.now)
        (seen_left k v w) → F.pre f k v w }
    ensures joins { IfOk result (λ c. IsJoin K.cmp JoinKind.Left left_spelling (L.pairs this.now)
        (M.pairs that.now) (λ a r. MayAnswerLeft F.Fn f a (Ok r)) (ClonedKey K.is_clone) c) }
    ensures function { IfOk result (λ c. (h : _)
        → IsJoinBy K.cmp JoinKind.Left left_spelling (L.pairs this.now) (M.pairs that.now)
        (λ a r. MayAnswerLeft F.Fn f a (Ok r)) h c) }
    ensures values { IfOk result (λ c. (h : _) → AnswersLeftBy F.Fn f h
        → JoinsValues K.cmp (in_left h) (L.pairs this.now) (M.pairs that.now) c) }
{
    let (left, right) = (this.as_slice(), that.as_slice());
    let ask = AskLeft(&f);
    let pairs = join(alloc, left, right, JoinKind::Left, &ask, &mut Uncounted)?;
    Ok(VecMap { pairs })
}

/// Calls `f` at each key of the right map, and binds the key to the answer, if there is one. `f`
/// sees the value of the left map, where that has the key.
///
/// Calls `f` once for each key, in ascending order. Of a key of both maps, `f` sees the left one.
/// The result holds clones of the keys that `f` saw. It is refused where memory, a clone or an
/// answer of `f` is.
///
/// It makes room for as many pairs as the right map has, at the start.
pub fn right_join<
    K: Ord + Clone + Drop,
    V,
    W,
    X: Drop,
    L: AbstractVecMap<K, V>,
    M: AbstractVecMap<K, W>,
    F: Fn(&K, Option<&V>, &W) -> Result<Option<X>, AllocError> + Drop,
    const N: usize,
    A: Allocator + Copy,
>(alloc: A, this: &L, that: &M, f: F) -> Result<VecMap<K, X, N, A>, AllocError>
where
    (K, X): MadeWith<A>,
    requires clones { ClonesAreEqual K.cmp K.is_clone }
    requires callable { (k : _) (v : _) (w : _)
        → IsAsked K.cmp JoinKind.Right left_spelling (L.pairs this.now) (M.pairs that.now)
        (seen_right k v w) → F.pre f k v w }
    ensures joins { IfOk result (λ c. IsJoin K.cmp JoinKind.Right left_spelling (L.pairs this.now)
        (M.pairs that.now) (λ a r. MayAnswerRight F.Fn f a (Ok r)) (ClonedKey K.is_clone) c) }
    ensures function { IfOk result (λ c. (h : _)
        → IsJoinBy K.cmp JoinKind.Right left_spelling (L.pairs this.now) (M.pairs that.now)
        (λ a r. MayAnswerRight F.Fn f a (Ok r)) h c) }
    ensures values { IfOk result (λ c. (h : _) → AnswersRightBy F.Fn f h
        → JoinsValues K.cmp (in_right h) (L.pairs this.now) (M.pairs that.now) c) }
{
    let (left, right) = (this.as_slice(), that.as_slice());
    let ask = AskRight(&f);
    let pairs = join(alloc, left, right, JoinKind::Right, &ask, &mut Uncounted)?;
    Ok(VecMap { pairs })
}

/// Calls `f` at each key of both maps, and binds the key to the answer, if there is one.
///
/// Calls `f` once for each key, in ascending order. `f` sees the key of the left map. The result
/// holds clones of these keys. It is refused where memory, a clone or an answer of `f` is.
///
/// It grows as answers come.
pub fn inner_join<
    K: Ord + Clone + Drop,
    V,
    W,
    X: Drop,
    L: AbstractVecMap<K, V>,
    M: AbstractVecMap<K, W>,
    F: Fn(&K, &V, &W) -> Result<Option<X>, AllocError> + Drop,
    const N: usize,
    A: Allocator + Copy,
>(alloc: A, this: &L, that: &M, f: F) -> Result<VecMap<K, X, N, A>, AllocError>
where
    (K, X): MadeWith<A>,
    requires clones { ClonesAreEqual K.cmp K.is_clone }
    requires callable { (k : _) (v : _) (w : _)
        → IsAsked K.cmp JoinKind.Inner left_spelling (L.pairs this.now) (M.pairs that.now)
        (seen_inner k v w) → F.pre f k v w }
    ensures joins { IfOk result (λ c. IsJoin K.cmp JoinKind.Inner left_spelling (L.pairs this.now)
        (M.pairs that.now) (λ a r. MayAnswerInner F.Fn f a (Ok r)) (ClonedKey K.is_clone) c) }
    ensures function { IfOk result (λ c. (h : _)
        → IsJoinBy K.cmp JoinKind.Inner left_spelling (L.pairs this.now) (M.pairs that.now)
        (λ a r. MayAnswerInner F.Fn f a (Ok r)) h c) }
    ensures values { IfOk result (λ c. (h : _) → AnswersInnerBy F.Fn f h
        → JoinsValues K.cmp (in_both h) (L.pairs this.now) (M.pairs that.now) c) }
{
    let (left, right) = (this.as_slice(), that.as_slice());
    let ask = AskInner(&f);
    let pairs = join(alloc, left, right, JoinKind::Inner, &ask, &mut Uncounted)?;
    Ok(VecMap { pairs })
}

impl<K: Ord + Clone + Drop, V, const N: usize, A: Allocator + Copy> VecMap<K, V, N, A> {
    /// The join of this kind with another map, as by [`outer_join`], with its comparisons counted.
    /// `f` is called only at the keys that the kind names. It makes at most as many comparisons as
    /// both maps have pairs. For each pair of the shorter map it makes at most as many as the
    /// length of the longer one has binary digits. On refusal it drops what it built.
    ///
    /// ```
    /// let mut steps = Steps::new();
    /// let of_right: VecMap<u32, u32, 2> = a.join_counted(&b, JoinKind::Right, f, &mut steps)?;
    /// ```
    pub fn join_counted<
        W,
        X: Drop,
        M: AbstractVecMap<K, W>,
        F: Fn(OuterJoinArg<&K, &V, &W>) -> Result<Option<X>, AllocError> + Drop,
        const L: usize,
    >(
        &self,
        that: &M,
        kind: JoinKind,
        f: F,
        steps: &mut Steps,
    ) -> Result<VecMap<K, X, L, A>, AllocError>
    where
        (K, X): MadeWith<A>,
        requires clones { ClonesAreEqual K.cmp K.is_clone }
        requires callable { (a : _)
            → IsAsked K.cmp kind left_spelling self.now (M.pairs that.now) (seen a) → F.pre f a }
        ensures joins { IfOk result (λ c. IsJoin K.cmp kind left_spelling self.now
            (M.pairs that.now) (λ a r. MayAnswer F.Fn f a (Ok r)) (ClonedKey K.is_clone) c) }
        ensures function { IfOk result (λ c. (h : _)
            → IsJoinBy K.cmp kind left_spelling self.now (M.pairs that.now)
            (λ a r. MayAnswer F.Fn f a (Ok r)) h c) }
        ensures values { IfOk result (λ c. (h : _) → AnswersBy F.Fn f h
            → JoinsValues K.cmp (in_kind kind h) self.now (M.pairs that.now) c) }
        ensures counted { steps.new
            ≤ steps.old + bound (length self.now) (length (M.pairs that.now)) }
        ensures grows { steps.old ≤ steps.new }
    {
        let mut own = Steps::new();
        let joined = join_of_kind(self.allocator(), self, that, kind, f, &mut own);
        steps.add(&own);
        joined
    }
}

/// The join of this kind by a closure that takes the argument of an outer join. Counts its
/// comparisons.
fn join_of_kind<
    K: Ord + Clone + Drop,
    V,
    W,
    X: Drop,
    L: AbstractVecMap<K, V>,
    M: AbstractVecMap<K, W>,
    F: Fn(OuterJoinArg<&K, &V, &W>) -> Result<Option<X>, AllocError> + Drop,
    const N: usize,
    A: Allocator + Copy,
>(
    alloc: A,
    this: &L,
    that: &M,
    kind: JoinKind,
    f: F,
    steps: &mut Steps,
) -> Result<VecMap<K, X, N, A>, AllocError>
where
    (K, X): MadeWith<A>,
    requires clones { ClonesAreEqual K.cmp K.is_clone }
    requires callable { (a : _) → IsAsked K.cmp kind left_spelling (L.pairs this.now)
        (M.pairs that.now) (seen a) → F.pre f a }
    ensures joins { IfOk result (λ c. IsJoin K.cmp kind left_spelling (L.pairs this.now)
        (M.pairs that.now) (λ a r. MayAnswer F.Fn f a (Ok r)) (ClonedKey K.is_clone) c) }
    ensures function { IfOk result (λ c. (h : _)
        → IsJoinBy K.cmp kind left_spelling (L.pairs this.now) (M.pairs that.now)
        (λ a r. MayAnswer F.Fn f a (Ok r)) h c) }
    ensures values { IfOk result (λ c. (h : _) → AnswersBy F.Fn f h
        → JoinsValues K.cmp (in_kind kind h) (L.pairs this.now) (M.pairs that.now) c) }
    ensures counted { steps.new
        ≤ steps.old + bound (length (L.pairs this.now)) (length (M.pairs that.now)) }
{
    let (this, that) = (this.as_slice(), that.as_slice());
    let pairs = join(alloc, this, that, kind, &AskOuter(&f), steps)?;
    Ok(VecMap { pairs })
}
