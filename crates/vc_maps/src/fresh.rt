//! Joins that build a new list: the question sees the pairs of both maps, and each answer is stored
//! under a clone of the key that it saw.
ghost use Rattle.std.specs.Prelude.{◌≡◌, ◌+◌, ◌<◌, ◌≤◌, [], ◌∷◌, ◌++◌, List, Ok, Some, take, drop, length, IfOk, OnOk};
ghost use Rattle.std.specs.Int.{from_bool};
ghost use Rattle.std.specs.List.{AllByRecursion};
ghost use Rattle.std.specs.Option.{MatchOption};
ghost use Rattle.std.specs.Ordering.{is_le, is_ge};
ghost use Rattle.vc_joins.specs.declared.question.OuterJoinArg.TheVariants as arg;
ghost use Rattle.vc_joins.specs.Entries.{AscendsByKey};
ghost use Rattle.vc_joins.specs.Events.{AnswerAdds};
ghost use Rattle.vc_joins.specs.Join.{ClonedKey, IsAsked, IsJoin};
ghost use Rattle.vc_joins.specs.Question.{left_spelling};
ghost use Rattle.vc_maps.specs.Asking.{AtHeads, TakesEach};
ghost use Rattle.vc_merge.specs.Count.{bound};
ghost use Rattle.vc_merge.specs.Gathering.{Adds, Appends};
ghost use Rattle.vc_merge.specs.Building.{Skips};
ghost use Rattle.vc_merge.specs.Clones.{ClonesAreEqual};

use crate::join::{JoinOp, JoinState};
use smallvec::SmallVec;
use std::alloc::{AllocError, Allocator};
use std::cmp::Ordering;
use std::default::MadeWith;
use vc_joins::answers::Question;
use vc_joins::question::{JoinKind, OuterJoinArg};
use vc_merge::choosing::part;
use vc_merge::merge::{Count, MergeState, MergeStateMut, Uncounted, merge};

/// A list of pairs that grows at its end.
pub trait PairList {
    /// The key of a pair.
    type Key;

    /// The value of a pair.
    type Value;

    ghost pairs: { Self → List (Self.Key × Self.Value) };

    /// Appends a pair.
    fn append(&mut self, key: Self::Key, value: Self::Value) -> Result<(), AllocError>
        ensures { OnOk result (pairs self.new ≡ pairs self.old ++ (key, value) ∷ []) };
}

impl<K: Drop, X: Drop, const N: usize, A: Allocator + Copy> PairList for SmallVec<(K, X), N, A>
where
    (K, X): MadeWith<A>,
{
    type Key = K;

    type Value = X;

    ghost pairs = { λ list. list.items };

    #[inline(always)]
    fn append(&mut self, key: K, value: X) -> Result<(), AllocError> {
        Ok(self.push((key, value))?)
    }
}

/// A list on the heap: a push asks whether it is full, and not where its pairs are.
impl<K: Drop, X: Drop, A: Allocator + Copy> PairList for Vec<(K, X), A> {
    type Key = K;

    type Value = X;

    ghost pairs = { λ list. list.items };

    #[inline(always)]
    fn append(&mut self, key: K, value: X) -> Result<(), AllocError> {
        Ok(self.push((key, value))?)
    }
}

/// Two maps that are joined, with a position in each, and the list of the answers.
///
/// The slices are kept whole, and only the positions move: so an event passes a pair without a
/// branch, where a shrinking slice would need one.
#[derive(Drop)]
pub struct FreshState<'a, 'b, 's, K, V, W, S> {
    a: &'a [(K, V)],
    b: &'b [(K, W)],
    /// The place of the next pair of `a`.
    left: usize,
    /// The place of the next pair of `b`.
    right: usize,
    built: &'s mut S,
}

impl<'a, 'b, 's, K, V, W, S> FreshState<'a, 'b, 's, K, V, W, S> {
    ghost use Rattle.vc_maps.specs.FreshViews.{lent_list, left_pairs, right_pairs};

    /// The maps to join, and the list to append to.
    #[inline(always)]
    pub fn new(a: &'a [(K, V)], b: &'b [(K, W)], built: &'s mut S) -> Self
        ensures a { left_pairs result ≡ a.now }
        ensures b { right_pairs result ≡ b.now }
        ensures places { (result.left ≤ length result.a.now)
            × (result.right ≤ length result.b.now) }
        ensures same_reference { lent_list result ≡ built.entry }
    {
        FreshState {
            a,
            b,
            left: 0,
            right: 0,
            built,
        }
    }

    /// Moves the positions past the lesser one of the first pairs, whose keys compare as `heads`,
    /// or past both.
    #[inline(always)]
    fn pass(&mut self, heads: Ordering)
        requires some_left { 0 < length (left_pairs self.old) }
        requires some_right { 0 < length (right_pairs self.old) }
        ensures left { left_pairs self.new ≡ drop (from_bool (is_le heads)) (left_pairs self.old) }
        ensures right { right_pairs self.new
            ≡ drop (from_bool (is_ge heads)) (right_pairs self.old) }
        ensures places { (self.new.left ≤ length self.new.a.now)
            × (self.new.right ≤ length self.new.b.now) }
        ensures same_reference { lent_list self.new ≡ lent_list self.old }
    {
        self.left += usize::from(heads.is_le());
        self.right += usize::from(heads.is_ge());
    }
}

impl<'a, 'b, 's, K, V, W, S> MergeState for FreshState<'a, 'b, 's, K, V, W, S> {
    ghost use Rattle.vc_maps.specs.FreshViews.{left_pairs, right_pairs};

    type A = (K, V);

    type B = (K, W);

    ghost left = { left_pairs };

    ghost right = { right_pairs };

    #[inline(always)]
    fn a_slice(&self) -> &[(K, V)] {
        match self.a.get(self.left..) {
            Some(rest) => rest,
            None => &[],
        }
    }

    #[inline(always)]
    fn b_slice(&self) -> &[(K, W)] {
        match self.b.get(self.right..) {
            Some(rest) => rest,
            None => &[],
        }
    }
}

/// Pairs for which nothing is asked are passed.
impl<'a, 'b, 's, K, V, W, S: PairList> MergeStateMut for FreshState<'a, 'b, 's, K, V, W, S> {
    ghost use Rattle.vc_maps.specs.FreshViews.{lent_list, list_name};

    ghost ready = { λ s. (s.left ≤ length s.a.now) × (s.right ≤ length s.b.now) };

    ghost advances_a = { λ s n take answer t.
        Skips (λ s. S.pairs (lent_list s).now) list_name s answer t };

    ghost skips_b = { λ s n answer t. Skips (λ s. S.pairs (lent_list s).now) list_name s answer t };

    #[inline(always)]
    fn advance_a(&mut self, n: usize, _take: bool) -> Result<bool, AllocError> {
        self.left += n;
        Ok(true)
    }

    #[inline(always)]
    fn skip_b(&mut self, n: usize) -> Result<bool, AllocError> {
        self.right += n;
        Ok(true)
    }
}

impl<
    'a,
    'b,
    's,
    K: Clone + Drop,
    V,
    W,
    X: Drop,
    S: PairList<Key = K, Value = X>,
    Q: Question<K, V, W, X>,
> JoinState<K, V, W, Q> for FreshState<'a, 'b, 's, K, V, W, S> {
    ghost use Rattle.vc_maps.specs.FreshViews.{lent_list, left_pairs, right_pairs, list_name};

    ghost takes = { Q.takes };

    ghost asks_a = { λ q s n answer t. Adds (λ s. S.pairs (lent_list s).now) list_name
        (λ p. AnswerAdds (λ a r. Q.may q a (Ok r)) (ClonedKey K.is_clone) (Some (arg.Left p.0 p.1)))
        (take n (left_pairs s)) s answer t };

    ghost asks_b = { λ q s n answer t. Adds (λ s. S.pairs (lent_list s).now) list_name
        (λ p. AnswerAdds (λ a r. Q.may q a (Ok r)) (ClonedKey K.is_clone)
        (Some (arg.Right p.0 p.1))) (take n (right_pairs s)) s answer t };

    ghost asks_both = { λ q s answer t. AtHeads
        (λ p r. Adds (λ s. S.pairs (lent_list s).now) list_name
        (λ a. AnswerAdds (λ a r. Q.may q a (Ok r)) (ClonedKey K.is_clone) (Some a))
        (arg.Both p.0 p.1 r.1 ∷ []) s answer t) (left_pairs s) (right_pairs s) };

    #[inline(always)]
    fn ask_a(&mut self, question: &Q, n: usize) -> Result<bool, AllocError> {
        ask_lefts(self.built, question, part(self.a, self.left, n))?;
        self.left += n;
        Ok(true)
    }

    #[inline(always)]
    fn ask_b(&mut self, question: &Q, n: usize) -> Result<bool, AllocError> {
        ask_rights(self.built, question, part(self.b, self.right, n))?;
        self.right += n;
        Ok(true)
    }

    #[inline(always)]
    fn ask_both(&mut self, question: &Q) -> Result<bool, AllocError> {
        let left = &self.a[self.left];
        let right = &self.b[self.right];
        let answer = question.ask(OuterJoinArg::Both(&left.0, &left.1, &right.1))?;
        append_answer(self.built, &left.0, answer)?;
        self.pass(Ordering::Equal);
        Ok(true)
    }

    #[inline(always)]
    fn pass_lesser(&mut self, heads: Ordering) -> Result<bool, AllocError> {
        self.pass(heads);
        Ok(true)
    }
}

/// Asks for each of `pairs`, which are only in the left map. A walk asks for one pair at a time;
/// where this is inlined there, no loop is left.
#[inline(always)]
fn ask_lefts<
    K: Clone + Drop,
    V,
    W,
    X: Drop,
    S: PairList<Key = K, Value = X>,
    Q: Question<K, V, W, X>,
>(built: &mut S, question: &Q, pairs: &[(K, V)]) -> Result<(), AllocError>
    requires { AllByRecursion (λ p. Q.takes question.now (arg.Left p.0 p.1)) pairs.now }
    ensures { OnOk result
        (Appends (λ p. AnswerAdds (λ a r. Q.may question.now a (Ok r)) (ClonedKey K.is_clone)
        (Some (arg.Left p.0 p.1))) pairs.now (S.pairs built.old) (S.pairs built.new)) }
{
    'pairs: for pair in pairs {
        let answer = ask_left(question, pair)?;
        append_answer(built, &pair.0, answer)?;
    }
    Ok(())
}

/// Asks for each of `pairs`, which are only in the right map.
#[inline(always)]
fn ask_rights<
    K: Clone + Drop,
    V,
    W,
    X: Drop,
    S: PairList<Key = K, Value = X>,
    Q: Question<K, V, W, X>,
>(built: &mut S, question: &Q, pairs: &[(K, W)]) -> Result<(), AllocError>
    requires { AllByRecursion (λ p. Q.takes question.now (arg.Right p.0 p.1)) pairs.now }
    ensures { OnOk result
        (Appends (λ p. AnswerAdds (λ a r. Q.may question.now a (Ok r)) (ClonedKey K.is_clone)
        (Some (arg.Right p.0 p.1))) pairs.now (S.pairs built.old) (S.pairs built.new)) }
{
    'pairs: for pair in pairs {
        let answer = ask_right(question, pair)?;
        append_answer(built, &pair.0, answer)?;
    }
    Ok(())
}

/// Asks for a pair that is only in the left map. The right side has no reference here, so one
/// lifetime is used for both.
#[inline(always)]
fn ask_left<'a, K, V, W: 'a, X, Q: Question<K, V, W, X>>(
    question: &Q,
    pair: &'a (K, V),
) -> Result<Option<X>, AllocError>
    requires { Q.takes question.now (arg.Left pair.now.0 pair.now.1) }
    ensures { Q.may question.now (arg.Left pair.now.0 pair.now.1) result }
{
    let arg: OuterJoinArg<&'a K, &'a V, &'a W> = OuterJoinArg::Left(&pair.0, &pair.1);
    question.ask(arg)
}

/// Asks for a pair that is only in the right map. The left side has no reference here, so one
/// lifetime is used for both.
#[inline(always)]
fn ask_right<'a, K, V: 'a, W, X, Q: Question<K, V, W, X>>(
    question: &Q,
    pair: &'a (K, W),
) -> Result<Option<X>, AllocError>
    requires { Q.takes question.now (arg.Right pair.now.0 pair.now.1) }
    ensures { Q.may question.now (arg.Right pair.now.0 pair.now.1) result }
{
    let arg: OuterJoinArg<&'a K, &'a V, &'a W> = OuterJoinArg::Right(&pair.0, &pair.1);
    question.ask(arg)
}

/// Appends an answer, where there is one, under a clone of the key.
#[inline(always)]
fn append_answer<K: Clone + Drop, X: Drop, S: PairList<Key = K, Value = X>>(
    built: &mut S,
    key: &K,
    answer: Option<X>,
) -> Result<(), AllocError>
    ensures { OnOk result (MatchOption answer (S.pairs built.new ≡ S.pairs built.old)
        (λ x. (k : K) × K.is_clone key.now k
        × (S.pairs built.new ≡ S.pairs built.old ++ (k, x) ∷ []))) }
{
    if let Some(value) = answer {
        built.append(key.clone()?, value)?;
    }
    Ok(())
}

/// The room that a join of maps with `left` and `right` pairs makes at the start, in a list of `N`
/// inline places: enough for all pairs that can come.
///
/// Where each map fits inline, the outer join may fit too: it begins inline, and grows if it has
/// to. An inner join grows as answers come, since few keys may be in both.
fn room_of<const N: usize>(kind: JoinKind, left: usize, right: usize) -> usize {
    match kind {
        JoinKind::Outer => {
            if left.max(right) <= N {
                0
            } else {
                left.saturating_add(right)
            }
        }
        JoinKind::Left => left,
        JoinKind::Right => right,
        JoinKind::Inner => 0,
    }
}

/// Appends the join of two lists of pairs that ascend by key to an empty list.
fn join_onto<
    K: Ord + Clone + Drop,
    V,
    W,
    X: Drop,
    S: PairList<Key = K, Value = X>,
    Q: Question<K, V, W, X>,
    C: Count,
>(
    built: &mut S,
    this: &[(K, V)],
    that: &[(K, W)],
    kind: JoinKind,
    question: &Q,
    steps: &mut C,
) -> Result<(), AllocError>
    requires empty { S.pairs built.old ≡ [] }
    requires this_ascends { AscendsByKey K.cmp this.now }
    requires that_ascends { AscendsByKey K.cmp that.now }
    requires clones { ClonesAreEqual K.cmp K.is_clone }
    requires takes { TakesEach K.cmp kind (Q.takes question.now) this.now that.now }
    ensures joins { OnOk result (IsJoin K.cmp kind left_spelling this.now that.now
        (λ a r. Q.may question.now a (Ok r)) (ClonedKey K.is_clone) (S.pairs built.new)) }
    ensures counted { C.counted steps.new
        ≤ C.counted steps.old + bound (length this.now) (length that.now) }
{
    let mut state = FreshState::new(this, that, built);
    merge(&mut state, &JoinOp { kind, question }, steps)?;
    Ok(())
}

/// The join of two lists of pairs that ascend by key.
///
/// Asks at most once for each key, in ascending order, and reserves its room first.
pub fn join<
    K: Ord + Clone + Drop,
    V,
    W,
    X: Drop,
    Q: Question<K, V, W, X>,
    C: Count,
    const N: usize,
    A: Allocator + Copy,
>(
    alloc: A,
    this: &[(K, V)],
    that: &[(K, W)],
    kind: JoinKind,
    question: &Q,
    steps: &mut C,
) -> Result<SmallVec<(K, X), N, A>, AllocError>
where
    (K, X): MadeWith<A>,
    requires this_ascends { AscendsByKey K.cmp this.now }
    requires that_ascends { AscendsByKey K.cmp that.now }
    requires clones { ClonesAreEqual K.cmp K.is_clone }
    requires takes { TakesEach K.cmp kind (Q.takes question.now) this.now that.now }
    ensures joins { IfOk result (λ v. IsJoin K.cmp kind left_spelling this.now that.now
        (λ a r. Q.may question.now a (Ok r)) (ClonedKey K.is_clone) v.items) }
    ensures counted { C.counted steps.new
        ≤ C.counted steps.old + bound (length this.now) (length that.now) }
{
    let room = room_of::<N>(kind, this.len(), that.len());
    if room > N {
        let mut built = Vec::with_capacity(alloc, room)?;
        join_onto(&mut built, this, that, kind, question, steps)?;
        return Ok(SmallVec::from_vec(built));
    }
    let mut built = SmallVec::new(alloc);
    join_onto(&mut built, this, that, kind, question, steps)?;
    Ok(built)
}

/// The outer join by a question.
pub fn join_asking<
    K: Ord + Clone + Drop,
    V,
    W,
    X: Drop,
    Q: Question<K, V, W, X>,
    const N: usize,
    A: Allocator + Copy,
>(
    alloc: A,
    this: &[(K, V)],
    that: &[(K, W)],
    question: &Q,
) -> Result<SmallVec<(K, X), N, A>, AllocError>
where
    (K, X): MadeWith<A>,
    requires this_ascends { AscendsByKey K.cmp this.now }
    requires that_ascends { AscendsByKey K.cmp that.now }
    requires clones { ClonesAreEqual K.cmp K.is_clone }
    requires takes { (a : _) → IsAsked K.cmp JoinKind.Outer left_spelling this.now that.now a
        → Q.takes question.now a }
    ensures joins { IfOk result (λ v. IsJoin K.cmp JoinKind.Outer left_spelling this.now that.now
        (λ a r. Q.may question.now a (Ok r)) (ClonedKey K.is_clone) v.items) }
{
    join(alloc, this, that, JoinKind::Outer, question, &mut Uncounted)
}
