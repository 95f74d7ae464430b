//! Joins in place: values of the left map are moved into the question and back, and its keys stay.
ghost use Rattle.std.specs.Prelude.{◌≡◌, ◌+◌, ◌<◌, ◌≤◌, true, false, [], ◌∷◌, ◌++◌, Some, IsOk, IfOk, OnOk, OnErr, length, take, drop};
ghost use Rattle.smallvec.specs.SmallVec.{small_vec_len, HasRoomFor};
ghost use Rattle.std.specs.List.{AllByRecursion};
ghost use Rattle.std.specs.Option.{MatchOption};
ghost use Rattle.vc_joins.specs.declared.question.OuterJoinArg.TheVariants as arg;
ghost use Rattle.vc_joins.specs.Entries.{AscendsByKey};
ghost use Rattle.vc_joins.specs.Events.{AnswerAdds};
ghost use Rattle.vc_joins.specs.Join.{IsJoin, OldKey};
ghost use Rattle.vc_joins.specs.Question.{asks_right, left_spelling};
ghost use Rattle.vc_maps.specs.Asking.{AtHeads, TakesEach};
ghost use Rattle.vc_maps.specs.Keeping.{has_keys, HaveKeys, ClonesKeys, MayAskWith};
ghost use Rattle.vc_merge.specs.Count.{bound};
ghost use Rattle.vc_merge.specs.Gathering.{Adds, Appends};
ghost use Rattle.vc_merge.specs.Building.{Skips};
ghost use Rattle.vc_merge.specs.PartsViews.{built_items, left_items, right_items, list_name, built_at, left_at, right_at};
ghost use Rattle.vc_merge.specs.Clones.{ClonesAreEqual};

use crate::join::{JoinOp, JoinState};
use smallvec::SmallVec;
use std::alloc::{AllocError, Allocator};
use std::default::MadeWith;
use vc_joins::in_place::Turn;
use vc_joins::question::{JoinKind, OuterJoinArg};
use vc_merge::merge::{Count, MergeState, MergeStateMut, merge};
use vc_merge::parts::{PartsState, Spans, open_gap};

/// A map that is rebuilt in place, and one that is only read.
///
/// `KEYS` is how many clones of its key each pair of the other map has in the list: none, or one if
/// such keys may be inserted. The clones are made at the start, in pairs of the right part of the
/// list, so no event is refused.
#[derive(Drop)]
pub struct KeptState<'a, 'b, 'c, K, V, W, A, const KEYS: usize> {
    list: &'a mut [(K, V)],
    spans: Spans,
    right: &'b [(K, W)],
    alloc: &'c A,
    ghost within: { spans.next ≤ length list.now },
}

impl<'a, 'b, 'c, K, V, W, A, const KEYS: usize> MergeState
    for KeptState<'a, 'b, 'c, K, V, W, A, KEYS> {
    ghost use Rattle.vc_maps.specs.KeptViews.{left_pairs, right_pairs};

    type A = (K, V);

    type B = (K, W);

    ghost left = { left_pairs };

    ghost right = { right_pairs };

    fn a_slice(&self) -> &[(K, V)] {
        &self.list[self.spans.start..self.spans.end]
    }

    fn b_slice(&self) -> &[(K, W)] {
        self.right
    }
}

/// Pairs for which nothing is asked are added to the hole, or passed.
impl<'a, 'b, 'c, K: Clone, V, W, A, const KEYS: usize> MergeStateMut
    for KeptState<'a, 'b, 'c, K, V, W, A, KEYS> {
    ghost use Rattle.vc_maps.specs.KeptViews.{HasKeys};
    ghost use Rattle.vc_maps.specs.KeptViews as kept;

    ghost ready = { HasKeys KEYS K.is_clone };

    ghost advances_a = { λ s n take answer t. IsOk answer
        × Skips kept.built_pairs kept.list_name s answer t };

    ghost skips_b = { λ s n answer t. IsOk answer
        × Skips kept.built_pairs kept.list_name s answer t };

    fn advance_a(&mut self, n: usize, _take: bool) -> Result<bool, AllocError> {
        self.spans.start += n;
        Ok(true)
    }

    fn skip_b(&mut self, n: usize) -> Result<bool, AllocError> {
        self.pass_right(n);
        Ok(true)
    }
}

impl<'a, 'b, 'c, K: Clone, V, W, A, const KEYS: usize> KeptState<'a, 'b, 'c, K, V, W, A, KEYS> {
    ghost use Rattle.vc_maps.specs.KeptViews.{left_pairs, right_pairs, key_pairs, HasKeys, lent_list};
    ghost use Rattle.vc_maps.specs.KeptViews as kept;

    /// The list, whose parts are at `spans`, and the pairs of the other map.
    fn new(list: &'a mut [(K, V)], spans: Spans, right: &'b [(K, W)], alloc: &'c A) -> Self
        requires { spans.next ≤ length list.old }
        ensures same_reference { lent_list result ≡ list.entry }
        ensures built { kept.built_pairs result ≡ built_at spans list.old }
        ensures left { left_pairs result ≡ left_at spans list.old }
        ensures right { right_pairs result ≡ right.now }
        ensures keys { key_pairs result ≡ right_at spans list.old }
    {
        KeptState {
            list,
            spans,
            right,
            alloc,
        }
    }

    /// Passes the first `n` of the pairs that have clones of keys.
    fn pass_keys(&mut self, n: usize)
        requires { n ≤ length (key_pairs self.old) }
        ensures left { left_pairs self.new ≡ left_pairs self.old }
        ensures right { right_pairs self.new ≡ right_pairs self.old }
        ensures keys { key_pairs self.new ≡ drop n (key_pairs self.old) }
        ensures built { kept.built_pairs self.new ≡ kept.built_pairs self.old }
        ensures name { kept.list_name self.new ≡ kept.list_name self.old }
    {
        self.spans.next += n;
    }

    /// Passes the first `n` pairs that are left of the right map, and the clones of their keys.
    fn pass_right(&mut self, n: usize)
        requires ready { HasKeys KEYS K.is_clone self.old }
        requires within { n ≤ length (right_pairs self.old) }
        ensures ready { HasKeys KEYS K.is_clone self.new }
        ensures left { left_pairs self.new ≡ left_pairs self.old }
        ensures right { right_pairs self.new ≡ drop n (right_pairs self.old) }
        ensures built { kept.built_pairs self.new ≡ kept.built_pairs self.old }
        ensures name { kept.list_name self.new ≡ kept.list_name self.old }
    {
        if KEYS > 0 {
            self.pass_keys(n);
        }
        self.right = &self.right[n..];
    }
}

impl<
    'a,
    'b,
    'c,
    K: Clone + Drop,
    V: Drop,
    W,
    A: Allocator + Copy,
    Q: Turn<K, V, W>,
    const KEYS: usize,
> JoinState<K, V, W, Q> for KeptState<'a, 'b, 'c, K, V, W, A, KEYS>
where
    (K, V): MadeWith<A>,
{
    ghost use Rattle.vc_maps.specs.KeptViews.{left_pairs, right_pairs};
    ghost use Rattle.vc_maps.specs.KeptViews as kept;

    ghost takes = { λ q a. MayAskWith (has_keys KEYS) a × Q.takes q a };

    ghost asks_a = { λ q s n answer t. IsOk answer
        × Adds kept.built_pairs kept.list_name
        (λ p. AnswerAdds (Q.may q) (OldKey K.is_clone) (Some (arg.Left p.0 p.1)))
        (take n (left_pairs s)) s answer t };

    ghost asks_b = { λ q s n answer t. IsOk answer
        × Adds kept.built_pairs kept.list_name
        (λ p. AnswerAdds (Q.may q) (OldKey K.is_clone) (Some (arg.Right p.0 p.1)))
        (take n (right_pairs s)) s answer t };

    ghost asks_both = { λ q s answer t. IsOk answer
        × AtHeads (λ p r. Adds kept.built_pairs kept.list_name
        (λ a. AnswerAdds (Q.may q) (OldKey K.is_clone) (Some a)) (arg.Both p.0 p.1 r.1 ∷ []) s
        answer t) (left_pairs s) (right_pairs s) };

    fn ask_a(&mut self, question: &Q, n: usize) -> Result<bool, AllocError> {
        self.spans = lefts_turned(self.list, self.spans, *self.alloc, question, n);
        Ok(true)
    }

    fn ask_b(&mut self, question: &Q, n: usize) -> Result<bool, AllocError> {
        let pairs = &self.right[..n];
        self.spans = rights_turned(self.list, self.spans, *self.alloc, question, pairs);
        self.right = &self.right[n..];
        Ok(true)
    }

    fn ask_both(&mut self, question: &Q) -> Result<bool, AllocError> {
        self.spans = pair_turned(self.list, self.spans, *self.alloc, question, self.right);
        self.pass_right(1);
        Ok(true)
    }
}

/// Puts an answer, where there is one, under its key instead of the first pair that is left of the
/// left part, and passes that pair.
pub fn keep_left<K: Drop, V: Drop>(parts: &mut PartsState<'_, (K, V)>, key: K, answer: Option<V>)
    requires { 0 < length (left_items parts.old) }
    ensures name { list_name parts.new ≡ list_name parts.old }
    ensures left { left_items parts.new ≡ drop 1 (left_items parts.old) }
    ensures right { right_items parts.new ≡ right_items parts.old }
    ensures built { MatchOption answer (built_items parts.new ≡ built_items parts.old)
        (λ x. built_items parts.new ≡ built_items parts.old ++ (key, x) ∷ []) }
{
    match answer {
        Some(value) => {
            parts.put_left((key, value));
        }
        None => {
            let _never_refused = parts.advance_a(1, false);
        }
    }
}

/// Puts an answer, where there is one, under its key instead of the first pair that is left of the
/// right part, and takes that pair. Without an answer the pair is passed.
fn keep_right<K: Drop, V: Drop>(parts: &mut PartsState<'_, (K, V)>, key: K, answer: Option<V>)
    requires { 0 < length (right_items parts.old) }
    ensures name { list_name parts.new ≡ list_name parts.old }
    ensures left { left_items parts.new ≡ left_items parts.old }
    ensures right { right_items parts.new ≡ drop 1 (right_items parts.old) }
    ensures built { MatchOption answer (built_items parts.new ≡ built_items parts.old)
        (λ x. built_items parts.new ≡ built_items parts.old ++ (key, x) ∷ []) }
{
    match answer {
        Some(value) => {
            parts.put_right((key, value));
        }
        None => {
            let _never_refused = parts.skip_b(1);
        }
    }
}

/// Asks for the first `n` pairs that are left of the left part, whose keys only the left map has,
/// in a list whose parts are at `spans`. Answers where the parts are after that.
fn lefts_turned<K: Clone + Drop, V: Drop, W, Q: Turn<K, V, W>, A: Allocator + Copy>(
    list: &mut [(K, V)],
    spans: Spans,
    alloc: A,
    question: &Q,
    n: usize,
) -> Spans
where
    (K, V): MadeWith<A>,
    requires places { spans.next ≤ length list.old }
    requires within { n ≤ length (left_at spans list.old) }
    requires takes { AllByRecursion (λ p. Q.takes question.now (arg.Left p.0 p.1))
        (take n (left_at spans list.old)) }
    ensures places { result.next ≤ length list.new }
    ensures left { left_at result list.new ≡ drop n (left_at spans list.old) }
    ensures right { right_at result list.new ≡ right_at spans list.old }
    ensures built { Appends (λ p. AnswerAdds (Q.may question.now) (OldKey K.is_clone)
        (Some (arg.Left p.0 p.1))) (take n (left_at spans list.old)) (built_at spans list.old)
        (built_at result list.new) }
{
    let mut parts = PartsState::at(list, spans);
    'pairs: for at in 0..n {
        let (key, value) = parts.replace_left(<(K, V)>::made_with(alloc));
        let answer = turn_left(question, &key, value);
        keep_left(&mut parts, key, answer);
    }
    parts.spans()
}

/// Asks for each of `pairs`, which are only in the right map, in a list whose parts are at `spans`.
/// Answers where the parts are after that.
fn rights_turned<K: Clone + Drop, V: Drop, W, Q: Turn<K, V, W>, A: Allocator + Copy>(
    list: &mut [(K, V)],
    spans: Spans,
    alloc: A,
    question: &Q,
    pairs: &[(K, W)],
) -> Spans
where
    (K, V): MadeWith<A>,
    requires places { spans.next ≤ length list.old }
    requires keys { HaveKeys K.is_clone pairs.now
        (take (length pairs.now) (right_at spans list.old)) }
    requires takes { AllByRecursion (λ p. Q.takes question.now (arg.Right p.0 p.1)) pairs.now }
    ensures places { result.next ≤ length list.new }
    ensures left { left_at result list.new ≡ left_at spans list.old }
    ensures right { right_at result list.new ≡ drop (length pairs.now) (right_at spans list.old) }
    ensures built { Appends (λ p. AnswerAdds (Q.may question.now) (OldKey K.is_clone)
        (Some (arg.Right p.0 p.1))) pairs.now (built_at spans list.old) (built_at result list.new) }
{
    let mut parts = PartsState::at(list, spans);
    'pairs: for pair in pairs {
        let (key, _) = parts.replace_right(<(K, V)>::made_with(alloc));
        let answer = question.turn(OuterJoinArg::Right(&pair.0, &pair.1));
        keep_right(&mut parts, key, answer);
    }
    parts.spans()
}

/// Asks for the first pair that is left of the left part and the first one of `right`, which have
/// equal keys, in a list whose parts are at `spans`. Answers where the parts are after that.
fn pair_turned<K: Clone + Drop, V: Drop, W, Q: Turn<K, V, W>, A: Allocator + Copy>(
    list: &mut [(K, V)],
    spans: Spans,
    alloc: A,
    question: &Q,
    right: &[(K, W)],
) -> Spans
where
    (K, V): MadeWith<A>,
    requires places { spans.next ≤ length list.old }
    requires takes { AtHeads (λ p r. Q.takes question.now (arg.Both p.0 p.1 r.1))
        (left_at spans list.old) right.now }
    ensures places { result.next ≤ length list.new }
    ensures left { left_at result list.new ≡ drop 1 (left_at spans list.old) }
    ensures right { right_at result list.new ≡ right_at spans list.old }
    ensures built { AtHeads (λ p r. Appends
        (λ a. AnswerAdds (Q.may question.now) (OldKey K.is_clone) (Some a))
        (arg.Both p.0 p.1 r.1 ∷ []) (built_at spans list.old) (built_at result list.new))
        (left_at spans list.old) right.now }
{
    let mut parts = PartsState::at(list, spans);
    let (key, value) = parts.replace_left(<(K, V)>::made_with(alloc));
    let answer = question.turn(OuterJoinArg::Both(&key, value, &right[0].1));
    keep_left(&mut parts, key, answer);
    parts.spans()
}

/// Asks for a pair that is only in the left map. The right side has no reference here, so one
/// lifetime is used for both.
fn turn_left<'a, K, V, W: 'a, Q: Turn<K, V, W>>(question: &Q, key: &'a K, value: V) -> Option<V>
    requires { Q.takes question.now (arg.Left key.now value) }
    ensures { Q.may question.now (arg.Left key.now value) result }
{
    let arg: OuterJoinArg<&'a K, V, &'a W> = OuterJoinArg::Left(key, value);
    question.turn(arg)
}

/// Moves the join of a part of a list with another list to the front. The part is the first `end`
/// pairs. If `KEYS` is not 0, the kind asks for keys that only the other list has, and the pairs
/// from `next` on have clones of its keys. Answers how many pairs the join has.
fn join_parts<
    const KEYS: usize,
    K: Ord + Clone + Drop,
    V: Drop,
    W,
    Q: Turn<K, V, W>,
    C: Count,
    A: Allocator + Copy,
>(
    alloc: &A,
    list: &mut [(K, V)],
    end: usize,
    next: usize,
    right: &[(K, W)],
    op: &JoinOp<'_, Q>,
    steps: &mut C,
) -> usize
where
    (K, V): MadeWith<A>,
    requires order { end ≤ next }
    requires within { next ≤ length list.old }
    requires kind { asks_right op.now.kind ≡ has_keys KEYS }
    requires this_ascends { AscendsByKey K.cmp (take end list.old) }
    requires that_ascends { AscendsByKey K.cmp right.now }
    requires clones { asks_right op.now.kind ≡ true
        → ClonesAreEqual K.cmp K.is_clone × HaveKeys K.is_clone right.now (drop next list.old) }
    requires takes { TakesEach K.cmp op.now.kind (Q.takes op.now.question.now) (take end list.old)
        right.now }
    ensures joins { IsJoin K.cmp op.now.kind left_spelling (take end list.old) right.now
        (Q.may op.now.question.now) (OldKey K.is_clone) (take result list.new) }
    ensures counted { C.counted steps.new
        ≤ C.counted steps.old + bound (length (take end list.old)) (length right.now) }
{
    let spans = Spans {
        built: 0,
        start: 0,
        end,
        next,
    };
    let mut state: KeptState<'_, '_, '_, K, V, W, A, KEYS> = KeptState::new(
        list, spans, right, alloc,
    );
    let _never_refused = merge(&mut state, op, steps);
    state.spans.built
}

/// Appends to a list, for each of `pairs`, a pair with a clone of its key, unless `KEYS` is 0.
/// Answers the place of the first of them.
///
/// The only allocation comes before the first clone. On refusal the list has its old pairs.
fn append_keys<const KEYS: usize, K: Clone + Drop, V: Drop, W, const N: usize, A: Allocator + Copy>(
    list: &mut SmallVec<(K, V), N, A>,
    pairs: &[(K, W)],
) -> Result<usize, AllocError>
where
    (K, V): MadeWith<A>,
    ensures behind { IfOk result
        (λ next. (length list.old.items ≤ next) × (next ≤ length list.new.items)) }
    ensures front { OnOk result (take (length list.old.items) list.new.items ≡ list.old.items) }
    ensures keys { IfOk result (λ next. has_keys KEYS ≡ true
        → HaveKeys K.is_clone pairs.now (drop next list.new.items)) }
    ensures no_memory { KEYS ≡ 0 → IsOk result }
    ensures err { OnErr result (list.new.items ≡ list.old.items) }
{
    let end = list.len();
    if KEYS == 0 {
        return Ok(end);
    }
    open_gap(list, pairs.len())?;
    let next = list.len();
    let cloned = push_keys(list, pairs);
    if let Err(refused) = cloned {
        list.truncate(end);
        return Err(refused);
    }
    Ok(next)
}

/// Pushes, for each of `pairs`, a pair with a clone of its key; there is room for these. On refusal
/// those that were made stay.
fn push_keys<K: Clone + Drop, V: Drop, W, const N: usize, A: Allocator + Copy>(
    list: &mut SmallVec<(K, V), N, A>,
    pairs: &[(K, W)],
) -> Result<(), AllocError>
where
    (K, V): MadeWith<A>,
    requires { HasRoomFor list.old (length pairs.now) }
    ensures front { take (small_vec_len list.old) list.new.items ≡ list.old.items }
    ensures keys { OnOk result (ClonesKeys K.is_clone pairs.now list.old.items list.new.items) }
{
    let alloc = *list.allocator();
    'pairs: for pair in pairs {
        let (_, blank) = <(K, V)>::made_with(alloc);
        list.push_reserved((pair.0.clone()?, blank));
    }
    Ok(())
}

/// The join of a list of pairs with another one, in place. If `KEYS` is not 0, the kind asks for
/// the keys of the right map. The only allocation and all clones come before the first question. On
/// refusal there the list has its old pairs.
fn join_in<
    const KEYS: usize,
    K: Ord + Clone + Drop,
    V: Drop,
    W,
    Q: Turn<K, V, W>,
    C: Count,
    const N: usize,
    A: Allocator + Copy,
>(
    list: &mut SmallVec<(K, V), N, A>,
    that: &[(K, W)],
    kind: JoinKind,
    question: &Q,
    steps: &mut C,
) -> Result<(), AllocError>
where
    (K, V): MadeWith<A>,
    requires kind { asks_right kind ≡ has_keys KEYS }
    requires this_ascends { AscendsByKey K.cmp list.old.items }
    requires that_ascends { AscendsByKey K.cmp that.now }
    requires clones { asks_right kind ≡ true → ClonesAreEqual K.cmp K.is_clone }
    requires takes { TakesEach K.cmp kind (Q.takes question.now) list.old.items that.now }
    ensures joins { OnOk result (IsJoin K.cmp kind left_spelling list.old.items that.now
        (Q.may question.now) (OldKey K.is_clone) list.new.items) }
    ensures counted { C.counted steps.new
        ≤ C.counted steps.old + bound (length list.old.items) (length that.now) }
    ensures no_memory { KEYS ≡ 0 → IsOk result }
    ensures err { OnErr result (list.new.items ≡ list.old.items) }
{
    let alloc = *list.allocator();
    let end = list.len();
    let next = append_keys::<KEYS, _, _, _, _, _>(list, that)?;
    let op = JoinOp { kind, question };
    let kept = join_parts::<KEYS, _, _, _, _, _, _>(
        &alloc,
        list.as_mut_slice(),
        end,
        next,
        that,
        &op,
        steps,
    );
    list.truncate(kept);
    Ok(())
}

/// The join of a list of pairs with another one, in place, where both ascend by key. It takes
/// memory only if the kind asks for the keys of the right map.
///
/// Asks at most once for each key, in ascending order. On refusal before the first question the
/// list has its old pairs.
pub fn join<
    K: Ord + Clone + Drop,
    V: Drop,
    W,
    Q: Turn<K, V, W>,
    C: Count,
    const N: usize,
    A: Allocator + Copy,
>(
    list: &mut SmallVec<(K, V), N, A>,
    that: &[(K, W)],
    kind: JoinKind,
    question: &Q,
    steps: &mut C,
) -> Result<(), AllocError>
where
    (K, V): MadeWith<A>,
    requires this_ascends { AscendsByKey K.cmp list.old.items }
    requires that_ascends { AscendsByKey K.cmp that.now }
    requires clones { asks_right kind ≡ true → ClonesAreEqual K.cmp K.is_clone }
    requires takes { TakesEach K.cmp kind (Q.takes question.now) list.old.items that.now }
    ensures joins { OnOk result (IsJoin K.cmp kind left_spelling list.old.items that.now
        (Q.may question.now) (OldKey K.is_clone) list.new.items) }
    ensures counted { C.counted steps.new
        ≤ C.counted steps.old + bound (length list.old.items) (length that.now) }
    ensures no_memory { asks_right kind ≡ false → IsOk result }
    ensures err { OnErr result (list.new.items ≡ list.old.items) }
{
    if kind.asks_right() {
        join_in::<1, _, _, _, _, _, _, _>(list, that, kind, question, steps)
    } else {
        join_in::<0, _, _, _, _, _, _, _>(list, that, kind, question, steps)
    }
}
