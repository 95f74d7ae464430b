//! Joins that build a new map: a look-up for each key of a question, and an insertion for each
//! answer.
ghost use Rattle.std.specs.Prelude.{◌≡◌, None, Ok, IfOk, OnOk, OnErr};
ghost use Rattle.vc_joins.specs.Answers.{seen_left, seen_right};
ghost use Rattle.vc_joins.specs.Entries.{AscendsByKey, entry_at};
ghost use Rattle.vc_joins.specs.Join.{IsAsked, IsJoin};
ghost use Rattle.vc_joins.specs.Question.{left_spelling, right_spelling, shown_key};
ghost use Rattle.vc_joins.specs.declared.question.JoinKind.TheVariants as kind;
ghost use Rattle.vc_merge.specs.Clones.{ClonesAreEqual};
ghost use Rattle.vc_btree_maps.specs.Putting.{IsPut, IsAskedAndPut};

use super::AbstractBTreeMap;
use std::alloc::{AllocError, Global};
use std::collections::BTreeMap;
use vc_joins::answers::Question;
use vc_joins::question::OuterJoinArg;

/// Inserts the answer, if there is one, under a clone of a key that the map does not have.
pub fn put_answer<K: Ord + Clone + Drop, X: Drop>(
    joined: &mut BTreeMap<K, X>,
    key: &K,
    answer: Option<X>,
) -> Result<(), AllocError>
    requires clones { ClonesAreEqual K.cmp K.is_clone }
    requires ascends { AscendsByKey K.cmp joined.old.entries }
    requires absent { entry_at K.cmp joined.old.entries key.now ≡ None }
    ensures put { OnOk result
        (IsPut K.cmp K.is_clone key.now answer joined.old.entries joined.new.entries) }
    ensures err { OnErr result (joined.new.entries ≡ joined.old.entries) }
{
    match answer {
        Some(value) => {
            joined.insert(key.clone()?, value)?;
            Ok(())
        }
        None => Ok(()),
    }
}

/// Asks at a key of the left map, and inserts the answer. The right value may be missing, and then
/// gives no lifetime, so all references have that of the left value.
fn put_left<'a, K: Ord + Clone + Drop, V, W: 'a, X: Drop, Q: Question<K, V, W, X>>(
    joined: &mut BTreeMap<K, X>,
    key: &'a K,
    value: &'a V,
    other: Option<&'a W>,
    question: &Q,
) -> Result<(), AllocError>
    requires clones { ClonesAreEqual K.cmp K.is_clone }
    requires takes { Q.takes question.now (seen_left key value other) }
    requires ascends { AscendsByKey K.cmp joined.old.entries }
    requires absent { entry_at K.cmp joined.old.entries key.now ≡ None }
    ensures { OnOk result (IsAskedAndPut K.cmp K.is_clone (λ a r. Q.may question.now a (Ok r))
        (seen_left key.entry value.entry other.entry) joined.old.entries joined.new.entries) }
{
    match other {
        Some(other) => {
            let answer = question.ask(OuterJoinArg::Both(key, value, other))?;
            put_answer(joined, key, answer)
        }
        None => {
            let arg: OuterJoinArg<&'a K, &'a V, &'a W> = OuterJoinArg::Left(key, value);
            let answer = question.ask(arg)?;
            put_answer(joined, key, answer)
        }
    }
}

/// Asks at a key of the right map, and inserts the answer. The left value may be missing, and then
/// gives no lifetime, so all references have that of the right value.
fn put_right<'a, K: Ord + Clone + Drop, V: 'a, W, X: Drop, Q: Question<K, V, W, X>>(
    joined: &mut BTreeMap<K, X>,
    key: &'a K,
    value: Option<&'a V>,
    other: &'a W,
    question: &Q,
) -> Result<(), AllocError>
    requires clones { ClonesAreEqual K.cmp K.is_clone }
    requires takes { Q.takes question.now (seen_right key value other) }
    requires ascends { AscendsByKey K.cmp joined.old.entries }
    requires absent { entry_at K.cmp joined.old.entries key.now ≡ None }
    ensures { OnOk result (IsAskedAndPut K.cmp K.is_clone (λ a r. Q.may question.now a (Ok r))
        (seen_right key.entry value.entry other.entry) joined.old.entries joined.new.entries) }
{
    match value {
        Some(value) => {
            let answer = question.ask(OuterJoinArg::Both(key, value, other))?;
            put_answer(joined, key, answer)
        }
        None => {
            let arg: OuterJoinArg<&'a K, &'a V, &'a W> = OuterJoinArg::Right(key, other);
            let answer = question.ask(arg)?;
            put_answer(joined, key, answer)
        }
    }
}

/// The left join of two maps. The closure sees the keys of the left map, and the result has clones
/// of these.
pub fn join_left<
    K: Ord + Clone + Drop,
    V,
    W,
    X: Drop,
    L: AbstractBTreeMap<K, V>,
    M: AbstractBTreeMap<K, W>,
    Q: Question<K, V, W, X>,
>(alloc: Global, this: &L, that: &M, question: &Q) -> Result<BTreeMap<K, X>, AllocError>
    requires clones { ClonesAreEqual K.cmp K.is_clone }
    requires takes { (a : _) → IsAsked K.cmp kind.Left left_spelling (L.pairs this.now)
        (M.pairs that.now) a → Q.takes question.now a }
    ensures { IfOk result (λ m. IsJoin K.cmp kind.Left left_spelling (L.pairs this.now)
        (M.pairs that.now) (λ a r. Q.may question.now a (Ok r)) (λ a. K.is_clone (shown_key a))
        m.entries) }
{
    let mut joined = BTreeMap::new(alloc);
    'keys: for (key, value) in this.iter() {
        put_left(&mut joined, key, value, that.get(key), question)?;
    }
    Ok(joined)
}

/// The right join of two maps. The closure sees the keys of the right map, and the result has
/// clones of these.
pub fn join_right<
    K: Ord + Clone + Drop,
    V,
    W,
    X: Drop,
    L: AbstractBTreeMap<K, V>,
    M: AbstractBTreeMap<K, W>,
    Q: Question<K, V, W, X>,
>(alloc: Global, this: &L, that: &M, question: &Q) -> Result<BTreeMap<K, X>, AllocError>
    requires clones { ClonesAreEqual K.cmp K.is_clone }
    requires takes { (a : _) → IsAsked K.cmp kind.Right right_spelling (L.pairs this.now)
        (M.pairs that.now) a → Q.takes question.now a }
    ensures { IfOk result (λ m. IsJoin K.cmp kind.Right right_spelling (L.pairs this.now)
        (M.pairs that.now) (λ a r. Q.may question.now a (Ok r)) (λ a. K.is_clone (shown_key a))
        m.entries) }
{
    let mut joined = BTreeMap::new(alloc);
    'keys: for (key, other) in that.iter() {
        put_right(&mut joined, key, this.get(key), other, question)?;
    }
    Ok(joined)
}

/// The inner join of two maps. The closure sees the keys of the right map, and the result has
/// clones of these.
pub fn join_inner<
    K: Ord + Clone + Drop,
    V,
    W,
    X: Drop,
    L: AbstractBTreeMap<K, V>,
    M: AbstractBTreeMap<K, W>,
    Q: Question<K, V, W, X>,
>(alloc: Global, this: &L, that: &M, question: &Q) -> Result<BTreeMap<K, X>, AllocError>
    requires clones { ClonesAreEqual K.cmp K.is_clone }
    requires takes { (a : _) → IsAsked K.cmp kind.Inner right_spelling (L.pairs this.now)
        (M.pairs that.now) a → Q.takes question.now a }
    ensures { IfOk result (λ m. IsJoin K.cmp kind.Inner right_spelling (L.pairs this.now)
        (M.pairs that.now) (λ a r. Q.may question.now a (Ok r)) (λ a. K.is_clone (shown_key a))
        m.entries) }
{
    let mut joined = BTreeMap::new(alloc);
    'keys: for (key, other) in that.iter() {
        let value = this.get(key);
        if value.is_some() {
            put_right(&mut joined, key, value, other, question)?;
        }
    }
    Ok(joined)
}

/// The outer join of two maps. Of a key of both, the closure sees the left one, and the result has
/// a clone of that.
pub fn join_outer<
    K: Ord + Clone + Drop,
    V,
    W,
    X: Drop,
    L: AbstractBTreeMap<K, V>,
    M: AbstractBTreeMap<K, W>,
    Q: Question<K, V, W, X>,
>(alloc: Global, this: &L, that: &M, question: &Q) -> Result<BTreeMap<K, X>, AllocError>
    requires clones { ClonesAreEqual K.cmp K.is_clone }
    requires takes { (a : _) → IsAsked K.cmp kind.Outer left_spelling (L.pairs this.now)
        (M.pairs that.now) a → Q.takes question.now a }
    ensures { IfOk result (λ m. IsJoin K.cmp kind.Outer left_spelling (L.pairs this.now)
        (M.pairs that.now) (λ a r. Q.may question.now a (Ok r)) (λ a. K.is_clone (shown_key a))
        m.entries) }
{
    let mut joined = join_left(alloc, this, that, question)?;
    'keys: for (key, other) in that.iter() {
        if this.get(key).is_none() {
            put_right(&mut joined, key, None, other, question)?;
        }
    }
    Ok(joined)
}
