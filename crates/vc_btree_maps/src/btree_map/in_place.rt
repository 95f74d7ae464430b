//! Joins in place: which values of a map stay, and which pairs are added.
ghost use Rattle.std.specs.Prelude.{◌≡◌, Some, map, is_some, IfOk, OnOk, OnErr};
ghost use Rattle.std.specs.Map.Iter.{deref_pair};
ghost use Rattle.vc_joins.specs.declared.question.OuterJoinArg.TheVariants as arg;
ghost use Rattle.vc_joins.specs.declared.question.JoinKind.TheVariants as kind;
ghost use Rattle.vc_joins.specs.Entries.{AscendsByKey, entry_at, value_at};
ghost use Rattle.vc_joins.specs.Join.{IsAsked, IsJoin, MovedKey};
ghost use Rattle.vc_joins.specs.Question.{left_spelling, right_spelling};
ghost use Rattle.vc_merge.specs.Clones.{ClonesAreEqual};
ghost use Rattle.vc_btree_maps.specs.Keeping.{at_pair, if_kept, MayGive, OrStays, OrGives, StayedKey, StayedOrCloned, IsGrown};
ghost use Rattle.vc_btree_maps.specs.Stages.{IsKept, IsKeptAlong, IsGiven, shared_with};

use super::AbstractBTreeMap;
use super::fresh::put_answer;
use super::keep::{Keep, KeepAlone};
use std::alloc::{AllocError, Global};
use std::collections::BTreeMap;

/// The keys of a map ascend. Each call of a `BTreeMap` states it, but its type does not, so a walk
/// along another map calls this first.
fn keys_ascend<K: Ord, V>(map: &BTreeMap<K, V>)
    ensures { AscendsByKey K.cmp map.now.entries }
{
    let _len = map.len();
}

/// Decides at each key of the map whether its value stays. The closure sees the keys of this map.
pub fn keep_each<K: Ord + Drop, V: Drop, W, M: AbstractBTreeMap<K, W>, J: Keep<K, V, W>>(
    this: &mut BTreeMap<K, V>,
    that: &M,
    judge: &J,
)
    requires takes { (a : _) → IsAsked K.cmp kind.Left left_spelling this.old.entries
        (M.pairs that.now) a → J.takes judge.now a }
    ensures { IsJoin K.cmp kind.Left left_spelling this.old.entries (M.pairs that.now)
        (J.may judge.now) MovedKey this.new.entries }
{
    let stays = |key: &K, value: &mut V| -> bool
        requires { J.takes judge.now
            (at_pair key.now value.old (value_at K.cmp (M.pairs that.now) key.now)) }
        ensures { J.may judge.entry.now (at_pair key.entry.now value.old
            (value_at K.cmp (M.pairs that.entry.now) key.entry.now)) (if_kept result value.new) }
    { judge.keep(key, value, that.get(key)) };
    keys_ascend(this);
    this.retain(stays);
}

/// Decides whether the value at a key stays, and answers whether there is one. The closure sees the
/// key that is given here.
pub fn keep_at<K: Ord + Drop, V: Drop, W, J: Keep<K, V, W>>(
    this: &mut BTreeMap<K, V>,
    key: &K,
    other: &W,
    judge: &J,
) -> bool
    requires takes { (v : _) → value_at K.cmp this.old.entries key.now ≡ Some v
        → J.takes judge.now (arg.Both key.now v other.now) }
    ensures had { result ≡ is_some (value_at K.cmp this.old.entries key.now) }
    ensures kept { IsKept K.cmp (J.may judge.now) key.now other.now this.old.entries
        this.new.entries }
{
    let Some(value) = this.get_mut(key) else {
        return false;
    };
    if !judge.keep(key, value, Some(other)) {
        this.remove(key);
    }
    true
}

/// Asks at each key of the other map: `judge` where the map has it, whose value is then kept or
/// removed, and `other_alone` where it does not, which changes nothing.
pub fn keep_right<
    K: Ord + Drop,
    V: Drop,
    W,
    M: AbstractBTreeMap<K, W>,
    J: Keep<K, V, W>,
    G: Fn(&K, &W),
>(this: &mut BTreeMap<K, V>, that: &M, judge: &J, other_alone: &G)
    requires takes { (a : _) → IsAsked K.cmp kind.Inner right_spelling this.old.entries
        (M.pairs that.now) a → J.takes judge.now a }
    requires callable { (k : _) (w : _) → IsAsked {V = V} K.cmp kind.Right right_spelling
        this.old.entries (M.pairs that.now) (arg.Right k.now w.now) → G.pre other_alone.now k w }
    ensures { IsJoin K.cmp kind.Left right_spelling this.old.entries (M.pairs that.now)
        (OrStays (J.may judge.now)) (StayedKey K.cmp this.old.entries) this.new.entries }
{
    keys_ascend(this);
    'keys: for (key, other) in that.iter() {
        if !keep_at(this, key, other, judge) {
            other_alone(key, other);
        }
    }
}

/// Inserts the answer of `given` at each key that only the other map has, and returns the pairs of
/// the other map at the keys of both.
///
/// On refusal it has inserted some of them.
pub fn give_new<
    'm,
    K: Ord + Clone + Drop,
    V: Drop,
    W,
    M: AbstractBTreeMap<K, W>,
    G: Fn(&K, &W) -> Option<V>,
>(
    alloc: Global,
    this: &mut BTreeMap<K, V>,
    that: &'m M,
    given: &G,
) -> Result<Vec<(&'m K, &'m W)>, AllocError>
    requires clones { ClonesAreEqual K.cmp K.is_clone }
    requires callable { (k : _) (w : _) → IsAsked {V = V} K.cmp kind.Outer right_spelling
        this.old.entries (M.pairs that.now) (arg.Right k.now w.now) → G.pre given.now k w }
    ensures ascends { AscendsByKey K.cmp (M.pairs that.now) }
    ensures given { OnOk result (IsGiven K.cmp K.is_clone (MayGive G.Fn given.now)
        (M.pairs that.now) this.old.entries this.new.entries) }
    ensures shared { IfOk result (λ shared. map deref_pair shared.items
        ≡ shared_with K.cmp this.old.entries (M.pairs that.now)) }
    ensures grown { OnErr result (IsGrown K.cmp K.is_clone (MayGive G.Fn given.now)
        (M.pairs that.now) this.old.entries this.new.entries) }
{
    keys_ascend(this);
    let mut shared = Vec::new(alloc);
    'keys: for (key, other) in that.iter() {
        if this.contains_key(key) {
            shared.push((key, other))?;
        } else {
            put_answer(this, key, given(key, other))?;
        }
    }
    Ok(shared)
}

/// Decides at each of the pairs whether the value of the map at its key stays.
pub fn keep_shared<K: Ord + Drop, V: Drop, W, J: Keep<K, V, W>>(
    this: &mut BTreeMap<K, V>,
    shared: &[(&K, &W)],
    judge: &J,
)
    requires ascends { AscendsByKey K.cmp (map deref_pair shared.now) }
    requires takes { (k : K) (q : _) (p : _) → entry_at K.cmp (map deref_pair shared.now) k ≡ Some q
        → entry_at K.cmp this.old.entries k ≡ Some p → J.takes judge.now (arg.Both q.0 p.1 q.1) }
    ensures { IsKeptAlong K.cmp (J.may judge.now) (map deref_pair shared.now) this.old.entries
        this.new.entries }
{
    keys_ascend(this);
    'pairs: for (key, other) in shared {
        keep_at(this, *key, *other, judge);
    }
}

/// The outer join in place. First `given` is called at the keys that only the other map has, and
/// then `judge` at those that the map had before.
pub fn join_outer_with<
    K: Ord + Clone + Drop,
    V: Drop,
    W,
    M: AbstractBTreeMap<K, W>,
    J: Keep<K, V, W>,
    G: Fn(&K, &W) -> Option<V>,
>(
    alloc: Global,
    this: &mut BTreeMap<K, V>,
    that: &M,
    judge: &J,
    given: &G,
) -> Result<(), AllocError>
    requires clones { ClonesAreEqual K.cmp K.is_clone }
    requires takes { (k : K) (v : V) (w : _)
        → IsAsked K.cmp kind.Outer right_spelling this.old.entries (M.pairs that.now)
        (at_pair k v w) → J.takes judge.now (at_pair k v w) }
    requires callable { (k : _) (w : _) → IsAsked {V = V} K.cmp kind.Outer right_spelling
        this.old.entries (M.pairs that.now) (arg.Right k.now w.now) → G.pre given.now k w }
    ensures joins { OnOk result (IsJoin K.cmp kind.Outer right_spelling this.old.entries
        (M.pairs that.now) (OrGives (J.may judge.now) (MayGive G.Fn given.now))
        (StayedOrCloned K.cmp this.old.entries K.is_clone) this.new.entries) }
    ensures grown { OnErr result (IsGrown K.cmp K.is_clone (MayGive G.Fn given.now)
        (M.pairs that.now) this.old.entries this.new.entries) }
{
    let shared = give_new(alloc, this, that, given)?;
    keep_shared(this, &shared, judge);
    keep_each(this, that, &KeepAlone(judge));
    Ok(())
}
