//! Joins of maps that build a `BTreeMap`.

mod fresh;
mod in_place;
mod keep;

use keep::{KeepEach, KeepShared};
use std::alloc::{AllocError, Global};
use std::collections::{BTreeMap, btree_map};
use vc_joins::answers::{AskInner, AskLeft, AskOuter, AskRight};
use vc_joins::question::{JoinKind, OuterJoinArg};

/// The pairs of a map in ascending order of keys, by reference.
#[derive(Drop)]
pub enum AbstractBTreeMapIter<'a, K, V> {
    /// Those of a `BTreeMap`.
    BTreeMap(btree_map::Iter<'a, K, V>),
}

impl<'a, K, V> Iterator for AbstractBTreeMapIter<'a, K, V> {
    ghost use Rattle.std.specs.Prelude.{length};
    ghost use Rattle.std.specs.Iterator.{at_most};
    ghost use Rattle.vc_btree_maps.specs.Pairs.{pairs_left, GivesFirst};

    type Item = (&'a K, &'a V);

    ghost next_gives = { GivesFirst };

    ghost remaining = { λ s. at_most (length (pairs_left s)) };

    fn next(&mut self) -> Option<(&'a K, &'a V)> {
        match self {
            AbstractBTreeMapIter::BTreeMap(iter) => iter.next(),
        }
    }
}

/// A map whose pairs can be read in ascending order of keys, and looked up.
///
/// An implementation writes only `iter` and `get`, and the pairs that contracts see.
pub trait AbstractBTreeMap<K: Ord, V> {
    ghost use Rattle.vc_btree_maps.specs.Pairs.{pairs_left};
    ghost use Rattle.std.specs.Prelude.{◌≡◌, List, Ok, IfOk};
    ghost use Rattle.std.specs.Option.{option_copied};
    ghost use Rattle.vc_joins.specs.Answers.{seen, seen_left, seen_right, seen_inner, MayAnswer, MayAnswerLeft, MayAnswerRight, MayAnswerInner};
    ghost use Rattle.vc_joins.specs.Entries.{AscendsByKey, value_at};
    ghost use Rattle.vc_joins.specs.Join.{IsAsked, IsJoin, IsJoinBy};
    ghost use Rattle.vc_joins.specs.Question.{left_spelling, right_spelling, shown_key};
    ghost use Rattle.vc_joins.specs.Values.{in_both, in_either, in_left, in_right, AnswersBy, AnswersInnerBy, AnswersLeftBy, AnswersRightBy, JoinsValues};
    ghost use Rattle.vc_joins.specs.declared.question.JoinKind.TheVariants as kind;
    ghost use Rattle.vc_merge.specs.Clones.{ClonesAreEqual};

    ghost pairs: { Self → List (K × V) };

    /// The pairs in ascending order of keys, by reference. Takes no memory.
    fn iter(&self) -> AbstractBTreeMapIter<'_, K, V>
        ensures pairs { pairs_left result ≡ pairs self.now }
        ensures ascends { AscendsByKey K.cmp (pairs self.now) };

    /// The value at a key. Takes no memory.
    fn get(&self, key: &K) -> Option<&V>
        ensures { option_copied result ≡ value_at K.cmp (pairs self.now) key.now };

    /// The map of the answers of `f`, which is called at each key of either map. Of a
    /// key of both, `f` sees the one of this map, and the result has a clone of it.
    ///
    /// It looks up each key of either map in the other one, and inserts each answer under a clone
    /// of the key. Where a clone, memory or the closure is refused, what was built is dropped.
    final fn outer_join<
        W,
        X: Drop,
        M: AbstractBTreeMap<K, W>,
        F: Fn(OuterJoinArg<&K, &V, &W>) -> Result<Option<X>, AllocError> + Drop,
    >(&self, alloc: Global, that: &M, f: F) -> Result<BTreeMap<K, X>, AllocError>
    where
        K: Clone + Drop,
        requires clones { ClonesAreEqual K.cmp K.is_clone }
        requires callable { (a : _) → IsAsked K.cmp kind.Outer left_spelling (pairs self.now)
            (M.pairs that.now) a → (shown : _) → seen shown ≡ a → F.pre f shown }
        ensures joins { IfOk result (λ m. IsJoin K.cmp kind.Outer left_spelling (pairs self.now)
            (M.pairs that.now) (λ a r. MayAnswer F.Fn f a (Ok r)) (λ a. K.is_clone (shown_key a))
            m.entries) }
        ensures function { IfOk result (λ m. (h : _)
            → IsJoinBy K.cmp kind.Outer left_spelling (pairs self.now) (M.pairs that.now)
            (λ a r. MayAnswer F.Fn f a (Ok r)) h m.entries) }
        ensures values { IfOk result (λ m. (h : _) → AnswersBy F.Fn f h
            → JoinsValues K.cmp (in_either h) (pairs self.now) (M.pairs that.now) m.entries) }
    {
        fresh::join_outer(alloc, self, that, &AskOuter(&f))
    }

    /// The map of the answers of `f`, which is called at each key of this map and sees the keys of
    /// this map, and the result has clones of these.
    ///
    /// It looks up each key at which `f` is called, and inserts each answer under a clone of the
    /// key. Where a clone, memory or the closure is refused, what was built is dropped.
    final fn left_join<
        W,
        X: Drop,
        M: AbstractBTreeMap<K, W>,
        F: Fn(&K, &V, Option<&W>) -> Result<Option<X>, AllocError> + Drop,
    >(&self, alloc: Global, that: &M, f: F) -> Result<BTreeMap<K, X>, AllocError>
    where
        K: Clone + Drop,
        requires clones { ClonesAreEqual K.cmp K.is_clone }
        requires callable { (a : _) → IsAsked K.cmp kind.Left left_spelling (pairs self.now)
            (M.pairs that.now) a → (k : _) (v : _) (w : _) → seen_left k v w ≡ a → F.pre f k v w }
        ensures joins { IfOk result (λ m. IsJoin K.cmp kind.Left left_spelling (pairs self.now)
            (M.pairs that.now) (λ a r. MayAnswerLeft F.Fn f a (Ok r))
            (λ a. K.is_clone (shown_key a)) m.entries) }
        ensures function { IfOk result (λ m. (h : _)
            → IsJoinBy K.cmp kind.Left left_spelling (pairs self.now) (M.pairs that.now)
            (λ a r. MayAnswerLeft F.Fn f a (Ok r)) h m.entries) }
        ensures values { IfOk result (λ m. (h : _) → AnswersLeftBy F.Fn f h
            → JoinsValues K.cmp (in_left h) (pairs self.now) (M.pairs that.now) m.entries) }
    {
        fresh::join_left(alloc, self, that, &AskLeft(&f))
    }

    /// The map of the answers of `f`, which is called at each key of the other map and sees the
    /// keys of the other map, and the result has clones of these.
    ///
    /// It looks up each key at which `f` is called, and inserts each answer under a clone of the
    /// key. Where a clone, memory or the closure is refused, what was built is dropped.
    final fn right_join<
        W,
        X: Drop,
        M: AbstractBTreeMap<K, W>,
        F: Fn(&K, Option<&V>, &W) -> Result<Option<X>, AllocError> + Drop,
    >(&self, alloc: Global, that: &M, f: F) -> Result<BTreeMap<K, X>, AllocError>
    where
        K: Clone + Drop,
        requires clones { ClonesAreEqual K.cmp K.is_clone }
        requires callable { (a : _) → IsAsked K.cmp kind.Right right_spelling (pairs self.now)
            (M.pairs that.now) a → (k : _) (v : _) (w : _) → seen_right k v w ≡ a → F.pre f k v w }
        ensures joins { IfOk result (λ m. IsJoin K.cmp kind.Right right_spelling (pairs self.now)
            (M.pairs that.now) (λ a r. MayAnswerRight F.Fn f a (Ok r))
            (λ a. K.is_clone (shown_key a)) m.entries) }
        ensures function { IfOk result (λ m. (h : _)
            → IsJoinBy K.cmp kind.Right right_spelling (pairs self.now) (M.pairs that.now)
            (λ a r. MayAnswerRight F.Fn f a (Ok r)) h m.entries) }
        ensures values { IfOk result (λ m. (h : _) → AnswersRightBy F.Fn f h
            → JoinsValues K.cmp (in_right h) (pairs self.now) (M.pairs that.now) m.entries) }
    {
        fresh::join_right(alloc, self, that, &AskRight(&f))
    }

    /// The map of the answers of `f`, which is called at each key of both maps and sees the keys of
    /// the other map, and the result has clones of these.
    ///
    /// It looks up each key of the other map, and inserts each answer under a clone of the key.
    /// Where a clone, memory or the closure is refused, what was built is dropped.
    final fn inner_join<
        W,
        X: Drop,
        M: AbstractBTreeMap<K, W>,
        F: Fn(&K, &V, &W) -> Result<Option<X>, AllocError> + Drop,
    >(&self, alloc: Global, that: &M, f: F) -> Result<BTreeMap<K, X>, AllocError>
    where
        K: Clone + Drop,
        requires clones { ClonesAreEqual K.cmp K.is_clone }
        requires callable { (a : _) → IsAsked K.cmp kind.Inner right_spelling (pairs self.now)
            (M.pairs that.now) a → (k : _) (v : _) (w : _) → seen_inner k v w ≡ a → F.pre f k v w }
        ensures joins { IfOk result (λ m. IsJoin K.cmp kind.Inner right_spelling (pairs self.now)
            (M.pairs that.now) (λ a r. MayAnswerInner F.Fn f a (Ok r))
            (λ a. K.is_clone (shown_key a)) m.entries) }
        ensures function { IfOk result (λ m. (h : _)
            → IsJoinBy K.cmp kind.Inner right_spelling (pairs self.now) (M.pairs that.now)
            (λ a r. MayAnswerInner F.Fn f a (Ok r)) h m.entries) }
        ensures values { IfOk result (λ m. (h : _) → AnswersInnerBy F.Fn f h
            → JoinsValues K.cmp (in_both h) (pairs self.now) (M.pairs that.now) m.entries) }
    {
        fresh::join_inner(alloc, self, that, &AskInner(&f))
    }
}

impl<K: Ord, V> AbstractBTreeMap<K, V> for BTreeMap<K, V> {
    ghost pairs = { λ m. m.entries };

    fn iter(&self) -> AbstractBTreeMapIter<'_, K, V> {
        AbstractBTreeMapIter::BTreeMap(self.iter())
    }

    fn get(&self, key: &K) -> Option<&V> {
        self.get(key)
    }
}

/// Joins in place: which values of a map stay, given another map that can be looked up.
///
/// A pair that stays keeps its key, not the equal one of the other map.
pub trait InPlaceRelationalOps<K: Ord, V>: AbstractBTreeMap<K, V> {
    ghost use Rattle.std.specs.Prelude.{OnOk, OnErr};
    ghost use Rattle.vc_joins.specs.declared.question.OuterJoinArg.TheVariants as arg;
    ghost use Rattle.vc_joins.specs.declared.question.JoinKind.TheVariants as kind;
    ghost use Rattle.vc_joins.specs.Join.{IsAsked, IsJoin, IsJoinBy, MovedKey};
    ghost use Rattle.vc_joins.specs.Question.{left_spelling, right_spelling};
    ghost use Rattle.vc_joins.specs.Values.{in_both, in_left, JoinsValues};
    ghost use Rattle.vc_btree_maps.specs.Keeping.{at_pair, MayLeave, MayLeaveShared, MayGive, OrStays, OrGives, StayedKey, StayedOrCloned, IsGrown};
    ghost use Rattle.vc_btree_maps.specs.KeepingValues.{or_stays, or_given, LeavesBy, LeavesSharedBy, GivesBy};
    ghost use Rattle.std.specs.Option.{option_copied};
    ghost use Rattle.vc_merge.specs.Clones.{ClonesAreEqual};

    /// Calls `f` at each key of both maps; it may change the value. Keeps the value where `f`
    /// answers true, and drops all others.
    ///
    /// Calls `f` once for each key, in ascending order, with the key of this map. Looks each key of
    /// this map up in the other one, and takes no memory.
    ///
    /// ```
    /// stock.inner_join_with(&orders, |_: &u32, count: &mut u32, wanted: &u32| *count >= *wanted);
    /// ```
    fn inner_join_with<W, M: AbstractBTreeMap<K, W>, F: Fn(&K, &mut V, &W) -> bool + Drop>(
        &mut self,
        that: &M,
        f: F,
    )
    where
        K: Drop,
        V: Drop,
        requires callable { (k : _) (v : _) (w : _)
            → IsAsked K.cmp kind.Inner left_spelling (Self.pairs self.old) (M.pairs that.now)
            (arg.Both k.now v.now w.now) → F.pre f k v w }
        ensures joins { IsJoin K.cmp kind.Inner left_spelling (Self.pairs self.old)
            (M.pairs that.now) (MayLeaveShared F.Fn f) MovedKey (Self.pairs self.new) }
        ensures function { (h : _) → IsJoinBy K.cmp kind.Inner left_spelling (Self.pairs self.old)
            (M.pairs that.now) (MayLeaveShared F.Fn f) h (Self.pairs self.new) }
        ensures values { (h : _) → LeavesSharedBy F.Fn f h → JoinsValues K.cmp (in_both h)
            (Self.pairs self.old) (M.pairs that.now) (Self.pairs self.new) };

    /// Calls `f` at each key of this map; it may change the value. Keeps the value where `f`
    /// answers true, and drops the others.
    ///
    /// Calls `f` once for each key, in ascending order, with the key of this map. Looks each key up
    /// in the other map, and takes no memory.
    fn left_join_with<W, M: AbstractBTreeMap<K, W>, F: Fn(&K, &mut V, Option<&W>) -> bool + Drop>(
        &mut self,
        that: &M,
        f: F,
    )
    where
        K: Drop,
        V: Drop,
        requires callable { (k : _) (v : _) (w : _)
            → IsAsked K.cmp kind.Left left_spelling (Self.pairs self.old) (M.pairs that.now)
            (at_pair k.now v.now (option_copied w)) → F.pre f k v w }
        ensures joins { IsJoin K.cmp kind.Left left_spelling (Self.pairs self.old)
            (M.pairs that.now) (MayLeave F.Fn f) MovedKey (Self.pairs self.new) }
        ensures function { (h : _) → IsJoinBy K.cmp kind.Left left_spelling (Self.pairs self.old)
            (M.pairs that.now) (MayLeave F.Fn f) h (Self.pairs self.new) }
        ensures values { (h : _) → LeavesBy F.Fn f h → JoinsValues K.cmp (in_left h)
            (Self.pairs self.old) (M.pairs that.now) (Self.pairs self.new) };

    /// Calls a closure at each key of the other map. At a key of both maps it calls `f`, which may
    /// change the value, and drops the value where `f` answers false. At a key that this map lacks
    /// it calls `other_alone`, and inserts nothing there. What this map has at keys that the other
    /// one lacks is unchanged.
    ///
    /// Each closure is called once for each key, in ascending order, with the key of the other map.
    /// Looks each key of the other map up in this one, and takes no memory.
    fn right_join_with<
        W,
        M: AbstractBTreeMap<K, W>,
        F: Fn(&K, &mut V, &W) -> bool + Drop,
        G: Fn(&K, &W) + Drop,
    >(&mut self, that: &M, f: F, other_alone: G)
    where
        K: Drop,
        V: Drop,
        requires callable { (k : _) (v : _) (w : _)
            → IsAsked K.cmp kind.Inner right_spelling (Self.pairs self.old) (M.pairs that.now)
            (arg.Both k.now v.now w.now) → F.pre f k v w }
        requires callable_alone { (k : _) (w : _)
            → IsAsked K.cmp kind.Right right_spelling (Self.pairs self.old) (M.pairs that.now)
            (arg.Right k.now w.now) → G.pre other_alone k w }
        ensures joins { IsJoin K.cmp kind.Left right_spelling (Self.pairs self.old)
            (M.pairs that.now) (OrStays (MayLeaveShared F.Fn f))
            (StayedKey K.cmp (Self.pairs self.old)) (Self.pairs self.new) }
        ensures function { (h : _) → IsJoinBy K.cmp kind.Left right_spelling (Self.pairs self.old)
            (M.pairs that.now) (OrStays (MayLeaveShared F.Fn f)) h (Self.pairs self.new) }
        ensures values { (h : _) → LeavesSharedBy F.Fn f h
            → JoinsValues K.cmp (in_left (or_stays h)) (Self.pairs self.old) (M.pairs that.now)
            (Self.pairs self.new) };

    /// Calls a closure at each key of either map. First it calls `other_alone` at the keys that
    /// only the other map has, and inserts its answers under clones of these keys. Then it calls
    /// `f` at the keys that this map had before; `f` may change the value, which is dropped where
    /// `f` answers false.
    ///
    /// Each key is asked once. Of a key of both maps, the closure sees the one of the other map.
    /// Between the two passes a list holds the pairs of the other map at shared keys, so that `f`
    /// is called at no inserted key. That costs two references for each shared key, and each key of
    /// either map is looked up in the other one at most twice.
    ///
    /// Where memory, a clone or an insertion is refused, the pairs that it had are unchanged, and
    /// `f` was not called. Some pairs that `other_alone` gave at keys of only the other map may be
    /// inserted.
    fn outer_join_with<
        W,
        M: AbstractBTreeMap<K, W>,
        F: Fn(&K, &mut V, Option<&W>) -> bool + Drop,
        G: Fn(&K, &W) -> Option<V> + Drop,
    >(&mut self, alloc: Global, that: &M, f: F, other_alone: G) -> Result<(), AllocError>
    where
        K: Clone + Drop,
        V: Drop,
        requires clones { ClonesAreEqual K.cmp K.is_clone }
        requires callable { (k : _) (v : _) (w : _)
            → IsAsked K.cmp kind.Outer right_spelling (Self.pairs self.old) (M.pairs that.now)
            (at_pair k.now v.now (option_copied w)) → F.pre f k v w }
        requires callable_alone { (k : _) (w : _)
            → IsAsked K.cmp kind.Outer right_spelling (Self.pairs self.old) (M.pairs that.now)
            (arg.Right k.now w.now) → G.pre other_alone k w }
        ensures joins { OnOk result (IsJoin K.cmp kind.Outer right_spelling (Self.pairs self.old)
            (M.pairs that.now) (OrGives (MayLeave F.Fn f) (MayGive G.Fn other_alone))
            (StayedOrCloned K.cmp (Self.pairs self.old) K.is_clone) (Self.pairs self.new)) }
        ensures function { OnOk result ((h : _)
            → IsJoinBy K.cmp kind.Outer right_spelling (Self.pairs self.old) (M.pairs that.now)
            (OrGives (MayLeave F.Fn f) (MayGive G.Fn other_alone)) h (Self.pairs self.new)) }
        ensures values { OnOk result ((h : _) (i : _) → LeavesBy F.Fn f h
            → GivesBy G.Fn other_alone i → JoinsValues K.cmp (or_given h i)
            (Self.pairs self.old) (M.pairs that.now) (Self.pairs self.new)) }
        ensures grown { OnErr result (IsGrown K.cmp K.is_clone (MayGive G.Fn other_alone)
            (M.pairs that.now) (Self.pairs self.old) (Self.pairs self.new)) };
}

impl<K: Ord, V> InPlaceRelationalOps<K, V> for BTreeMap<K, V> {
    fn inner_join_with<W, M: AbstractBTreeMap<K, W>, F: Fn(&K, &mut V, &W) -> bool + Drop>(
        &mut self,
        that: &M,
        f: F,
    )
    where
        K: Drop,
        V: Drop,
    {
        in_place::keep_each(self, that, &KeepShared(&f));
    }

    fn left_join_with<W, M: AbstractBTreeMap<K, W>, F: Fn(&K, &mut V, Option<&W>) -> bool + Drop>(
        &mut self,
        that: &M,
        f: F,
    )
    where
        K: Drop,
        V: Drop,
    {
        in_place::keep_each(self, that, &KeepEach(&f));
    }

    fn right_join_with<
        W,
        M: AbstractBTreeMap<K, W>,
        F: Fn(&K, &mut V, &W) -> bool + Drop,
        G: Fn(&K, &W) + Drop,
    >(&mut self, that: &M, f: F, other_alone: G)
    where
        K: Drop,
        V: Drop,
    {
        in_place::keep_right(self, that, &KeepShared(&f), &other_alone);
    }

    fn outer_join_with<
        W,
        M: AbstractBTreeMap<K, W>,
        F: Fn(&K, &mut V, Option<&W>) -> bool + Drop,
        G: Fn(&K, &W) -> Option<V> + Drop,
    >(&mut self, alloc: Global, that: &M, f: F, other_alone: G) -> Result<(), AllocError>
    where
        K: Clone + Drop,
        V: Drop,
    {
        in_place::join_outer_with(alloc, self, that, &KeepEach(&f), &other_alone)
    }
}
