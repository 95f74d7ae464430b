//! Joins that change a map in place. Its values are moved into the closure and back, and never
//! cloned; its old keys are kept.
ghost use Rattle.std.specs.Prelude.{◌≡◌, ◌+◌, ◌≤◌, true, false, length, IsOk, OnErr, OnOk};
ghost use Rattle.vc_joins.specs.InPlace.{handed, handed_left, handed_right, handed_inner, MayTurn, MayTurnLeft, MayTurnRight, MayTurnInner};
ghost use Rattle.vc_joins.specs.Join.{IsAsked, IsJoin, IsJoinBy, OldKey};
ghost use Rattle.vc_joins.specs.Question.{asks_right, left_spelling};
ghost use Rattle.vc_joins.specs.Values.{in_both, in_either, in_kind, in_left, in_right, JoinsValues, TurnsBy, TurnsInnerBy, TurnsLeftBy, TurnsRightBy};
ghost use Rattle.vc_merge.specs.Count.{bound};
ghost use Rattle.vc_merge.specs.Clones.{ClonesAreEqual};

use super::{AbstractVecMap, VecMap};
use crate::in_place::join;
use std::alloc::{AllocError, Allocator};
use std::default::MadeWith;
use vc_joins::answers::{AskInner, AskLeft, AskOuter, AskRight};
use vc_joins::question::{JoinKind, OuterJoinArg};
use vc_merge::merge::{Steps, Uncounted};

impl<K: Ord + Clone + Drop, V: Drop, const N: usize, A: Allocator + Copy> VecMap<K, V, N, A>
where
    (K, V): MadeWith<A>,
{
    /// Calls `f` at each key of either map, and binds the key to the answer, if there is one;
    /// otherwise the key is removed.
    ///
    /// Calls `f` once for each key, in ascending order. `f` takes the value of this map by value,
    /// and that of `that` by reference. A key of this map is kept; a key of `that` alone is cloned.
    ///
    /// It allocates at most once, and clones each key of `that`, before the first call. On refusal
    /// there it leaves the map unchanged and has not called `f`.
    ///
    /// ```
    /// stock.outer_join_with(&delivery, |at: OuterJoinArg<&u32, u32, &u32>| match at {
    ///     OuterJoinArg::Left(_, held) => Some(held),
    ///     OuterJoinArg::Right(_, more) => Some(*more),
    ///     OuterJoinArg::Both(_, held, more) => held.checked_add(*more),
    /// })?;
    /// ```
    pub fn outer_join_with<
        W,
        M: AbstractVecMap<K, W>,
        F: Fn(OuterJoinArg<&K, V, &W>) -> Option<V> + Drop,
    >(&mut self, that: &M, f: F) -> Result<(), AllocError>
        requires clones { ClonesAreEqual K.cmp K.is_clone }
        requires callable { (a : _) → IsAsked K.cmp JoinKind.Outer left_spelling self.old
            (M.pairs that.now) (handed a) → F.pre f a }
        ensures joins { OnOk result (IsJoin K.cmp JoinKind.Outer left_spelling self.old
            (M.pairs that.now) (λ a r. MayTurn F.Fn f a r) (OldKey K.is_clone) self.new) }
        ensures function { OnOk result ((h : _)
            → IsJoinBy K.cmp JoinKind.Outer left_spelling self.old (M.pairs that.now)
            (λ a r. MayTurn F.Fn f a r) h self.new) }
        ensures values { OnOk result ((h : _) → TurnsBy F.Fn f h
            → JoinsValues K.cmp (in_either h) self.old (M.pairs that.now) self.new) }
        ensures err { OnErr result (self.new ≡ self.old) }
    {
        join(
            &mut self.pairs,
            that.as_slice(),
            JoinKind::Outer,
            &AskOuter(&f),
            &mut Uncounted,
        )
    }

    /// Calls `f` at each key of this map, and binds the key to the answer, if there is one;
    /// otherwise the key is removed. `f` takes the value of this map by value, and that of `that`
    /// by reference, where it has the key.
    ///
    /// Calls `f` once for each key, in ascending order. Keys are kept, and none is cloned. Takes no
    /// memory, so it always succeeds.
    pub fn left_join_with<W, M: AbstractVecMap<K, W>, F: Fn(&K, V, Option<&W>) -> Option<V> + Drop>(
        &mut self,
        that: &M,
        f: F,
    ) -> Result<(), AllocError>
        requires callable { (k : _) (v : _) (w : _)
            → IsAsked K.cmp JoinKind.Left left_spelling self.old (M.pairs that.now)
            (handed_left k v w) → F.pre f k v w }
        ensures joins { IsJoin K.cmp JoinKind.Left left_spelling self.old (M.pairs that.now)
            (λ a r. MayTurnLeft F.Fn f a r) (OldKey K.is_clone) self.new }
        ensures function { (h : _) → IsJoinBy K.cmp JoinKind.Left left_spelling self.old
            (M.pairs that.now) (λ a r. MayTurnLeft F.Fn f a r) h self.new }
        ensures values { (h : _) → TurnsLeftBy F.Fn f h
            → JoinsValues K.cmp (in_left h) self.old (M.pairs that.now) self.new }
        ensures always { IsOk result }
    {
        join(
            &mut self.pairs,
            that.as_slice(),
            JoinKind::Left,
            &AskLeft(&f),
            &mut Uncounted,
        )
    }

    /// Calls `f` at each key of `that`, and binds the key to the answer, if there is one. All other
    /// keys are dropped. `f` takes the value of this map by value, where it has the key, and that
    /// of `that` by reference.
    ///
    /// Calls `f` once for each key, in ascending order. A key of this map is kept; a key of `that`
    /// alone is cloned.
    ///
    /// It allocates at most once, and clones each key of `that`, before the first call. On refusal
    /// there it leaves the map unchanged and has not called `f`.
    pub fn right_join_with<
        W,
        M: AbstractVecMap<K, W>,
        F: Fn(&K, Option<V>, &W) -> Option<V> + Drop,
    >(&mut self, that: &M, f: F) -> Result<(), AllocError>
        requires clones { ClonesAreEqual K.cmp K.is_clone }
        requires callable { (k : _) (v : _) (w : _)
            → IsAsked K.cmp JoinKind.Right left_spelling self.old (M.pairs that.now)
            (handed_right k v w) → F.pre f k v w }
        ensures joins { OnOk result (IsJoin K.cmp JoinKind.Right left_spelling self.old
            (M.pairs that.now) (λ a r. MayTurnRight F.Fn f a r) (OldKey K.is_clone) self.new) }
        ensures function { OnOk result ((h : _)
            → IsJoinBy K.cmp JoinKind.Right left_spelling self.old (M.pairs that.now)
            (λ a r. MayTurnRight F.Fn f a r) h self.new) }
        ensures values { OnOk result ((h : _) → TurnsRightBy F.Fn f h
            → JoinsValues K.cmp (in_right h) self.old (M.pairs that.now) self.new) }
        ensures err { OnErr result (self.new ≡ self.old) }
    {
        join(
            &mut self.pairs,
            that.as_slice(),
            JoinKind::Right,
            &AskRight(&f),
            &mut Uncounted,
        )
    }

    /// Calls `f` at each key of both maps, and binds the key to the answer, if there is one. All
    /// other keys are dropped. `f` takes the value of this map by value, and that of `that` by
    /// reference.
    ///
    /// Calls `f` once for each key, in ascending order. Keys are kept, and none is cloned. Takes no
    /// memory, so it always succeeds.
    pub fn inner_join_with<W, M: AbstractVecMap<K, W>, F: Fn(&K, V, &W) -> Option<V> + Drop>(
        &mut self,
        that: &M,
        f: F,
    ) -> Result<(), AllocError>
        requires callable { (k : _) (v : _) (w : _)
            → IsAsked K.cmp JoinKind.Inner left_spelling self.old (M.pairs that.now)
            (handed_inner k v w) → F.pre f k v w }
        ensures joins { IsJoin K.cmp JoinKind.Inner left_spelling self.old (M.pairs that.now)
            (λ a r. MayTurnInner F.Fn f a r) (OldKey K.is_clone) self.new }
        ensures function { (h : _) → IsJoinBy K.cmp JoinKind.Inner left_spelling self.old
            (M.pairs that.now) (λ a r. MayTurnInner F.Fn f a r) h self.new }
        ensures values { (h : _) → TurnsInnerBy F.Fn f h
            → JoinsValues K.cmp (in_both h) self.old (M.pairs that.now) self.new }
        ensures always { IsOk result }
    {
        join(
            &mut self.pairs,
            that.as_slice(),
            JoinKind::Inner,
            &AskInner(&f),
            &mut Uncounted,
        )
    }

    /// The join of this kind in place, as by [`outer_join_with`](VecMap::outer_join_with), with its
    /// comparisons counted. `f` is called only at the keys that the kind names. Makes one merge,
    /// with at most as many comparisons as both maps have pairs. For each pair of the shorter map
    /// it makes at most as many as the length of the longer one has binary digits.
    ///
    /// A left or inner join takes no memory, so it always succeeds. An outer or right one that is
    /// refused leaves the map unchanged, and has not called `f`.
    ///
    /// ```
    /// let mut steps = Steps::new();
    /// stock.join_with_counted(&delivery, JoinKind::Inner, f, &mut steps)?;
    /// ```
    pub fn join_with_counted<
        W,
        M: AbstractVecMap<K, W>,
        F: Fn(OuterJoinArg<&K, V, &W>) -> Option<V> + Drop,
    >(&mut self, that: &M, kind: JoinKind, f: F, steps: &mut Steps) -> Result<(), AllocError>
        requires clones { asks_right kind ≡ true → ClonesAreEqual K.cmp K.is_clone }
        requires callable { (a : _)
            → IsAsked K.cmp kind left_spelling self.old (M.pairs that.now) (handed a) → F.pre f a }
        ensures joins { OnOk result (IsJoin K.cmp kind left_spelling self.old (M.pairs that.now)
            (λ a r. MayTurn F.Fn f a r) (OldKey K.is_clone) self.new) }
        ensures function { OnOk result ((h : _)
            → IsJoinBy K.cmp kind left_spelling self.old (M.pairs that.now)
            (λ a r. MayTurn F.Fn f a r) h self.new) }
        ensures values { OnOk result ((h : _) → TurnsBy F.Fn f h
            → JoinsValues K.cmp (in_kind kind h) self.old (M.pairs that.now) self.new) }
        ensures counted { steps.new
            ≤ steps.old + bound (length self.old) (length (M.pairs that.now)) }
        ensures grows { steps.old ≤ steps.new }
        ensures no_memory { asks_right kind ≡ false → IsOk result }
        ensures err { OnErr result (self.new ≡ self.old) }
    {
        let mut own = Steps::new();
        let joined = join(
            &mut self.pairs,
            that.as_slice(),
            kind,
            &AskOuter(&f),
            &mut own,
        );
        steps.add(&own);
        joined
    }
}
