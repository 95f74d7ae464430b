//! How changes of a tree by another one treat values, and trees that only one side has.

ghost use Rattle.std.specs.Prelude.{◌≡◌, ◌<◌, Option, Some, None, IfOk, length, refl};
ghost use Rattle.std.specs.Option.{option_copied};
ghost use Rattle.vc_tree_model.specs.Asking.{CanJudge, MayJudge};
ghost use Rattle.vc_tree_model.specs.Canonical.{IsCanonical};
ghost use Rattle.vc_tree_model.specs.Combine.{IsOuterAt};
ghost use Rattle.vc_tree_model.specs.Map.{or_else};
ghost use Rattle.vc_tree_model.specs.Tree.{shortened};
ghost use Rattle.vc_tree_model.specs.Look.{values};
ghost use Rattle.vc_tree_edits.specs.Covers.{covers};
ghost use Rattle.vc_tree_edits.specs.Editing.{MayLeave, CanLeave, KeptThen, CanMeet, IsMetAt};
ghost use Rattle.vc_tree_edits.specs.Editing.{IsJudged, IsSiftedBy, stays_by};
ghost use Rattle.vc_tree_edits.specs.Saying.{sifted_kept, outer_kept, outer_left, met_kept, meet_kept};

use crate::engine::Change;
use crate::lessening::Lessen;
use std::alloc::{AllocError, Global};
use vc_tree_nodes::building::{Build, Seal};
use vc_tree_nodes::children::{Fragment, Parts};
use vc_tree_nodes::copying::{clone_value, copy_shortened};
use vc_tree_nodes::reading::{RadixNode, TKey, TValue, canonical};

/// The tree without the first `from` components of its prefix.
pub(crate) fn shorten<K: TKey, V: TValue, T: Build<K, V>>(
    alloc: Global,
    tree: T,
    from: usize,
) -> Result<T, AllocError>
    requires { from < length (T.tree tree).prefix }
    ensures left { IfOk result (λ left. T.tree left ≡ shortened from (T.tree tree)) }
    ensures canonical { IsCanonical K.cmp (T.tree tree) }
{
    canonical(&tree);
    if from == 0 {
        return Ok(tree);
    }
    let prefix = T::Prefix::from_slice(alloc, &tree.prefix()[from..])?;
    let Parts {
        prefix: _,
        value,
        children,
    } = tree.take_apart(Seal::new());
    Ok(T::assemble(prefix, value, children, Seal::new()))
}

/// Keeps the keys that the right tree covers, or the others.
#[derive(Drop)]
pub struct Sift<'f, F> {
    /// Judges the value of a key that covers others.
    pub judge: &'f F,
    /// The verdict of the longest key that was met, or false.
    pub covered: bool,
    /// Whether the keys that are covered stay.
    pub retains: bool,
}

impl<'f, F> Sift<'f, F> {
    /// Whether keys stay that no further key covers.
    fn stays(&self) -> bool
        ensures { result ≡ stays_by self.now.retains self.now.covered }
    {
        self.covered == self.retains
    }

    /// The verdict on a key with this value, if it is bound, and on what it covers.
    fn verdict<W>(&self, w: Option<&W>) -> bool
    where
        F: Fn(&W) -> bool,
        requires { CanJudge F.Fn self.now.judge.now (option_copied w) }
        ensures { IsJudged (MayJudge F.Fn self.now.judge.now) self.now.covered
            (option_copied w.entry) result }
    {
        match w {
            Some(w) => (self.judge)(w),
            None => self.covered,
        }
    }
}

impl<'f, K: TKey, V: TValue, W: TValue, T: Build<K, V>, F: Fn(&W) -> bool> Lessen<K, V, W, T>
    for Sift<'f, F> {
    ghost look = { λ cmp. covers cmp };

    ghost says = { λ op.
        IsSiftedBy T.keeps (MayJudge F.Fn op.judge.now) op.covered (stays_by op.retains) };

    ghost asks = { λ op v w. CanJudge F.Fn op.judge.now w };

    ghost says_nothing = { λ op w. refl };

    ghost asks_none = { λ op. tt };

    ghost says_kept = { λ op. sifted_kept T.keeps T.keeps_trans (MayJudge F.Fn op.judge.now)
        op.covered (stays_by op.retains) };

    ghost asks_kept = { λ op u v w k a. a };

    #[tactic(auto, using(crate::proofs::Sifting::sifting))]
    fn at_values(&self, v: Option<V>, w: Option<&W>) -> (Option<V>, Sift<'f, F>)
        requires { CanJudge F.Fn self.now.judge.now (option_copied w) }
        ensures value { IsSiftedBy T.keeps (MayJudge F.Fn self.now.judge.now) self.now.covered
            (stays_by self.now.retains) v (option_copied w.entry) result.0 }
        ensures below { (u : Option V) (o : Option W) (z : Option V) → IsSiftedBy T.keeps
            (MayJudge F.Fn result.1.judge.now) result.1.covered (stays_by result.1.retains) u o z
            → IsSiftedBy T.keeps (MayJudge F.Fn self.now.judge.now) self.now.covered
            (stays_by self.now.retains) u (or_else o (option_copied w.entry)) z }
        ensures asked { (u : Option V) (o : Option W)
            → CanJudge F.Fn self.now.judge.now (or_else o (option_copied w.entry))
            → CanJudge F.Fn result.1.judge.now o }
    {
        let below = Sift {
            judge: self.judge,
            covered: self.verdict(w),
            retains: self.retains,
        };
        let kept = if below.stays() { v } else { None };
        (kept, below)
    }

    fn left_stays(&self) -> bool {
        self.stays()
    }
}

/// How a value of the left tree changes at a key of both.
pub trait Meet<V, W> {
    /// Whether it may be applied to these values.
    ghost takes: { Self → V → W → Type 0 };

    /// What it may leave of them.
    ghost may: { Self → V → W → Option V → Type 0 };

    /// What is left of the value.
    fn meet(&self, v: V, w: &W) -> Option<V>
        requires { takes self.now v w.now }
        ensures { may self.now v w.entry.now result };
}

/// A closure may change the value, and answers whether it stays.
#[derive(Drop)]
pub struct Asked<'f, F>(pub &'f F);

impl<'f, V: Drop, W, F: Fn(&mut V, &W) -> bool> Meet<V, W> for Asked<'f, F> {
    ghost takes = { λ q v w. CanLeave F.Fn q.0.now v w };

    ghost may = { λ q v w z. MayLeave F.Fn q.0.now v w z };

    fn meet(&self, v: V, w: &W) -> Option<V> {
        let mut v = v;
        if (self.0)(&mut v, w) { Some(v) } else { None }
    }
}

/// The same with a closure whose two values have one type.
#[derive(Drop)]
pub struct AskedAlike<'f, F>(pub &'f F);

impl<'f, V: Drop, F: Fn(&mut V, &V) -> bool> Meet<V, V> for AskedAlike<'f, F> {
    ghost takes = { λ q v w. CanLeave F.Fn q.0.now v w };

    ghost may = { λ q v w z. MayLeave F.Fn q.0.now v w z };

    fn meet(&self, v: V, w: &V) -> Option<V> {
        let mut v = v;
        if (self.0)(&mut v, w) { Some(v) } else { None }
    }
}

/// The value of the left stays.
#[derive(Drop)]
pub struct Stays;

impl<V, W> Meet<V, W> for Stays {
    ghost takes = { λ _ _ _. Unit {0} };

    ghost may = { λ _ v w z. z ≡ Some v };

    fn meet(&self, v: V, w: &W) -> Option<V> {
        Some(v)
    }
}

/// No value stays.
#[derive(Drop)]
pub struct Goes;

impl<V: Drop, W> Meet<V, W> for Goes {
    ghost takes = { λ _ _ _. Unit {0} };

    ghost may = { λ _ v w z. z ≡ None };

    fn meet(&self, v: V, w: &W) -> Option<V> {
        None
    }
}

/// Keeps the keys of either side: a value of only one side is kept, or comes in as a clone.
#[derive(Drop)]
pub struct KeepAll<'m, M> {
    /// How the values of the shared keys change.
    pub at: &'m M,
}

impl<'m, K: TKey, V: TValue, B: RadixNode<K, V>, T: Build<K, V>, M: Meet<V, V>> Change<
    K,
    V,
    V,
    B,
    T,
> for KeepAll<'m, M> {
    ghost look = { λ cmp. values cmp };

    ghost says = { λ op. IsOuterAt T.keeps V.is_clone (KeptThen T.keeps (M.may op.at.now)) };

    ghost asks = { λ op. CanMeet T.keeps (M.takes op.at.now) };

    ghost says_none = { λ op. tt };

    ghost says_left = { λ op. outer_left T.keeps V.is_clone (M.may op.at.now) };

    ghost asks_none = { λ op. tt };

    ghost says_kept = { λ op. outer_kept T.keeps T.keeps_trans V.is_clone (M.may op.at.now) };

    ghost asks_kept = { λ op. meet_kept T.keeps T.keeps_trans (M.takes op.at.now) };

    fn at_values(
        &self,
        v: Option<V>,
        w: Option<&V>,
    ) -> Result<(Option<V>, KeepAll<'m, M>), AllocError>
        requires { CanMeet T.keeps (M.takes self.now.at.now) v (option_copied w) }
        ensures value { IfOk result (λ r. IsOuterAt T.keeps V.is_clone
            (KeptThen T.keeps (M.may self.now.at.now)) v (option_copied w.entry) r.0) }
        ensures below { IfOk result (λ r. (u : Option V) (o : Option V) (z : Option V)
            → IsOuterAt T.keeps V.is_clone (KeptThen T.keeps (M.may r.1.at.now)) u o z
            → IsOuterAt T.keeps V.is_clone (KeptThen T.keeps (M.may self.now.at.now)) u o z) }
        ensures asked { IfOk result (λ r. (u : Option V) (o : Option V)
            → CanMeet T.keeps (M.takes self.now.at.now) u o
            → CanMeet T.keeps (M.takes r.1.at.now) u o) }
    {
        let kept = match v {
            Some(v) => match w {
                Some(w) => self.at.meet(v, w),
                None => Some(v),
            },
            None => clone_value(w)?,
        };
        Ok((kept, KeepAll { at: self.at }))
    }

    fn left_alone(&self, alloc: Global, tree: T, from: usize) -> Result<T, AllocError> {
        shorten(alloc, tree, from)
    }

    fn right_alone(&self, alloc: Global, tree: &B, from: usize) -> Result<T, AllocError> {
        copy_shortened(alloc, tree, from)
    }
}

/// Keeps shared keys, and the keys of only the left side if `left_stays`.
#[derive(Drop)]
pub struct KeepLeft<'m, M> {
    /// How the values of the shared keys change.
    pub at: &'m M,
    /// Whether the keys of only the left side stay.
    pub left_stays: bool,
}

impl<'m, K: TKey, V: TValue, W: TValue, T: Build<K, V>, M: Meet<V, W>> Lessen<K, V, W, T>
    for KeepLeft<'m, M> {
    ghost look = { λ cmp. values cmp };

    ghost says = { λ op. IsMetAt T.keeps op.left_stays (KeptThen T.keeps (M.may op.at.now)) };

    ghost asks = { λ op. CanMeet T.keeps (M.takes op.at.now) };

    ghost says_nothing = { λ op w. refl };

    ghost asks_none = { λ op. tt };

    ghost says_kept = { λ op. met_kept T.keeps T.keeps_trans op.left_stays (M.may op.at.now) };

    ghost asks_kept = { λ op. meet_kept T.keeps T.keeps_trans (M.takes op.at.now) };

    #[tactic(auto, using(crate::proofs::Meeting::alone_met, crate::proofs::Meeting::alone_gone))]
    fn at_values(&self, v: Option<V>, w: Option<&W>) -> (Option<V>, KeepLeft<'m, M>)
        requires { CanMeet T.keeps (M.takes self.now.at.now) v (option_copied w) }
        ensures value { IsMetAt T.keeps self.now.left_stays
            (KeptThen T.keeps (M.may self.now.at.now)) v (option_copied w.entry) result.0 }
        ensures below { (u : Option V) (o : Option W) (z : Option V)
            → IsMetAt T.keeps result.1.left_stays (KeptThen T.keeps (M.may result.1.at.now)) u o z
            → IsMetAt T.keeps self.now.left_stays (KeptThen T.keeps (M.may self.now.at.now)) u o z }
        ensures asked { (u : Option V) (o : Option W)
            → CanMeet T.keeps (M.takes self.now.at.now) u o
            → CanMeet T.keeps (M.takes result.1.at.now) u o }
    {
        let kept = match v {
            Some(v) => match w {
                Some(w) => self.at.meet(v, w),
                None => if self.left_stays { Some(v) } else { None },
            },
            None => None,
        };
        let below = KeepLeft {
            at: self.at,
            left_stays: self.left_stays,
        };
        (kept, below)
    }

    fn left_stays(&self) -> bool {
        self.left_stays
    }
}
