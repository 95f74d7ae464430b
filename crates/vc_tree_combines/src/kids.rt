//! Merges of the children of two nodes, which stop where two trees begin alike.

ghost use Rattle.std.specs.Prelude.{◌≡◌, ◌+◌, ◌≤◌, true, false, Ok, map, drop, length, slice_get};
ghost use Rattle.std.specs.Prelude.{Some, IfOk, OnOk, MatchOption, [], ◌∷◌, ◌++◌, ◌*◌, ◌⊎◌, List};
ghost use Rattle.vc_tree_model.specs.Shortened.{forest_weight};
ghost use Rattle.vc_tree_model.specs.Canonical.{AreChildren};
ghost use Rattle.vc_tree_model.specs.Places.{IsCombinedIn};
ghost use Rattle.vc_tree_nodes.specs.Children.{seen};
ghost use Rattle.std.specs.declared.cmp.Ordering.TheVariants.{Equal};
ghost use Rattle.vc_merge.specs.Fronts.{HeadsCompare};
ghost use Rattle.vc_merge.specs.Plan.{IsPlan, planned};
ghost use Rattle.vc_tree_model.specs.Look.{values};
ghost use Rattle.vc_tree_facing.specs.Doing.{IsDoing, IsSaidIn};
ghost use Rattle.vc_tree_facing.specs.Sides.{by_component, by_component_total, side_next};
ghost use Rattle.vc_tree_facing.specs.declared.sides.EventSide.TheVariants.{Left, Right};
ghost use Rattle.vc_tree_combines.specs.Stopping.{IsAtPair};

use crate::adding::{add_lefts, add_rights};
use crate::operation::Combine;
use std::alloc::{AllocError, Global};
use std::cmp::Ordering;
use std::marker::PhantomData;
use vc_merge::merge::{Count, MergeOperation, MergeState, merge_as};
use vc_merge::plan::Plan;
use vc_tree_nodes::reading::{RadixNode, TKey, TValue};

/// What is left of two lists of children, and the trees that were built from the others.
#[derive(Drop)]
pub struct Kids<'a, 'b, A, B, M> {
    pub left: &'a [A],
    pub right: &'b [B],
    pub made: Vec<M>,
}

impl<'a, 'b, A, B, M> MergeState for Kids<'a, 'b, A, B, M> {
    type A = A;

    type B = B;

    ghost left = { λ s. s.left.now };

    ghost right = { λ s. s.right.now };

    fn a_slice(&self) -> &[A] {
        self.left
    }

    fn b_slice(&self) -> &[B] {
        self.right
    }
}

/// Builds the result of trees that only one list has, and stops at two that begin alike.
#[derive(Drop)]
pub struct MakeAlone<'o, 'a, 'b, K, V, W, A, B, O> {
    pub alloc: Global,
    pub op: &'o O,
    /// All children of the left node.
    pub lefts: &'a [A],
    /// All children of the right node.
    pub rights: &'b [B],
    pub key: PhantomData<K>,
    pub left_value: PhantomData<V>,
    pub right_value: PhantomData<W>,
}

impl<
    'o,
    'a,
    'b,
    K: TKey,
    V: TValue,
    W: TValue,
    A: RadixNode<K, V>,
    B: RadixNode<K, W>,
    O: Combine<K, V, W, A, B>,
    C: Count,
> MergeOperation<Kids<'a, 'b, A, B, O::Made>, C> for MakeAlone<'o, 'a, 'b, K, V, W, A, B, O> {
    ghost order = { λ _. by_component A.tree B.tree 0 0 K.cmp };

    ghost ready = { λ m s. IsDoing K.cmp A.tree B.tree 0 0 (values K.cmp) (O.says m.op.now)
        (O.asks m.op.now) m.lefts.now m.rights.now s.left.now s.right.now
        (map O.Made.tree s.made.items) };

    ghost gives = { λ m. record {
      from_a = λ s n answer t. IfOk answer (λ go_on. (go_on ≡ true)
          × IsDoing K.cmp A.tree B.tree 0 0 (values K.cmp) (O.says m.op.now) (O.asks m.op.now)
          m.lefts.now m.rights.now t.left.now t.right.now (map O.Made.tree t.made.items));
      from_b = λ s n answer t. IfOk answer (λ go_on. (go_on ≡ true)
          × IsDoing K.cmp A.tree B.tree 0 0 (values K.cmp) (O.says m.op.now) (O.asks m.op.now)
          m.lefts.now m.rights.now t.left.now t.right.now (map O.Made.tree t.made.items));
      collision = λ s answer t. (answer ≡ Ok false) × (t ≡ s)
          × IsDoing K.cmp A.tree B.tree 0 0 (values K.cmp) (O.says m.op.now) (O.asks m.op.now)
          m.lefts.now m.rights.now s.left.now s.right.now (map O.Made.tree s.made.items)
          × HeadsCompare (by_component A.tree B.tree 0 0 K.cmp) s.left.now s.right.now Equal;
    } };

    ghost total = { λ _. by_component_total A.tree B.tree 0 0 K.total };

    fn cmp(&self, a: &A, b: &B, steps: &mut C) -> Ordering {
        steps.tick();
        a.prefix().first().cmp(&b.prefix().first())
    }

    fn from_a(
        &self,
        state: &mut Kids<'a, 'b, A, B, O::Made>,
        n: usize,
    ) -> Result<bool, AllocError> {
        let (trees, others) = state.left.split_at(n);
        add_lefts::<K, V, W, A, B, O>(self.alloc, trees, self.op, &mut state.made)?;
        state.left = others;
        Ok(true)
    }

    fn from_b(
        &self,
        state: &mut Kids<'a, 'b, A, B, O::Made>,
        n: usize,
    ) -> Result<bool, AllocError> {
        let (trees, others) = state.right.split_at(n);
        add_rights::<K, V, W, A, B, O>(self.alloc, trees, self.op, &mut state.made)?;
        state.right = others;
        Ok(true)
    }

    fn collision(&self, state: &mut Kids<'a, 'b, A, B, O::Made>) -> Result<bool, AllocError> {
        Ok(false)
    }
}

/// Builds the result of the trees that only one list has, until both lists are used up, or both
/// have a first tree that begins alike.
pub fn merge_to_pair<
    'o,
    'a,
    'b,
    K: TKey,
    V: TValue,
    W: TValue,
    A: RadixNode<K, V>,
    B: RadixNode<K, W>,
    O: Combine<K, V, W, A, B>,
    C: Count,
>(
    state: &mut Kids<'a, 'b, A, B, O::Made>,
    op: &MakeAlone<'o, 'a, 'b, K, V, W, A, B, O>,
    plan: Plan,
    steps: &mut C,
) -> Result<(), AllocError>
    requires doing { IsDoing K.cmp A.tree B.tree 0 0 (values K.cmp) (O.says op.now.op.now)
        (O.asks op.now.op.now) op.now.lefts.now op.now.rights.now state.old.left.now
        state.old.right.now (map O.Made.tree state.old.made.items) }
    requires plan { IsPlan plan }
    ensures doing { OnOk result (IsDoing K.cmp A.tree B.tree 0 0 (values K.cmp)
        (O.says op.now.op.now) (O.asks op.now.op.now) op.now.lefts.now op.now.rights.now
        state.new.left.now state.new.right.now (map O.Made.tree state.new.made.items)) }
    ensures pair { let whole = planned plan (length state.old.left.now)
        (length state.old.right.now) in
        OnOk result (IsAtPair (by_component A.tree B.tree 0 0 K.cmp)
        (λ ls rs. C.counted steps.new + planned plan (length ls) (length rs)
        ≤ C.counted steps.old + whole) state.new.left.now state.new.right.now) }
    ensures left { OnOk result ((passed : List A)
        × (state.old.left.now ≡ passed ++ state.new.left.now)) }
    ensures right { OnOk result ((passed : List B)
        × (state.old.right.now ≡ passed ++ state.new.right.now)) }
    ensures counted { C.counted steps.new ≤ C.counted steps.old
        + planned plan (length state.old.left.now) (length state.old.right.now) }
{
    merge_as(state, op, plan, steps)
}

/// Takes the first tree of each list, where both have one.
pub fn take_pair<'a, 'b, A, B, M>(state: &mut Kids<'a, 'b, A, B, M>) -> Option<(&'a A, &'b B)>
    ensures pair { MatchOption result ((state.old.left.now ≡ []) ⊎ (state.old.right.now ≡ []))
        (λ p. (state.old.left.now ≡ p.0.now ∷ state.new.left.now)
        × (state.old.right.now ≡ p.1.now ∷ state.new.right.now)) }
    ensures made { state.new.made ≡ state.old.made }
{
    let (x, lefts) = state.left.split_first()?;
    let (y, rights) = state.right.split_first()?;
    state.left = lefts;
    state.right = rights;
    Some((x, y))
}
