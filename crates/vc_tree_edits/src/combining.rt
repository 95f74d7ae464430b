//! The changes of a tree by another one, in place.

ghost use Rattle.std.specs.Prelude.{◌≡◌, List, OnOk, OnErr};
ghost use Rattle.vc_tree_model.specs.Asking.{CanJudge, MayJudge};
ghost use Rattle.vc_tree_model.specs.Canonical.{IsCanonical};
ghost use Rattle.vc_tree_model.specs.Combine.{IsCombined, IsInnerAt, IsLeftAt, IsOuterAt};
ghost use Rattle.vc_tree_model.specs.Combine.{IsUnionAt, IsIntersectionAt, IsDifferenceAt};
ghost use Rattle.vc_tree_model.specs.Cover.{cover, IsSifted};
ghost use Rattle.vc_tree_model.specs.Map.{lookup};
ghost use Rattle.vc_tree_model.specs.Tree.{no_tree};
ghost use Rattle.vc_tree_edits.specs.Editing.{CanLeave, CanMeet, KeptThen, MayLeave, OrStays, stays_by};

use crate::changes::{Asked, AskedAlike, Goes, KeepAll, KeepLeft, Sift, Stays};
use crate::engine::{Change, change_at};
use crate::lessening::{Lessen, lessen_at};
use std::alloc::AllocError;
use std::mem;
use vc_tree_nodes::building::{Build, Seal};
use vc_tree_nodes::reading::{RadixNode, TKey, TValue, canonical};

/// Changes a whole tree. It is taken out, and the empty tree replaces it until the change has
/// ended.
fn change<
    K: TKey,
    V: TValue,
    W: TValue,
    B: RadixNode<K, W>,
    T: Build<K, V>,
    O: Change<K, V, W, B, T>,
>(tree: &mut T, that: &B, op: &O) -> Result<(), AllocError>
    requires asks { (k : List K) → O.asks op.now (lookup K.cmp (T.tree tree.old) k)
        ((O.look K.cmp).of_tree (B.tree that.now) k) }
    ensures ok { OnOk result ((k : List K) → O.says op.now (lookup K.cmp (T.tree tree.old) k)
        ((O.look K.cmp).of_tree (B.tree that.now) k) (lookup K.cmp (T.tree tree.new) k)) }
    ensures err { OnErr result (T.tree tree.new ≡ no_tree) }
    ensures canonical { IsCanonical K.cmp (T.tree tree.new) }
{
    let alloc = tree.allocator();
    let whole = mem::replace(tree, T::blank(alloc, Seal::new()));
    canonical(tree);
    if let Some(made) = change_at(alloc, whole, 0, that, 0, 0, op)? {
        canonical(&made);
        *tree = made;
    }
    Ok(())
}

/// Changes a whole tree, without adding keys. The empty tree replaces it where no key is left, or
/// where memory is refused.
fn lessen<K: TKey, V: TValue, W: TValue, B: RadixNode<K, W>, T: Build<K, V>, O: Lessen<K, V, W, T>>(
    tree: &mut T,
    that: &B,
    op: &O,
) -> Result<(), AllocError>
    requires asks { (k : List K) → O.asks op.now (lookup K.cmp (T.tree tree.old) k)
        ((O.look K.cmp).of_tree (B.tree that.now) k) }
    ensures ok { OnOk result ((k : List K) → O.says op.now (lookup K.cmp (T.tree tree.old) k)
        ((O.look K.cmp).of_tree (B.tree that.now) k) (lookup K.cmp (T.tree tree.new) k)) }
    ensures err { OnErr result (T.tree tree.new ≡ no_tree) }
    ensures canonical { IsCanonical K.cmp (T.tree tree.new) }
{
    let alloc = tree.allocator();
    let outcome = lessen_at(alloc, tree, 0, that, 0, 0, op);
    if !matches!(outcome, Ok(true)) {
        *tree = T::blank(alloc, Seal::new());
    }
    canonical(tree);
    outcome?;
    Ok(())
}

/// Keeps exactly the keys that the other tree covers, if `retains`; otherwise those that it does
/// not cover. Of its keys that are prefixes of a key, the longest decides, by the closure's answer
/// for its value. The closure is called once for each key of the other tree that is met.
pub fn sift_prefixes<
    K: TKey,
    V: TValue,
    W: TValue,
    B: RadixNode<K, W>,
    T: Build<K, V>,
    F: Fn(&W) -> bool,
>(tree: &mut T, that: &B, retains: bool, f: &F) -> Result<(), AllocError>
    requires asks { (k : List K) → CanJudge F.Fn f.now (lookup K.cmp (B.tree that.now) k) }
    ensures ok { OnOk result ((k : List K) → IsSifted T.keeps (MayJudge F.Fn f.now)
        (stays_by retains) (cover (lookup K.cmp (B.tree that.now)) k)
        (lookup K.cmp (T.tree tree.old) k) (lookup K.cmp (T.tree tree.new) k)) }
    ensures err { OnErr result (T.tree tree.new ≡ no_tree) }
    ensures canonical { IsCanonical K.cmp (T.tree tree.new) }
{
    let op = Sift {
        judge: f,
        covered: false,
        retains,
    };
    lessen(tree, that, &op)
}

/// Keeps the shared keys at which the closure, which may change the value, answers true.
#[tactic(auto, using(crate::proofs::Meeting::inner_from))]
pub fn inner_combine_with<
    K: TKey,
    V: TValue,
    W: TValue,
    B: RadixNode<K, W>,
    T: Build<K, V>,
    F: Fn(&mut V, &W) -> bool,
>(tree: &mut T, that: &B, f: &F) -> Result<(), AllocError>
    requires asks { (k : List K) → CanMeet T.keeps (CanLeave F.Fn f.now)
        (lookup K.cmp (T.tree tree.old) k) (lookup K.cmp (B.tree that.now) k) }
    ensures ok { OnOk result (IsCombined K.cmp (IsInnerAt (KeptThen T.keeps (MayLeave F.Fn f.now)))
        (T.tree tree.old) (B.tree that.now) (T.tree tree.new)) }
    ensures err { OnErr result (T.tree tree.new ≡ no_tree) }
    ensures canonical { IsCanonical K.cmp (T.tree tree.new) }
{
    let op = KeepLeft {
        at: &Asked(f),
        left_stays: false,
    };
    lessen(tree, that, &op)
}

/// Keeps the keys of the tree, except the shared ones at which the closure, which may change the
/// value, answers false.
#[tactic(auto, using(crate::proofs::Meeting::left_from))]
pub fn left_combine_with<
    K: TKey,
    V: TValue,
    W: TValue,
    B: RadixNode<K, W>,
    T: Build<K, V>,
    F: Fn(&mut V, &W) -> bool,
>(tree: &mut T, that: &B, f: &F) -> Result<(), AllocError>
    requires asks { (k : List K) → CanMeet T.keeps (CanLeave F.Fn f.now)
        (lookup K.cmp (T.tree tree.old) k) (lookup K.cmp (B.tree that.now) k) }
    ensures ok { OnOk result (IsCombined K.cmp
        (IsLeftAt (OrStays T.keeps (KeptThen T.keeps (MayLeave F.Fn f.now)))) (T.tree tree.old)
        (B.tree that.now) (T.tree tree.new)) }
    ensures err { OnErr result (T.tree tree.new ≡ no_tree) }
    ensures canonical { IsCanonical K.cmp (T.tree tree.new) }
{
    let op = KeepLeft {
        at: &Asked(f),
        left_stays: true,
    };
    lessen(tree, that, &op)
}

/// Adds the keys of the other tree that this one lacks, with clones of their values.
#[tactic(auto, using(crate::proofs::Meeting::union_from))]
pub fn union_with<K: TKey, V: TValue, B: RadixNode<K, V>, T: Build<K, V>>(
    tree: &mut T,
    that: &B,
) -> Result<(), AllocError>
    ensures ok { OnOk result (IsCombined K.cmp (IsUnionAt T.keeps V.is_clone)
        (T.tree tree.old) (B.tree that.now) (T.tree tree.new)) }
    ensures err { OnErr result (T.tree tree.new ≡ no_tree) }
    ensures canonical { IsCanonical K.cmp (T.tree tree.new) }
{
    let op = KeepAll { at: &Stays };
    change(tree, that, &op)
}

/// Keeps the keys that the other tree has too.
#[tactic(auto, using(crate::proofs::Meeting::intersection_from))]
pub fn intersection_with<K: TKey, V: TValue, W: TValue, B: RadixNode<K, W>, T: Build<K, V>>(
    tree: &mut T,
    that: &B,
) -> Result<(), AllocError>
    ensures ok { OnOk result (IsCombined K.cmp (IsIntersectionAt T.keeps)
        (T.tree tree.old) (B.tree that.now) (T.tree tree.new)) }
    ensures err { OnErr result (T.tree tree.new ≡ no_tree) }
    ensures canonical { IsCanonical K.cmp (T.tree tree.new) }
{
    let op = KeepLeft {
        at: &Stays,
        left_stays: false,
    };
    lessen(tree, that, &op)
}

/// Keeps the keys that the other tree lacks.
#[tactic(auto, using(crate::proofs::Meeting::difference_from))]
pub fn difference_with<K: TKey, V: TValue, W: TValue, B: RadixNode<K, W>, T: Build<K, V>>(
    tree: &mut T,
    that: &B,
) -> Result<(), AllocError>
    ensures ok { OnOk result (IsCombined K.cmp (IsDifferenceAt T.keeps)
        (T.tree tree.old) (B.tree that.now) (T.tree tree.new)) }
    ensures err { OnErr result (T.tree tree.new ≡ no_tree) }
    ensures canonical { IsCanonical K.cmp (T.tree tree.new) }
{
    let op = KeepLeft {
        at: &Goes,
        left_stays: true,
    };
    lessen(tree, that, &op)
}

/// Keeps the keys of either tree: a value of only one side stays, or comes in as a clone. At a
/// shared key the closure may change the value, which stays where it answers true.
pub fn outer_combine_with<
    K: TKey,
    V: TValue,
    B: RadixNode<K, V>,
    T: Build<K, V>,
    F: Fn(&mut V, &V) -> bool,
>(tree: &mut T, that: &B, f: &F) -> Result<(), AllocError>
    requires asks { (k : List K) → CanMeet T.keeps (CanLeave F.Fn f.now)
        (lookup K.cmp (T.tree tree.old) k) (lookup K.cmp (B.tree that.now) k) }
    ensures ok { OnOk result (IsCombined K.cmp
        (IsOuterAt T.keeps V.is_clone (KeptThen T.keeps (MayLeave F.Fn f.now))) (T.tree tree.old)
        (B.tree that.now) (T.tree tree.new)) }
    ensures err { OnErr result (T.tree tree.new ≡ no_tree) }
    ensures canonical { IsCanonical K.cmp (T.tree tree.new) }
{
    let op = KeepAll { at: &AskedAlike(f) };
    change(tree, that, &op)
}
