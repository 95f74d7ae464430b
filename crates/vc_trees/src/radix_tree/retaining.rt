//! How a closure keeps pairs of a tree: a walk makes a tree of the keys that go, and a difference
//! takes them out.

ghost use Rattle.std.specs.Prelude.{◌≡◌, ◌⊎◌, List, Some, IfOk, OnErr, OnOk};
ghost use Rattle.vc_tree_model.specs.Canonical.{IsCanonical};
ghost use Rattle.vc_tree_model.specs.Map.{lookup};
ghost use Rattle.vc_tree_model.specs.Tree.{no_tree};
ghost use Rattle.vc_trees.specs.RetainedPairs.{CanTell, GoesAsTold, IsNoted, binds};
ghost use Rattle.vc_trees.specs.RetainedPairs.{IsRetainedAsTold, MayTell};

use std::alloc::AllocError;
use vc_tree_edits::combining::difference_with;
use vc_tree_nodes::building::{Build, Seal};
use vc_tree_nodes::insertion::insert;
use vc_tree_nodes::plain::RadixTree;
use vc_tree_nodes::reading::{RadixNode, TKey, TValue, canonical, is_empty};
use vc_tree_nodes::shared::ArcRadixTree;
use vc_tree_walks::walks::iter;

/// The tree of keys alone that a flavour uses for keys of its own. Code that is generic in the
/// flavour cannot name a plain tree, since it does not know the size of one.
pub trait KeyTrees<K: TKey>: Sized {
    type Keys: Build<K, ()>;
}

impl<K: TKey, V: TValue> KeyTrees<K> for RadixTree<K, V> {
    type Keys = RadixTree<K, ()>;
}

impl<K: TKey, V: TValue> KeyTrees<K> for ArcRadixTree<K, V> {
    type Keys = RadixTree<K, ()>;
}

/// Keeps the pairs at which the closure answers true.
pub(crate) fn retain<K: TKey, V: TValue, T: Build<K, V>, G: Build<K, ()>, F: Fn(&[K], &V) -> bool>(
    tree: &mut T,
    keep: &F,
) -> Result<(), AllocError>
    requires { (k : List K) → CanTell F.Fn keep.now k (lookup K.cmp (T.tree tree.old) k) }
    ensures ok { OnOk result (IsRetainedAsTold K.cmp (MayTell F.Fn keep.now) T.keeps
        (T.tree tree.old) (T.tree tree.new)) }
    ensures err { OnErr result
        ((T.tree tree.new ≡ T.tree tree.old) ⊎ (T.tree tree.new ≡ no_tree)) }
    ensures canonical { IsCanonical K.cmp (T.tree tree.new) }
{
    canonical(tree);
    let going = keys_that_go::<K, V, T, G, F>(tree, keep)?;
    canonical(&going);
    if is_empty(&going) {
        return Ok(());
    }
    difference_with(tree, &going)
}

/// A tree of the keys at which the closure answers false.
fn keys_that_go<K: TKey, V: TValue, T: RadixNode<K, V>, G: Build<K, ()>, F: Fn(&[K], &V) -> bool>(
    tree: &T,
    keep: &F,
) -> Result<G, AllocError>
    requires { (k : List K) → CanTell F.Fn keep.now k (lookup K.cmp (T.tree tree.now) k) }
    ensures { IfOk result (λ going. (k : List K) → GoesAsTold K.cmp (MayTell F.Fn keep.now)
        (T.tree tree.now) k (lookup K.cmp (T.tree tree.now) k) (binds K.cmp (G.tree going) k)) }
{
    canonical(tree);
    let mut going = G::blank(tree.allocator(), Seal::new());
    for pair in iter(tree) {
        let (key, value) = pair?;
        going = noted(going, key.as_ref(), value, keep)?;
    }
    Ok(going)
}

/// The keys that go, with this one where the closure answers false.
fn noted<K: TKey, V, G: Build<K, ()>, F: Fn(&[K], &V) -> bool>(
    mut going: G,
    key: &[K],
    value: &V,
    keep: &F,
) -> Result<G, AllocError>
    requires { CanTell F.Fn keep.now key.now (Some value.now) }
    ensures { IfOk result (λ next. IsNoted K.cmp (MayTell F.Fn keep.now) key.now value.now
        (binds K.cmp (G.tree going)) (binds K.cmp (G.tree next))) }
{
    if keep(key, value) {
        return Ok(going);
    }
    insert(&mut going, key, ())?;
    Ok(going)
}
