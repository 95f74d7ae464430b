//! How a radix tree is read.

ghost use Rattle.std.specs.Prelude.{◌≡◌};
ghost use Rattle.std.specs.Option.{option_copied};
ghost use Rattle.vc_tree_model.specs.Tree.{is_bare};
ghost use Rattle.vc_tree_model.specs.Canonical.{IsCanonical};
ghost use Rattle.vc_tree_nodes.specs.Children.{seen};

use std::alloc::Global;
use std::fmt::Debug;

/// A component of a key: any type that has an order, can be copied and can be shown.
pub trait TKey: Debug + Ord + Copy {}

impl<K: Debug + Ord + Copy> TKey for K {}

/// A value of a tree: any type that can be shown, cloned and dropped.
pub trait TValue: Debug + Clone + Drop {}

impl<V: Debug + Clone + Drop> TValue for V {}

/// A node of a radix tree with all that is below it. An implementation gives its prefix, value,
/// children and allocator, and says by `tree` which tree that is. It then has all calls that read a
/// tree.
///
/// The law: the tree is canonical.
pub trait RadixNode<K: TKey, V: TValue>: Sized {
    ghost use Rattle.vc_tree_model.specs.Tree.{Tree};

    ghost tree: { Self → Tree K V };

    /// What all keys of this tree begin with, up to where a key ends or two keys diverge.
    fn prefix(&self) -> &[K]
        ensures value { result.now ≡ (tree self.now).prefix }
        ensures canonical { IsCanonical K.cmp (tree self.now) };

    /// The value of the key that ends where the prefix does.
    fn value(&self) -> Option<&V>
        ensures { option_copied result ≡ (tree self.now).value };

    /// The trees of the rests of the longer keys, after the prefix.
    fn children(&self) -> &[Self]
        ensures { seen tree result.now ≡ (tree self.now).children };

    /// The allocator for a tree that is made of this one.
    fn allocator(&self) -> Global;
}

/// Does nothing; its contract is the law that the tree is canonical. The law is a clause of
/// `prefix`; a proof that needs the law and not the prefix calls this.
pub fn canonical<K: TKey, V: TValue, T: RadixNode<K, V>>(tree: &T)
    ensures { IsCanonical K.cmp (T.tree tree.now) }
{
    tree.prefix();
}

/// Whether the tree binds no key.
pub fn is_empty<K: TKey, V: TValue, T: RadixNode<K, V>>(tree: &T) -> bool
    ensures { result ≡ is_bare (T.tree tree.now) }
{
    match tree.value() {
        Some(_) => false,
        None => tree.children().is_empty(),
    }
}
