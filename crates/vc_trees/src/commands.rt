//! Commands on a tree, and runs of them.

ghost use Rattle.std.specs.Prelude.{◌≡◌, is_ok, length, map, true, OnOk, OnErr};
ghost use Rattle.vc_trees.specs.Commanded.{command_of};
ghost use Rattle.vc_tree_model.specs.Canonical.{IsCanonical};
ghost use Rattle.vc_tree_model.specs.Machine.{KeptRun, KeptStep, Run};
ghost use Rattle.vc_tree_model.specs.Map.{lookup, IsEqualMap};
ghost use Rattle.vc_tree_model.specs.Matches.{AreCopies};
ghost use Rattle.vc_tree_model.specs.OneTree.{IsOneTree, IsSmallest};
ghost use Rattle.vc_tree_model.specs.Under.{under};
ghost use Rattle.vc_tree_model.specs.Value.{Copies};

use crate::radix_tree::{AbstractRadixTreeMut, RadixNode, TKey, TValue};
use std::alloc::AllocError;

/// A change of a tree: with a key and a value, with a prefix, or with another tree.
#[derive(Drop)]
pub enum TreeCommand<K, V, T> {
    /// Binds the key to the value.
    Insert(Vec<K>, V),
    /// Puts the components before each key.
    Prepend(Vec<K>),
    /// Keeps the keys that start with the prefix.
    Filter(Vec<K>),
    /// Adds the keys that only the other tree binds.
    Union(T),
    /// Keeps the keys that both trees bind.
    Intersection(T),
    /// Keeps the keys that the other tree does not bind.
    Difference(T),
    /// Removes the keys that have some key of the other tree as a prefix.
    RemovePrefix(T),
    /// Keeps the keys that have some key of the other tree as a prefix.
    RetainPrefix(T),
}

/// Replaces the tree by that of the keys that start with the prefix. On refusal the tree is
/// unchanged.
fn filter<K: TKey, V: TValue, T: AbstractRadixTreeMut<K, V>>(
    tree: &mut T,
    prefix: &[K],
) -> Result<(), AllocError>
    ensures ok { OnOk result (IsEqualMap (Copies V.is_clone)
        (under K.cmp (lookup K.cmp (T.tree tree.old)) prefix.now)
        (lookup K.cmp (T.tree tree.new))) }
    ensures err { OnErr result (T.tree tree.new ≡ T.tree tree.old) }
{
    *tree = tree.filter_prefix(prefix)?;
    Ok(())
}

/// Runs one command on the tree. The arguments of the command are dropped.
fn obey<K: TKey, V: TValue, T: AbstractRadixTreeMut<K, V>>(
    tree: &mut T,
    command: TreeCommand<K, V, T>,
) -> Result<(), AllocError>
    ensures kept { KeptStep K.cmp T.keeps V.is_clone (lookup K.cmp (T.tree tree.old))
        (command_of T.tree command) (is_ok result) (lookup K.cmp (T.tree tree.new)) }
{
    let admit = |_: &V| -> bool
        ensures { result ≡ true }
    { true };
    match command {
        TreeCommand::Insert(key, value) => tree.insert(key.as_slice(), value),
        TreeCommand::Prepend(prefix) => tree.prepend(prefix.as_slice()),
        TreeCommand::Filter(prefix) => filter(tree, prefix.as_slice()),
        TreeCommand::Union(that) => tree.union_with(&that),
        TreeCommand::Intersection(that) => tree.intersection_with(&that),
        TreeCommand::Difference(that) => tree.difference_with(&that),
        TreeCommand::RemovePrefix(that) => tree.remove_prefix_with(&that, admit),
        TreeCommand::RetainPrefix(that) => tree.retain_prefix_with(&that, admit),
    }
}

/// Runs the commands on the tree, one after another, and answers for each whether it succeeded. One
/// that is refused does not stop the run.
///
/// A value that stays is kept, as by the call of that name; only a filter leaves copies. A command
/// is refused only where memory or the clone of a value is. After a refused insert, prepend or
/// filter, the tree binds what it bound; after a refused command with another tree, it is empty.
/// The arguments of a command are dropped after it.
pub fn run<K: TKey, V: TValue, T: AbstractRadixTreeMut<K, V>>(
    tree: &mut T,
    commands: Vec<TreeCommand<K, V, T>>,
    accepted: &mut [bool],
)
    requires { length accepted.old ≡ length commands.items }
    ensures steps { Run K.cmp (Copies V.is_clone) (lookup K.cmp (T.tree tree.old))
        (map (command_of T.tree) commands.items) accepted.new (lookup K.cmp (T.tree tree.new)) }
    ensures kept { KeptRun K.cmp T.keeps V.is_clone (lookup K.cmp (T.tree tree.old))
        (map (command_of T.tree) commands.items) accepted.new (lookup K.cmp (T.tree tree.new)) }
    ensures canonical { IsCanonical K.cmp (T.tree tree.new) }
    ensures one { IsOneTree K.cmp (AreCopies V.is_clone) (T.tree tree.new) }
    ensures smallest { IsSmallest K.cmp (AreCopies V.is_clone) (T.tree tree.new) }
{
    for (at, command) in commands.into_iter().enumerate() {
        accepted[at] = obey(tree, command).is_ok();
    }
    tree.prefix();
}
