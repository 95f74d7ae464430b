//! How components are put before all keys of a tree.

ghost use Rattle.std.specs.Prelude.{◌≡◌, List, OnOk, OnErr};
ghost use Rattle.vc_tree_model.specs.Canonical.{IsCanonical};
ghost use Rattle.vc_tree_model.specs.Map.{lookup};
ghost use Rattle.vc_tree_model.specs.Under.{prefixed};

use std::alloc::AllocError;
use std::mem;
use vc_tree_nodes::building::{Build, Seal};
use vc_tree_nodes::children::{Fragment, Parts};
use vc_tree_nodes::reading::{TKey, TValue, canonical, is_empty};

/// Puts the components before each key. The empty tree stays empty.
pub fn prepend<K: TKey, V: TValue, T: Build<K, V>>(
    tree: &mut T,
    prefix: &[K],
) -> Result<(), AllocError>
    ensures ok { OnOk result ((k : List K) → lookup K.cmp (T.tree tree.new) k
        ≡ prefixed K.cmp (lookup K.cmp (T.tree tree.old)) prefix.now k) }
    ensures err { OnErr result (T.tree tree.new ≡ T.tree tree.old) }
    ensures canonical { IsCanonical K.cmp (T.tree tree.new) }
{
    let alloc = tree.allocator();
    let whole = tree.prefix();
    if is_empty(tree) {
        return Ok(());
    }
    let joined = T::Prefix::joined(alloc, prefix, whole)?;
    let node = mem::replace(tree, T::blank(alloc, Seal::new()));
    let Parts {
        prefix: _,
        value,
        children,
    } = node.take_apart(Seal::new());
    *tree = T::assemble(joined, value, children, Seal::new());
    canonical(tree);
    Ok(())
}
