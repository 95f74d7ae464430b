//! How a node is made of its parts.

ghost use Rattle.std.specs.Prelude.{◌≡◌, ◌++◌, IfOk, map};
ghost use Rattle.vc_tree_model.specs.Tree.{made, node};
ghost use Rattle.vc_tree_model.specs.Canonical.{IsCanonical, IsSolid};
ghost use Rattle.vc_tree_nodes.specs.Children.{listed};

use crate::building::{Build, Seal};
use crate::children::{ChildList, Fragment, Parts};
use crate::reading::{TKey, TValue};
use std::alloc::{AllocError, Global};

/// The list as children. Takes no memory where it is empty.
pub fn children_of<K: TKey, V: TValue, T: Build<K, V>>(
    list: Vec<T>,
) -> Result<Option<T::Children>, AllocError>
    ensures { IfOk result (λ children. listed T.Children.items children ≡ list.items) }
{
    if list.is_empty() {
        return Ok(None);
    }
    Ok(Some(T::Children::of(list)?))
}

/// The node with this prefix, this value and these children.
pub fn new_node<K: TKey, V: TValue, T: Build<K, V>>(
    alloc: Global,
    prefix: &[K],
    value: Option<V>,
    children: Vec<T>,
) -> Result<T, AllocError>
    requires { IsCanonical K.cmp (made prefix.now value (map T.tree children.items)) }
    ensures { IfOk result (λ one. T.tree one ≡ made prefix.now value (map T.tree children.items)) }
{
    let prefix = T::Prefix::from_slice(alloc, prefix)?;
    let children = children_of::<K, V, T>(children)?;
    Ok(T::assemble(prefix, value, children, Seal::new()))
}

/// The tree with these components before its prefix.
pub fn new_joined<K: TKey, V: TValue, T: Build<K, V>>(
    alloc: Global,
    front: &[K],
    tree: T,
) -> Result<T, AllocError>
    requires { IsSolid (T.tree tree).value (T.tree tree).children }
    ensures { IfOk result (λ one. T.tree one
        ≡ node (front.now ++ (T.tree tree).prefix) (T.tree tree).value (T.tree tree).children) }
{
    if front.is_empty() {
        return Ok(tree);
    }
    let Parts {
        prefix,
        value,
        children,
    } = tree.take_apart(Seal::new());
    let joined = T::Prefix::joined(alloc, front, prefix.as_slice())?;
    Ok(T::assemble(joined, value, children, Seal::new()))
}
