//! How a plain tree becomes a shared one.

ghost use Rattle.std.specs.Prelude.{◌≡◌, IfOk};
ghost use Rattle.vc_tree_model.specs.Canonical.{IsCanonical};
ghost use Rattle.vc_tree_model.specs.Matches.{AreCopies};
ghost use Rattle.vc_tree_model.specs.OneTree.{IsOneTree, IsSmallest};
ghost use Rattle.vc_tree_nodes.specs.Children.{listed};

use crate::children::{ChildList, Parts, SharedChildren};
use crate::plain::RadixTree;
use crate::reading::{TKey, TValue};
use crate::shared::ArcRadixTree;
use std::alloc::{AllocError, Global};

/// The same tree in the shared flavour. Prefixes and values are moved.
#[cycle(sharing)]
fn share_tree<K: TKey, V: TValue>(tree: RadixTree<K, V>) -> Result<ArcRadixTree<K, V>, AllocError>
    ensures same { IfOk result (λ shared. shared ≡ tree) }
    ensures canonical { IfOk result (IsCanonical K.cmp) }
{
    let Parts {
        prefix,
        value,
        children,
    } = tree.into_parts();
    let children = match children {
        Some(own) => share_list(own.list)?,
        None => None,
    };
    Ok(ArcRadixTree::from_parts(prefix, value, children))
}

/// The same trees in the shared flavour.
#[cycle(sharing)]
fn share_list<K: TKey, V: TValue>(
    list: Vec<RadixTree<K, V>>,
) -> Result<Option<SharedChildren<ArcRadixTree<K, V>>>, AllocError>
    ensures { IfOk result
        (λ children. listed (λ held. held.shared.value.items) children ≡ list.items) }
{
    if list.is_empty() {
        return Ok(None);
    }
    let mut shared = Vec::with_capacity(*list.allocator(), list.len())?;
    for tree in list {
        shared.push(share_tree(tree)?)?;
    }
    Ok(Some(SharedChildren::of(shared)?))
}

impl<K: TKey, V: TValue> ArcRadixTree<K, V> {
    /// The same tree in the shared flavour. Prefixes and values are moved, and nothing is cloned.
    ///
    /// Fails where memory is refused for the children. The tree is then dropped.
    pub fn from_radix_tree(tree: RadixTree<K, V>) -> Result<Self, AllocError>
        ensures same { IfOk result (λ shared. shared ≡ tree) }
        ensures canonical { IfOk result (IsCanonical K.cmp) }
        ensures one { IfOk result (λ shared. IsOneTree K.cmp (AreCopies V.is_clone) shared) }
        ensures smallest { IfOk result (λ shared. IsSmallest K.cmp (AreCopies V.is_clone) shared) }
    {
        share_tree(tree)
    }
}
