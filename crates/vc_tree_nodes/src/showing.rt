//! How a tree is shown.

use crate::plain::RadixTree;
use crate::reading::{RadixNode, TKey, TValue};
use crate::shared::ArcRadixTree;
use std::fmt;
use std::fmt::Debug;

/// Writes the prefix and the value of a node, and the start of its children.
fn show_root<K: TKey, V: TValue, W: fmt::Write>(
    name: &str,
    prefix: &[K],
    value: &Option<&V>,
    f: &mut fmt::Formatter<W>,
) -> fmt::Result {
    f.write_str(name)?;
    f.write_str(" { prefix: ")?;
    prefix.fmt(f)?;
    f.write_str(", value: ")?;
    value.fmt(f)?;
    f.write_str(", children: [")
}

/// Writes the tree as a struct of this name, with its prefix, its value and its children, each
/// written the same way.
fn show<K: TKey, V: TValue, T: RadixNode<K, V>, W: fmt::Write>(
    tree: &T,
    name: &str,
    f: &mut fmt::Formatter<W>,
) -> fmt::Result {
    show_root(name, tree.prefix(), &tree.value(), f)?;
    let mut is_first = true;
    for child in tree.children() {
        if !is_first {
            f.write_str(", ")?;
        }
        is_first = false;
        show(child, name, f)?;
    }
    f.write_str("] }")
}

impl<K: TKey, V: TValue> Debug for RadixTree<K, V> {
    fn fmt<W: fmt::Write>(&self, f: &mut fmt::Formatter<W>) -> fmt::Result {
        show(self, "RadixTree", f)
    }
}

impl<K: TKey, V: TValue> Debug for ArcRadixTree<K, V> {
    fn fmt<W: fmt::Write>(&self, f: &mut fmt::Formatter<W>) -> fmt::Result {
        show(self, "ArcRadixTree", f)
    }
}
