//! Canonical radix trees: finite maps from keys, which are lists of components, to values.
//!
//! A node has a prefix, an optional value and children. A key is what is joined of the prefixes on
//! the way to a node with a value. A tree is canonical: a node with neither value nor children is
//! the empty tree, with the empty prefix; no child has an empty prefix; children ascend strictly by
//! the first components of their prefixes; and a node without a value does not have exactly one
//! child. So trees of equal maps have the same shape.
//!
//! ```
//! let mut tree = RadixTree::single(alloc, b"abc", 1)?;
//! tree.insert(b"abd", 2)?; // the root's prefix is now `ab`, with the children `c` and `d`
//! assert_eq!(rt; tree.get(b"abd").copied(), Some(2));
//! assert_eq!(rt; tree.get(b"ab"), None);
//! ```

mod reading;
mod retaining;
mod writing;

pub use reading::AbstractRadixTree;
pub use retaining::KeyTrees;
pub use vc_tree_nodes::plain::RadixTree;
pub use vc_tree_nodes::reading::{RadixNode, TKey, TValue};
pub use vc_tree_nodes::shared::ArcRadixTree;
pub use vc_tree_walks::iter::Iter;
pub use vc_tree_walks::key::IterKey;
pub use vc_tree_walks::owned::ObjAndIter;
pub use vc_tree_walks::prefixes::Prefixes;
pub use vc_tree_walks::range::Range;
pub use vc_tree_walks::values::Values;
pub use writing::AbstractRadixTreeMut;
