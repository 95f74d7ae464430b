//! How a combine that builds a tree treats values, and trees that only one side has.

ghost use Rattle.std.specs.Prelude.{◌≡◌, ◌<◌, List, Option, None, Some, IfOk, OnOk, false, length, map};
ghost use Rattle.std.specs.Option.{option_copied};
ghost use Rattle.vc_tree_model.specs.Map.{lookup};
ghost use Rattle.vc_tree_model.specs.Tree.{shortened};
ghost use Rattle.vc_tree_combines.specs.Making.{IsAdded};

use std::alloc::{AllocError, Global};
use vc_tree_facing::facing::expected;
use vc_tree_nodes::building::Build;
use vc_tree_nodes::reading::{RadixNode, TKey, TValue};

/// How a combine treats values, and trees that only one side has.
pub trait Combine<K: TKey, V: TValue, W: TValue, A: RadixNode<K, V>, B: RadixNode<K, W>> {
    /// The flavour that is built.
    type Made: Build<K, V>;

    /// What the combine says of the values that the left tree, the right tree and the result bind
    /// to a key.
    ghost says: { Self → Option V → Option W → Option V → Type 0 };

    /// What it requires of the values that both trees bind to a key.
    ghost asks: { Self → Option V → Option W → Type 0 };

    /// Whether anything may be left of a tree that only the left side has.
    fn keeps_left(&self) -> bool
        ensures { result ≡ false → (v : Option V) → says self.now v None None };

    /// Whether anything may be left of a tree that only the right side has.
    fn keeps_right(&self) -> bool
        ensures { result ≡ false → (w : Option W) → says self.now None w None };

    /// The value in the result of a key to which the trees bind these.
    fn at_values(&self, v: Option<&V>, w: Option<&W>) -> Result<Option<V>, AllocError>
        requires { asks self.now (option_copied v) (option_copied w) }
        ensures { IfOk result (says self.now (option_copied v.entry) (option_copied w.entry)) };

    /// Appends what is left of a tree that only the left side has, without the first `from`
    /// components of its prefix. A tree that is returned would be moved once more.
    fn add_left(
        &self,
        alloc: Global,
        tree: &A,
        from: usize,
        made: &mut Vec<Self::Made>,
    ) -> Result<(), AllocError>
        requires within { from < length (A.tree tree.now).prefix }
        requires asks { (k : List K)
            → asks self.now (lookup K.cmp (shortened from (A.tree tree.now)) k) None }
        ensures { OnOk result (IsAdded K.cmp (says self.now)
            (Some (shortened from (A.tree tree.now))) None
            (map Self.Made.tree made.old.items) (map Self.Made.tree made.new.items)) };

    /// Appends what is left of a tree that only the right side has, without the first `from`
    /// components of its prefix.
    fn add_right(
        &self,
        alloc: Global,
        tree: &B,
        from: usize,
        made: &mut Vec<Self::Made>,
    ) -> Result<(), AllocError>
        requires within { from < length (B.tree tree.now).prefix }
        requires asks { (k : List K)
            → asks self.now None (lookup K.cmp (shortened from (B.tree tree.now)) k) }
        ensures { OnOk result (IsAdded K.cmp (says self.now) None
            (Some (shortened from (B.tree tree.now)))
            (map Self.Made.tree made.old.items) (map Self.Made.tree made.new.items)) };

    /// A key that neither tree binds is not bound by the result.
    ghost says_none: { (op : Self) → says op None None None };

    /// It needs nothing where neither tree binds a key.
    ghost asks_none: { (op : Self) → asks op None None };
}

/// The number of trees to make room for, that come from two lists of these lengths.
#[inline(always)]
pub fn room_for<
    K: TKey,
    V: TValue,
    W: TValue,
    A: RadixNode<K, V>,
    B: RadixNode<K, W>,
    O: Combine<K, V, W, A, B>,
>(op: &O, left: usize, right: usize) -> usize {
    match (op.keeps_left(), op.keeps_right()) {
        (true, true) => expected(left, right),
        (true, false) => left,
        (false, true) => right,
        (false, false) => 0,
    }
}
