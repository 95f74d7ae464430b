//! A crate that uses radix trees as a user does: a tree of its own, and generic code.
#![tactic(auto)]

ghost use Rattle.std.specs.Prelude.{◌≡◌, Some, None, IsSome, OnOk, OnErr};
ghost use Rattle.vc_tree_model.specs.Tree.{bare, node};
ghost use Rattle.vc_tree_model.specs.Map.{HaveEqualMaps, IsInserted, lookup};

use std::alloc::{AllocError, Global};
use std::cell::Cell;
use vc_trees::radix_tree::{AbstractRadixTree, AbstractRadixTreeMut, RadixNode, TKey, TValue};

/// A tree of one key, which is kept in a list: a tree of another crate.
#[derive(Drop)]
pub struct Word {
    letters: Vec<u8>,
    weight: u32,
    asked: Cell<u32>,
}

impl Word {
    /// The tree that binds only the letters.
    pub fn new(letters: Vec<u8>, weight: u32) -> Word {
        Word {
            letters,
            weight,
            asked: Cell::new(0),
        }
    }

    /// How often its allocator was asked for.
    pub fn asked(&self) -> u32 {
        self.asked.get()
    }
}

impl RadixNode<u8, u32> for Word {
    ghost tree = { λ w. node w.letters.items (Some w.weight) bare };

    fn prefix(&self) -> &[u8] {
        self.letters.as_slice()
    }

    fn value(&self) -> Option<&u32> {
        Some(&self.weight)
    }

    fn children(&self) -> &[Word] {
        &[]
    }

    fn allocator(&self) -> Global {
        self.asked.set(self.asked.get().saturating_add(1));
        *self.letters.allocator()
    }
}

/// Binds the key to the value in a tree of any flavour, unless the tree binds the key already.
pub fn insert_missing<K: TKey, V: TValue, T: AbstractRadixTreeMut<K, V>>(
    tree: &mut T,
    key: &[K],
    value: V,
) -> Result<(), AllocError>
    ensures known { IsSome (lookup K.cmp (T.tree tree.old) key.now)
        → T.tree tree.new ≡ T.tree tree.old }
    ensures missing { lookup K.cmp (T.tree tree.old) key.now ≡ None
        → OnOk result (IsInserted K.cmp T.keeps key.now value (T.tree tree.old) (T.tree tree.new)) }
    ensures err { OnErr result (HaveEqualMaps K.cmp T.keeps (T.tree tree.old) (T.tree tree.new)) }
{
    if tree.get(key).is_some() {
        return Ok(());
    }
    tree.insert(key, value)
}
