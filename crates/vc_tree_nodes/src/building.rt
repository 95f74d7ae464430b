//! How a flavour takes nodes apart and makes them, for only the crates of this workspace.

ghost use Rattle.std.specs.Prelude.{◌≡◌, List, map, refl};
ghost use Rattle.std.proofs.Common.{◌∙◌};
ghost use Rattle.vc_tree_model.specs.Tree.{made, no_tree};
ghost use Rattle.vc_tree_model.specs.Value.{Copies, itself, copies_trans};
ghost use Rattle.vc_tree_model.specs.Canonical.{IsCanonical};
ghost use Rattle.vc_tree_model.specs.Same.{IsAlikeIn};
ghost use Rattle.vc_tree_nodes.specs.Children.{listed, seen};
ghost use Rattle.vc_tree_model.specs.Snapshot.{same_copies, alike_same, kept_alike as copies_alike};

use crate::children::{ChildList, Fragment, OwnedChildren, Parts, SharedChildren};
use crate::plain::RadixTree;
use crate::prefix::Prefix;
use crate::reading::{RadixNode, TKey, TValue};
use crate::sealed::Sealed;
use crate::shared::ArcRadixTree;
use std::alloc::Global;

/// A token that only the crates of this workspace pass, so that code that is generic in a flavour
/// cannot take its nodes apart.
#[derive(Clone, Copy, Drop)]
pub struct Seal {
    inner: (),
}

impl Seal {
    /// A token, for only the crates of this workspace.
    pub fn new() -> Seal {
        Seal { inner: () }
    }
}

/// A flavour of tree: how its nodes are made and taken apart, and how a value that stays in place
/// is kept. No other crate can implement it, since one of its supertraits is private.
pub trait Build<K: TKey, V: TValue>: RadixNode<K, V> + Sealed + Drop {
    type Prefix: Fragment<K>;

    type Children: ChildList<Self>;

    ghost keeps: { V → V → Type 0 };

    /// The empty tree.
    fn blank(alloc: Global, seal: Seal) -> Self
        ensures { Self.tree result ≡ no_tree };

    /// The parts of the root.
    fn take_apart(self, seal: Seal) -> Parts<Self::Prefix, V, Self::Children>
        ensures prefix { Self.Prefix.items result.prefix ≡ (Self.tree self).prefix }
        ensures value { result.value ≡ (Self.tree self).value }
        ensures children { seen Self.tree (listed Self.Children.items result.children)
            ≡ (Self.tree self).children }
        ensures canonical { IsCanonical K.cmp (Self.tree self) };

    /// The tree of these parts.
    fn assemble(
        prefix: Self::Prefix,
        value: Option<V>,
        children: Option<Self::Children>,
        seal: Seal,
    ) -> Self
        requires { IsCanonical K.cmp (made (Self.Prefix.items prefix) value
            (map Self.tree (listed Self.Children.items children))) }
        ensures { Self.tree result ≡ made (Self.Prefix.items prefix) value
            (map Self.tree (listed Self.Children.items children)) };

    ghost keeps_refl: { (v : V) → keeps v v };

    ghost keeps_trans: { (u v w : V) → keeps u v → keeps v w → keeps u w };

    ghost keeps_copies: { (v w : V) → keeps v w → Copies V.is_clone v w };

    ghost kept_alike: { (xs ys : List Self) → Self.Children.kept xs ys
        → IsAlikeIn keeps (seen Self.tree xs) (seen Self.tree ys) };
}

impl<K: TKey, V: TValue> Build<K, V> for RadixTree<K, V> {
    type Prefix = Prefix<K>;

    type Children = OwnedChildren<RadixTree<K, V>>;

    ghost keeps = { λ v w. v ≡ w };

    ghost keeps_refl = { λ v. refl };

    ghost keeps_trans = { λ u v w p q. p ∙ q };

    ghost keeps_copies = { λ v w. same_copies V.is_clone v w };

    ghost kept_alike = { λ xs ys e. alike_same (λ v w. v ≡ w) (λ v. refl) xs ys e };

    fn blank(alloc: Global, seal: Seal) -> Self {
        RadixTree::bare(alloc)
    }

    fn take_apart(self, seal: Seal) -> Parts<Prefix<K>, V, OwnedChildren<RadixTree<K, V>>> {
        self.into_parts()
    }

    fn assemble(
        prefix: Prefix<K>,
        value: Option<V>,
        children: Option<OwnedChildren<RadixTree<K, V>>>,
        seal: Seal,
    ) -> Self
        requires { IsCanonical K.cmp
            (made prefix value (map (λ t. t) (listed (λ own. own.list.items) children))) }
        ensures { result ≡ made prefix value
            (map (λ t. t) (listed (λ own. own.list.items) children)) }
    {
        RadixTree::from_parts(prefix, value, children)
    }
}

impl<K: TKey, V: TValue> Build<K, V> for ArcRadixTree<K, V> {
    type Prefix = Prefix<K>;

    type Children = SharedChildren<ArcRadixTree<K, V>>;

    ghost keeps = { Copies V.is_clone };

    ghost keeps_refl = { λ v. itself };

    ghost keeps_trans = { λ u v w p q. copies_trans p q };

    ghost keeps_copies = { λ v w p. p };

    ghost kept_alike = { copies_alike V.is_clone };

    fn blank(alloc: Global, seal: Seal) -> Self {
        ArcRadixTree::bare(alloc)
    }

    fn take_apart(self, seal: Seal) -> Parts<Prefix<K>, V, SharedChildren<ArcRadixTree<K, V>>> {
        self.into_parts()
    }

    fn assemble(
        prefix: Prefix<K>,
        value: Option<V>,
        children: Option<SharedChildren<ArcRadixTree<K, V>>>,
        seal: Seal,
    ) -> Self
        requires { IsCanonical K.cmp (made prefix value
            (map (λ t. t) (listed (λ held. held.shared.value.items) children))) }
        ensures { result ≡ made prefix value
            (map (λ t. t) (listed (λ held. held.shared.value.items) children)) }
    {
        ArcRadixTree::from_parts(prefix, value, children)
    }
}
