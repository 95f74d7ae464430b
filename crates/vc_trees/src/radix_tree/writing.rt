//! The trait through which the two flavours are made and changed.

ghost use Rattle.std.specs.Prelude.{◌≡◌, ◌≤◌, List, [], None, Ok, Some, length, map, IfOk, IsOk};
ghost use Rattle.std.specs.Prelude.{◌⊎◌, MatchOption, OnErr, OnOk};
ghost use Rattle.std.specs.Iterator.{IsFinite};
ghost use Rattle.std.specs.Iterator.Runs.{WholeRun};
ghost use Rattle.vc_tree_model.specs.Tree.{made, no_tree};
ghost use Rattle.vc_tree_model.specs.Asking.{CanJudge, MayJudge};
ghost use Rattle.vc_tree_model.specs.Combine.{IsCombined, IsInnerAt, IsLeftAt, IsOuterAt};
ghost use Rattle.vc_tree_model.specs.Combine.{IsUnionAt, IsIntersectionAt, IsDifferenceAt};
ghost use Rattle.vc_tree_model.specs.Cover.{IsRemoved, IsRetained};
ghost use Rattle.vc_tree_model.specs.Value.{Copies, IsKept};
ghost use Rattle.vc_tree_model.specs.Map.{HaveEqualMaps, IsEqualMap, IsInserted, lookup};
ghost use Rattle.vc_tree_model.specs.Canonical.{IsCanonical};
ghost use Rattle.vc_tree_model.specs.Matches.{AreCopies};
ghost use Rattle.vc_tree_model.specs.OneTree.{IsOneTree, IsSmallest};
ghost use Rattle.vc_tree_model.specs.Pairs.{last_bound};
ghost use Rattle.vc_tree_model.specs.Same.{IsAlike};
ghost use Rattle.vc_tree_model.specs.Under.{prefixed, under};
ghost use Rattle.vc_tree_removal.specs.Changing.{CanChange, CanWrite, MayWrite, IsChanged};
ghost use Rattle.vc_tree_removal.specs.Without.{AllBegin, IsWithout, IsWithoutBelow};
ghost use Rattle.vc_tree_edits.specs.Editing.{MayLeave, CanLeave, KeptThen, CanMeet, OrStays};
ghost use Rattle.vc_trees.specs.RetainedPairs.{CanTell, IsRetainedAsTold, MayTell};

use crate::radix_tree::reading::AbstractRadixTree;
use crate::radix_tree::retaining::{self, KeyTrees};
use std::alloc::{AllocError, Global};
use vc_tree_combines::combines;
use vc_tree_edits::{appending, combining, prepending};
use vc_tree_nodes::building::Seal;
use vc_tree_nodes::collecting::collect;
use vc_tree_nodes::copying::CloneTree;
use vc_tree_nodes::insertion;
use vc_tree_nodes::plain::RadixTree;
use vc_tree_nodes::reading::{TKey, TValue, canonical};
use vc_tree_nodes::shared::ArcRadixTree;
use vc_tree_removal::{changing, removal, removal_below};
use vc_tree_walks::filtering;

/// A radix tree to be made and changed: the two flavours, and no other type.
///
/// A clause says by `keeps` how a value that a call leaves in place is kept. In a [`RadixTree`] it
/// is the old value itself. In an [`ArcRadixTree`] it is the old value, or a clone of it over any
/// number of clones, since shared children are copied before they are written.
pub trait AbstractRadixTreeMut<K: TKey, V: TValue>: CloneTree<K, V> + AbstractRadixTree<K, V> {
    /// The empty tree. Takes no memory.
    final fn empty(alloc: Global) -> Self
        ensures is { Self.tree result ≡ no_tree }
        ensures canonical { IsCanonical K.cmp (Self.tree result) }
    {
        Self::blank(alloc, Seal::new())
    }

    /// The tree that binds only the empty key. Takes no memory.
    final fn leaf(alloc: Global, value: V) -> Self
        ensures is { Self.tree result ≡ made [] (Some value) [] }
        ensures canonical { IsCanonical K.cmp (Self.tree result) }
    {
        insertion::leaf(alloc, value)
    }

    /// The tree that binds only this key.
    ///
    /// Takes no memory for a key of at most 16 components. Fails only where memory is refused for a
    /// longer one; the value is then dropped.
    final fn single(alloc: Global, key: &[K], value: V) -> Result<Self, AllocError>
        ensures is { IfOk result (λ one. Self.tree one ≡ made key.now (Some value) []) }
        ensures short { length key.now ≤ 16 → IsOk result }
        ensures canonical { IfOk result (λ one. IsCanonical K.cmp (Self.tree one)) }
    {
        insertion::single(alloc, key, value)
    }

    /// The tree of the pairs, which may come in any order. Of pairs with equal keys the last one
    /// counts. As long as keys ascend, the tree is built at once, which takes less time. A value of
    /// a [`RadixTree`] is the one that came; in an [`ArcRadixTree`] it may be a clone of it, as
    /// with any insertion.
    ///
    /// Fails only where memory is refused, or the clone of a value. The pairs that came and the
    /// iterator are then dropped.
    ///
    /// ```
    /// let ports = RadixTree::from_iter(alloc, names_and_ports.into_iter())?;
    /// ```
    final fn from_iter<'a, I: Iterator<Item = (&'a [K], V)>>(
        alloc: Global,
        iter: I,
    ) -> Result<Self, AllocError>
    where
        K: 'a,
        requires can { I.can_next iter }
        requires ends { IsFinite (I.remaining iter) }
        ensures pairs { IfOk result (λ t. WholeRun I.next_gives iter (λ p. IsEqualMap Self.keeps
            (last_bound K.cmp (map (λ b. (b.0.now, b.1)) p.items)) (lookup K.cmp (Self.tree t)))) }
        ensures canonical { IfOk result (λ t. IsCanonical K.cmp (Self.tree t)) }
        ensures one { IfOk result (λ t. IsOneTree K.cmp (AreCopies V.is_clone) (Self.tree t)) }
        ensures smallest { IfOk result
            (λ t. IsSmallest K.cmp (AreCopies V.is_clone) (Self.tree t)) }
    {
        collect::<K, V, &'a [K], I, Self>(alloc, iter)
    }

    /// The same of pairs whose keys are lists. The lists are dropped.
    final fn from_vecs<I: Iterator<Item = (Vec<K>, V)>>(
        alloc: Global,
        iter: I,
    ) -> Result<Self, AllocError>
        requires can { I.can_next iter }
        requires ends { IsFinite (I.remaining iter) }
        ensures pairs { IfOk result (λ t. WholeRun I.next_gives iter (λ p. IsEqualMap Self.keeps
            (last_bound K.cmp (map (λ b. (b.0.items, b.1)) p.items))
            (lookup K.cmp (Self.tree t)))) }
        ensures canonical { IfOk result (λ t. IsCanonical K.cmp (Self.tree t)) }
        ensures one { IfOk result (λ t. IsOneTree K.cmp (AreCopies V.is_clone) (Self.tree t)) }
        ensures smallest { IfOk result
            (λ t. IsSmallest K.cmp (AreCopies V.is_clone) (Self.tree t)) }
    {
        collect::<K, V, Vec<K>, I, Self>(alloc, iter)
    }

    /// Binds the key to the value, which replaces the old one. The other keys keep their values.
    ///
    /// Fails only where memory is refused, for a prefix, for children or for the copy of shared
    /// children, or where the clone of a value in that copy is refused. The tree then has the same
    /// nodes, and binds what it bound, and the given value is dropped.
    ///
    /// Compares each component of the key at most once, except for a halving search among the
    /// children of each node on the way.
    final fn insert(&mut self, key: &[K], value: V) -> Result<(), AllocError>
        ensures ok { OnOk result
            (IsInserted K.cmp Self.keeps key.now value (Self.tree self.old) (Self.tree self.new)) }
        ensures binds { OnOk result (lookup K.cmp (Self.tree self.new) key.now ≡ Some value) }
        ensures err { OnErr result
            (HaveEqualMaps K.cmp Self.keeps (Self.tree self.old) (Self.tree self.new)) }
        ensures err_nodes { OnErr result
            (IsAlike Self.keeps (Self.tree self.old) (Self.tree self.new)) }
        ensures canonical { IsCanonical K.cmp (Self.tree self.new) }
    {
        insertion::insert(self, key, value)
    }

    /// Binds the key to the value, and answers the old one, or none where it was not bound. The
    /// other keys keep their values.
    ///
    /// Looks the key up, and then writes as `insert` does. Fails only where that does; the tree
    /// then has the same nodes, and binds what it bound, and the given value is dropped.
    ///
    /// ```
    /// let old = ports.replace(b"mail", 993)?;
    /// ```
    final fn replace(&mut self, key: &[K], value: V) -> Result<Option<V>, AllocError>
        ensures old { IfOk result
            (IsKept Self.keeps (lookup K.cmp (Self.tree self.old) key.now)) }
        ensures ok { OnOk result
            (IsInserted K.cmp Self.keeps key.now value (Self.tree self.old) (Self.tree self.new)) }
        ensures err { OnErr result
            (HaveEqualMaps K.cmp Self.keeps (Self.tree self.old) (Self.tree self.new)) }
        ensures err_nodes { OnErr result
            (IsAlike Self.keeps (Self.tree self.old) (Self.tree self.new)) }
        ensures canonical { IsCanonical K.cmp (Self.tree self.new) }
    {
        changing::replace(self, key, value)
    }

    /// Changes the value of the key by the closure, which gets a reference to it. Answers what the
    /// closure answers, or none where the key is not bound. The other keys keep their values.
    ///
    /// A key that is not bound costs only the look-up: it takes no memory, and nothing is copied.
    /// In a [`RadixTree`] it never takes memory. In an [`ArcRadixTree`] children on the way that
    /// another tree shares are copied first. Fails only where memory for these is refused, or the
    /// clone of a value in them. The closure is then not called, and the tree has the same nodes,
    /// and binds what it bound.
    ///
    /// Compares each component of the key at most once, except for two halving searches among the
    /// children of each node on the way.
    ///
    /// ```
    /// // The article is added to the set in the index.
    /// let added = index.update(word, |articles| articles.insert(article))?;
    /// ```
    final fn update<R: Drop, F: Fn(&mut V) -> R>(
        &mut self,
        key: &[K],
        f: F,
    ) -> Result<Option<R>, AllocError>
        requires { CanChange Self.keeps (CanWrite F.Fn f)
            (lookup K.cmp (Self.tree self.old) key.now) }
        ensures ok { IfOk result (λ answer. MatchOption answer
            (lookup K.cmp (Self.tree self.old) key.now ≡ None)
            (λ r. IsChanged Self.keeps (MayWrite F.Fn f) K.cmp key.now r (Self.tree self.old)
            (Self.tree self.new))) }
        ensures absent { lookup K.cmp (Self.tree self.old) key.now ≡ None
            → (result ≡ Ok None) × (Self.tree self.new ≡ Self.tree self.old) }
        ensures err { OnErr result
            (HaveEqualMaps K.cmp Self.keeps (Self.tree self.old) (Self.tree self.new)) }
        ensures err_nodes { OnErr result
            (IsAlike Self.keeps (Self.tree self.old) (Self.tree self.new)) }
        ensures canonical { IsCanonical K.cmp (Self.tree self.new) }
    {
        changing::update(self, key, &f)
    }

    /// Changes the value of the key by the closure, as `update` does, and answers what the closure
    /// answers. Where the key is not bound, binds it to `default`, as `insert` does, and answers
    /// none.
    ///
    /// Fails only where `update` or `insert` does; the tree then has the same nodes, and binds what
    /// it bound. `default` is dropped where it is not used.
    ///
    /// ```
    /// counts.upsert(word, 1, |count| *count += 1)?;
    /// ```
    final fn upsert<R: Drop, F: Fn(&mut V) -> R>(
        &mut self,
        key: &[K],
        default: V,
        f: F,
    ) -> Result<Option<R>, AllocError>
        requires { CanChange Self.keeps (CanWrite F.Fn f)
            (lookup K.cmp (Self.tree self.old) key.now) }
        ensures ok { IfOk result (λ answer. MatchOption answer
            ((lookup K.cmp (Self.tree self.old) key.now ≡ None)
            × IsInserted K.cmp Self.keeps key.now default (Self.tree self.old)
            (Self.tree self.new))
            (λ r. IsChanged Self.keeps (MayWrite F.Fn f) K.cmp key.now r (Self.tree self.old)
            (Self.tree self.new))) }
        ensures err { OnErr result
            (HaveEqualMaps K.cmp Self.keeps (Self.tree self.old) (Self.tree self.new)) }
        ensures err_nodes { OnErr result
            (IsAlike Self.keeps (Self.tree self.old) (Self.tree self.new)) }
        ensures canonical { IsCanonical K.cmp (Self.tree self.new) }
    {
        changing::upsert(self, key, default, &f)
    }

    /// Removes the key and answers its value, or none where it was not bound. The other keys keep
    /// their values.
    ///
    /// A key that is not bound costs only the look-up: it takes no memory, and nothing is copied.
    /// Fails only where memory is refused, or the clone of a value in copied children. Memory may
    /// be needed for the merged prefix of a node that is left with one child, and for the copy of
    /// shared children. On failure the tree has the same nodes, and binds what it bound.
    ///
    /// Compares each component of the key at most once, except for two halving searches among the
    /// children of each node on the way.
    final fn remove(&mut self, key: &[K]) -> Result<Option<V>, AllocError>
        ensures old { IfOk result
            (IsKept Self.keeps (lookup K.cmp (Self.tree self.old) key.now)) }
        ensures ok { OnOk result (IsWithout K.cmp Self.keeps key.now
            (lookup K.cmp (Self.tree self.old)) (lookup K.cmp (Self.tree self.new))) }
        ensures absent { lookup K.cmp (Self.tree self.old) key.now ≡ None
            → (result ≡ Ok None) × (Self.tree self.new ≡ Self.tree self.old) }
        ensures err { OnErr result
            (HaveEqualMaps K.cmp Self.keeps (Self.tree self.old) (Self.tree self.new)) }
        ensures err_nodes { OnErr result
            (IsAlike Self.keeps (Self.tree self.old) (Self.tree self.new)) }
        ensures canonical { IsCanonical K.cmp (Self.tree self.new) }
    {
        removal::remove(self, key)
    }

    /// Removes all keys, with their values, and leaves the empty tree. Takes no memory.
    ///
    /// What is removed is dropped, node by node; in an [`ArcRadixTree`], what another tree shares
    /// stays there.
    final fn clear(&mut self)
        ensures is { Self.tree self.new ≡ no_tree }
        ensures canonical { IsCanonical K.cmp (Self.tree self.new) }
    {
        let alloc = self.allocator();
        *self = Self::empty(alloc);
    }

    /// Keeps the pairs at which the closure answers true, and removes the others. The closure is
    /// asked once at each pair, by ascending keys, and is lent key and value. Values that stay do
    /// so in place.
    ///
    /// A walk inserts the keys that go into a tree of keys, and a difference removes them. It takes
    /// memory for the longest key, for that tree, and as the difference does. Where no key goes,
    /// nothing is written or copied.
    ///
    /// Fails only where memory is refused, or the clone of a value in shared children that are
    /// copied. The tree is then as it was, or empty. It is as it was if the walk was refused, since
    /// the walk only reads it.
    ///
    /// Code that is generic in the flavour asks for [`KeyTrees`], which both flavours have.
    ///
    /// ```
    /// // What has expired goes.
    /// sessions.retain(|_, expires| now < *expires)?;
    /// ```
    final fn retain<F: Fn(&[K], &V) -> bool>(&mut self, keep: F) -> Result<(), AllocError>
    where
        Self: KeyTrees<K>,
        requires { (k : List K) → CanTell F.Fn keep k (lookup K.cmp (Self.tree self.old) k) }
        ensures ok { OnOk result (IsRetainedAsTold K.cmp (MayTell F.Fn keep) Self.keeps
            (Self.tree self.old) (Self.tree self.new)) }
        ensures err { OnErr result
            ((Self.tree self.new ≡ Self.tree self.old) ⊎ (Self.tree self.new ≡ no_tree)) }
        ensures canonical { IsCanonical K.cmp (Self.tree self.new) }
    {
        retaining::retain::<K, V, Self, Self::Keys, F>(self, &keep)
    }

    /// Removes all keys that begin with `prefix`, with their values. The other keys keep theirs.
    ///
    /// Where no key begins with it, the call only walks down to where one would be: it takes no
    /// memory, and nothing is copied. The same holds where all keys begin with it. Fails only where
    /// memory is refused, or the clone of a value in copied children. Memory may be needed for the
    /// merged prefix of a node that is left with one child, and for the copy of shared children. On
    /// failure the tree has the same nodes, and binds what it bound.
    ///
    /// Compares each component of the prefix at most once, except for two halving searches among
    /// the children of each node on the way. What is removed is dropped, node by node.
    final fn remove_below(&mut self, prefix: &[K]) -> Result<(), AllocError>
        ensures ok { OnOk result (IsWithoutBelow K.cmp Self.keeps prefix.now
            (lookup K.cmp (Self.tree self.old)) (lookup K.cmp (Self.tree self.new))) }
        ensures absent { let f = lookup K.cmp (Self.tree self.old) in
            ((k : List K) → under K.cmp f prefix.now k ≡ None)
            → (result ≡ Ok tt) × (Self.tree self.new ≡ Self.tree self.old) }
        ensures all { AllBegin K.cmp prefix.now (lookup K.cmp (Self.tree self.old)) → IsOk result }
        ensures err { OnErr result
            (HaveEqualMaps K.cmp Self.keeps (Self.tree self.old) (Self.tree self.new)) }
        ensures err_nodes { OnErr result
            (IsAlike Self.keeps (Self.tree self.old) (Self.tree self.new)) }
        ensures canonical { IsCanonical K.cmp (Self.tree self.new) }
    {
        removal_below::remove_below(self, prefix)
    }

    /// Removes all keys that begin with `prefix`, with their values, and answers them as a separate
    /// tree, with their whole keys; the empty tree where no key begins so. The other keys keep
    /// their values. `append` of the answer puts the keys back.
    ///
    /// The keys are below one node, which is moved with a longer prefix: nothing below it is
    /// touched. The components before the node's own prefix are those of `prefix`.
    ///
    /// Where no key begins with it, the call only walks down to where one would be: it takes no
    /// memory, and nothing is copied. The same holds where all keys begin with it. Fails only where
    /// memory is refused, or the clone of a value in copied children. Memory may be needed for the
    /// prefix of the answer's root, where that has more than 16 components, for the merged prefix
    /// of a node that is left with one child, and for the copy of shared children. On failure the
    /// tree has the same nodes, and binds what it bound.
    ///
    /// Compares each component of the prefix at most once, except for two halving searches among
    /// the children of each node on the way.
    ///
    /// ```
    /// let moved = servers.split_below(b"eu/")?;
    /// ```
    final fn split_below(&mut self, prefix: &[K]) -> Result<Self, AllocError>
        ensures made { IfOk result (λ made. IsEqualMap Self.keeps
            (under K.cmp (lookup K.cmp (Self.tree self.old)) prefix.now)
            (lookup K.cmp (Self.tree made))) }
        ensures made_canonical { IfOk result (λ made. IsCanonical K.cmp (Self.tree made)) }
        ensures ok { OnOk result (IsWithoutBelow K.cmp Self.keeps prefix.now
            (lookup K.cmp (Self.tree self.old)) (lookup K.cmp (Self.tree self.new))) }
        ensures absent { let f = lookup K.cmp (Self.tree self.old) in
            ((k : List K) → under K.cmp f prefix.now k ≡ None)
            → IsOk result × (Self.tree self.new ≡ Self.tree self.old) }
        ensures all { AllBegin K.cmp prefix.now (lookup K.cmp (Self.tree self.old)) → IsOk result }
        ensures err { OnErr result
            (HaveEqualMaps K.cmp Self.keeps (Self.tree self.old) (Self.tree self.new)) }
        ensures err_nodes { OnErr result
            (IsAlike Self.keeps (Self.tree self.old) (Self.tree self.new)) }
        ensures canonical { IsCanonical K.cmp (Self.tree self.new) }
    {
        removal_below::split_below(self, prefix)
    }

    /// A new tree of the keys that start with the prefix, in full, with copies of their values; the
    /// empty tree where no key does. This tree is unchanged.
    ///
    /// Goes down to the node below which these keys are, as `get` does, and copies it: in an
    /// [`ArcRadixTree`] what is below the node is shared. Where no key starts so, it takes no
    /// memory. Fails only where memory is refused, or the clone of a value.
    final fn filter_prefix(&self, prefix: &[K]) -> Result<Self, AllocError>
        ensures made { IfOk result (λ made. IsEqualMap (Copies V.is_clone)
            (under K.cmp (lookup K.cmp (Self.tree self.now)) prefix.now)
            (lookup K.cmp (Self.tree made))) }
        ensures absent { let f = lookup K.cmp (Self.tree self.now) in
            ((k : List K) → under K.cmp f prefix.now k ≡ None) → IsOk result }
        ensures canonical { IfOk result (λ made. IsCanonical K.cmp (Self.tree made)) }
    {
        filtering::filter_prefix(self, prefix)
    }

    /// A new tree of the keys of either tree, the shared ones with a copy of the left value. Both
    /// trees are unchanged.
    ///
    /// Fails only where memory is refused, or the clone of a value. It makes at most three
    /// comparisons of components for each node and each component of a prefix of both trees.
    final fn union<S: AbstractRadixTree<K, V>>(&self, that: &S) -> Result<Self, AllocError>
        ensures made { IfOk result (λ made.
            IsCombined K.cmp (IsUnionAt (Copies V.is_clone) V.is_clone)
            (Self.tree self.now) (S.tree that.now) (Self.tree made)) }
        ensures canonical { IfOk result (λ made. IsCanonical K.cmp (Self.tree made)) }
    {
        combines::union(self, that)
    }

    /// A new tree of the keys that both bind, with copies of the left values. Both trees are
    /// unchanged.
    ///
    /// Fails only where memory is refused, or the clone of a value.
    final fn intersection<W: TValue, S: AbstractRadixTree<K, W>>(
        &self,
        that: &S,
    ) -> Result<Self, AllocError>
        ensures made { IfOk result (λ made.
            IsCombined K.cmp (IsIntersectionAt (Copies V.is_clone))
            (Self.tree self.now) (S.tree that.now) (Self.tree made)) }
        ensures canonical { IfOk result (λ made. IsCanonical K.cmp (Self.tree made)) }
    {
        combines::intersection(self, that)
    }

    /// A new tree of the keys that only this tree binds, with copies of its values. Both trees are
    /// unchanged.
    ///
    /// Fails only where memory is refused, or the clone of a value.
    final fn difference<W: TValue, S: AbstractRadixTree<K, W>>(
        &self,
        that: &S,
    ) -> Result<Self, AllocError>
        ensures made { IfOk result (λ made.
            IsCombined K.cmp (IsDifferenceAt (Copies V.is_clone))
            (Self.tree self.now) (S.tree that.now) (Self.tree made)) }
        ensures canonical { IfOk result (λ made. IsCanonical K.cmp (Self.tree made)) }
    {
        combines::difference(self, that)
    }

    /// Puts the components before each key. The empty tree stays empty, and no value or child is
    /// touched.
    ///
    /// Fails only where memory is refused for a prefix of more than 16 components; the tree is then
    /// unchanged.
    final fn prepend(&mut self, prefix: &[K]) -> Result<(), AllocError>
        ensures ok { OnOk result ((k : List K)
            → lookup K.cmp (Self.tree self.new) k
            ≡ prefixed K.cmp (lookup K.cmp (Self.tree self.old)) prefix.now k) }
        ensures err { OnErr result (Self.tree self.new ≡ Self.tree self.old) }
        ensures canonical { IsCanonical K.cmp (Self.tree self.new) }
    {
        prepending::prepend(self, prefix)
    }

    /// Adds the keys that only the other tree binds, with clones of its values. The values of this
    /// tree stay in place.
    ///
    /// First tests whether this tree lacks a key of the other one, and ends the test at the first
    /// such key. Where there is none, it takes no memory, and nothing is written or copied. Fails
    /// only where the clone of a value is refused, or memory: for a prefix of more than 16
    /// components, for new lists of children, or for the copy of shared children. The tree is then
    /// empty.
    final fn union_with<S: AbstractRadixTree<K, V>>(&mut self, that: &S) -> Result<(), AllocError>
        ensures ok { OnOk result (IsCombined K.cmp (IsUnionAt Self.keeps V.is_clone)
            (Self.tree self.old) (S.tree that.now) (Self.tree self.new)) }
        ensures err { OnErr result (Self.tree self.new ≡ no_tree) }
        ensures canonical { IsCanonical K.cmp (Self.tree self.new) }
    {
        canonical(self);
        if self.is_superset(that) {
            return Ok(());
        }
        combining::union_with(self, that)
    }

    /// Moves the pairs of the other tree into this one. A key of both gets the other tree's value.
    ///
    /// Nodes are moved with all that is below them, and what only one of the trees has is not
    /// walked. No value is cloned, except in lists of children that another tree shares, which are
    /// copied first. Where both trees have children, the shorter list is moved into the longer one.
    ///
    /// Where one of the trees is empty, it takes no memory, and nothing is copied. Fails only where
    /// the clone of a value in such a copy is refused, or memory: for a prefix of more than 16
    /// components, for lists of children, or for the copy of shared children. This tree is then
    /// empty, and the other one is dropped.
    ///
    /// ```
    /// routes.append(more_routes)?;
    /// ```
    final fn append(&mut self, that: Self) -> Result<(), AllocError>
        ensures ok { OnOk result (IsCombined K.cmp (IsUnionAt Self.keeps Self.keeps)
            (Self.tree that) (Self.tree self.old) (Self.tree self.new)) }
        ensures nothing { Self.tree that ≡ no_tree
            → IsOk result × (Self.tree self.new ≡ Self.tree self.old) }
        ensures whole { Self.tree self.old ≡ no_tree
            → IsOk result × (Self.tree self.new ≡ Self.tree that) }
        ensures err { OnErr result (Self.tree self.new ≡ no_tree) }
        ensures canonical { IsCanonical K.cmp (Self.tree self.new) }
    {
        canonical(self);
        canonical(&that);
        if that.is_empty() {
            return Ok(());
        }
        if self.is_empty() {
            *self = that;
            return Ok(());
        }
        appending::append(self, that)
    }

    /// Keeps the keys that both bind. Their values stay in place.
    ///
    /// First tests whether a key has to be removed, and ends the test at the first such key. Where
    /// there is none, nothing is written or copied. Children that stay do so in their own list. It
    /// takes memory only where an only child is merged with its parent and their prefix has more
    /// than 16 components, and for the copy of children that another tree shares. Fails only where
    /// that memory, or the clone of a value in such a copy, is refused. The tree is then empty.
    final fn intersection_with<W: TValue, S: AbstractRadixTree<K, W>>(
        &mut self,
        that: &S,
    ) -> Result<(), AllocError>
        ensures ok { OnOk result (IsCombined K.cmp (IsIntersectionAt Self.keeps)
            (Self.tree self.old) (S.tree that.now) (Self.tree self.new)) }
        ensures err { OnErr result (Self.tree self.new ≡ no_tree) }
        ensures canonical { IsCanonical K.cmp (Self.tree self.new) }
    {
        canonical(self);
        if self.is_subset(that) {
            return Ok(());
        }
        combining::intersection_with(self, that)
    }

    /// Keeps the keys that only this tree binds. Their values stay in place.
    ///
    /// First tests whether a key has to be removed, and ends the test at the first such key. Where
    /// there is none, nothing is written or copied. Children that stay do so in their own list. It
    /// takes memory only where an only child is merged with its parent and their prefix has more
    /// than 16 components, and for the copy of children that another tree shares. Fails only where
    /// that memory, or the clone of a value in such a copy, is refused. The tree is then empty.
    final fn difference_with<W: TValue, S: AbstractRadixTree<K, W>>(
        &mut self,
        that: &S,
    ) -> Result<(), AllocError>
        ensures ok { OnOk result (IsCombined K.cmp (IsDifferenceAt Self.keeps)
            (Self.tree self.old) (S.tree that.now) (Self.tree self.new)) }
        ensures err { OnErr result (Self.tree self.new ≡ no_tree) }
        ensures canonical { IsCanonical K.cmp (Self.tree self.new) }
    {
        canonical(self);
        if self.is_disjoint(that) {
            return Ok(());
        }
        combining::difference_with(self, that)
    }

    /// Adds the keys that only the other tree binds, with clones of its values. Keys of only this
    /// tree keep their values, and keys of both stay where the closure answers true. The closure
    /// gets this tree's value, which it may change, and the other one's.
    ///
    /// Fails only where the clone of a value is refused, or memory: for a prefix of more than 16
    /// components, for new lists of children, or for the copy of shared children. The tree is then
    /// empty.
    final fn outer_combine_with<S: AbstractRadixTree<K, V>, F: Fn(&mut V, &V) -> bool>(
        &mut self,
        that: &S,
        f: F,
    ) -> Result<(), AllocError>
        requires { (k : List K) → CanMeet Self.keeps (CanLeave F.Fn f)
            (lookup K.cmp (Self.tree self.old) k) (lookup K.cmp (S.tree that.now) k) }
        ensures ok { OnOk result (IsCombined K.cmp
            (IsOuterAt Self.keeps V.is_clone (KeptThen Self.keeps (MayLeave F.Fn f)))
            (Self.tree self.old) (S.tree that.now) (Self.tree self.new)) }
        ensures err { OnErr result (Self.tree self.new ≡ no_tree) }
        ensures canonical { IsCanonical K.cmp (Self.tree self.new) }
    {
        combining::outer_combine_with(self, that, &f)
    }

    /// Keeps the keys that both bind and at which the closure answers true. The closure gets this
    /// tree's value, which it may change, and the other one's.
    ///
    /// Children that stay do so in their own list. It takes memory only where an only child is
    /// merged with its parent and their prefix has more than 16 components, and for the copy of
    /// children that another tree shares. Fails only where that memory, or the clone of a value in
    /// such a copy, is refused. The tree is then empty.
    final fn inner_combine_with<W: TValue, S: AbstractRadixTree<K, W>, F: Fn(&mut V, &W) -> bool>(
        &mut self,
        that: &S,
        f: F,
    ) -> Result<(), AllocError>
        requires { (k : List K) → CanMeet Self.keeps (CanLeave F.Fn f)
            (lookup K.cmp (Self.tree self.old) k) (lookup K.cmp (S.tree that.now) k) }
        ensures ok { OnOk result (IsCombined K.cmp
            (IsInnerAt (KeptThen Self.keeps (MayLeave F.Fn f))) (Self.tree self.old)
            (S.tree that.now) (Self.tree self.new)) }
        ensures err { OnErr result (Self.tree self.new ≡ no_tree) }
        ensures canonical { IsCanonical K.cmp (Self.tree self.new) }
    {
        combining::inner_combine_with(self, that, &f)
    }

    /// Keeps the keys that only this tree binds, with their values, and those of both at which the
    /// closure answers true. The closure gets this tree's value, which it may change, and the other
    /// one's.
    ///
    /// Children that stay do so in their own list. It takes memory only where an only child is
    /// merged with its parent and their prefix has more than 16 components, and for the copy of
    /// children that another tree shares. Fails only where that memory, or the clone of a value in
    /// such a copy, is refused. The tree is then empty.
    final fn left_combine_with<W: TValue, S: AbstractRadixTree<K, W>, F: Fn(&mut V, &W) -> bool>(
        &mut self,
        that: &S,
        f: F,
    ) -> Result<(), AllocError>
        requires { (k : List K) → CanMeet Self.keeps (CanLeave F.Fn f)
            (lookup K.cmp (Self.tree self.old) k) (lookup K.cmp (S.tree that.now) k) }
        ensures ok { OnOk result (IsCombined K.cmp
            (IsLeftAt (OrStays Self.keeps (KeptThen Self.keeps (MayLeave F.Fn f))))
            (Self.tree self.old) (S.tree that.now) (Self.tree self.new)) }
        ensures err { OnErr result (Self.tree self.new ≡ no_tree) }
        ensures canonical { IsCanonical K.cmp (Self.tree self.new) }
    {
        combining::left_combine_with(self, that, &f)
    }

    /// Removes the keys that the other tree covers. Of its keys that are prefixes of a key, the
    /// longest decides, by the closure's answer for its value. A key is a prefix of itself. The
    /// other values stay in place.
    ///
    /// Children that stay do so in their own list. It takes memory only where an only child is
    /// merged with its parent and their prefix has more than 16 components, and for the copy of
    /// children that another tree shares. Fails only where that memory, or the clone of a value in
    /// such a copy, is refused. The tree is then empty.
    final fn remove_prefix_with<W: TValue, S: AbstractRadixTree<K, W>, F: Fn(&W) -> bool>(
        &mut self,
        that: &S,
        f: F,
    ) -> Result<(), AllocError>
        requires { (k : List K) → CanJudge F.Fn f (lookup K.cmp (S.tree that.now) k) }
        ensures ok { OnOk result (IsRemoved Self.keeps (MayJudge F.Fn f)
            (lookup K.cmp (S.tree that.now)) (lookup K.cmp (Self.tree self.old))
            (lookup K.cmp (Self.tree self.new))) }
        ensures err { OnErr result (Self.tree self.new ≡ no_tree) }
        ensures canonical { IsCanonical K.cmp (Self.tree self.new) }
    {
        combining::sift_prefixes(self, that, false, &f)
    }

    /// Keeps exactly the keys that the other tree covers. Of its keys that are prefixes of a key,
    /// the longest decides, by the closure's answer for its value. A key is a prefix of itself.
    /// Values that stay do so in place.
    ///
    /// Children that stay do so in their own list. It takes memory only where an only child is
    /// merged with its parent and their prefix has more than 16 components, and for the copy of
    /// children that another tree shares. Fails only where that memory, or the clone of a value in
    /// such a copy, is refused. The tree is then empty.
    final fn retain_prefix_with<W: TValue, S: AbstractRadixTree<K, W>, F: Fn(&W) -> bool>(
        &mut self,
        that: &S,
        f: F,
    ) -> Result<(), AllocError>
        requires { (k : List K) → CanJudge F.Fn f (lookup K.cmp (S.tree that.now) k) }
        ensures ok { OnOk result (IsRetained Self.keeps (MayJudge F.Fn f)
            (lookup K.cmp (S.tree that.now)) (lookup K.cmp (Self.tree self.old))
            (lookup K.cmp (Self.tree self.new))) }
        ensures err { OnErr result (Self.tree self.new ≡ no_tree) }
        ensures canonical { IsCanonical K.cmp (Self.tree self.new) }
    {
        combining::sift_prefixes(self, that, true, &f)
    }
}

impl<K: TKey, V: TValue> AbstractRadixTreeMut<K, V> for RadixTree<K, V> {}

impl<K: TKey, V: TValue> AbstractRadixTreeMut<K, V> for ArcRadixTree<K, V> {}
