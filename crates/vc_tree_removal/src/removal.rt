//! How a key is removed from a tree, either only that key or all keys that begin with it.

ghost use Rattle.std.specs.Prelude.{◌≡◌, ◌+◌, ◌++◌, ◌<◌, ◌≤◌, [], length, vec_len, None, Ok, Some};
ghost use Rattle.std.specs.Prelude.{IfOk, IsOk, IsSome, MatchBool, OnOk, OnErr, option_map};
ghost use Rattle.vc_tree_model.specs.Child.{IsChild};
ghost use Rattle.vc_tree_model.specs.Key.{behind};
ghost use Rattle.vc_tree_model.specs.Tree.{bare, no_tree, node};
ghost use Rattle.vc_tree_model.specs.Value.{IsKept};
ghost use Rattle.vc_tree_model.specs.Map.{HaveEqualMaps, lookup};
ghost use Rattle.vc_tree_model.specs.Canonical.{AreChildren, IsCanonical, IsSolid};
ghost use Rattle.vc_tree_model.specs.Same.{IsAlike, IsAlikeIn};
ghost use Rattle.vc_tree_nodes.specs.Children.{seen};
ghost use Rattle.vc_tree_removal.specs.Without.{AllBegin, IsWithout};
ghost use Rattle.vc_tree_removal.specs.Taking.{AreSome, IsDeep, IsWholly, Meets, MeetsAt};
ghost use Rattle.vc_tree_removal.specs.Taking.{Divides, IsBare, IsLone, IsOut, Removed, instead};
ghost use Rattle.vc_tree_removal.specs.declared.removal.Extent.TheVariants.{Alone, Below};

use std::alloc::{AllocError, Global};
use std::mem;
use vc_merge::merge::Uncounted;
use vc_tree_nodes::building::{Build, Seal};
use vc_tree_nodes::children::{ChildList, Fragment, Parts};
use vc_tree_nodes::descent::contains_key;
use vc_tree_nodes::insertion::leaf;
use vc_tree_nodes::places::child_place;
use vc_tree_nodes::reading::{RadixNode, TKey, TValue, canonical};

/// The keys that are removed with a key.
#[derive(Clone, Copy)]
pub(crate) enum Extent {
    /// Only the key.
    Alone,
    /// All keys that begin with it.
    Below,
}

/// Removes the key and answers its value, or none where it was not bound. The other keys keep their
/// values.
///
/// A key that is not bound costs only the look-up: it takes no memory, and nothing is copied. Fails
/// only where memory is refused, or the clone of a value in copied children. Memory may be needed
/// for the merged prefix of a node that is left with one child, and for the copy of shared
/// children. On failure the tree has the same nodes, and binds what it bound.
///
/// Compares each component of the key at most once, except for two halving searches among the
/// children of each node on the way.
#[tactic(auto, using(crate::proofs::Going::refused))]
pub fn remove<K: TKey, V: TValue, T: Build<K, V>>(
    tree: &mut T,
    key: &[K],
) -> Result<Option<V>, AllocError>
    ensures old { IfOk result (IsKept T.keeps (lookup K.cmp (T.tree tree.old) key.now)) }
    ensures ok { OnOk result (IsWithout K.cmp T.keeps key.now
        (lookup K.cmp (T.tree tree.old)) (lookup K.cmp (T.tree tree.new))) }
    ensures absent { lookup K.cmp (T.tree tree.old) key.now ≡ None
        → (result ≡ Ok None) × (T.tree tree.new ≡ T.tree tree.old) }
    ensures err { OnErr result (HaveEqualMaps K.cmp T.keeps (T.tree tree.old) (T.tree tree.new)) }
    ensures err_nodes { OnErr result (IsAlike T.keeps (T.tree tree.old) (T.tree tree.new)) }
    ensures canonical { IsCanonical K.cmp (T.tree tree.new) }
{
    canonical(tree);
    if !contains_key(tree, key) {
        return Ok(None);
    }
    let taken = remove_met(tree, key, Extent::Alone)?;
    let Parts {
        prefix: _,
        value,
        children: _,
    } = taken.take_apart(Seal::new());
    Ok(value)
}

/// Removes the keys that `extent` names, where the tree binds some. Answers what is removed: the
/// node that has all keys that begin so, or a node with only the value of the key.
pub(crate) fn remove_met<K: TKey, V: TValue, T: Build<K, V>>(
    tree: &mut T,
    key: &[K],
    extent: Extent,
) -> Result<T, AllocError>
    requires { Meets K.cmp extent key.now (lookup K.cmp (T.tree tree.old)) }
    ensures ok { IfOk result (λ taken. Divides K.cmp T.keeps extent key.now
        (lookup K.cmp (T.tree tree.old)) (lookup K.cmp (T.tree tree.new)) (T.tree taken)) }
    ensures all { extent ≡ Below → AllBegin K.cmp key.now (lookup K.cmp (T.tree tree.old))
        → IsOk result }
    ensures err_nodes { OnErr result (IsAlike T.keeps (T.tree tree.old) (T.tree tree.new)) }
    ensures canonical { IsCanonical K.cmp (T.tree tree.new) }
{
    let alloc = tree.allocator();
    canonical(tree);
    if goes_wholly(tree, key, extent) {
        return Ok(take_root(alloc, tree));
    }
    let done = remove_from(alloc, tree, key, extent);
    canonical(tree);
    let taken = done?;
    Ok(taken)
}

/// Whether all keys of a tree are removed with a key, where it binds some of these. If not, some of
/// them are below the tree's children.
pub(crate) fn goes_wholly<K: TKey, V: TValue, T: RadixNode<K, V>>(
    tree: &T,
    key: &[K],
    extent: Extent,
) -> bool
    requires { Meets K.cmp extent key.now (lookup K.cmp (T.tree tree.now)) }
    ensures { MatchBool result (IsWholly K.cmp extent key.now (T.tree tree.now))
        (IsDeep K.cmp extent key.now (T.tree tree.now)) }
{
    match extent {
        Extent::Alone => tree.children().is_empty(),
        Extent::Below => key.len() <= tree.prefix().len(),
    }
}

/// Takes the tree out, and leaves the empty one.
pub(crate) fn take_root<K: TKey, V: TValue, T: Build<K, V>>(alloc: Global, tree: &mut T) -> T
    ensures is { T.tree tree.new ≡ no_tree }
    ensures taken { T.tree result ≡ T.tree tree.old }
    ensures canonical { IsCanonical K.cmp (T.tree tree.new) }
{
    mem::replace(tree, T::blank(alloc, Seal::new()))
}

/// Removes the keys that `extent` names, where the tree binds some, and answers what is removed.
/// The key is the tree's prefix or continues after it.
#[cycle(removal)]
pub(crate) fn remove_from<K: TKey, V: TValue, T: Build<K, V>>(
    alloc: Global,
    tree: &mut T,
    key: &[K],
    extent: Extent,
) -> Result<T, AllocError>
    requires met { Meets K.cmp extent key.now (lookup K.cmp (T.tree tree.old)) }
    requires deep { IsDeep K.cmp extent key.now (T.tree tree.old) }
    ensures ok { IfOk result (λ taken.
        let t = T.tree tree.old in Removed K.cmp T.keeps extent t.prefix (lookup K.cmp t) key.now
        (T.tree taken) (T.tree tree.new)) }
    ensures err { OnErr result (IsAlike T.keeps (T.tree tree.old) (T.tree tree.new)) }
{
    canonical(tree);
    let rest = rest_of(tree, key);
    let Some(first) = rest.first() else {
        return take_value(alloc, tree);
    };
    let Ok(i) = child_place(tree.children(), first, &mut Uncounted) else {
        unreachable!()
    };
    let (prefix, own, mut children) = opened(alloc, tree);
    match remove_in::<K, V, T>(alloc, &prefix, &own, &mut children, i, rest, extent) {
        Ok((taken, whole)) => {
            *tree = closed(prefix, own, children, whole);
            Ok(taken)
        }
        Err(refused) => {
            *tree = T::assemble(prefix, own, Some(children), Seal::new());
            Err(refused)
        }
    }
}

/// The rest of a key after the prefix of a tree.
pub(crate) fn rest_of<'k, K: TKey, V: TValue, T: RadixNode<K, V>>(tree: &T, key: &'k [K]) -> &'k [K]
    requires { IsSome (behind K.cmp (T.tree tree.now).prefix key.now) }
    ensures { behind K.cmp (T.tree tree.now).prefix key.now ≡ Some result.now }
{
    let (_, rest) = key.split_at(tree.prefix().len());
    rest
}

/// Removes the keys that go with `rest` from the children of a node. They are below the child at
/// place `i`. Answers what is removed. Where the node has no value and one child is left, it also
/// answers that child, merged with the node's prefix.
#[cycle(removal)]
fn remove_in<K: TKey, V: TValue, T: Build<K, V>>(
    alloc: Global,
    front: &T::Prefix,
    own: &Option<V>,
    children: &mut T::Children,
    i: usize,
    rest: &[K],
    extent: Extent,
) -> Result<(T, Option<T>), AllocError>
    requires { MeetsAt K.cmp extent rest.now own.now
        (seen T.tree (T.Children.items children.old)) i }
    ensures ok { let front = T.Prefix.items front.now in IfOk result (λ done.
        Removed K.cmp T.keeps extent front
        (lookup K.cmp (node front own.now (seen T.tree (T.Children.items children.old))))
        (front ++ rest.now) (T.tree done.0) (instead (option_map T.tree done.1)
        (node front own.now (seen T.tree (T.Children.items children.new))))) }
    ensures err { OnErr result (IsAlikeIn T.keeps (seen T.tree (T.Children.items children.old))
        (seen T.tree (T.Children.items children.new))) }
{
    let list = children.make_mut()?;
    remove_at(alloc, front, own, list, i, rest, extent)
}

/// Does the same in a list that may be written.
#[cycle(removal)]
fn remove_at<K: TKey, V: TValue, T: Build<K, V>>(
    alloc: Global,
    front: &T::Prefix,
    own: &Option<V>,
    list: &mut Vec<T>,
    i: usize,
    rest: &[K],
    extent: Extent,
) -> Result<(T, Option<T>), AllocError>
    requires within { i < vec_len list.old }
    requires met { MeetsAt K.cmp extent rest.now own.now (seen T.tree list.old.items) i }
    ensures ok { let front = T.Prefix.items front.now in IfOk result (λ done.
        Removed K.cmp T.keeps extent front
        (lookup K.cmp (node front own.now (seen T.tree list.old.items))) (front ++ rest.now)
        (T.tree done.0) (instead (option_map T.tree done.1)
        (node front own.now (seen T.tree list.new.items)))) }
    ensures err { OnErr result
        (IsAlikeIn T.keeps (seen T.tree list.old.items) (seen T.tree list.new.items)) }
{
    if goes_wholly(&list[i], rest, extent) {
        return part_out(alloc, front, own, list, i);
    }
    let taken = remove_from(alloc, &mut list[i], rest, extent)?;
    Ok((taken, None))
}

/// Removes the tree at place `i` from the children of a node and answers it. Where the node has no
/// value and one child is left, it also answers that child, merged with the node's prefix.
fn part_out<K: TKey, V: TValue, T: Build<K, V>>(
    alloc: Global,
    front: &T::Prefix,
    own: &Option<V>,
    list: &mut Vec<T>,
    i: usize,
) -> Result<(T, Option<T>), AllocError>
    requires within { i < vec_len list.old }
    requires canonical { AreChildren K.cmp (seen T.tree list.old.items) }
    requires solid { IsSolid own.now (seen T.tree list.old.items) }
    ensures ok { IfOk result (λ done. IsOut T.tree (T.Prefix.items front.now) own.now
        list.old.items i (T.tree done.0) (instead (option_map T.tree done.1)
        (node (T.Prefix.items front.now) own.now (seen T.tree list.new.items)))) }
    ensures err { OnErr result (list.new.items ≡ list.old.items) }
{
    if own.is_some() || list.len() != 2 {
        return Ok((list.remove(i), None));
    }
    let whole = lone(alloc, front, list, 1 - i)?;
    Ok((list.remove(0), Some(whole)))
}

/// Removes the tree at place `i` from a list, and puts the front before its prefix.
fn lone<K: TKey, V: TValue, T: Build<K, V>>(
    alloc: Global,
    front: &T::Prefix,
    list: &mut Vec<T>,
    i: usize,
) -> Result<T, AllocError>
    requires within { i < vec_len list.old }
    requires canonical { AreChildren K.cmp (seen T.tree list.old.items) }
    ensures ok { IfOk result (λ whole.
        IsLone T.tree (T.Prefix.items front.now) list.old.items i (T.tree whole) list.new.items) }
    ensures err { OnErr result (list.new.items ≡ list.old.items) }
    ensures many { IfOk result (λ whole. vec_len list.new + 1 ≡ vec_len list.old) }
{
    let joined = T::Prefix::joined(alloc, front.as_slice(), list[i].prefix())?;
    Ok(with_prefix(joined, list.remove(i)))
}

/// Removes the key that is the prefix of a node with children. An only child is merged with it.
fn take_value<K: TKey, V: TValue, T: Build<K, V>>(
    alloc: Global,
    tree: &mut T,
) -> Result<T, AllocError>
    requires deep { AreSome (T.tree tree.old).children }
    requires bound { IsSome (T.tree tree.old).value }
    ensures ok { let t = T.tree tree.old in IfOk result (λ taken. Removed K.cmp T.keeps Alone
        t.prefix (lookup K.cmp t) (t.prefix ++ []) (T.tree taken) (T.tree tree.new)) }
    ensures err { OnErr result (IsAlike T.keeps (T.tree tree.old) (T.tree tree.new)) }
{
    let many = tree.children().len();
    let (prefix, own, mut children) = opened(alloc, tree);
    match bare_of::<K, V, T>(alloc, &prefix, &mut children, many) {
        Ok(whole) => {
            *tree = closed(prefix, None, children, whole);
            Ok(alone(alloc, own))
        }
        Err(refused) => {
            *tree = T::assemble(prefix, own, Some(children), Seal::new());
            Err(refused)
        }
    }
}

/// Prepares `many` children for a node without a value: an only child is taken out and answered,
/// merged with the node's prefix.
fn bare_of<K: TKey, V: TValue, T: Build<K, V>>(
    alloc: Global,
    front: &T::Prefix,
    children: &mut T::Children,
    many: usize,
) -> Result<Option<T>, AllocError>
    requires many { many ≡ length (T.Children.items children.old) }
    requires some { AreSome (seen T.tree (T.Children.items children.old)) }
    requires canonical { AreChildren K.cmp (seen T.tree (T.Children.items children.old)) }
    ensures ok { IfOk result (λ whole. IsBare T.keeps (T.Prefix.items front.now)
        (seen T.tree (T.Children.items children.old)) (instead (option_map T.tree whole)
        (node (T.Prefix.items front.now) None (seen T.tree (T.Children.items children.new))))) }
    ensures err { OnErr result (IsAlikeIn T.keeps (seen T.tree (T.Children.items children.old))
        (seen T.tree (T.Children.items children.new))) }
{
    if many == 1 {
        let list = children.make_mut()?;
        let whole = lone(alloc, front, list, 0)?;
        return Ok(Some(whole));
    }
    Ok(None)
}

/// The parts of a tree with children. It leaves the empty tree.
pub(crate) fn opened<K: TKey, V: TValue, T: Build<K, V>>(
    alloc: Global,
    tree: &mut T,
) -> (T::Prefix, Option<V>, T::Children)
    requires { AreSome (T.tree tree.old).children }
    ensures is { T.tree tree.old
        ≡ node (T.Prefix.items result.0) result.1 (seen T.tree (T.Children.items result.2)) }
    ensures canonical { IsCanonical K.cmp (T.tree tree.old) }
{
    let node = mem::replace(tree, T::blank(alloc, Seal::new()));
    let Parts {
        prefix,
        value,
        children,
    } = node.take_apart(Seal::new());
    let Some(children) = children else {
        unreachable!()
    };
    (prefix, value, children)
}

/// The tree `whole` if there is one, otherwise the tree of the other parts.
fn closed<K: TKey, V: TValue, T: Build<K, V>>(
    prefix: T::Prefix,
    value: Option<V>,
    children: T::Children,
    whole: Option<T>,
) -> T
    requires { IsChild K.cmp (Some (instead (option_map T.tree whole)
        (node (T.Prefix.items prefix) value (seen T.tree (T.Children.items children))))) }
    ensures { T.tree result ≡ instead (option_map T.tree whole)
        (node (T.Prefix.items prefix) value (seen T.tree (T.Children.items children))) }
{
    match whole {
        Some(whole) => whole,
        None => T::assemble(prefix, value, Some(children), Seal::new()),
    }
}

/// The tree with this prefix instead of its own.
pub(crate) fn with_prefix<K: TKey, V: TValue, T: Build<K, V>>(prefix: T::Prefix, tree: T) -> T
    requires { IsSolid (T.tree tree).value (T.tree tree).children }
    ensures { T.tree result
        ≡ node (T.Prefix.items prefix) (T.tree tree).value (T.tree tree).children }
{
    let Parts {
        prefix: _,
        value,
        children,
    } = tree.take_apart(Seal::new());
    T::assemble(prefix, value, children, Seal::new())
}

/// A node with this value, and nothing else.
fn alone<K: TKey, V: TValue, T: Build<K, V>>(alloc: Global, value: Option<V>) -> T
    ensures { T.tree result ≡ node [] value bare }
{
    match value {
        Some(value) => leaf(alloc, value),
        None => T::blank(alloc, Seal::new()),
    }
}
