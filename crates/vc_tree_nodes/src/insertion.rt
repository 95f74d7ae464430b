//! How a key is bound to a value in a tree.

ghost use Rattle.std.specs.Prelude.{◌≡◌, ◌+◌, ◌<◌, ◌≤◌, ◌++◌, [], length, take, vec_len};
ghost use Rattle.std.specs.Prelude.{vec_capacity, Some, IfOk, IsOk, OnOk, OnErr};
ghost use Rattle.std.specs.List.{insert as list_insert};
ghost use Rattle.vc_tree_model.specs.Tree.{made, node};
ghost use Rattle.vc_tree_model.specs.Map.{HaveEqualMaps, IsInserted, IsUpdated, lookup, lookup_in};
ghost use Rattle.vc_tree_model.specs.Canonical.{AreChildren, IsCanonical, IsSolid};
ghost use Rattle.vc_tree_model.specs.Same.{IsAlike, IsAlikeIn};
ghost use Rattle.vc_tree_nodes.specs.Children.{listed, seen};
ghost use Rattle.vc_tree_nodes.specs.Growth.{IsGrown, Inserted, Adds};
ghost use Rattle.vc_tree_nodes.specs.Parting.{Agree, SplitsAt};
ghost use Rattle.vc_tree_nodes.specs.Places.{FitsAt, LeadsTo};

use crate::building::{Build, Seal};
use crate::children::{ChildList, Fragment, Parts};
use crate::parting::{Parting, find_parting};
use crate::places::child_place;
use crate::reading::{TKey, TValue, canonical, is_empty};
use std::alloc::{AllocError, Global};
use std::mem;
use vc_merge::merge::Uncounted;

/// The tree that binds only the empty key.
pub fn leaf<K: TKey, V: TValue, T: Build<K, V>>(alloc: Global, value: V) -> T
    ensures is { T.tree result ≡ made [] (Some value) [] }
    ensures canonical { IsCanonical K.cmp (T.tree result) }
{
    let Parts {
        prefix,
        value: _,
        children: _,
    } = T::blank(alloc, Seal::new()).take_apart(Seal::new());
    T::assemble(prefix, Some(value), None, Seal::new())
}

/// The tree that binds only this key.
pub fn single<K: TKey, V: TValue, T: Build<K, V>>(
    alloc: Global,
    key: &[K],
    value: V,
) -> Result<T, AllocError>
    ensures is { IfOk result (λ one. T.tree one ≡ made key.now (Some value) []) }
    ensures short { length key.now ≤ 16 → IsOk result }
    ensures canonical { IfOk result (λ one. IsCanonical K.cmp (T.tree one)) }
{
    let prefix = T::Prefix::from_slice(alloc, key)?;
    Ok(T::assemble(prefix, Some(value), None, Seal::new()))
}

/// Binds the key to the value.
pub fn insert<K: TKey, V: TValue, T: Build<K, V>>(
    tree: &mut T,
    key: &[K],
    value: V,
) -> Result<(), AllocError>
    ensures ok { OnOk result
        (IsInserted K.cmp T.keeps key.now value (T.tree tree.old) (T.tree tree.new)) }
    ensures binds { OnOk result (lookup K.cmp (T.tree tree.new) key.now ≡ Some value) }
    ensures err { OnErr result (HaveEqualMaps K.cmp T.keeps (T.tree tree.old) (T.tree tree.new)) }
    ensures err_nodes { OnErr result (IsAlike T.keeps (T.tree tree.old) (T.tree tree.new)) }
    ensures canonical { IsCanonical K.cmp (T.tree tree.new) }
{
    let alloc = tree.allocator();
    canonical(tree);
    if is_empty(tree) {
        *tree = single(alloc, key, value)?;
        return Ok(());
    }
    insert_from(alloc, tree, key, 0, value)
}

/// Binds the key to the value in a tree that is not empty. The first `known` components of the
/// prefix and of the key are known to agree.
#[cycle(insertion)]
fn insert_from<K: TKey, V: TValue, T: Build<K, V>>(
    alloc: Global,
    tree: &mut T,
    key: &[K],
    known: usize,
    value: V,
) -> Result<(), AllocError>
    requires known { Agree K.cmp (T.tree tree.old).prefix key.now known }
    requires solid { IsSolid (T.tree tree.old).value (T.tree tree.old).children }
    ensures ok { OnOk result
        (IsInserted K.cmp T.keeps key.now value (T.tree tree.old) (T.tree tree.new)) }
    ensures grown { OnOk result (IsGrown K.cmp known (T.tree tree.old) (T.tree tree.new)) }
    ensures err { OnErr result (IsAlike T.keeps (T.tree tree.old) (T.tree tree.new)) }
{
    let prefix = tree.prefix();
    let whole = prefix.len();
    match find_parting(prefix, key, known, &mut Uncounted) {
        Parting::Behind => insert_behind(alloc, tree, &key[whole..], value),
        Parting::Inside(n) => split_above(alloc, tree, n, value),
        Parting::Lower(n) => split_beside(alloc, tree, n, 1, &key[n..], value),
        Parting::Higher(n) => split_beside(alloc, tree, n, 0, &key[n..], value),
    }
}

/// Binds the key that is the prefix followed by `rest`.
#[cycle(insertion)]
fn insert_behind<K: TKey, V: TValue, T: Build<K, V>>(
    alloc: Global,
    tree: &mut T,
    rest: &[K],
    value: V,
) -> Result<(), AllocError>
    requires solid { IsSolid (T.tree tree.old).value (T.tree tree.old).children }
    requires canonical { AreChildren K.cmp (T.tree tree.old).children }
    ensures ok { let t = T.tree tree.old in OnOk result
        (Inserted K.cmp T.keeps t (t.prefix ++ rest.now) value t.prefix (T.tree tree.new)) }
    ensures err { OnErr result (IsAlike T.keeps (T.tree tree.old) (T.tree tree.new)) }
{
    let Some(first) = rest.first() else {
        set_value(alloc, tree, value);
        return Ok(());
    };
    match child_place(tree.children(), first, &mut Uncounted) {
        Ok(i) => insert_below(alloc, tree, i, rest, value),
        Err(i) => add_child(alloc, tree, i, rest, value),
    }
}

/// Binds the key that is the prefix followed by `rest`, which begins as the child at place `i`
/// does. The node is put together again whatever the result is, so a refusal leaves its nodes.
#[cycle(insertion)]
fn insert_below<K: TKey, V: TValue, T: Build<K, V>>(
    alloc: Global,
    tree: &mut T,
    i: usize,
    rest: &[K],
    value: V,
) -> Result<(), AllocError>
    requires leads { LeadsTo K.cmp (T.tree tree.old).children rest.now i }
    requires solid { IsSolid (T.tree tree.old).value (T.tree tree.old).children }
    ensures ok { let t = T.tree tree.old in OnOk result
        (Inserted K.cmp T.keeps t (t.prefix ++ rest.now) value t.prefix (T.tree tree.new)) }
    ensures err { OnErr result (IsAlike T.keeps (T.tree tree.old) (T.tree tree.new)) }
{
    let node = mem::replace(tree, T::blank(alloc, Seal::new()));
    let Parts {
        prefix,
        value: own,
        children,
    } = node.take_apart(Seal::new());
    let Some(mut children) = children else {
        unreachable!()
    };
    let done = insert_into::<K, V, T>(alloc, &mut children, i, rest, value);
    *tree = T::assemble(prefix, own, Some(children), Seal::new());
    done
}

/// Binds the key `rest` in the children. The child at place `i` begins as the key does. This is
/// apart from `insert_below`, which must not return before the node is put together again.
#[cycle(insertion)]
fn insert_into<K: TKey, V: TValue, T: Build<K, V>>(
    alloc: Global,
    children: &mut T::Children,
    i: usize,
    rest: &[K],
    value: V,
) -> Result<(), AllocError>
    requires leads { LeadsTo K.cmp (seen T.tree (T.Children.items children.old)) rest.now i }
    requires canonical { AreChildren K.cmp (seen T.tree (T.Children.items children.old)) }
    ensures ok { OnOk result
        (IsUpdated K.cmp T.keeps rest.now value
        (lookup_in K.cmp (seen T.tree (T.Children.items children.old)))
        (lookup_in K.cmp (seen T.tree (T.Children.items children.new)))) }
    ensures canonical { AreChildren K.cmp (seen T.tree (T.Children.items children.new)) }
    ensures as_many { length (T.Children.items children.new)
        ≡ length (T.Children.items children.old) }
    ensures err { OnErr result (IsAlikeIn T.keeps (seen T.tree (T.Children.items children.old))
        (seen T.tree (T.Children.items children.new))) }
{
    let list = children.make_mut()?;
    insert_from(alloc, &mut list[i], rest, 1, value)
}

/// Binds the prefix itself.
fn set_value<K: TKey, V: TValue, T: Build<K, V>>(alloc: Global, tree: &mut T, value: V)
    ensures { let t = T.tree tree.old in
        Inserted K.cmp T.keeps t t.prefix value t.prefix (T.tree tree.new) }
{
    let node = mem::replace(tree, T::blank(alloc, Seal::new()));
    let Parts {
        prefix,
        value: _,
        children,
    } = node.take_apart(Seal::new());
    *tree = T::assemble(prefix, Some(value), children, Seal::new());
}

/// Binds the key that is the prefix followed by `rest`, by a new child at place `i`.
fn add_child<K: TKey, V: TValue, T: Build<K, V>>(
    alloc: Global,
    tree: &mut T,
    i: usize,
    rest: &[K],
    value: V,
) -> Result<(), AllocError>
    requires fits { FitsAt K.cmp (T.tree tree.old).children rest.now i }
    requires solid { IsSolid (T.tree tree.old).value (T.tree tree.old).children }
    ensures ok { let t = T.tree tree.old in OnOk result
        (Inserted K.cmp T.keeps t (t.prefix ++ rest.now) value t.prefix (T.tree tree.new)) }
    ensures err { OnErr result (IsAlike T.keeps (T.tree tree.old) (T.tree tree.new)) }
{
    let leaf = single(alloc, rest, value)?;
    let node = mem::replace(tree, T::blank(alloc, Seal::new()));
    let Parts {
        prefix,
        value: own,
        mut children,
    } = node.take_apart(Seal::new());
    let added = add_to::<K, V, T>(alloc, &mut children, i, leaf);
    *tree = T::assemble(prefix, own, children, Seal::new());
    added
}

/// Inserts a tree at place `i` of the children.
fn add_to<K: TKey, V: TValue, T: Build<K, V>>(
    alloc: Global,
    children: &mut Option<T::Children>,
    i: usize,
    item: T,
) -> Result<(), AllocError>
    requires { i ≤ length (listed T.Children.items children.old) }
    ensures ok { OnOk result (Adds T.keeps T.tree (listed T.Children.items children.old) i item
        (listed T.Children.items children.new)) }
    ensures err { OnErr result (IsAlikeIn T.keeps
        (seen T.tree (listed T.Children.items children.old))
        (seen T.tree (listed T.Children.items children.new))) }
{
    match children {
        Some(children) => add_to_some::<K, V, T>(children, i, item),
        None => {
            let mut list = Vec::with_capacity(alloc, 1)?;
            list.push(item)?;
            *children = Some(T::Children::of(list)?);
            Ok(())
        }
    }
}

/// Inserts a tree at place `i` of a list of children.
fn add_to_some<K: TKey, V: TValue, T: Build<K, V>>(
    children: &mut T::Children,
    i: usize,
    item: T,
) -> Result<(), AllocError>
    requires { i ≤ length (T.Children.items children.old) }
    ensures ok { OnOk result (Adds T.keeps T.tree (T.Children.items children.old) i item
        (T.Children.items children.new)) }
    ensures err { OnErr result (IsAlikeIn T.keeps (seen T.tree (T.Children.items children.old))
        (seen T.tree (T.Children.items children.new))) }
{
    let list = children.make_mut()?;
    make_room(list)?;
    put(list, i, item);
    Ok(())
}

/// Makes room for one more item. A full list grows by a quarter, where `push` would double it: most
/// lists of children grow no further.
fn make_room<T: Drop>(list: &mut Vec<T>) -> Result<(), AllocError>
    ensures items { list.new.items ≡ list.old.items }
    ensures len { vec_len list.new ≡ vec_len list.old }
    ensures room { OnOk result (vec_len list.new < vec_capacity list.new) }
{
    let len = list.len();
    if len == list.capacity() {
        list.reserve_exact(1 + len / 4)?;
    }
    Ok(())
}

/// Binds the first `n` components of the prefix, by a new node above the rest of it.
fn split_above<K: TKey, V: TValue, T: Build<K, V>>(
    alloc: Global,
    tree: &mut T,
    n: usize,
    value: V,
) -> Result<(), AllocError>
    requires { n < length (T.tree tree.old).prefix }
    ensures ok { let t = T.tree tree.old in OnOk result
        (Inserted K.cmp T.keeps t (take n t.prefix) value (take n t.prefix) (T.tree tree.new)) }
    ensures err { OnErr result (T.tree tree.new ≡ T.tree tree.old) }
{
    let whole = tree.prefix();
    let top = T::Prefix::from_slice(alloc, &whole[..n])?;
    let low_prefix = T::Prefix::from_slice(alloc, &whole[n..])?;
    let mut children = T::Children::of(Vec::new(alloc))?;
    let list = children.make_mut()?;
    list.reserve_exact(1)?;
    let low = cut(alloc, tree, low_prefix);
    put(list, 0, low);
    *tree = T::assemble(top, Some(value), Some(children), Seal::new());
    Ok(())
}

/// Binds the first `n` components of the prefix followed by `rest`. A new node gets two children:
/// the rest of the prefix, and a leaf of `rest` at place `i`.
fn split_beside<K: TKey, V: TValue, T: Build<K, V>>(
    alloc: Global,
    tree: &mut T,
    n: usize,
    i: usize,
    rest: &[K],
    value: V,
) -> Result<(), AllocError>
    requires { SplitsAt K.cmp (T.tree tree.old) n rest.now i }
    ensures ok { let t = T.tree tree.old in
        OnOk result (Inserted K.cmp T.keeps t (take n t.prefix ++ rest.now) value (take n t.prefix)
        (T.tree tree.new)) }
    ensures err { OnErr result (T.tree tree.new ≡ T.tree tree.old) }
{
    let whole = tree.prefix();
    let top = T::Prefix::from_slice(alloc, &whole[..n])?;
    let low_prefix = T::Prefix::from_slice(alloc, &whole[n..])?;
    let leaf = single(alloc, rest, value)?;
    let mut children = T::Children::of(Vec::new(alloc))?;
    let list = children.make_mut()?;
    list.reserve_exact(2)?;
    let low = cut(alloc, tree, low_prefix);
    put(list, 0, low);
    put(list, i, leaf);
    *tree = T::assemble(top, None, Some(children), Seal::new());
    Ok(())
}

/// Takes the tree out, with this prefix instead of its own, and leaves the empty tree.
fn cut<K: TKey, V: TValue, T: Build<K, V>>(alloc: Global, tree: &mut T, prefix: T::Prefix) -> T
    requires { IsCanonical K.cmp
        (node (T.Prefix.items prefix) (T.tree tree.old).value (T.tree tree.old).children) }
    ensures { T.tree result
        ≡ node (T.Prefix.items prefix) (T.tree tree.old).value (T.tree tree.old).children }
{
    let node = mem::replace(tree, T::blank(alloc, Seal::new()));
    let Parts {
        prefix: _,
        value,
        children,
    } = node.take_apart(Seal::new());
    T::assemble(prefix, value, children, Seal::new())
}

/// Inserts the item at place `i` of a list that has room.
fn put<T: Drop>(list: &mut Vec<T>, i: usize, item: T)
    requires within { i ≤ vec_len list.old }
    requires room { vec_len list.old < vec_capacity list.old }
    ensures items { list.new.items ≡ list_insert list.old.items i item }
    ensures len { vec_len list.new ≡ vec_len list.old + 1 }
    ensures capacity { vec_capacity list.old ≤ vec_capacity list.new }
{
    match list.insert(i, item) {
        Ok(()) => (),
        Err(_) => unreachable!(),
    }
}
