//! How the value of one key is changed in place.

ghost use Rattle.std.specs.Prelude.{◌≡◌, [], length, None, Ok, Some, IfOk, IsSome, MatchOption};
ghost use Rattle.std.specs.Prelude.{OnErr, OnOk, ⊤};
ghost use Rattle.vc_tree_model.specs.Canonical.{AreChildren, IsCanonical};
ghost use Rattle.vc_tree_model.specs.Key.{behind};
ghost use Rattle.vc_tree_model.specs.Map.{HaveEqualMaps, IsInserted, lookup, lookup_in};
ghost use Rattle.vc_tree_model.specs.Same.{IsAlike, IsAlikeIn};
ghost use Rattle.vc_tree_model.specs.Value.{IsKept};
ghost use Rattle.vc_tree_nodes.specs.Children.{seen};
ghost use Rattle.vc_tree_nodes.specs.Places.{LeadsTo};
ghost use Rattle.vc_tree_removal.specs.Changing.{CanChange, CanWrite, MayWrite, IsChanged};
ghost use Rattle.vc_tree_removal.specs.Changing.{Written, WrittenIn};

use crate::removal::{opened, rest_of};
use std::alloc::{AllocError, Global};
use std::mem;
use vc_merge::merge::Uncounted;
use vc_tree_nodes::building::{Build, Seal};
use vc_tree_nodes::children::{ChildList, Parts};
use vc_tree_nodes::descent::contains_key;
use vc_tree_nodes::insertion::insert;
use vc_tree_nodes::places::child_place;
use vc_tree_nodes::reading::{RadixNode, TKey, TValue, canonical};

/// A change of a value.
trait Write<V, R>: Drop {
    /// Whether it may be applied to this value.
    ghost takes: { Self → V → Type 0 };

    /// Whether it may leave this value and answer this.
    ghost may: { Self → V → V → R → Type 0 };

    /// The new value, and the answer.
    fn write(self, value: V) -> (V, R)
        requires { takes self value }
        ensures { may self value result.0 result.1 };
}

/// A closure changes the value, and its answer is passed on.
#[derive(Drop)]
struct WriteByClosure<'f, F> {
    f: &'f F,
}

impl<'f, V: Drop, R: Drop, F: Fn(&mut V) -> R> Write<V, R> for WriteByClosure<'f, F> {
    ghost takes = { λ writer. CanWrite F.Fn writer.f.now };

    ghost may = { λ writer. MayWrite F.Fn writer.f.now };

    fn write(self, value: V) -> (V, R) {
        let mut written = value;
        let answer = (self.f)(&mut written);
        (written, answer)
    }
}

/// Another value replaces it, and the old one is the answer.
#[derive(Drop)]
struct ByValue<V> {
    value: V,
}

impl<V: Drop> Write<V, V> for ByValue<V> {
    ghost takes = { λ writer v. ⊤ };

    ghost may = { λ writer v z r. (z ≡ writer.value) × (r ≡ v) };

    fn write(self, value: V) -> (V, V) {
        (self.value, value)
    }
}

/// Changes the value of the key by the closure, which gets a reference to it. Answers what the
/// closure answers, or none where the key is not bound. The other keys keep their values.
#[tactic(auto, using(crate::proofs::Going::refused))]
pub fn update<K: TKey, V: TValue, T: Build<K, V>, R: Drop, F: Fn(&mut V) -> R>(
    tree: &mut T,
    key: &[K],
    f: &F,
) -> Result<Option<R>, AllocError>
    requires { CanChange T.keeps (CanWrite F.Fn f.now) (lookup K.cmp (T.tree tree.old) key.now) }
    ensures ok { IfOk result (λ answer. MatchOption answer
        (lookup K.cmp (T.tree tree.old) key.now ≡ None)
        (λ r. IsChanged T.keeps (MayWrite F.Fn f.now) K.cmp key.now r (T.tree tree.old)
        (T.tree tree.new))) }
    ensures absent { lookup K.cmp (T.tree tree.old) key.now ≡ None
        → (result ≡ Ok None) × (T.tree tree.new ≡ T.tree tree.old) }
    ensures err { OnErr result (HaveEqualMaps K.cmp T.keeps (T.tree tree.old) (T.tree tree.new)) }
    ensures err_nodes { OnErr result (IsAlike T.keeps (T.tree tree.old) (T.tree tree.new)) }
    ensures canonical { IsCanonical K.cmp (T.tree tree.new) }
{
    canonical(tree);
    if !contains_key(tree, key) {
        return Ok(None);
    }
    let answer = write_met(tree, key, WriteByClosure { f })?;
    Ok(Some(answer))
}

/// Changes the value of the key by the closure, as `update` does, or binds the key to `default`
/// where it is not bound.
#[tactic(auto, using(crate::proofs::Going::refused))]
pub fn upsert<K: TKey, V: TValue, T: Build<K, V>, R: Drop, F: Fn(&mut V) -> R>(
    tree: &mut T,
    key: &[K],
    default: V,
    f: &F,
) -> Result<Option<R>, AllocError>
    requires { CanChange T.keeps (CanWrite F.Fn f.now) (lookup K.cmp (T.tree tree.old) key.now) }
    ensures ok { IfOk result (λ answer. MatchOption answer
        ((lookup K.cmp (T.tree tree.old) key.now ≡ None)
        × IsInserted K.cmp T.keeps key.now default (T.tree tree.old) (T.tree tree.new))
        (λ r. IsChanged T.keeps (MayWrite F.Fn f.now) K.cmp key.now r (T.tree tree.old)
        (T.tree tree.new))) }
    ensures err { OnErr result (HaveEqualMaps K.cmp T.keeps (T.tree tree.old) (T.tree tree.new)) }
    ensures err_nodes { OnErr result (IsAlike T.keeps (T.tree tree.old) (T.tree tree.new)) }
    ensures canonical { IsCanonical K.cmp (T.tree tree.new) }
{
    canonical(tree);
    if contains_key(tree, key) {
        let written = write_met(tree, key, WriteByClosure { f })?;
        return Ok(Some(written));
    }
    insert(tree, key, default)?;
    Ok(None)
}

/// Binds the key to the value, and answers the old one, or none where it was not bound. The other
/// keys keep their values.
#[tactic(auto, using(crate::proofs::Going::refused))]
pub fn replace<K: TKey, V: TValue, T: Build<K, V>>(
    tree: &mut T,
    key: &[K],
    value: V,
) -> Result<Option<V>, AllocError>
    ensures old { IfOk result (IsKept T.keeps (lookup K.cmp (T.tree tree.old) key.now)) }
    ensures ok { OnOk result
        (IsInserted K.cmp T.keeps key.now value (T.tree tree.old) (T.tree tree.new)) }
    ensures err { OnErr result (HaveEqualMaps K.cmp T.keeps (T.tree tree.old) (T.tree tree.new)) }
    ensures err_nodes { OnErr result (IsAlike T.keeps (T.tree tree.old) (T.tree tree.new)) }
    ensures canonical { IsCanonical K.cmp (T.tree tree.new) }
{
    canonical(tree);
    if contains_key(tree, key) {
        let old = write_met(tree, key, ByValue { value })?;
        return Ok(Some(old));
    }
    insert(tree, key, value)?;
    Ok(None)
}

/// Writes the value of a key that the tree binds.
fn write_met<K: TKey, V: TValue, T: Build<K, V>, R: Drop, W: Write<V, R>>(
    tree: &mut T,
    key: &[K],
    writer: W,
) -> Result<R, AllocError>
    requires bound { IsSome (lookup K.cmp (T.tree tree.old) key.now) }
    requires takes { CanChange T.keeps (W.takes writer) (lookup K.cmp (T.tree tree.old) key.now) }
    ensures ok { IfOk result (λ r. IsChanged T.keeps (W.may writer) K.cmp key.now r
        (T.tree tree.old) (T.tree tree.new)) }
    ensures err_nodes { OnErr result (IsAlike T.keeps (T.tree tree.old) (T.tree tree.new)) }
    ensures canonical { IsCanonical K.cmp (T.tree tree.new) }
{
    let alloc = tree.allocator();
    let done = write_from(alloc, tree, key, writer);
    canonical(tree);
    done
}

/// Writes the value of a key that the tree binds, which is the tree's prefix or continues after it.
#[cycle(writing)]
fn write_from<K: TKey, V: TValue, T: Build<K, V>, R: Drop, W: Write<V, R>>(
    alloc: Global,
    tree: &mut T,
    key: &[K],
    writer: W,
) -> Result<R, AllocError>
    requires bound { IsSome (lookup K.cmp (T.tree tree.old) key.now) }
    requires takes { CanChange T.keeps (W.takes writer) (lookup K.cmp (T.tree tree.old) key.now) }
    ensures ok { IfOk result (λ r. Written T.keeps (W.may writer) K.cmp key.now r
        (T.tree tree.old) (T.tree tree.new)) }
    ensures err { OnErr result (IsAlike T.keeps (T.tree tree.old) (T.tree tree.new)) }
{
    canonical(tree);
    let rest = rest_of(tree, key);
    let Some(first) = rest.first() else {
        return Ok(write_value(alloc, tree, key, writer));
    };
    let Ok(i) = child_place(tree.children(), first, &mut Uncounted) else {
        unreachable!()
    };
    let (prefix, own, mut children) = opened(alloc, tree);
    let done = write_in::<K, V, T, R, W>(alloc, &mut children, i, rest, writer);
    *tree = T::assemble(prefix, own, Some(children), Seal::new());
    done
}

/// Writes the value of the key `rest` in the children. The child at place `i` begins as the key
/// does.
#[cycle(writing)]
fn write_in<K: TKey, V: TValue, T: Build<K, V>, R: Drop, W: Write<V, R>>(
    alloc: Global,
    children: &mut T::Children,
    i: usize,
    rest: &[K],
    writer: W,
) -> Result<R, AllocError>
    requires leads { LeadsTo K.cmp (seen T.tree (T.Children.items children.old)) rest.now i }
    requires canonical { AreChildren K.cmp (seen T.tree (T.Children.items children.old)) }
    requires bound { IsSome (lookup_in K.cmp (seen T.tree (T.Children.items children.old))
        rest.now) }
    requires takes { CanChange T.keeps (W.takes writer)
        (lookup_in K.cmp (seen T.tree (T.Children.items children.old)) rest.now) }
    ensures ok { IfOk result (λ r. WrittenIn T.keeps (W.may writer) K.cmp rest.now r
        (seen T.tree (T.Children.items children.old))
        (seen T.tree (T.Children.items children.new))) }
    ensures as_many { length (T.Children.items children.new)
        ≡ length (T.Children.items children.old) }
    ensures err { OnErr result (IsAlikeIn T.keeps (seen T.tree (T.Children.items children.old))
        (seen T.tree (T.Children.items children.new))) }
{
    let list = children.make_mut()?;
    write_from(alloc, &mut list[i], rest, writer)
}

/// Writes the value of the prefix, which is the key.
fn write_value<K: TKey, V: TValue, T: Build<K, V>, R: Drop, W: Write<V, R>>(
    alloc: Global,
    tree: &mut T,
    key: &[K],
    writer: W,
) -> R
    requires ends { behind K.cmp (T.tree tree.old).prefix key.now ≡ Some [] }
    requires bound { IsSome (lookup K.cmp (T.tree tree.old) key.now) }
    requires takes { CanChange T.keeps (W.takes writer) (lookup K.cmp (T.tree tree.old) key.now) }
    ensures { Written T.keeps (W.may writer) K.cmp key.now result (T.tree tree.old)
        (T.tree tree.new) }
{
    let node = mem::replace(tree, T::blank(alloc, Seal::new()));
    let Parts {
        prefix,
        value,
        children,
    } = node.take_apart(Seal::new());
    let Some(value) = value else { unreachable!() };
    let (value, answer) = writer.write(value);
    *tree = T::assemble(prefix, Some(value), children, Seal::new());
    answer
}
