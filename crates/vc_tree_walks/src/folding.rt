//! Walks that pass a value from pair to pair, and each key by reference.

ghost use Rattle.std.specs.Prelude.{◌≡◌, ◌⊎◌, alloc_error, map, true, IfErr, IfOk, List, None, Ok};
ghost use Rattle.std.specs.Prelude.{OnOk};
ghost use Rattle.std.specs.List.{FoldsTo};
ghost use Rattle.vc_tree_model.specs.Map.{lookup};
ghost use Rattle.vc_tree_model.specs.Tree.{is_bare};
ghost use Rattle.vc_tree_model.specs.Under.{under};
ghost use Rattle.vc_tree_model.specs.Walk.{prepended, walk, IsWalk};
ghost use Rattle.vc_tree_walks.specs.Folding.{CanFold, IsStopped, Turns, pairs_in};
ghost use Rattle.vc_tree_walks.specs.Left.{pair_at};

use crate::scan::find_under;
use std::alloc::AllocError;
use vc_tree_nodes::reading::{RadixNode, TKey, TValue, canonical, is_empty};

/// The result of the closure, called in turn with a value and each pair of the tree, by ascending
/// keys.
pub fn fold<
    K: TKey,
    V: TValue,
    T: RadixNode<K, V>,
    B: Drop,
    E: From<AllocError>,
    F: Fn(B, &[K], &V) -> Result<B, E>,
>(tree: &T, init: B, turn: &F) -> Result<B, E>
    requires callable { CanFold F.Fn turn.now init (walk (T.tree tree.now)) }
    ensures folded { IfOk result (FoldsTo (Turns F.Fn turn.now) init (walk (T.tree tree.now))) }
    ensures err { IfErr result (λ e. E.from_gives alloc_error e
        ⊎ IsStopped F.Fn turn.now init (walk (T.tree tree.now)) e) }
    ensures none { is_bare (T.tree tree.now) ≡ true → result ≡ Ok init }
{
    if is_empty(tree) {
        return Ok(init);
    }
    let mut key = Vec::new(tree.allocator());
    fold_node(tree, &mut key, init, turn)
}

/// The same over the pairs of the tree whose keys start with the prefix.
pub fn fold_prefix<
    K: TKey,
    V: TValue,
    T: RadixNode<K, V>,
    B: Drop,
    E: From<AllocError>,
    F: Fn(B, &[K], &V) -> Result<B, E>,
>(tree: &T, prefix: &[K], init: B, turn: &F) -> Result<B, E>
    requires callable { (l : _)
        → IsWalk K.cmp (under K.cmp (lookup K.cmp (T.tree tree.now)) prefix.now) l
        → CanFold F.Fn turn.now init l }
    ensures folded { IfOk result (λ last. (l : _)
        × IsWalk K.cmp (under K.cmp (lookup K.cmp (T.tree tree.now)) prefix.now) l
        × FoldsTo (Turns F.Fn turn.now) init l last) }
    ensures err { IfErr result (λ e. E.from_gives alloc_error e
        ⊎ ((l : _) × IsWalk K.cmp (under K.cmp (lookup K.cmp (T.tree tree.now)) prefix.now) l
        × IsStopped F.Fn turn.now init l e)) }
    ensures none { let f = lookup K.cmp (T.tree tree.now) in
        ((k : List K) → under K.cmp f prefix.now k ≡ None) → result ≡ Ok init }
{
    let Some((front, node)) = find_under(tree, prefix) else {
        return Ok(init);
    };
    canonical(node);
    if is_empty(node) {
        return Ok(init);
    }
    let mut key = Vec::new(tree.allocator());
    key.extend_from_slice(front)?;
    fold_node(node, &mut key, init, turn)
}

/// The same over the pairs of a node, with `key` before their keys.
#[cycle(folding)]
fn fold_node<
    K: TKey,
    V: TValue,
    T: RadixNode<K, V>,
    B: Drop,
    E: From<AllocError>,
    F: Fn(B, &[K], &V) -> Result<B, E>,
>(node: &T, key: &mut Vec<K>, held: B, turn: &F) -> Result<B, E>
    requires callable { CanFold F.Fn turn.now held
        (map (prepended key.old.items) (walk (T.tree node.now))) }
    ensures folded { IfOk result (FoldsTo (Turns F.Fn turn.now) held
        (map (prepended key.old.items) (walk (T.tree node.now)))) }
    ensures err { IfErr result (λ e. E.from_gives alloc_error e
        ⊎ IsStopped F.Fn turn.now held (map (prepended key.old.items) (walk (T.tree node.now))) e) }
    ensures key { OnOk result (key.new.items ≡ key.old.items) }
{
    let front = key.len();
    key.extend_from_slice(node.prefix())?;
    let own = fold_own(node, key.as_slice(), held, turn)?;
    let last = fold_list(node.children(), key, own, turn)?;
    key.truncate(front);
    Ok(last)
}

/// The same over the pair that a node has itself, if it has one.
fn fold_own<
    K: TKey,
    V: TValue,
    T: RadixNode<K, V>,
    B: Drop,
    E: From<AllocError>,
    F: Fn(B, &[K], &V) -> Result<B, E>,
>(node: &T, key: &[K], held: B, turn: &F) -> Result<B, E>
    requires callable { CanFold F.Fn turn.now held (pair_at key.now (T.tree node.now).value) }
    ensures folded { IfOk result (FoldsTo (Turns F.Fn turn.now) held
        (pair_at key.now (T.tree node.now).value)) }
    ensures err { IfErr result
        (IsStopped F.Fn turn.now held (pair_at key.now (T.tree node.now).value)) }
{
    match node.value() {
        Some(value) => turn(held, key, value),
        None => Ok(held),
    }
}

/// The same over the pairs of a list of trees, with `key` before their keys.
#[cycle(folding)]
fn fold_list<
    K: TKey,
    V: TValue,
    T: RadixNode<K, V>,
    B: Drop,
    E: From<AllocError>,
    F: Fn(B, &[K], &V) -> Result<B, E>,
>(list: &[T], key: &mut Vec<K>, held: B, turn: &F) -> Result<B, E>
    requires callable { CanFold F.Fn turn.now held (pairs_in T.tree key.old.items list.now) }
    ensures folded { IfOk result (FoldsTo (Turns F.Fn turn.now) held
        (pairs_in T.tree key.old.items list.now)) }
    ensures err { IfErr result (λ e. E.from_gives alloc_error e
        ⊎ IsStopped F.Fn turn.now held (pairs_in T.tree key.old.items list.now) e) }
    ensures key { OnOk result (key.new.items ≡ key.old.items) }
{
    let mut last = held;
    for tree in list {
        last = fold_node(tree, key, last, turn)?;
    }
    Ok(last)
}
