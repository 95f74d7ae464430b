//! The first and the last pair of a tree.

ghost use Rattle.std.specs.Prelude.{◌≡◌, ◌-◌, ◌++◌, IfOk, IfSome, IsOk, IsSome, List, MatchOption};
ghost use Rattle.std.specs.Prelude.{None, [], Ok, OnOk, Some, length, slice_get, true};
ghost use Rattle.std.specs.Option.{option_map};
ghost use Rattle.vc_tree_model.specs.Map.{lookup};
ghost use Rattle.vc_tree_model.specs.Tree.{is_bare};
ghost use Rattle.vc_tree_model.specs.Walk.{prepended, walk};
ghost use Rattle.vc_tree_walks.specs.Ends.{IsLeastPair, IsGreatestPair};
ghost use Rattle.vc_tree_walks.specs.Towards.{IsTowards, end_of, own_end, sized_pair};

use std::alloc::AllocError;
use vc_tree_nodes::reading::{RadixNode, TKey, TValue, canonical};

/// The pair with the least key of the tree.
pub fn first_key_value<'a, K: TKey, V: TValue, T: RadixNode<K, V>>(
    tree: &'a T,
) -> Result<Option<(Vec<K>, &'a V)>, AllocError>
    ensures pair { IfOk result (λ found. option_map (λ b. (b.0.items, b.1.now)) found
        ≡ slice_get (walk (T.tree tree.now)) 0) }
    ensures least { let f = lookup K.cmp (T.tree tree.now) in
        IfOk result (λ found. MatchOption found ((k : List K) → f k ≡ None)
        (λ b. IsLeastPair K.cmp f (b.0.items, b.1.now))) }
    ensures none { is_bare (T.tree tree.now) ≡ true → result ≡ Ok None }
    ensures empty_key { IsSome (lookup K.cmp (T.tree tree.now) []) → IsOk result }
{
    canonical(tree);
    key_value_behind(&[], tree, End::First)
}

/// The pair with the greatest key of the tree.
pub fn last_key_value<'a, K: TKey, V: TValue, T: RadixNode<K, V>>(
    tree: &'a T,
) -> Result<Option<(Vec<K>, &'a V)>, AllocError>
    ensures pair { let w = walk (T.tree tree.now) in
        IfOk result (λ found. option_map (λ b. (b.0.items, b.1.now)) found
        ≡ slice_get w (length w - 1)) }
    ensures greatest { let f = lookup K.cmp (T.tree tree.now) in
        IfOk result (λ found. MatchOption found ((k : List K) → f k ≡ None)
        (λ b. IsGreatestPair K.cmp f (b.0.items, b.1.now))) }
    ensures none { is_bare (T.tree tree.now) ≡ true → result ≡ Ok None }
    ensures empty_key { ((k : List K) → IsSome (lookup K.cmp (T.tree tree.now) k) → k ≡ [])
        → IsOk result }
{
    canonical(tree);
    key_value_behind(&[], tree, End::Last)
}

/// An end of the keys of a tree.
#[derive(Clone, Copy)]
pub(crate) enum End {
    /// The end with the least key.
    First,
    /// The end with the greatest key.
    Last,
}

/// The pair at an end, with `front` before its key. Allocates once for its key, and not where the
/// key is empty.
pub(crate) fn key_value_behind<'a, K: TKey, V: TValue, T: RadixNode<K, V>>(
    front: &[K],
    tree: &'a T,
    end: End,
) -> Result<Option<(Vec<K>, &'a V)>, AllocError>
    ensures pair { IfOk result (λ found. option_map (λ b. (b.0.items, b.1.now)) found
        ≡ option_map (prepended front.now) (end_of end (walk (T.tree tree.now)))) }
    ensures none { end_of end (walk (T.tree tree.now)) ≡ None → result ≡ Ok None }
    ensures empty_key { (v : V) → front.now ≡ []
        → end_of end (walk (T.tree tree.now)) ≡ Some ([], v) → IsOk result }
{
    let Some((length, value)) = value_at(tree, end) else {
        return Ok(None);
    };
    let whole = front.len().saturating_add(length);
    if whole == 0 {
        return Ok(Some((Vec::new(tree.allocator()), value)));
    }
    let mut key = Vec::with_capacity(tree.allocator(), whole)?;
    key.extend_from_slice(front)?;
    push_key(tree, end, &mut key)?;
    Ok(Some((key, value)))
}

/// The child that has the pair at an end, or none where it is the node's own pair.
fn child_towards<'a, K: TKey, V: TValue, T: RadixNode<K, V>>(node: &'a T, end: End) -> Option<&'a T>
    ensures { let t = T.tree node.now in
        MatchOption result (end_of end (walk t) ≡ own_end t.prefix t.value)
        (λ child. IsTowards end t (T.tree child.now)) }
{
    canonical(node);
    match end {
        End::First => match node.value() {
            Some(_) => None,
            None => node.children().first(),
        },
        End::Last => node.children().last(),
    }
}

/// The value of the pair at an end, and how many components its key has, or the greatest number
/// where it has more.
fn value_at<'a, K: TKey, V: TValue, T: RadixNode<K, V>>(
    tree: &'a T,
    end: End,
) -> Option<(usize, &'a V)>
    ensures { option_map (λ b. (b.0, b.1.now)) result
        ≡ option_map sized_pair (end_of end (walk (T.tree tree.now))) }
{
    let mut node = tree;
    let mut length = node.prefix().len();
    while let Some(child) = child_towards(node, end) {
        node = child;
        length = length.saturating_add(node.prefix().len());
    }
    match node.value() {
        Some(value) => Some((length, value)),
        None => None,
    }
}

/// Appends the key of the pair at an end to other components.
fn push_key<K: TKey, V: TValue, T: RadixNode<K, V>>(
    tree: &T,
    end: End,
    key: &mut Vec<K>,
) -> Result<(), AllocError>
    ensures { OnOk result (IfSome (end_of end (walk (T.tree tree.now)))
        (λ b. key.new.items ≡ key.old.items ++ b.0)) }
{
    let mut node = tree;
    key.extend_from_slice(node.prefix())?;
    while let Some(child) = child_towards(node, end) {
        node = child;
        key.extend_from_slice(node.prefix())?;
    }
    Ok(())
}
