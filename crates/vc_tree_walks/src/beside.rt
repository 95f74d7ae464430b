//! The pairs next to a key: the next one above it, and the last one below it.

ghost use Rattle.std.specs.Prelude.{◌≡◌, ◌≤◌, IfOk, List, MatchOption, None, Ok, length, take};
ghost use Rattle.std.specs.Option.{option_map};
ghost use Rattle.vc_tree_model.specs.Canonical.{AreChildren};
ghost use Rattle.vc_tree_model.specs.Map.{lookup, or_else};
ghost use Rattle.vc_tree_model.specs.Walk.{prepended};
ghost use Rattle.vc_tree_nodes.specs.Children.{seen};
ghost use Rattle.vc_tree_walks.specs.Beside.{Fits, IsBeside, near_pairs, spelled_pair};
ghost use Rattle.vc_tree_walks.specs.Bounds.{above, below};
ghost use Rattle.vc_tree_walks.specs.Ends.{IsGreatestPair, IsLeastPair};
ghost use Rattle.vc_tree_walks.specs.Towards.{end_of};

use crate::ends::{End, key_value_behind};
use crate::seeking::{Standing, stand};
use std::alloc::AllocError;
use vc_tree_nodes::reading::{RadixNode, TKey, TValue, canonical, is_empty};

/// The pair of the tree with the least key above the given one.
pub fn next_after<'a, K: TKey, V: TValue, T: RadixNode<K, V>>(
    tree: &'a T,
    key: &[K],
) -> Result<Option<(Vec<K>, &'a V)>, AllocError>
    ensures next { let f = above K.cmp (lookup K.cmp (T.tree tree.now)) key.now in
        IfOk result (λ found. MatchOption found ((k : List K) → f k ≡ None)
        (λ b. IsLeastPair K.cmp f (b.0.items, b.1.now))) }
    ensures none { let f = above K.cmp (lookup K.cmp (T.tree tree.now)) key.now in
        ((k : List K) → f k ≡ None) → result ≡ Ok None }
{
    let found = find_beside(tree, key, End::First);
    pair_of(tree, key, End::First, found)
}

/// The pair of the tree with the greatest key below the given one.
pub fn last_before<'a, K: TKey, V: TValue, T: RadixNode<K, V>>(
    tree: &'a T,
    key: &[K],
) -> Result<Option<(Vec<K>, &'a V)>, AllocError>
    ensures last { let f = below K.cmp (lookup K.cmp (T.tree tree.now)) key.now in
        IfOk result (λ found. MatchOption found ((k : List K) → f k ≡ None)
        (λ b. IsGreatestPair K.cmp f (b.0.items, b.1.now))) }
    ensures none { let f = below K.cmp (lookup K.cmp (T.tree tree.now)) key.now in
        ((k : List K) → f k ≡ None) → result ≡ Ok None }
{
    let found = find_beside(tree, key, End::Last);
    pair_of(tree, key, End::Last, found)
}

/// Where the pair next to a key is found.
#[derive(Clone, Copy)]
pub(crate) enum Beside<'a, V, T> {
    /// The pair has this value, and its key is this many first components of the given key.
    Own(usize, &'a V),
    /// The pair is at an end of this tree, after this many components of the given key.
    Within(usize, &'a T),
}

/// The pair that was found. Its key has the components of the given key up to where the two
/// diverge.
fn pair_of<'a, K: TKey, V: TValue, T: RadixNode<K, V>>(
    tree: &T,
    key: &[K],
    end: End,
    found: Option<Beside<'a, V, T>>,
) -> Result<Option<(Vec<K>, &'a V)>, AllocError>
    requires { Fits T.tree key.now found }
    ensures pair { IfOk result (λ pair. option_map (λ b. (b.0.items, b.1.now)) pair
        ≡ spelled_pair T.tree end key.now found.entry) }
    ensures none { spelled_pair T.tree end key.now found.entry ≡ None → result ≡ Ok None }
{
    match found {
        None => Ok(None),
        Some(Beside::Own(length, value)) => {
            let key = Vec::from_slice(tree.allocator(), &key[..length])?;
            Ok(Some((key, value)))
        }
        Some(Beside::Within(length, tree)) => key_value_behind(&key[..length], tree, end),
    }
}

/// The pair next to a key: the nearest of those on one side of it.
fn find_beside<'a, K: TKey, V: TValue, T: RadixNode<K, V>>(
    tree: &'a T,
    key: &[K],
    end: End,
) -> Option<Beside<'a, V, T>>
    ensures { IsBeside T.tree K.cmp (T.tree tree.now) key.now end result }
{
    canonical(tree);
    if is_empty(tree) {
        return None;
    }
    let mut node = tree;
    let mut used = 0;
    let mut known = 0;
    let mut found = None;
    loop {
        let (_, rest) = key.split_at(used);
        match stand(node, rest, known) {
            Standing::Before => match end {
                End::First => return Some(Beside::Within(used, node)),
                End::Last => return found,
            },
            Standing::Behind => match end {
                End::First => return found,
                End::Last => return Some(Beside::Within(used, node)),
            },
            Standing::Own => match end {
                End::First => {
                    let whole = used + node.prefix().len();
                    return nearest(end, node, &[], node.children(), whole, found);
                }
                End::Last => return found,
            },
            Standing::Between(lower, upper) => {
                let whole = used + node.prefix().len();
                return nearest(end, node, lower, upper, whole, found);
            }
            Standing::Into(lower, row) => {
                let Some((child, upper)) = row.split_first() else {
                    return found;
                };
                used += node.prefix().len();
                found = nearest(end, node, lower, upper, used, found);
                node = child;
                known = 1;
            }
        }
    }
}

/// The nearest pair on one side of a key. After the key that is the first pair of the last
/// children; before it, the last pair of the node and its first children. Where these have none, it
/// is what was found above.
fn nearest<'a, K: TKey, V: TValue, T: RadixNode<K, V>>(
    end: End,
    node: &'a T,
    lower: &'a [T],
    upper: &'a [T],
    used: usize,
    found: Option<Beside<'a, V, T>>,
) -> Option<Beside<'a, V, T>>
    requires lower { AreChildren K.cmp (seen T.tree lower.now) }
    requires upper { AreChildren K.cmp (seen T.tree upper.now) }
    ensures pair { (key : List K) → spelled_pair T.tree end key result
        ≡ or_else (option_map (prepended (take used key))
        (end_of end (near_pairs T.tree end (T.tree node.now) lower.now upper.now)))
        (spelled_pair T.tree end key found.entry) }
    ensures fits { (key : List K) → used ≤ length key → Fits T.tree key found.entry
        → Fits T.tree key result }
{
    match end {
        End::First => match upper.first() {
            Some(tree) => Some(Beside::Within(used, tree)),
            None => found,
        },
        End::Last => match lower.last() {
            Some(tree) => Some(Beside::Within(used, tree)),
            None => match node.value() {
                Some(value) => Some(Beside::Own(used, value)),
                None => found,
            },
        },
    }
}
