//! The way down a tree along a key.

ghost use Rattle.std.specs.Prelude.{◌≡◌, ◌+◌, ◌-◌, ◌*◌, ◌≤◌, IfSome, length, min, take};
ghost use Rattle.std.specs.Option.{option_copied, option_map, is_some};
ghost use Rattle.vc_merge.specs.Count.{digits};
ghost use Rattle.vc_tree_model.specs.Cover.{cover, IsLongestCover};
ghost use Rattle.vc_tree_model.specs.Key.{behind};
ghost use Rattle.vc_tree_model.specs.Map.{lookup, or_else};
ghost use Rattle.vc_tree_model.specs.Sized.{beside, sized};
ghost use Rattle.vc_tree_model.specs.Tree.{width};
ghost use Rattle.vc_tree_nodes.specs.Parting.{Agree};

use crate::places::child_at;
use crate::reading::{RadixNode, TKey, TValue};
use vc_merge::merge::{Count, Uncounted};

/// The rest of the key after the prefix, if the key starts with it. The first `known` components of
/// both are known to agree.
///
/// A key that is shorter than the prefix is not compared: so each round of the loop tests for one
/// end, and only for equality.
fn rest_behind<'k, K: Ord, C: Count>(
    prefix: &[K],
    key: &'k [K],
    known: usize,
    steps: &mut C,
) -> Option<&'k [K]>
    requires { Agree K.cmp prefix.now key.now known }
    ensures rest { option_copied result ≡ behind K.cmp prefix.now key.now }
    ensures counted { C.counted steps.new
        ≤ C.counted steps.old + (min (length prefix.now) (length key.now) - known) }
{
    if key.len() < prefix.len() {
        return None;
    }
    let mut n = known;
    while n < prefix.len() {
        steps.tick();
        if prefix[n].cmp(&key[n]).is_ne() {
            return None;
        }
        n += 1;
    }
    Some(&key[prefix.len()..])
}

/// The value that the tree binds the key to.
pub fn get<'a, K: TKey, V: TValue, T: RadixNode<K, V>, C: Count>(
    tree: &'a T,
    key: &[K],
    steps: &mut C,
) -> Option<&'a V>
    ensures value { option_copied result ≡ lookup K.cmp (T.tree tree.now) key.now }
    ensures counted { C.counted steps.new
        ≤ C.counted steps.old + length key.now * (1 + digits (width (T.tree tree.now))) }
{
    let mut node = tree;
    let mut rest = key;
    let mut known = 0;
    loop {
        let left = rest_behind(node.prefix(), rest, known, steps)?;
        let Some(first) = left.first() else {
            return node.value();
        };
        node = child_at(node.children(), first, steps)?;
        rest = left;
        known = 1;
    }
}

/// Whether the tree binds the key.
pub fn contains_key<K: TKey, V: TValue, T: RadixNode<K, V>>(tree: &T, key: &[K]) -> bool
    ensures { result ≡ is_some (lookup K.cmp (T.tree tree.now) key.now) }
{
    get(tree, key, &mut Uncounted).is_some()
}

/// The longest key of the tree that is a prefix of the path: how many components it has, and its
/// value.
pub fn get_longest<'a, K: TKey, V: TValue, T: RadixNode<K, V>>(
    tree: &'a T,
    path: &[K],
) -> Option<(usize, &'a V)>
    ensures value { option_map (λ b. b.1.now) result
        ≡ cover (lookup K.cmp (T.tree tree.now)) path.now }
    ensures key { IfSome result (λ b. IsLongestCover K.cmp (lookup K.cmp (T.tree tree.now))
        path.now (take b.0 path.now) b.1.now) }
    ensures within { IfSome result (λ b. b.0 ≤ length path.now) }
{
    longest_on(tree, path)
}

/// The answer of `get_longest`, found with values that carry the lengths of their keys.
fn longest_on<'a, K: TKey, V: TValue, T: RadixNode<K, V>>(
    tree: &'a T,
    path: &[K],
) -> Option<(usize, &'a V)>
    ensures { option_map (λ b. (b.0, b.1.now)) result
        ≡ cover (sized 0 (lookup K.cmp (T.tree tree.now))) path.now }
{
    let mut node = tree;
    let mut rest = path;
    let mut agreed = 0;
    let mut longest = None;
    while let Some(left) = rest_behind(node.prefix(), rest, agreed, &mut Uncounted) {
        longest = own_or(node, path.len() - left.len(), longest);
        let Some(first) = left.first() else {
            return longest;
        };
        let Some(child) = child_at(node.children(), first, &mut Uncounted) else {
            return longest;
        };
        node = child;
        rest = left;
        agreed = 1;
    }
    longest
}

/// The value of the node with `length`, or `above` where the node has no value.
fn own_or<'a, K: TKey, V: TValue, T: RadixNode<K, V>>(
    node: &'a T,
    length: usize,
    above: Option<(usize, &'a V)>,
) -> Option<(usize, &'a V)>
    ensures { option_map (λ b. (b.0, b.1.now)) result
        ≡ or_else (beside length (T.tree node.now).value)
        (option_map (λ b. (b.0, b.1.now)) above.entry) }
{
    match node.value() {
        Some(value) => Some((length, value)),
        None => above,
    }
}
