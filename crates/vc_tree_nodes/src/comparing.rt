//! When two trees are equal.

ghost use Rattle.std.specs.Prelude.{◌≡◌, ◌↔◌, IsTrue};
ghost use Rattle.std.specs.Option.{option_copied, option_eq};
ghost use Rattle.vc_tree_model.specs.Key.{same_key};
ghost use Rattle.vc_tree_model.specs.Map.{lookup, IsEqualMap};
ghost use Rattle.vc_tree_model.specs.Same.{IsSame};
ghost use Rattle.vc_tree_model.specs.Equal.{same_tree, same_tree_in};
ghost use Rattle.vc_tree_nodes.specs.SameTests.{same_tree-partial, same_tree-equivalence};
ghost use Rattle.vc_tree_nodes.specs.Children.{seen};

use crate::plain::RadixTree;
use crate::reading::{RadixNode, TKey, TValue, canonical};

/// Whether the keys have the same length, and equal components at every place.
fn is_same_key<K: Ord>(left: &[K], right: &[K]) -> bool
    ensures { result ≡ same_key K.cmp left.now right.now }
{
    left.cmp(right).is_eq()
}

/// Whether both values are absent, or they are equal.
fn is_same_value<V: PartialEq>(left: Option<&V>, right: Option<&V>) -> bool
    ensures { result ≡ option_eq V.eq (option_copied left.entry) (option_copied right.entry) }
{
    match (left, right) {
        (Some(v), Some(w)) => v == w,
        (None, None) => true,
        _ => false,
    }
}

/// Whether the trees have the same nodes, up to equal components and values.
#[cycle(comparing)]
fn has_same_nodes<K: TKey, V: TValue + PartialEq, T: RadixNode<K, V>>(left: &T, right: &T) -> bool
    ensures { result ≡ same_tree K.cmp V.eq (T.tree left.now) (T.tree right.now) }
{
    is_same_key(left.prefix(), right.prefix())
        && is_same_value(left.value(), right.value())
        && is_same_list(left.children(), right.children())
}

/// Whether the trees of two lists are the same, element by element.
#[cycle(comparing)]
fn is_same_list<K: TKey, V: TValue + PartialEq, T: RadixNode<K, V>>(left: &[T], right: &[T]) -> bool
    ensures { result ≡ same_tree_in K.cmp V.eq (seen T.tree left.now) (seen T.tree right.now) }
{
    let mut left_rest = left;
    let mut right_rest = right;
    loop {
        match (left_rest.split_first(), right_rest.split_first()) {
            (Some((x, xs)), Some((y, ys))) => {
                if !has_same_nodes(x, y) {
                    return false;
                }
                left_rest = xs;
                right_rest = ys;
            }
            (None, None) => return true,
            _ => return false,
        }
    }
}

/// Whether the trees bind equal keys, to equal values. Trees are canonical, so their maps are equal
/// exactly where their nodes are the same.
pub(crate) fn is_equal<K: TKey, V: TValue + PartialEq, T: RadixNode<K, V>>(
    left: &T,
    right: &T,
) -> bool
    ensures value { result ≡ same_tree K.cmp V.eq (T.tree left.now) (T.tree right.now) }
    ensures same { IsTrue result ↔ IsSame K.cmp (λ v w. IsTrue (V.eq v w)) (T.tree left.now)
        (T.tree right.now) }
    ensures maps { IsTrue result ↔ IsEqualMap (λ v w. IsTrue (V.eq v w))
        (lookup K.cmp (T.tree left.now)) (lookup K.cmp (T.tree right.now)) }
{
    canonical(left);
    canonical(right);
    has_same_nodes(left, right)
}

/// Trees are equal exactly where their maps are: they bind equal keys, to equal values.
impl<K: TKey, V: TValue + PartialEq> PartialEq for RadixTree<K, V> {
    ghost eq = { same_tree K.cmp V.eq };

    ghost laws = { same_tree-partial K.cmp V.eq K.total V.laws };

    fn eq(&self, other: &Self) -> bool
        ensures value { result ≡ same_tree K.cmp V.eq self.now other.now }
        ensures same { IsTrue result ↔ IsSame K.cmp (λ v w. IsTrue (V.eq v w)) self.now other.now }
        ensures maps { IsTrue result ↔ IsEqualMap (λ v w. IsTrue (V.eq v w)) (lookup K.cmp self.now)
            (lookup K.cmp other.now) }
    {
        is_equal(self, other)
    }
}

impl<K: TKey, V: TValue + Eq> Eq for RadixTree<K, V> {
    ghost laws = { same_tree-equivalence K.cmp V.eq K.total V.Eq.laws };
}
