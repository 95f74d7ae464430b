//! The place of a component among the first components of children.

ghost use Rattle.std.specs.Prelude.{◌≡◌, ◌+◌, ◌≤◌, length, slice_get, MatchOption, MatchResult};
ghost use Rattle.vc_merge.specs.Count.{digits};
ghost use Rattle.vc_tree_model.specs.Canonical.{AreChildren};
ghost use Rattle.vc_tree_nodes.specs.Children.{seen};
ghost use Rattle.vc_tree_nodes.specs.Places.{BeginsAt, IsGapAt, IsFoundChild, IsNoChild};
ghost use Rattle.vc_tree_nodes.specs.Places.{first_side};

use crate::reading::{RadixNode, TKey, TValue};
use std::cmp::Ordering;
use std::marker::PhantomData;
use vc_merge::merge::Count;
use vc_merge::search::{Sought, search};

/// A component that is sought among the first components of nodes.
#[derive(Drop)]
struct First<'a, K, V> {
    component: &'a K,
    values: PhantomData<V>,
}

impl<'a, K: TKey, V: TValue, T: RadixNode<K, V>, C: Count> Sought<T, C> for First<'a, K, V> {
    ghost side = { λ sought node.
        first_side K.cmp sought.component.now (slice_get (T.tree node).prefix 0) };

    fn compare(&self, node: &T, steps: &mut C) -> Ordering {
        steps.tick();
        match node.prefix().first() {
            Some(start) => start.cmp(self.component),
            None => Ordering::Less,
        }
    }
}

/// The place of the child that begins with the component, or the place where it would be. Compares
/// no more first components than the number of children has binary digits.
pub fn child_place<K: TKey, V: TValue, T: RadixNode<K, V>, C: Count>(
    children: &[T],
    first: &K,
    steps: &mut C,
) -> Result<usize, usize>
    requires { AreChildren K.cmp (seen T.tree children.now) }
    ensures place { let kids = seen T.tree children.now in
        MatchResult result (BeginsAt K.cmp kids first.now) (IsGapAt K.cmp kids first.now) }
    ensures counted { C.counted steps.new ≤ C.counted steps.old + digits (length children.now) }
{
    let sought: First<'_, K, V> = First {
        component: first,
        values: PhantomData,
    };
    search(children, &sought, steps)
}

/// The child that begins with the component.
pub fn child_at<'a, K: TKey, V: TValue, T: RadixNode<K, V>, C: Count>(
    children: &'a [T],
    first: &K,
    steps: &mut C,
) -> Option<&'a T>
    requires { AreChildren K.cmp (seen T.tree children.now) }
    ensures child { let kids = seen T.tree children.now in
        MatchOption result (IsNoChild K.cmp kids first.now)
        (λ child. IsFoundChild K.cmp kids first.now (T.tree child.now)) }
    ensures counted { C.counted steps.new ≤ C.counted steps.old + digits (length children.now) }
{
    match child_place(children, first, steps) {
        Ok(i) => Some(&children[i]),
        Err(_) => None,
    }
}
