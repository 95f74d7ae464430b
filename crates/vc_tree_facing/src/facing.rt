//! Two trees side by side: where their prefixes diverge, and how the trees compare there.

ghost use Rattle.std.specs.Prelude.{◌≡◌, ◌+◌, ◌≤◌, length, drop};
ghost use Rattle.std.proofs.Common.{inl, inr};
ghost use Rattle.vc_merge.specs.Count.{ticked};
ghost use Rattle.vc_tree_nodes.specs.Parting.{Agree};
ghost use Rattle.vc_tree_facing.specs.Facing.{Parts, IsSplit};
ghost use Rattle.vc_tree_facing.specs.Sides.{by_component};

use std::cmp::Ordering;
use vc_merge::merge::Count;
use vc_merge::states::Uncounted;
use vc_tree_nodes::parting::{Parting, find_parting};
use vc_tree_nodes::reading::{RadixNode, TKey, TValue};

/// The number of components in which two prefixes agree. The first `known` are known to agree.
#[tactic(auto, using(crate::proofs::Opening::parts_at))]
fn common_front<K: Ord>(p: &[K], q: &[K], known: usize) -> usize
    requires { Agree K.cmp p.now q.now known }
    ensures agree { Agree K.cmp p.now q.now result }
    ensures parts { Parts K.cmp (drop result p.now) (drop result q.now) }
{
    match find_parting(p, q, known, &mut Uncounted) {
        Parting::Behind => p.len(),
        Parting::Inside(n) | Parting::Lower(n) | Parting::Higher(n) => n,
    }
}

/// The number of components in which the prefixes of two trees agree, without their first `i` and
/// `j`. The first `known` of these are known to agree.
pub fn split<K: TKey, V: TValue, W: TValue, T: RadixNode<K, V>, B: RadixNode<K, W>>(
    tree: &T,
    i: usize,
    that: &B,
    j: usize,
    known: usize,
) -> usize
    requires left { i ≤ length (T.tree tree.now).prefix }
    requires right { j ≤ length (B.tree that.now).prefix }
    requires known { Agree K.cmp (drop i (T.tree tree.now).prefix) (drop j (B.tree that.now).prefix)
        known }
    ensures { IsSplit K.cmp (T.tree tree.now) i (B.tree that.now) j result }
{
    let (p, q) = (&tree.prefix()[i..], &that.prefix()[j..]);
    common_front(p, q, known)
}

/// The number of trees to make room for, that come from two lists of these lengths: all of them, or
/// half as many again as the longer list has, since trees of both may meet.
pub fn expected(left: usize, right: usize) -> usize
    ensures { result ≤ left + right }
{
    let (shorter, longer) = (left.min(right), left.max(right));
    longer.saturating_add(shorter.min(longer.div_ceil(2)))
}

/// How a tree of the right side compares with one of the left, by the components at these places of
/// their prefixes. Ticks the counter once.
pub fn compare_at<K: TKey, V: TValue, W: TValue, A: RadixNode<K, V>, B: RadixNode<K, W>, C: Count>(
    y: &B,
    j: usize,
    x: &A,
    i: usize,
    steps: &mut C,
) -> Ordering
    ensures order { result ≡ by_component A.tree B.tree i j K.cmp (inr y.now) (inl x.now) }
    ensures ticks { C.counted steps.new ≡ ticked (C.counted steps.old) }
{
    steps.tick();
    y.prefix().get(j).cmp(&x.prefix().get(i))
}
