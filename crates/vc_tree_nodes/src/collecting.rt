//! Trees made of pairs, for the crates above.

ghost use Rattle.std.specs.Prelude.{◌≡◌, List, map, IfOk};
ghost use Rattle.std.specs.Iterator.{IsFinite};
ghost use Rattle.std.specs.Iterator.Runs.{WholeRun};
ghost use Rattle.vc_tree_model.specs.Canonical.{IsCanonical};
ghost use Rattle.vc_tree_model.specs.Map.{IsEqualMap, lookup};
ghost use Rattle.vc_tree_model.specs.Matches.{AreCopies};
ghost use Rattle.vc_tree_model.specs.OneTree.{IsOneTree, IsSmallest};
ghost use Rattle.vc_tree_model.specs.Pairs.{last_bound};

use crate::building::{Build, Seal};
use crate::gathering::Gathering;
use crate::reading::{TKey, TValue, canonical};
use crate::spelling::Spelled;
use std::alloc::{AllocError, Global};

/// Up to this number, pairs are inserted one by one. That takes no more time, and fewer
/// allocations.
const FEW: usize = 8;

/// Whether more pairs may come than that.
fn may_be_many(most: Option<usize>) -> bool {
    match most {
        Some(most) => FEW < most,
        None => true,
    }
}

/// The tree of the pairs: built at once from the pairs as long as their keys ascend, and then one
/// by one. Where memory is refused, the pairs that came and the iterator are dropped.
pub fn collect<K: TKey, V: TValue, S: Spelled<K>, I: Iterator<Item = (S, V)>, T: Build<K, V>>(
    alloc: Global,
    iter: I,
) -> Result<T, AllocError>
    requires can { I.can_next iter }
    requires ends { IsFinite (I.remaining iter) }
    ensures pairs { IfOk result (λ t. WholeRun I.next_gives iter (λ p. IsEqualMap T.keeps
        (last_bound K.cmp (map (λ b. (S.components b.0, b.1)) p.items))
        (lookup K.cmp (T.tree t)))) }
    ensures canonical { IfOk result (λ t. IsCanonical K.cmp (T.tree t)) }
    ensures one { IfOk result (λ t. IsOneTree K.cmp (AreCopies V.is_clone) (T.tree t)) }
    ensures smallest { IfOk result (λ t. IsSmallest K.cmp (AreCopies V.is_clone) (T.tree t)) }
{
    let mut tree = T::blank(alloc, Seal::new());
    let mut gathering = Gathering::new(alloc, may_be_many(iter.size_hint().1));
    for (key, value) in iter {
        gathering.add(alloc, &mut tree, key, value)?;
    }
    gathering.finish(alloc, &mut tree)?;
    canonical(&tree);
    Ok(tree)
}
