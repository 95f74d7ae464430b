//! Maps that take in all of another map. The pairs of both are moved, and nothing is cloned.
ghost use Rattle.std.specs.Prelude.{◌≡◌, ◌+◌, ◌≤◌, List, length, IsOk, OnErr, OnOk};
ghost use Rattle.std.specs.Iterator.{Drains, IsFinite};
ghost use Rattle.std.specs.Iterator.Runs.{WholeRun};
ghost use Rattle.std.specs.Option.{option_or};
ghost use Rattle.vc_joins.specs.declared.question.OuterJoinArg.TheVariants as arg;
ghost use Rattle.vc_joins.specs.Entries.{value_at};
ghost use Rattle.vc_joins.specs.Join.{IsAsked, IsJoin, MovedKey};
ghost use Rattle.vc_joins.specs.Question.{left_spelling};
ghost use Rattle.vc_maps.specs.Combining.{Combines, IsCombinedBy};

use super::VecMap;
use crate::combine::{append_behind, combine_parts};
use std::alloc::{AllocError, Allocator};
use std::default::MadeWith;
use vc_joins::question::JoinKind;
use vc_merge::iterators::SortedByKey;

impl<K: Ord + Drop, V: Drop, const N: usize, A: Allocator + Copy> VecMap<K, V, N, A>
where
    (K, V): MadeWith<A>,
{
    /// Takes in the pairs of `that`. At a key of both maps, the value becomes the result of `f` on
    /// the value of this map and that of `that`; the key of this map is kept.
    ///
    /// All pairs are moved. `f` is called only at the keys of both maps, once at each, in ascending
    /// order.
    ///
    /// It allocates at most once, before the first question, and can't be refused where both maps
    /// fit together: then it allocates only if both are long and little room is left. On refusal it
    /// leaves this map unchanged and drops `that`, and has not called `f`.
    ///
    /// ```
    /// totals.combine_with(today, |held, more| held.max(more))?;
    /// ```
    pub fn combine_with<const M: usize, F: Fn(V, V) -> V + Drop>(
        &mut self,
        that: VecMap<K, V, M, A>,
        f: F,
    ) -> Result<(), AllocError>
        requires callable { (k : _) (v : _) (w : _)
            → IsAsked K.cmp JoinKind.Outer left_spelling self.old that (arg.Both k v w)
            → F.pre f v w }
        ensures joins { OnOk result (IsJoin K.cmp JoinKind.Outer left_spelling self.old that
            (Combines (λ v w x. F.post f v w x)) MovedKey self.new) }
        ensures function { OnOk result
            ((g : _) → IsCombinedBy K.cmp self.old that (λ v w x. F.post f v w x) g self.new) }
        ensures room { length self.old + length that ≤ N → IsOk result }
        ensures err { OnErr result (self.new ≡ self.old) }
    {
        let alloc = *self.pairs.allocator();
        let end = self.pairs.len();
        let next = append_behind(&mut self.pairs, that.into_inner())?;
        let kept = combine_parts(&alloc, self.pairs.as_mut_slice(), end, next, &f);
        self.pairs.truncate(kept);
        Ok(())
    }

    /// Takes in the pairs of `that`. At a key of both maps, the value of `that` and the key of this
    /// map are kept.
    ///
    /// All pairs are moved. It allocates at most once, as [`combine_with`](VecMap::combine_with)
    /// does. On refusal it leaves this map unchanged and drops `that`.
    pub fn merge_with<const M: usize>(&mut self, that: VecMap<K, V, M, A>) -> Result<(), AllocError>
        ensures joins { OnOk result (IsJoin K.cmp JoinKind.Outer left_spelling self.old that
            (Combines (λ v w x. x ≡ w)) MovedKey self.new) }
        ensures values { OnOk result ((k : K)
            → value_at K.cmp self.new k
            ≡ option_or (value_at K.cmp that k) (value_at K.cmp self.old k)) }
        ensures room { length self.old + length that ≤ N → IsOk result }
        ensures err { OnErr result (self.new ≡ self.old) }
    {
        let take_other = |_held: V, other: V| -> V
            ensures { result ≡ other }
        { other };
        self.combine_with(that, take_other)
    }

    /// Takes in the items of an iterator whose keys ascend strictly and which ends. At a key of
    /// both, the value of the item and the key of this map are kept.
    ///
    /// The items become a map first, which grows as `from_iter` does; then this one allocates at
    /// most once. On refusal it leaves this map unchanged, and drops the items that came and the
    /// iterator.
    pub fn extend<I: Iterator<Item = (K, V)> + SortedByKey<K, V>>(
        &mut self,
        iter: I,
    ) -> Result<(), AllocError>
        requires can { I.can_next iter }
        requires ends { IsFinite (I.remaining iter) }
        requires sorted { I.is_sorted_by_key iter }
        ensures joins { OnOk result ((items : List (K × V)) × Drains I.next_gives iter items
            × IsJoin K.cmp JoinKind.Outer left_spelling self.old items (Combines (λ v w x. x ≡ w))
            MovedKey self.new) }
        ensures runs { OnOk result (WholeRun I.next_gives iter
            (λ p. IsJoin K.cmp JoinKind.Outer left_spelling self.old p.items
            (Combines (λ v w x. x ≡ w)) MovedKey self.new)) }
        ensures values { OnOk result (WholeRun I.next_gives iter
            (λ p. (k : K) → value_at K.cmp self.new k
            ≡ option_or (value_at K.cmp p.items k) (value_at K.cmp self.old k))) }
        ensures err { OnErr result (self.new ≡ self.old) }
    {
        let that: VecMap<K, V, N, A> = VecMap::from_iter(*self.pairs.allocator(), iter)?;
        self.merge_with(that)
    }
}
