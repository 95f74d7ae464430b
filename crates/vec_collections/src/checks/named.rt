//! Exported functions, traits and types that the example does not name, each under its own name:
//! one that is exported under the name of another leaves a clause here unproved, or does not
//! compile.
ghost use Rattle.std.specs.Iterator.{Drains, IsFinite};
ghost use Rattle.std.specs.Map.{keys_of, values_of};
ghost use Rattle.std.specs.Option.{option_copied};
ghost use Rattle.std.specs.Ordering.{nat_cmp};
ghost use Rattle.std.specs.Prelude.{◌≡◌, ◌↔◌, ◌&&◌, Ok, IfOk, IsTrue, length, map};
ghost use Rattle.std.specs.Prelude.{OnOk};
ghost use Rattle.vec_collections.specs.Answers.{MayAnswer, MayAnswerInner, MayAnswerLeft, MayAnswerRight, seen};
ghost use Rattle.vec_collections.specs.Ascending.{Ascends, member};
ghost use Rattle.vec_collections.specs.Borrowed.{member_by};
ghost use Rattle.vec_collections.specs.Chain.{allows, IsMerged};
ghost use Rattle.vec_collections.specs.Commanded.{command_of};
ghost use Rattle.vec_collections.specs.Entries.{value_at};
ghost use Rattle.vec_collections.specs.Iterating.{Shows};
ghost use Rattle.vec_collections.specs.Listed.{listed};
ghost use Rattle.vec_collections.specs.Join.{IsJoin, MovedKey};
ghost use Rattle.vec_collections.specs.Keeping.{MayLeaveShared};
ghost use Rattle.vec_collections.specs.Machine.{Run};
ghost use Rattle.vec_collections.specs.Map.{lookup};
ghost use Rattle.vec_collections.specs.Question.{left_spelling};
ghost use Rattle.vec_collections.specs.RetainedPairs.{IsRetainedAsTold, MayTell};
ghost use Rattle.vec_collections.specs.Script.{BothAscend};
ghost use Rattle.vec_collections.specs.Value.{Copies};
ghost use Rattle.vec_collections.specs.Showing.{ShowsBothWays, ShowsItems};

use crate::btree_map::{AbstractBTreeMap, InPlaceRelationalOps};
use crate::interval_set::{IntervalSet, IntervalSetIter};
use crate::iterators::{
    FromBehind, Keyed, SortedByItem, SortedByKey, VecMapIter, VecMapKeys, VecMapValues, VecSetIter,
    ascends, ascends_by_key,
};
use crate::laws::{AskInner, AskLeft, AskOuter, AskRight, Question};
use crate::merge::{Count, MergeOperation, MergeState, merge};
use crate::radix_tree::{AbstractRadixTreeMut, RadixTree, TreeCommand, run};
use crate::{
    AbstractVecMap, AbstractVecSet, Borrowed, ClonesEqual, JoinKind, OuterJoinArg, VecMap1,
    VecSet2, inner_join, left_join, outer_join, right_join,
};
use std::alloc::{AllocError, Global};
use std::default::MadeWith;
use std::slice;

/// Whether a list ascends, and whether a list of pairs does by its keys.
pub fn do_ascend(list: &[u32], pairs: &[(u32, u32)]) -> (bool, bool)
    ensures list { IsTrue result.0 ↔ Ascends nat_cmp list.now }
    ensures pairs { IsTrue result.1 ↔ Ascends nat_cmp (keys_of pairs.now) }
{
    (ascends(list), ascends_by_key(pairs))
}

/// The intervals of a set of numbers.
pub fn intervals_of(numbers: &IntervalSet<u32, 4>) -> IntervalSetIter<'_, u32>
    ensures { result ≡ listed numbers.now }
{
    numbers.iter()
}

/// Merges two lists.
pub fn merge_lists<M: MergeState, C: Count, O: MergeOperation<M, C>>(
    state: &mut M,
    op: &O,
    steps: &mut C,
) -> Result<(), AllocError>
    requires ready { O.ready op.now state.old }
    requires ascend { BothAscend (O.order op.now) (M.left state.old) (M.right state.old) }
    ensures { IsMerged (allows M.left M.right (O.gives op.now)) (O.order op.now) state.old result
        state.new }
{
    merge(state, op, steps)
}

/// Runs commands on a tree, and answers which succeeded.
pub fn obey_all(
    tree: &mut RadixTree<u8, u32>,
    commands: Vec<TreeCommand<u8, u32, RadixTree<u8, u32>>>,
    accepted: &mut [bool],
)
    requires { length accepted.old ≡ length commands.items }
    ensures { Run nat_cmp (Copies (λ x y. y ≡ x)) (lookup nat_cmp tree.old)
        (map (command_of (λ t. t)) commands.items) accepted.new (lookup nat_cmp tree.new) }
{
    run(tree, commands, accepted);
}

/// Keeps the pairs of a tree at which the closure answers true.
pub fn keep_pairs<F: Fn(&[u8], &u32) -> bool + Drop>(
    tree: &mut RadixTree<u8, u32>,
    keep: F,
) -> Result<(), AllocError>
    requires { (k : _) (v : _) → F.pre keep k v }
    ensures { OnOk result (IsRetainedAsTold nat_cmp (MayTell F.Fn keep) (λ x y. x ≡ y) tree.old
        tree.new) }
{
    tree.retain(keep)
}

type Numbers = VecMap1<u32, u32>;

/// Asks at the keys of either map.
pub fn join_either<F: Fn(OuterJoinArg<&u32, &u32, &u32>) -> Result<Option<u32>, AllocError> + Drop>(
    alloc: Global,
    a: &Numbers,
    b: &Numbers,
    f: F,
) -> Result<Numbers, AllocError>
    requires { (shown : _) → F.pre f shown }
    ensures { IfOk result (λ c. IsJoin nat_cmp JoinKind.Outer left_spelling a.now b.now
        (λ q r. MayAnswer F.Fn f q (Ok r)) MovedKey c) }
{
    outer_join(alloc, a, b, f)
}

/// Asks at the keys of the left map.
pub fn join_of_left<F: Fn(&u32, &u32, Option<&u32>) -> Result<Option<u32>, AllocError> + Drop>(
    alloc: Global,
    a: &Numbers,
    b: &Numbers,
    f: F,
) -> Result<Numbers, AllocError>
    requires { (k : _) (v : _) (w : _) → F.pre f k v w }
    ensures { IfOk result (λ c. IsJoin nat_cmp JoinKind.Left left_spelling a.now b.now
        (λ q r. MayAnswerLeft F.Fn f q (Ok r)) MovedKey c) }
{
    left_join(alloc, a, b, f)
}

/// Asks at the keys of the right map.
pub fn join_of_right<F: Fn(&u32, Option<&u32>, &u32) -> Result<Option<u32>, AllocError> + Drop>(
    alloc: Global,
    a: &Numbers,
    b: &Numbers,
    f: F,
) -> Result<Numbers, AllocError>
    requires { (k : _) (v : _) (w : _) → F.pre f k v w }
    ensures { IfOk result (λ c. IsJoin nat_cmp JoinKind.Right left_spelling a.now b.now
        (λ q r. MayAnswerRight F.Fn f q (Ok r)) MovedKey c) }
{
    right_join(alloc, a, b, f)
}

/// Asks at the keys of both maps.
pub fn join_both<F: Fn(&u32, &u32, &u32) -> Result<Option<u32>, AllocError> + Drop>(
    alloc: Global,
    a: &Numbers,
    b: &Numbers,
    f: F,
) -> Result<Numbers, AllocError>
    requires { (k : _) (v : _) (w : _) → F.pre f k v w }
    ensures { IfOk result (λ c. IsJoin nat_cmp JoinKind.Inner left_spelling a.now b.now
        (λ q r. MayAnswerInner F.Fn f q (Ok r)) MovedKey c) }
{
    inner_join(alloc, a, b, f)
}

/// The set of the items of an iterator that ascends.
pub fn set_of<I: Iterator<Item = u32> + SortedByItem>(
    alloc: Global,
    items: I,
) -> Result<VecSet2<u32>, AllocError>
    requires can { I.can_next items }
    requires ends { IsFinite (I.remaining items) }
    requires sorted { I.is_sorted items }
    ensures { IfOk result (λ set. Drains I.next_gives items set) }
{
    VecSet2::from_iter(alloc, items)
}

/// What is in both of two sets, of any elements whose clones are equal to them.
pub fn in_both<T: ClonesEqual + MadeWith<Global>>(
    left: &VecSet2<T>,
    right: &VecSet2<T>,
) -> Result<VecSet2<T>, AllocError>
    ensures { IfOk result (λ both. (x : T)
        → member T.cmp both x ≡ (member T.cmp left.now x && member T.cmp right.now x)) }
{
    left.intersection(right)
}

/// The map of the pairs of an iterator whose keys ascend.
pub fn map_of<I: Iterator<Item = (u32, u32)> + SortedByKey<u32, u32>>(
    alloc: Global,
    pairs: I,
) -> Result<Numbers, AllocError>
    requires can { I.can_next pairs }
    requires ends { IsFinite (I.remaining pairs) }
    requires sorted { I.is_sorted_by_key pairs }
    ensures { IfOk result (λ map. Drains I.next_gives pairs map) }
{
    Numbers::from_iter(alloc, pairs)
}

/// The elements of a set in ascending order.
pub fn elements_of(set: &VecSet2<u32>) -> VecSetIter<slice::Iter<'_, u32>>
    ensures { Shows nat_cmp set.now result }
{
    set.iter()
}

/// Whether a set of texts has an element that is equal to a borrowed form.
pub fn has_form<Q: Borrowed<String>>(set: &VecSet2<String>, form: Q) -> bool
    ensures { result ≡ member_by (Q.side form) set.now }
{
    set.contains_by(form)
}

/// The pairs of a map in ascending order of keys.
pub fn pairs_of(map: &Numbers) -> VecMapIter<slice::Iter<'_, (u32, u32)>>
    ensures { ShowsItems map.now result }
{
    map.iter()
}

/// The keys of a map in ascending order.
pub fn keys_of_map(map: &Numbers) -> VecMapKeys<'_, u32, u32>
    ensures { ShowsBothWays (keys_of map.now) result }
{
    map.keys()
}

/// The values of a map in ascending order of their keys.
pub fn values_of_map(map: &Numbers) -> VecMapValues<'_, u32, u32>
    ensures { ShowsBothWays (values_of map.now) result }
{
    map.values()
}

/// The greatest element of a set that an iterator has not given yet.
pub fn next_from_behind<I: FromBehind>(rest: &mut VecSetIter<I>) -> Option<I::Item>
where
    I::Item: Ord,
    requires { I.can_next_back rest.old }
    ensures { I.next_back_gives rest.old result rest.new }
{
    rest.next_back()
}

/// The next pair of an iterator over a map.
pub fn next_by_key<I: Iterator>(rest: &mut VecMapIter<I>) -> Option<I::Item>
where
    I::Item: Keyed,
    requires { I.can_next rest.old }
    ensures { I.next_gives rest.old result rest.new }
{
    rest.next()
}

/// Calls a closure as an outer join does.
pub fn ask_outer<F: Fn(OuterJoinArg<&u32, &u32, &u32>) -> Result<Option<u32>, AllocError>>(
    f: &F,
    at: OuterJoinArg<&u32, &u32, &u32>,
) -> Result<Option<u32>, AllocError>
    requires { (shown : _) → F.pre f.now shown }
    ensures { MayAnswer F.Fn f.now (seen at.entry) result }
{
    AskOuter(f).ask(at)
}

/// Calls a closure as a left join does at a key of both maps.
pub fn ask_left<F: Fn(&u32, &u32, Option<&u32>) -> Result<Option<u32>, AllocError>>(
    f: &F,
    key: &u32,
    value: &u32,
    other: &u32,
) -> Result<Option<u32>, AllocError>
    requires { (k : _) (v : _) (w : _) → F.pre f.now k v w }
    ensures { MayAnswerLeft F.Fn f.now (OuterJoinArg.Both key.now value.now other.now) result }
{
    AskLeft(f).ask(OuterJoinArg::Both(key, value, other))
}

/// Calls a closure as a right join does.
pub fn ask_right<F: Fn(&u32, Option<&u32>, &u32) -> Result<Option<u32>, AllocError>>(
    f: &F,
    key: &u32,
    value: &u32,
    other: &u32,
) -> Result<Option<u32>, AllocError>
    requires { (k : _) (v : _) (w : _) → F.pre f.now k v w }
    ensures { MayAnswerRight F.Fn f.now (OuterJoinArg.Both key.now value.now other.now) result }
{
    AskRight(f).ask(OuterJoinArg::Both(key, value, other))
}

/// Calls a closure as an inner join does.
pub fn ask_inner<F: Fn(&u32, &u32, &u32) -> Result<Option<u32>, AllocError>>(
    f: &F,
    key: &u32,
    value: &u32,
    other: &u32,
) -> Result<Option<u32>, AllocError>
    requires { (k : _) (v : _) (w : _) → F.pre f.now k v w }
    ensures { MayAnswerInner F.Fn f.now (OuterJoinArg.Both key.now value.now other.now) result }
{
    AskInner(f).ask(OuterJoinArg::Both(key, value, other))
}

/// The value at a key of a map that is read in order.
pub fn value_of<M: AbstractBTreeMap<u32, u32>>(map: &M, key: u32) -> Option<&u32>
    ensures { option_copied result ≡ value_at nat_cmp (M.pairs map.now) key }
{
    map.get(&key)
}

/// Keeps the pairs of a map where the closure, which is called at the keys of both maps, answers
/// true.
pub fn keep_shared<M: InPlaceRelationalOps<u32, u32>, F: Fn(&u32, &mut u32, &u32) -> bool + Drop>(
    map: &mut M,
    that: &M,
    f: F,
)
    requires { (k : _) (v : _) (w : _) → F.pre f k v w }
    ensures { IsJoin nat_cmp JoinKind.Inner left_spelling (M.pairs map.old) (M.pairs that.now)
        (MayLeaveShared F.Fn f) MovedKey (M.pairs map.new) }
{
    map.inner_join_with(that, f);
}
