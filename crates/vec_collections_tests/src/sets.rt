//! Sets, as a user writes them: each call, operator and iteration, with a user's clauses.
ghost use Rattle.std.specs.Prelude.{◌≡◌, ◌==◌, ◌||◌, ◌&&◌, ◌↔◌, ◌≤◌, ◌-◌, ◌<◌, ◌^◌, ◌%◌, not, IfOk, IfSome, IsNone, OnOk, OnErr, IsOk, IsTrue, Some, [], ◌∷◌, ℕ, false, length, count_by, drop, filter, nat_le, reverse, slice_get, sum, take};
ghost use Rattle.std.specs.BTreeMap.Range.{range_contains};
ghost use Rattle.std.specs.Option.{option_copied};
ghost use Rattle.std.specs.Ordering.{nat_cmp};
ghost use Rattle.std.specs.declared.ops.Bound.TheVariants.{Included, Excluded};
ghost use Rattle.vec_collections.specs.Ascending.{member};
ghost use Rattle.std.specs.Hash as fed;
ghost use Rattle.std.specs.List.{find, fold, list_any};
ghost use Rattle.std.specs.String.{string_cmp};
ghost use Rattle.std.specs.Cmp.Lexicographic.{slice_cmp, slice_partial_cmp};
ghost use Rattle.vec_collections.specs.TotalSet.{IsEqualTotal};
ghost use Rattle.vec_collections_tests.specs.Names.{has_letters};
ghost use Rattle.vec_collections_tests.specs.Tags.{has, IsEither, IsBoth, IsOne, IsRest, AreMade, AreTested};

use smallvec::SmallVec;
use std::alloc::{AllocError, Global};
use std::cmp::Ordering;
use std::collections::BTreeSet;
use std::hash::{Hash, Hasher};
use std::marker::Model;
use vec_collections::iterators::ascends;
use vec_collections::laws::{complements_turn_operations, tests_are_of_operations};
use vec_collections::merge::Steps;
use vec_collections::total_vec_set::TotalVecSet;
use vec_collections::{
    AbstractVecSet, SetOp, SetTest, VecSet, VecSet2, difference, intersection,
    symmetric_difference, union,
};

/// The tags of an article. Four of them need no allocation.
pub type Tags = VecSet<u32, 4>;

/// Tags, or all but some tags.
pub type Chosen = TotalVecSet<u32, 4>;

/// The results of the four operations on the tags of two articles.
#[derive(Drop)]
pub struct Four {
    pub either: Tags,
    pub both: Tags,
    pub one: Tags,
    pub rest: Tags,
}

/// By the operators.
pub fn four_by_operators(a: &Tags, b: &Tags) -> Result<Four, AllocError>
    ensures { IfOk result (AreMade a.now b.now) }
{
    Ok(Four {
        either: (a | b)?,
        both: (a & b)?,
        one: (a ^ b)?,
        rest: (a - b)?,
    })
}

/// By the operators, of names; a user has to prove nothing about their clones.
pub fn names_by_operators(
    a: &VecSet<String, 4>,
    b: &VecSet<String, 4>,
) -> Result<[VecSet<String, 4>; 4], AllocError> {
    Ok([(a | b)?, (a & b)?, (a ^ b)?, (a - b)?])
}

/// The names of users. Four of them need no allocation.
pub type Names = VecSet<String, 4>;

/// Whether a name is taken: whether one of the names that are held has its letters.
pub fn is_taken(names: &Names, name: &str) -> bool
    ensures { result ≡ list_any (λ held. has_letters name.now held) names.now }
{
    names.contains_by(name)
}

/// A name as it is held, or none where it is free.
pub fn held_name<'a>(names: &'a Names, name: &str) -> Option<&'a String>
    ensures { option_copied result ≡ find (λ held. has_letters name.now held) names.now }
{
    names.get_by(name)
}

/// Frees a name, and answers whether it was taken. Each other name stays.
pub fn give_free(names: &mut Names, name: &str) -> bool
    ensures was_taken { result ≡ list_any (λ held. has_letters name.now held) names.old }
    ensures others { (other : _) → has_letters name.now other ≡ false
        → member string_cmp names.new other ≡ member string_cmp names.old other }
{
    names.remove_by(name)
}

/// By the methods.
pub fn four_by_methods(a: &Tags, b: &Tags) -> Result<Four, AllocError>
    ensures { IfOk result (AreMade a.now b.now) }
{
    Ok(Four {
        either: a.union(b)?,
        both: a.intersection(b)?,
        one: a.symmetric_difference(b)?,
        rest: a.difference(b)?,
    })
}

/// By the functions, of any sets.
pub fn four_by_functions<S: AbstractVecSet<u32>, U: AbstractVecSet<u32>>(
    alloc: Global,
    a: &S,
    b: &U,
) -> Result<Four, AllocError>
    ensures { IfOk result (AreMade (S.elements a.now) (U.elements b.now)) }
{
    Ok(Four {
        either: union(alloc, a, b)?,
        both: intersection(alloc, a, b)?,
        one: symmetric_difference(alloc, a, b)?,
        rest: difference(alloc, a, b)?,
    })
}

/// By the call that is given the operation.
pub fn four_by_name(a: &Tags, b: &Tags) -> Result<Four, AllocError>
    ensures { IfOk result (AreMade a.now b.now) }
{
    Ok(Four {
        either: a.combine(b, SetOp::Union)?,
        both: a.combine(b, SetOp::Intersection)?,
        one: a.combine(b, SetOp::SymmetricDifference)?,
        rest: a.combine(b, SetOp::Difference)?,
    })
}

/// By the call that counts its comparisons.
pub fn four_by_counted(a: &Tags, b: &Tags, steps: &mut Steps) -> Result<Four, AllocError>
    ensures { IfOk result (AreMade a.now b.now) }
{
    Ok(Four {
        either: a.combine_counted(b, SetOp::Union, steps)?,
        both: a.combine_counted(b, SetOp::Intersection, steps)?,
        one: a.combine_counted(b, SetOp::SymmetricDifference, steps)?,
        rest: a.combine_counted(b, SetOp::Difference, steps)?,
    })
}

/// Adds the tags of another article.
pub fn add_all(tags: &mut Tags, more: &Tags) -> Result<(), AllocError>
    ensures added { OnOk result (IsEither tags.old more.now tags.new) }
    ensures err { OnErr result (tags.new ≡ tags.old) }
{
    tags.union_with(more)
}

/// Keeps the tags that exactly one of the articles has.
pub fn keep_one(tags: &mut Tags, more: &Tags) -> Result<(), AllocError>
    ensures kept { OnOk result (IsOne tags.old more.now tags.new) }
    ensures err { OnErr result (tags.new ≡ tags.old) }
{
    tags.xor_with(more)
}

/// Adds the tags of an article that is moved.
pub fn absorb(tags: &mut Tags, more: VecSet2<u32>) -> Result<(), AllocError>
    ensures added { OnOk result (IsEither tags.old more tags.new) }
    ensures err { OnErr result (tags.new ≡ tags.old) }
{
    tags.bitor_assign(more)
}

/// Keeps the tags that either these or an article that is moved has, but not both.
pub fn absorb_one(tags: &mut Tags, more: VecSet2<u32>) -> Result<(), AllocError>
    ensures kept { OnOk result (IsOne tags.old more tags.new) }
    ensures err { OnErr result (tags.new ≡ tags.old) }
{
    tags.bitxor_assign(more)
}

/// Removes the tags of an article that is moved.
pub fn retire(tags: &mut Tags, old: VecSet2<u32>) -> Result<(), AllocError>
    ensures succeeds { IsOk result }
    ensures rest { (tag : ℕ) → has tags.new tag ≡ (has tags.old tag && not (has old tag)) }
{
    tags.combine_with(old, SetOp::Difference)
}

/// Adds the tags of an article that is moved, as an iterator gives them.
pub fn add_each(tags: &mut Tags, more: Tags) -> Result<(), AllocError>
    ensures added { OnOk result (IsEither tags.old more tags.new) }
    ensures err { OnErr result (tags.new ≡ tags.old) }
{
    tags.extend(more.into_iter())
}

/// Keeps the tags that each of four articles has.
pub fn keep_both(tags: &mut Tags, b: &Tags, c: &VecSet2<u32>, d: VecSet2<u32>)
    ensures { (tag : ℕ) → IsTrue (has tags.new tag)
        ↔ (IsTrue (has tags.old tag) × IsTrue (has b.now tag) × IsTrue (has c.now tag)
        × IsTrue (has d tag)) }
{
    tags.intersection_with(b);
    *tags &= c;
    *tags &= d;
}

/// Removes the tags of three other articles.
pub fn keep_rest(tags: &mut Tags, b: &Tags, c: &VecSet2<u32>, d: VecSet2<u32>)
    ensures { (tag : ℕ) → has tags.new tag
        ≡ (((has tags.old tag && not (has b.now tag)) && not (has c.now tag)) && not (has d tag)) }
{
    tags.difference_with(b);
    *tags -= c;
    *tags -= d;
}

/// How two articles compare with each other.
#[derive(Drop)]
pub struct Standing {
    pub is_disjoint: bool,
    pub is_subset: bool,
    pub is_superset: bool,
}

/// By the tests, of any sets.
pub fn standing_of<S: AbstractVecSet<u32>, U: AbstractVecSet<u32>>(a: &S, b: &U) -> Standing
    ensures { AreTested (S.elements a.now) (U.elements b.now) result }
{
    Standing {
        is_disjoint: a.is_disjoint(b),
        is_subset: a.is_subset(b),
        is_superset: a.is_superset(b),
    }
}

/// By the call that counts its comparisons.
pub fn standing_counted(a: &Tags, b: &Tags, steps: &mut Steps) -> Standing
    ensures { AreTested a.now b.now result }
{
    Standing {
        is_disjoint: a.test_counted(b, SetTest::Disjoint, steps),
        is_subset: a.test_counted(b, SetTest::Subset, steps),
        is_superset: a.test_counted(b, SetTest::Superset, steps),
    }
}

/// Whether an article has all tags in `asked`, by what is left of these: a law connects the
/// difference with the test.
pub fn has_all(tags: &Tags, asked: &Tags) -> Result<bool, AllocError>
    ensures { IfOk result (λ has_all. IsTrue has_all
        ↔ ((tag : ℕ) → IsTrue (has asked.now tag) → IsTrue (has tags.now tag))) }
{
    tests_are_of_operations::<u32>();
    Ok(asked.difference(tags)?.is_empty())
}

/// Replaces one tag by another, and answers whether it was there.
pub fn rename(tags: &mut Tags, from: u32, to: u32) -> Result<bool, AllocError>
    ensures found { IfOk result (λ found. found ≡ has tags.old from) }
    ensures renamed { OnOk result
        ((tag : ℕ) → has tags.new tag ≡ ((to == tag) || (not (from == tag) && has tags.old tag))) }
{
    let found = tags.contains(&from);
    tags.remove(&from);
    tags.insert(to)?;
    Ok(found)
}

/// The least and the greatest tag, or none where there is no tag.
pub fn ends(tags: &Tags) -> (Option<&u32>, Option<&u32>)
    ensures least { option_copied result.0 ≡ slice_get tags.now 0 }
    ensures greatest { option_copied result.1 ≡ slice_get tags.now (length tags.now - 1) }
{
    (tags.first(), tags.last())
}

/// The tags from one number on and below another, none where that is not above the first.
pub fn tags_within(tags: &Tags, from: u32, to: u32) -> &[u32]
    ensures { result.now ≡ filter (range_contains nat_cmp (Included from) (Excluded to)) tags.now }
{
    tags.range(from..to)
}

/// The tags, the greatest first.
pub fn greatest_first(alloc: Global, tags: &Tags) -> Result<Vec<u32>, AllocError>
    ensures { IfOk result (λ list. list.items ≡ reverse tags.now) }
{
    tags.iter().rev().copied().collect(alloc)
}

/// How many tags an iterator shows.
pub fn count_shown(tags: &Tags) -> usize
    ensures { result ≡ length tags.now }
{
    tags.iter().len()
}

/// The tags of a list in any order, in which some may be twice.
pub fn of_any_list(alloc: Global, list: Vec<u32>) -> Result<Tags, AllocError>
    ensures { IfOk result (λ tags. (tag : ℕ)
        → member nat_cmp tags tag ≡ member nat_cmp list.items tag) }
{
    Tags::from_unsorted(alloc, list)
}

/// Removes the least tag and answers it.
pub fn take_least(tags: &mut Tags) -> Option<u32>
    ensures least { result ≡ slice_get tags.old 0 }
    ensures rest { tags.new ≡ drop 1 tags.old }
{
    tags.pop_first()
}

/// Removes the greatest tag and answers it.
pub fn take_greatest(tags: &mut Tags) -> Option<u32>
    ensures greatest { result ≡ slice_get tags.old (length tags.old - 1) }
    ensures rest { tags.new ≡ take (length tags.old - 1) tags.old }
{
    tags.pop_last()
}

/// Drops all tags.
pub fn drop_all(tags: &mut Tags)
    ensures { tags.new ≡ [] }
{
    tags.clear();
}

/// Drops the tags below a limit, and keeps all others.
pub fn drop_below(tags: &mut Tags, limit: u32)
    ensures { tags.new ≡ filter (λ tag. nat_le limit tag) tags.old }
{
    tags.retain(|tag| limit <= *tag);
}

fn is_even(tag: &u32) -> bool
    ensures { result ≡ (tag.now % 2 == 0) }
{
    *tag % 2 == 0
}

/// Keeps the even tags, by a plain function.
pub fn keep_even(tags: &mut Tags)
    ensures { tags.new ≡ filter (λ tag. tag % 2 == 0) tags.old }
{
    tags.retain(is_even);
}

/// The sum of all tags.
pub fn sum_of(tags: &Tags) -> u64
    requires { sum tags.now < 2 ^ 64 }
    ensures { result ≡ sum tags.now }
{
    tags.iter().map(|tag| u64::from(*tag)).sum()
}

/// How many tags are odd, by a loop.
pub fn count_odd(tags: &Tags) -> usize
    ensures { result ≡ count_by (λ tag. tag % 2 == 1) tags.now }
{
    let mut count = 0;
    for tag in tags {
        if *tag % 2 == 1 {
            count += 1;
        }
    }
    count
}

/// How many tags are even.
pub fn count_even(tags: &Tags) -> usize
    ensures { result ≡ count_by (λ tag. tag % 2 == 0) tags.now }
{
    tags.iter().filter(|tag| **tag % 2 == 0).count()
}

/// The tags as a list, by value.
pub fn listed(alloc: Global, tags: Tags) -> Result<Vec<u32>, AllocError>
    ensures { IfOk result (λ list. list.items ≡ tags) }
{
    tags.into_iter().collect(alloc)
}

/// The tags of a list, or none where it does not ascend.
pub fn of_list(alloc: Global, list: Vec<u32>) -> Result<Option<Tags>, AllocError>
    ensures { IfOk result (λ tags. IfSome tags (λ set. set ≡ list.items)) }
{
    if ascends(list.as_slice()) {
        Ok(Some(Tags::from_vec(alloc, list)?))
    } else {
        Ok(None)
    }
}

/// The tags of a list in any order.
pub fn of_unordered(alloc: Global, list: BTreeSet<u32>) -> Result<Tags, AllocError>
    ensures { IfOk result (λ set. set ≡ list.keys) }
{
    Tags::from_btree_set(alloc, list)
}

/// The tags in a set with another inline size.
pub fn moved(alloc: Global, tags: Tags) -> Result<VecSet2<u32>, AllocError>
    ensures { IfOk result (λ set. set ≡ tags) }
{
    VecSet2::from_iter(alloc, tags.into_iter())
}

/// A copy of the tags with one more.
pub fn copy_with(tags: &Tags, more: u32) -> Result<Tags, AllocError>
    ensures { IfOk result (λ set. (tag : ℕ) → has set tag ≡ ((more == tag) || has tags.now tag)) }
{
    let mut copy = tags.clone()?;
    copy.insert(more)?;
    Ok(copy)
}

/// No tag, and one tag: neither takes memory.
pub fn none_and_one(alloc: Global, tag: u32) -> Result<(Tags, Tags), AllocError>
    ensures made { IfOk result (λ two. (two.0 ≡ []) × (two.1 ≡ tag ∷ [])) }
    ensures succeeds { IsOk result }
{
    Ok((Tags::empty(alloc), Tags::single(alloc, tag)?))
}

/// Whether two articles have the same tags, and which comes first, by both orders.
pub fn compared(a: &Tags, b: &Tags) -> (bool, Ordering, Option<Ordering>)
    ensures same { IsTrue result.0 ↔ (a.now ≡ b.now) }
    ensures order { result.1 ≡ slice_cmp nat_cmp a.now b.now }
    ensures partial { result.2 ≡ slice_partial_cmp (λ x y. Some (nat_cmp x y)) a.now b.now }
{
    (a == b, a.cmp(b), a.partial_cmp(b))
}

/// Feeds the tags to a hasher.
pub fn feed<H: Hasher>(tags: &Tags, hasher: &mut H)
    ensures { hasher.new ≡ fold H.write hasher.old (fed.slice fed.u32 tags.now) }
{
    tags.hash(hasher);
}

/// A list that may be inline.
type List = SmallVec<u32, 4>;

/// The tags as lists: two that may be inline, and a `Vec`.
pub fn lists(a: Tags, b: Tags, c: Tags) -> Result<(List, Vec<u32>, List), AllocError>
    ensures { IfOk result (λ three. (three.0.items ≡ a) × (three.1.items ≡ b)
        × (three.2.items ≡ c)) }
{
    Ok((a.into_inner(), b.into_vec()?, c.into()))
}

/// The number of the tags, and whether there is none.
pub fn size(tags: &Tags) -> (usize, bool)
    ensures length { result.0 ≡ length tags.now }
    ensures empty { IsTrue result.1 ↔ (tags.now ≡ []) }
{
    (tags.len(), tags.is_empty())
}

/// The same of any set, by its elements one by one, and by their list.
pub fn size_of<S: AbstractVecSet<u32>>(set: &S) -> (usize, usize, bool)
    ensures counted { result.0 ≡ length (S.elements set.now) }
    ensures length { result.1 ≡ length (S.elements set.now) }
    ensures empty { IsTrue result.2 ↔ (S.elements set.now ≡ []) }
{
    (set.iter().count(), set.as_slice().len(), set.is_empty())
}

/// The least tag.
pub fn least(tags: &Tags) -> Option<u32>
    ensures none { IsNone result ↔ (tags.now ≡ []) }
    ensures some { IfSome result (λ tag. IsTrue (has tags.now tag)) }
{
    tags.as_ref().first().copied()
}

/// Gives back the memory that the tags do not need.
pub fn pack(tags: &mut Tags)
    ensures { tags.new ≡ tags.old }
{
    let _always = tags.shrink_to_fit();
}

/// A set of this crate's own: the numbers on a shelf, in ascending order.
pub struct Shelf {
    numbers: Vec<u32>,
}

impl Model for Shelf {
    ghost use Rattle.std.specs.Prelude.{ℕ, List};
    ghost use Rattle.std.specs.Ordering.{nat_cmp};
    ghost use Rattle.vec_collections.specs.Ascending.{Ascends};

    ghost Value = { List ℕ };

    ghost view = { λ s. s.numbers.items };

    ghost invariant = { λ s. Ascends nat_cmp s.numbers.items };
}

impl AbstractVecSet<u32> for Shelf {
    ghost elements = { λ s. s };

    fn as_slice(&self) -> &[u32] {
        self.numbers.as_slice()
    }
}

/// Whether a shelf has all tags of an article.
pub fn holds(shelf: &Shelf, tags: &Tags) -> bool
    ensures { IsTrue result ↔ ((tag : ℕ) → IsTrue (has tags.now tag) → IsTrue (has shelf.now tag)) }
{
    shelf.is_superset(tags)
}

/// The tags that are not in both sets, worked out in two ways, which are equal.
pub fn not_in_both(a: &Chosen, b: &Chosen) -> Result<(Chosen, Chosen), AllocError>
    ensures { IfOk result (λ ways. IsEqualTotal nat_cmp ways.0 ways.1) }
{
    complements_turn_operations::<u32>();
    let mut both = a.clone()?;
    both.bitand_assign(b.clone()?)?;
    let mut either = !a.clone()?;
    either.bitor_assign(!b.clone()?)?;
    Ok((!both, either))
}
