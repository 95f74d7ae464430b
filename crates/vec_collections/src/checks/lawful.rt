//! Each law under its own name: a law that is exported under the name of another leaves a clause
//! here unproved.
ghost use Rattle.vec_collections.specs.Asking.{MayJudge};
ghost use Rattle.vec_collections.specs.Chain.{allows};
ghost use Rattle.vec_collections.specs.IntervalLaws.{MembersTellTheBoundaries, ListedIntervalsHold, IntervalsOfAreOne};
ghost use Rattle.vec_collections.specs.Join.{ClonedKey};
ghost use Rattle.vec_collections.specs.JoinLaws.{KindsInWords, JoinsOfEvents, JoinsOfFunctions};
ghost use Rattle.vec_collections.specs.MergeLaws.{AscendingHaveOneScript, MembersAreElements, MembersTellTheList, TicksStay, DigitsAreLeast, RunsAreBeginnings};
ghost use Rattle.vec_collections.specs.SetLaws.{InEachWay, SetOfIsOne, OperationsInWords, TestsAreOfOperations};
ghost use Rattle.vec_collections.specs.TreeLaws.{KeysAreOrdered, LeftBehindIsRest, BindsIsLookup, CanonicalIsConditions, CanonicalIsUnique, CanonicalIsSmallest, CanonicalIsShallow, WalkIsOne};
ghost use Rattle.vec_collections.specs.PrefixLaws.{WalkUnder, WalkPrefixed, WalkIsFiltered, CoverIsLongest, RemovalAndRetentionPart};
ghost use Rattle.vec_collections.specs.PrefixLaws.{InsertsCommute, RunIsFunction};
ghost use Rattle.vec_collections.specs.TotalMapLaws.{StandingIsAt, CombinedIsPointwise, MappedIsPointwise};
ghost use Rattle.vec_collections.specs.TotalLaws.{moved_of, OperationsArePointwise, OperationsMakeOne, ComplementsTurnOperations, TotalTestsAreOfOperations};
ghost use Rattle.vec_collections.specs.Matches.{AreCopies};
ghost use Rattle.vec_collections.specs.Value.{Copies};
ghost use Rattle.std.specs.Fn.{FnReturnsAt, FnReturnsAtPair};
ghost use Rattle.std.specs.Prelude.{◌≡◌, Ok, IsTrue};

use crate::laws::{
    ByClone, ByEither, ByEq, ByItself, Question, binds_is_lookup, canonical_is_conditions,
    canonical_is_shallow, canonical_is_smallest, canonical_is_unique, combined_is_pointwise,
    complements_turn_operations, cover_is_longest, digits_are_least, inserts_commute,
    intervals_of_are_one, joins_of_events, joins_of_functions, keys_are_ordered,
    kinds_are_as_named, left_behind_is_rest, listed_intervals_hold, mapped_is_pointwise,
    members_are_elements, members_tell_the_boundaries, members_tell_the_list,
    operations_are_as_named, removal_and_retention_part, run_is_function, runs_are_beginnings,
    script_is_one, set_of_is_one, standing_is_at, tests_are_of_operations, ticks_stay,
    total_operations_are_pointwise, total_operations_make_one, total_tests_are_of_operations,
    walk_is_filtered, walk_is_one, walks_by_prefix,
};
use crate::merge::{Count, MergeOperation, MergeState};
use std::alloc::AllocError;

/// The laws of merges.
pub fn of_merges<T: Ord, M: MergeState, C: Count, O: MergeOperation<M, C>>()
    ensures script { AscendingHaveOneScript T T }
    ensures members { MembersAreElements T.cmp }
    ensures list { MembersTellTheList T.cmp }
    ensures ticks { TicksStay }
    ensures digits { DigitsAreLeast }
    ensures runs { (op : O) → RunsAreBeginnings (allows M.left M.right (O.gives op)) (O.order op) }
{
    script_is_one::<T, T>();
    members_are_elements::<T>();
    members_tell_the_list::<T>();
    ticks_stay();
    digits_are_least();
    runs_are_beginnings::<M, C, O>();
}

/// The laws of sets.
pub fn of_sets<T: Ord + Clone>()
    ensures one { SetOfIsOne T.cmp }
    ensures named { InEachWay T.is_clone (OperationsInWords T.cmp) }
    ensures tests { InEachWay T.is_clone (TestsAreOfOperations T.cmp) }
{
    set_of_is_one::<T>();
    operations_are_as_named::<T>();
    tests_are_of_operations::<T>();
}

/// The laws of joins.
pub fn of_joins<K: Ord + Clone, V, W, X, Q: Question<K, V, W, X>>()
    ensures kinds { KindsInWords K V W K.cmp }
    ensures functions { (q : Q)
        → JoinsOfFunctions K V W K.cmp (λ a r. Q.may q a (Ok r)) (ClonedKey K.is_clone) }
    ensures events { (q : Q)
        → JoinsOfEvents K V W K.cmp (λ a r. Q.may q a (Ok r)) (ClonedKey K.is_clone) }
{
    kinds_are_as_named::<K, V, W>();
    joins_of_functions::<K, V, W, X, Q>();
    joins_of_events::<K, V, W, X, Q>();
}

/// The laws of total sets.
pub fn of_total_sets<T: Ord + Clone>()
    ensures pointwise { OperationsArePointwise T.cmp (moved_of T.cmp) }
    ensures one { OperationsMakeOne T.cmp (moved_of T.cmp) }
    ensures turned { ComplementsTurnOperations T.cmp (moved_of T.cmp) }
    ensures tests { TotalTestsAreOfOperations T.cmp (moved_of T.cmp) }
{
    total_operations_are_pointwise::<T>();
    total_operations_make_one::<T>();
    complements_turn_operations::<T>();
    total_tests_are_of_operations::<T>();
}

/// The laws of interval sets.
pub fn of_interval_sets<T: Ord + Clone>()
    ensures boundaries { MembersTellTheBoundaries T.cmp }
    ensures listed { ListedIntervalsHold T.cmp }
    ensures one { IntervalsOfAreOne T.cmp T.is_clone }
{
    members_tell_the_boundaries::<T>();
    listed_intervals_hold::<T>();
    intervals_of_are_one::<T>();
}

/// The laws of total maps.
pub fn of_total_maps<
    K: Ord + Clone,
    V: Eq,
    F: Fn(&V, &V) -> Result<V, AllocError>,
    G: Fn(&V) -> Result<V, AllocError>,
>(combining: &F, changing: &G)
    ensures standing { StandingIsAt K V K.cmp V.eq }
    ensures combined { CombinedIsPointwise K.cmp V.eq K.is_clone
        (λ x y v. FnReturnsAtPair F.Fn combining.now x y (Ok v)) }
    ensures mapped { MappedIsPointwise K.cmp V.eq K.is_clone
        (λ x v. FnReturnsAt G.Fn changing.now x (Ok v)) }
{
    standing_is_at::<K, V>();
    combined_is_pointwise::<K, V, F>(combining);
    mapped_is_pointwise::<K, V, V, G>(changing);
}

/// The laws of keys and of what trees bind.
pub fn of_keys<K: Ord, V>()
    ensures ordered { KeysAreOrdered K.cmp }
    ensures rest { LeftBehindIsRest K.cmp }
    ensures binds { BindsIsLookup K V K.cmp }
    ensures walk { WalkIsOne K V K.cmp }
{
    keys_are_ordered::<K>();
    left_behind_is_rest::<K>();
    binds_is_lookup::<K, V>();
    walk_is_one::<K, V>();
}

/// The laws of canonical trees.
pub fn of_trees<K: Ord, V: PartialEq + Clone>()
    ensures conditions { CanonicalIsConditions K V K.cmp }
    ensures unique { CanonicalIsUnique K V K.cmp (λ v w. IsTrue (V.eq v w)) }
    ensures one { CanonicalIsUnique K V K.cmp (λ v w. v ≡ w) }
    ensures smallest { CanonicalIsSmallest K V K.cmp (AreCopies V.is_clone) }
    ensures shallow { CanonicalIsShallow K V K.cmp }
{
    canonical_is_conditions::<K, V>();
    canonical_is_unique::<K, V, ByEq>();
    canonical_is_unique::<K, V, ByItself>();
    canonical_is_smallest::<K, V, ByEither>();
    canonical_is_shallow::<K, V>();
}

/// The laws of prefixes, of covers, of insertions and of the machine.
pub fn of_prefixes<K: Ord, V: Clone, W, F: Fn(&W) -> bool>(test: &F)
    ensures under { WalkUnder K V K.cmp }
    ensures prefixed { WalkPrefixed K V K.cmp }
    ensures filtered { WalkIsFiltered K V K.cmp (Copies V.is_clone) }
    ensures longest { CoverIsLongest K W K.cmp }
    ensures parts { RemovalAndRetentionPart K V W (Copies V.is_clone) (MayJudge F.Fn test.now) }
    ensures inserts { InsertsCommute K V K.cmp }
    ensures runs { RunIsFunction K V K.cmp V.is_clone }
{
    walks_by_prefix::<K, V>();
    walk_is_filtered::<K, V, ByClone>();
    cover_is_longest::<K, W>();
    removal_and_retention_part::<K, V, W, ByClone, F>(test);
    inserts_commute::<K, V>();
    run_is_function::<K, V>();
}
