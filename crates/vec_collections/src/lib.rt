//! Small sorted sets and maps, sets with complements, sets of intervals, radix trees that are
//! always canonical, filters of paths, and joins of `BTreeMap`.
//!
//! Every name that a user writes comes from this crate: it exports the modules `merge`,
//! `iterators`, `vec_set`, `vec_map`, `total_vec_set`, `total_vec_map`, `interval_set`,
//! `btree_map`, `radix_tree`, `path_filter`, `macros` and `laws` of the crates below it, and the
//! items of `vec_set` and `vec_map` also at its root. `traits` has the traits of all calls. Where a
//! user writes operators on references, or loops over them, the user's line of `crates.txt` lists
//! those crates too: impls on references to a type are found only where its crate is listed.
#![tactic(auto)]

mod checks;
pub mod macros;

/// The engine of operations on sets, maps, intervals and the children of trees: a merge of two
/// ascending lists.
pub mod merge {
    pub use vc_merge::merge::{
        Count, MergeFromRight, MergeOperation, MergeState, MergeStateMut, Steps, merge,
    };
}

/// Iterators that ascend, and the test whether a list does.
pub mod iterators {
    pub use vc_merge::iterators::{
        FromBehind, Keyed, SortedByItem, SortedByKey, VecMapIter, VecMapKeys, VecMapValues,
        VecSetIter, ascends, ascends_by_key,
    };
}

/// Small sets as ascending lists, the law of elements that gives sets `Clone`, and forms by which
/// elements are looked up.
pub mod vec_set {
    pub use vc_sets::borrowed::Borrowed;
    pub use vc_sets::cloning::ClonesEqual;
    pub use vc_sets::vec_set::{
        AbstractVecSet, SetOp, SetTest, VecSet, VecSet2, difference, intersection,
        symmetric_difference, union,
    };
}

/// Small maps as lists of pairs that ascend by key, and their joins.
pub mod vec_map {
    pub use vc_joins::question::{JoinKind, OuterJoinArg};
    pub use vc_maps::vec_map::{
        AbstractVecMap, VecMap, VecMap1, inner_join, left_join, outer_join, right_join,
    };
    pub use vc_sets::borrowed::Borrowed;
}

/// Sets that are a list, or all that is not in it.
pub mod total_vec_set {
    pub use vc_total_sets::total_vec_set::{TotalVecSet, TotalVecSet2};
}

/// Sets of half-open intervals over an ordered type.
pub mod interval_set {
    pub use vc_intervals::interval_set::{IntervalSet, IntervalSetIter};
}

/// Maps with a value at every key.
pub mod total_vec_map {
    pub use vc_total_maps::total_vec_map::{TotalVecMap, TotalVecMap1};
}

/// Joins of maps that build a `BTreeMap`, and joins that change one in place.
pub mod btree_map {
    pub use vc_btree_maps::btree_map::{
        AbstractBTreeMap, AbstractBTreeMapIter, InPlaceRelationalOps,
    };
    pub use vc_joins::question::OuterJoinArg;
}

/// Canonical radix trees: finite maps from keys, which are lists of components, to values.
pub mod radix_tree {
    pub use vc_trees::commands::{TreeCommand, run};
    pub use vc_trees::radix_tree::{
        AbstractRadixTree, AbstractRadixTreeMut, ArcRadixTree, Iter, IterKey, KeyTrees, ObjAndIter,
        Prefixes, RadixNode, RadixTree, Range, TKey, TValue, Values,
    };
}

/// Filters of paths by rules: of the rules that are prefixes of a path, the longest decides.
pub mod path_filter {
    pub use vc_path_filter::path_filter::PathFilter;
}

/// The laws of the words that contracts cite. Each function does nothing: code that calls one has
/// its law in the proof.
pub mod laws {
    pub use vc_intervals::laws::{
        intervals_of_are_one, listed_intervals_hold, members_tell_the_boundaries,
    };
    pub use vc_joins::answers::{AskInner, AskLeft, AskOuter, AskRight, Question};
    pub use vc_joins::laws::{joins_of_events, joins_of_functions, kinds_are_as_named};
    pub use vc_merge::laws::{
        digits_are_least, members_are_elements, members_tell_the_list, runs_are_beginnings,
        script_is_one, ticks_stay,
    };
    pub use vc_sets::laws::{operations_are_as_named, set_of_is_one, tests_are_of_operations};
    pub use vc_total_maps::laws::{combined_is_pointwise, mapped_is_pointwise, standing_is_at};
    pub use vc_total_sets::laws::{
        complements_turn_operations, total_operations_are_pointwise, total_operations_make_one,
        total_tests_are_of_operations,
    };
    pub use vc_tree_model::laws::{
        ByClone, ByEither, ByEq, ByItself, Matching, binds_is_lookup, canonical_is_conditions,
        canonical_is_shallow, canonical_is_smallest, canonical_is_unique, cover_is_longest,
        inserts_commute, keys_are_ordered, left_behind_is_rest, removal_and_retention_part,
        run_is_function, walk_is_filtered, walk_is_one, walks_by_prefix,
    };
}

/// The traits that have the calls of collections, iterators and trees. `use
/// vec_collections::traits::*` imports them all.
pub mod traits {
    pub use super::btree_map::{AbstractBTreeMap, AbstractBTreeMapIter, InPlaceRelationalOps};
    pub use super::iterators::{SortedByItem, SortedByKey};
    pub use super::radix_tree::{
        AbstractRadixTree, AbstractRadixTreeMut, KeyTrees, RadixNode, TKey, TValue,
    };
    pub use super::vec_map::AbstractVecMap;
    pub use super::vec_set::{AbstractVecSet, Borrowed, ClonesEqual};
}

pub use iterators::{VecMapIter, VecMapKeys, VecMapValues, VecSetIter};
pub use vec_map::{
    AbstractVecMap, JoinKind, OuterJoinArg, VecMap, VecMap1, inner_join, left_join, outer_join,
    right_join,
};
pub use vec_set::{
    AbstractVecSet, Borrowed, ClonesEqual, SetOp, SetTest, VecSet, VecSet2, difference,
    intersection, symmetric_difference, union,
};
