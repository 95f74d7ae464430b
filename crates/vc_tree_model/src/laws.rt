//! The laws of the definitions that contracts on trees cite.
//!
//! Each function does nothing: its contract is the law, for keys of any `Ord` and for any values.
//! Code that calls one has the law in its proof. A law on closures takes the closure by reference,
//! since its type has no name.

ghost use Rattle.std.specs.Prelude.{◌≡◌, IsTrue};
ghost use Rattle.vc_tree_model.specs.Asking.{MayJudge};
ghost use Rattle.vc_tree_model.specs.Matches.{AreCopies};
ghost use Rattle.vc_tree_model.specs.Value.{Copies};
ghost use Rattle.vc_tree_model.specs.Laws.{KeysAreOrdered, LeftBehindIsRest, BindsIsLookup, LookupIsMap, CanonicalIsConditions, CanonicalIsUnique, CanonicalIsSmallest, CanonicalIsShallow, WalkListsMap, WalkIsOne, KeyCountIsLength};
ghost use Rattle.vc_tree_model.specs.PrefixLaws.{WalkUnder, WalkPrefixed, WalkIsFiltered, CoverIsLongest, RemovalAndRetentionPart};
ghost use Rattle.vc_tree_model.specs.PrefixLaws.{InsertsCommute, RunIsFunction};

/// When a value of one tree counts as a value of another: any relation is allowed.
pub trait Matching<V> {
    ghost matches: { V → V → Type 0 };
}

/// Values match where they are `==`.
pub enum ByEq {}

impl<V: PartialEq> Matching<V> for ByEq {
    ghost matches = { λ v w. IsTrue (V.eq v w) };
}

/// Values match where the second is the first, or a clone of it over any number of clones.
pub enum ByClone {}

impl<V: Clone> Matching<V> for ByClone {
    ghost matches = { Copies V.is_clone };
}

/// Values match where one is the other, or a clone of it over any number of clones.
pub enum ByEither {}

impl<V: Clone> Matching<V> for ByEither {
    ghost matches = { AreCopies V.is_clone };
}

/// Values match where they are one value.
pub enum ByItself {}

impl<V> Matching<V> for ByItself {
    ghost matches = { λ v w. v ≡ w };
}

/// Keys are totally ordered. Two are equal where they have the same length and equal components at
/// every place. Otherwise the first place at which they differ decides, and a key that has ended
/// there comes first.
pub fn keys_are_ordered<K: Ord>()
    ensures { KeysAreOrdered K.cmp }
{}

/// A key starts with a prefix exactly where something is left after it, and the rest is unique, up
/// to equality.
pub fn left_behind_is_rest<K: Ord>()
    ensures { LeftBehindIsRest K.cmp }
{}

/// A tree is canonical, in the form that the types of trees keep, from node to children, exactly
/// where the four conditions hold of all its nodes.
pub fn canonical_is_conditions<K: Ord, V>()
    ensures { CanonicalIsConditions K V K.cmp }
{}

/// A tree whose prefixes are in order, such as a canonical tree, binds a key to a value by the
/// relation `Binds` exactly where the look-up of the key gives the value. The look-up gives the
/// same value at equal keys, in any tree.
pub fn binds_is_lookup<K: Ord, V>()
    ensures agree { BindsIsLookup K V K.cmp }
    ensures map { LookupIsMap K V K.cmp }
{}

/// Canonical trees are the same exactly where their maps are equal.
pub fn canonical_is_unique<K: Ord, V, M: Matching<V>>()
    ensures { CanonicalIsUnique K V K.cmp M.matches }
{}

/// A canonical tree of `k` keys, `k` at least 1, has at most `2k - 1` nodes. Each canonical tree of
/// an equal map is the same, and no tree of an equal map whose prefixes are in order has fewer
/// nodes.
pub fn canonical_is_smallest<K: Ord, V, M: Matching<V>>()
    ensures { CanonicalIsSmallest K V K.cmp M.matches }
{}

/// A canonical tree has at most one level more than its longest key has components. It has no more
/// levels than nodes and, where it has a key, no more than keys. Recursive calls on a tree go as
/// deep as it has levels.
pub fn canonical_is_shallow<K: Ord, V>()
    ensures { CanonicalIsShallow K V K.cmp }
{}

/// The walk of a canonical tree lists all pairs of its map, keys strictly ascending. A map has no
/// other such list, up to equal keys, and its length is the tree's number of keys.
pub fn walk_is_one<K: Ord, V>()
    ensures lists { WalkListsMap K V K.cmp }
    ensures one { WalkIsOne K V K.cmp }
    ensures count { KeyCountIsLength K V K.cmp }
{}

/// The walk of the pairs under a prefix is the walk of all pairs, without the keys that do not
/// start with the prefix. The walk of the pairs with a prefix before their keys is the walk of all
/// pairs, with the prefix before each key.
pub fn walks_by_prefix<K: Ord, V>()
    ensures under { WalkUnder K V K.cmp }
    ensures prefixed { WalkPrefixed K V K.cmp }
{}

/// A walk of the pairs under a prefix, as `scan_prefix` makes it, lists what a tree of these pairs
/// binds, as `filter_prefix` makes it, and nothing else.
pub fn walk_is_filtered<K: Ord, V, M: Matching<V>>()
    ensures { WalkIsFiltered K V K.cmp M.matches }
{}

/// The cover of a key by a tree is the value of the longest key of the tree that is a prefix of it,
/// and none where there is no such key.
pub fn cover_is_longest<K: Ord, W>()
    ensures { CoverIsLongest K W K.cmp }
{}

/// Given a tree of prefixes, and a test that gives one answer for each of its values: each pair of
/// a map is either removed or retained, never both.
pub fn removal_and_retention_part<K, V, W, M: Matching<V>, F: Fn(&W) -> bool>(test: &F)
    ensures { RemovalAndRetentionPart K V W M.matches (MayJudge F.Fn test.now) }
{}

/// Two keys that differ may be bound in either order: the resulting maps bind the same.
pub fn inserts_commute<K: Ord, V>()
    ensures { InsertsCommute K V K.cmp }
{}

/// Runs of commands are functions of maps. Take two maps whose values have one source, and one list
/// of commands, of which both accept the same ones: the results are maps whose values have one
/// source. So two runs from one map bind the same keys, to copies of the same values.
pub fn run_is_function<K: Ord, V: Clone>()
    ensures { RunIsFunction K V K.cmp V.is_clone }
{}
