//! The calls that read a radix tree.

ghost use Rattle.std.specs.Prelude.{◌≡◌, ◌+◌, ◌-◌, ◌*◌, ◌^◌, ◌<◌, ◌≤◌, ◌⊎◌, List, None, Ok, IfOk};
ghost use Rattle.std.specs.Prelude.{IfSome, IsOk, IsSome, IsTrue, [], length, map, min, slice_get};
ghost use Rattle.std.specs.Prelude.{take, true};
ghost use Rattle.std.specs.Prelude.{alloc_error, IfErr, MatchBool, MatchOption};
ghost use Rattle.std.specs.List.{FoldsTo};
ghost use Rattle.std.specs.Option.{is_some, option_copied, option_map};
ghost use Rattle.vc_merge.specs.Count.{digits};
ghost use Rattle.vc_tree_model.specs.Tree.{is_bare, key_count, shortened, width};
ghost use Rattle.vc_tree_model.specs.Asking.{MayAnswer, MayAnswerAt, CanAsk, CanAskAt};
ghost use Rattle.vc_tree_model.specs.Canonical.{IsCanonical};
ghost use Rattle.vc_tree_model.specs.Combine.{IsCombined, IsOuterAt, IsInnerAt, IsLeftAt};
ghost use Rattle.vc_tree_model.specs.Cover.{cover, IsLongestCover};
ghost use Rattle.vc_tree_model.specs.KeySets.{AreDisjoint, HasKeysOf, LacksKeyOf, ShareKey};
ghost use Rattle.vc_tree_model.specs.Map.{lookup};
ghost use Rattle.vc_tree_model.specs.Same.{IsAlike};
ghost use Rattle.vc_tree_model.specs.Shortened.{weight, IsShortened};
ghost use Rattle.vc_tree_model.specs.Under.{under};
ghost use Rattle.vc_tree_model.specs.Walk.{IsWalk, walk};
ghost use Rattle.vc_tree_walks.specs.Bounds.{above, below, not_below};
ghost use Rattle.vc_tree_walks.specs.Ends.{IsGreatestPair, IsLeastPair};
ghost use Rattle.vc_tree_walks.specs.Folding.{CanFold, IsStopped, Turns};
ghost use Rattle.vc_tree_walks.specs.IterLeft.{pairs_left};
ghost use Rattle.vc_tree_walks.specs.OwnedLeft.{held_left};
ghost use Rattle.vc_tree_walks.specs.Prefixes.{bound_prefixes};
ghost use Rattle.vc_tree_walks.specs.PrefixesLeft.{prefixes_left};
ghost use Rattle.vc_tree_walks.specs.RangeLeft.{range_left};
ghost use Rattle.vc_tree_walks.specs.ValuesLeft.{values_left};

use crate::radix_tree::writing::AbstractRadixTreeMut;
use std::alloc::AllocError;
use vc_merge::merge::{Steps, Uncounted};
use vc_tree_combines::{combines, keys, left};
use vc_tree_nodes::reading::{RadixNode, TKey, TValue};
use vc_tree_nodes::{descent, reading};
use vc_tree_walks::iter::Iter;
use vc_tree_walks::owned::ObjAndIter;
use vc_tree_walks::prefixes::Prefixes;
use vc_tree_walks::range::Range;
use vc_tree_walks::values::Values;
use vc_tree_walks::{beside, counting, ends, folding, scan, walks};

/// A radix tree to be read: both flavours, and each type that is a [`RadixNode`].
///
/// A contract sees the tree that `tree` gives, and most of them its map: the look-up of each key.
pub trait AbstractRadixTree<K: TKey, V: TValue>: RadixNode<K, V> {
    /// Whether the tree binds no key. Takes no memory.
    final fn is_empty(&self) -> bool
        ensures bare { result ≡ is_bare (Self.tree self.now) }
        ensures keys { let f = lookup K.cmp (Self.tree self.now) in
            MatchBool result ((k : List K) → f k ≡ None) ((k : List K) × IsSome (f k)) }
    {
        reading::canonical(self);
        reading::is_empty(self)
    }

    /// The number of keys of the tree, or `usize::MAX` where it has more: trees whose nodes share
    /// children can have more. Takes no memory.
    ///
    /// Visits all nodes.
    final fn len(&self) -> usize
        ensures { result ≡ min (key_count (Self.tree self.now)) (2 ^ 64 - 1) }
    {
        counting::len(self)
    }

    /// Whether the tree binds the key. Takes no memory.
    final fn contains_key(&self, key: &[K]) -> bool
        ensures { result ≡ is_some (lookup K.cmp (Self.tree self.now) key.now) }
    {
        descent::contains_key(self, key)
    }

    /// Whether some key of the tree starts with the prefix. A key starts with itself, and each key
    /// with the empty prefix. Takes no memory.
    ///
    /// Compares each component of the prefix at most once, except for a halving search among the
    /// children of each node on the way.
    ///
    /// ```
    /// if tree.contains_prefix(b"/users/") {
    ///     ..
    /// }
    /// ```
    final fn contains_prefix(&self, prefix: &[K]) -> bool
        ensures { let f = under K.cmp (lookup K.cmp (Self.tree self.now)) prefix.now in
            MatchBool result ((k : List K) × IsSome (f k)) ((k : List K) → f k ≡ None) }
    {
        scan::contains_prefix(self, prefix)
    }

    /// The number of keys of the tree that start with the prefix, or `usize::MAX` where there are
    /// more. Takes no memory.
    ///
    /// Goes down to the node below which these keys are, as `get` does, and visits all nodes below
    /// it.
    final fn len_below(&self, prefix: &[K]) -> usize
        ensures { (pairs : _)
            × IsWalk K.cmp (under K.cmp (lookup K.cmp (Self.tree self.now)) prefix.now) pairs
            × (result ≡ min (length pairs) (2 ^ 64 - 1)) }
    {
        counting::len_below(self, prefix)
    }

    /// The value that the tree binds the key to. Takes no memory.
    ///
    /// Compares each component of the key at most once, except for a halving search among the
    /// children of each node on the way.
    final fn get(&self, key: &[K]) -> Option<&V>
        ensures { option_copied result ≡ lookup K.cmp (Self.tree self.now) key.now }
    {
        descent::get(self, key, &mut Uncounted)
    }

    /// The answer of [`get`](AbstractRadixTree::get), with each comparison of two components
    /// counted.
    ///
    /// For a key of `l` components there are at most `l * (1 + d)`, where `d` is the number of
    /// binary digits of the greatest number of children of a node.
    final fn get_counted(&self, key: &[K], steps: &mut Steps) -> Option<&V>
        ensures value { option_copied result ≡ lookup K.cmp (Self.tree self.now) key.now }
        ensures counted { steps.new
            ≤ steps.old + length key.now * (1 + digits (width (Self.tree self.now))) }
        ensures grows { steps.old ≤ steps.new }
    {
        let mut own = Steps::new();
        let value = descent::get(self, key, &mut own);
        steps.add(&own);
        value
    }

    /// The longest key of the tree that is a prefix of the path: its number of components, and its
    /// value; `None` where there is no such key. A key is a prefix of itself. Takes no memory.
    ///
    /// Compares each component of the path at most once, except for a halving search among the
    /// children of each node on the way.
    ///
    /// ```
    /// // The handler of the longest route, and what is left of the path after it.
    /// let (length, handler) = routes.get_longest(path)?;
    /// handler.call(&path[length..])
    /// ```
    final fn get_longest(&self, path: &[K]) -> Option<(usize, &V)>
        ensures value { option_map (λ b. b.1.now) result
            ≡ cover (lookup K.cmp (Self.tree self.now)) path.now }
        ensures key { IfSome result (λ b. IsLongestCover K.cmp (lookup K.cmp (Self.tree self.now))
            path.now (take b.0 path.now) b.1.now) }
        ensures within { IfSome result (λ b. b.0 ≤ length path.now) }
    {
        descent::get_longest(self, path)
    }

    /// All keys of the tree that are prefixes of the path, the shortest first: of each how many
    /// components of the path it is, and its value. A key is a prefix of itself. Takes no memory,
    /// and neither does a step.
    ///
    /// The last one is what [`get_longest`](AbstractRadixTree::get_longest) answers. All steps
    /// together compare each component of the path at most once, but for a halving search among the
    /// children of each node on the way.
    ///
    /// ```
    /// // The settings of each folder above a file, the outermost first.
    /// for (length, settings) in folders.prefixes_of(path) {
    ///     ..
    /// }
    /// ```
    final fn prefixes_of<'a>(&'a self, path: &'a [K]) -> Prefixes<'a, K, V, Self>
        ensures { prefixes_left K.cmp Self.tree result
            ≡ bound_prefixes (lookup K.cmp (Self.tree self.now)) path.now }
    {
        walks::prefixes_of(self, path)
    }

    /// The least key of the tree and its value, or none where the tree is empty.
    ///
    /// The key is a new list: it allocates once, for as many components as the key has, and not at
    /// all where the empty key is bound. Fails only where that is refused. Makes no comparison, and
    /// goes down to the key twice.
    ///
    /// ```
    /// if let Some((name, port)) = ports.first_key_value()? {
    ///     ..
    /// }
    /// ```
    final fn first_key_value(&self) -> Result<Option<(Vec<K>, &V)>, AllocError>
        ensures pair { IfOk result (λ found. option_map (λ b. (b.0.items, b.1.now)) found
            ≡ slice_get (walk (Self.tree self.now)) 0) }
        ensures least { let f = lookup K.cmp (Self.tree self.now) in
            IfOk result (λ found. MatchOption found ((k : List K) → f k ≡ None)
            (λ b. IsLeastPair K.cmp f (b.0.items, b.1.now))) }
        ensures none { IsTrue (is_bare (Self.tree self.now)) → result ≡ Ok None }
        ensures empty_key { IsSome (lookup K.cmp (Self.tree self.now) []) → IsOk result }
    {
        ends::first_key_value(self)
    }

    /// The greatest key of the tree and its value, or none where the tree is empty.
    ///
    /// The key is a new list: it allocates once, for as many components as the key has, and not at
    /// all where only the empty key is bound. Fails only where that is refused. Makes no
    /// comparison, and goes down to the key twice.
    final fn last_key_value(&self) -> Result<Option<(Vec<K>, &V)>, AllocError>
        ensures pair { let pairs = walk (Self.tree self.now) in
            IfOk result (λ found. option_map (λ b. (b.0.items, b.1.now)) found
            ≡ slice_get pairs (length pairs - 1)) }
        ensures greatest { let f = lookup K.cmp (Self.tree self.now) in
            IfOk result (λ found. MatchOption found ((k : List K) → f k ≡ None)
            (λ b. IsGreatestPair K.cmp f (b.0.items, b.1.now))) }
        ensures none { IsTrue (is_bare (Self.tree self.now)) → result ≡ Ok None }
        ensures empty_key { ((k : List K) → IsSome (lookup K.cmp (Self.tree self.now) k) → k ≡ [])
            → IsOk result }
    {
        ends::last_key_value(self)
    }

    /// The least key of the tree that is greater than `key`, and its value; none where there is no
    /// such key. `key` itself may be bound or not.
    ///
    /// Keys are ordered as slices are: by the first component in which they differ, and a key
    /// before each longer one that starts with it. The answer's key is a new list, with the
    /// components of `key` up to where the two diverge. It allocates once, for as many components
    /// as that key has, and fails only where that is refused. It does not fail where there is no
    /// such key.
    ///
    /// Compares each component of `key` at most once, except for a halving search among the
    /// children of each node on the way. Goes down to `key`, and from there to the answer twice.
    ///
    /// ```
    /// // The page after the last key that was shown.
    /// let next = tree.next_after(shown)?;
    /// ```
    final fn next_after(&self, key: &[K]) -> Result<Option<(Vec<K>, &V)>, AllocError>
        ensures next { let f = above K.cmp (lookup K.cmp (Self.tree self.now)) key.now in
            IfOk result (λ found. MatchOption found ((k : List K) → f k ≡ None)
            (λ b. IsLeastPair K.cmp f (b.0.items, b.1.now))) }
        ensures none { let f = above K.cmp (lookup K.cmp (Self.tree self.now)) key.now in
            ((k : List K) → f k ≡ None) → result ≡ Ok None }
    {
        beside::next_after(self, key)
    }

    /// The greatest key of the tree that is less than `key`, and its value; none where there is no
    /// such key. `key` itself may be bound or not.
    ///
    /// The order, the answer's key and the cost are as in
    /// [`next_after`](AbstractRadixTree::next_after).
    final fn last_before(&self, key: &[K]) -> Result<Option<(Vec<K>, &V)>, AllocError>
        ensures last { let f = below K.cmp (lookup K.cmp (Self.tree self.now)) key.now in
            IfOk result (λ found. MatchOption found ((k : List K) → f k ≡ None)
            (λ b. IsGreatestPair K.cmp f (b.0.items, b.1.now))) }
        ensures none { let f = below K.cmp (lookup K.cmp (Self.tree self.now)) key.now in
            ((k : List K) → f k ≡ None) → result ≡ Ok None }
    {
        beside::last_before(self, key)
    }

    /// Whether some key is bound by both trees. Takes no memory.
    final fn intersects<W: TValue, S: AbstractRadixTree<K, W>>(&self, that: &S) -> bool
        ensures { MatchBool result (ShareKey K.cmp (Self.tree self.now) (S.tree that.now))
            (AreDisjoint K.cmp (Self.tree self.now) (S.tree that.now)) }
    {
        !keys::is_disjoint(self, that)
    }

    /// Whether no key is bound by both trees. Takes no memory.
    final fn is_disjoint<W: TValue, S: AbstractRadixTree<K, W>>(&self, that: &S) -> bool
        ensures { MatchBool result (AreDisjoint K.cmp (Self.tree self.now) (S.tree that.now))
            (ShareKey K.cmp (Self.tree self.now) (S.tree that.now)) }
    {
        keys::is_disjoint(self, that)
    }

    /// Whether that tree binds each key of this one. Takes no memory.
    final fn is_subset<W: TValue, S: AbstractRadixTree<K, W>>(&self, that: &S) -> bool
        ensures { MatchBool result (HasKeysOf K.cmp (S.tree that.now) (Self.tree self.now))
            (LacksKeyOf K.cmp (S.tree that.now) (Self.tree self.now)) }
    {
        keys::is_subset(self, that)
    }

    /// Whether this tree binds each key of that one. Takes no memory.
    final fn is_superset<W: TValue, S: AbstractRadixTree<K, W>>(&self, that: &S) -> bool
        ensures { MatchBool result (HasKeysOf K.cmp (Self.tree self.now) (S.tree that.now))
            (LacksKeyOf K.cmp (Self.tree self.now) (S.tree that.now)) }
    {
        keys::is_subset(that, self)
    }

    /// All pairs of the tree, by ascending keys. Takes no memory; a step may, for its key.
    ///
    /// A caller may keep a key for as long as it wants. Where keys are dropped, the walk writes
    /// each one over the last.
    ///
    /// ```
    /// for item in tree.iter() {
    ///     let (key, value) = item?;
    ///     total += key.as_ref().len() * value;
    /// }
    /// ```
    final fn iter(&self) -> Iter<'_, K, V, Self>
        ensures all { pairs_left Self.tree result ≡ walk (Self.tree self.now) }
        ensures ascending { IsWalk K.cmp (lookup K.cmp (Self.tree self.now))
            (pairs_left Self.tree result) }
    {
        walks::iter(self)
    }

    /// The pairs of the tree whose keys start with the prefix, by ascending keys, each with its
    /// whole key. The part of each key before the node's own prefix has the components of `prefix`.
    /// Takes no memory; a step may, for its key.
    ///
    /// Goes down to the node below which these keys are, as `get` does.
    final fn scan_prefix<'a>(&'a self, prefix: &'a [K]) -> Iter<'a, K, V, Self>
        ensures { IsWalk K.cmp (under K.cmp (lookup K.cmp (Self.tree self.now)) prefix.now)
            (pairs_left Self.tree result) }
    {
        walks::scan_prefix(self, prefix)
    }

    /// The pairs of the tree whose keys are not less than `key`, by ascending keys.
    ///
    /// Goes down to where `key` is, as `get` does, and takes memory on the way: for the key of the
    /// node that it reaches, and for one place in each level. Fails only where that is refused. A
    /// step takes memory as a step of `iter` does.
    ///
    /// ```
    /// for item in tree.iter_from(b"m")? {
    ///     let (key, value) = item?;
    ///     ..
    /// }
    /// ```
    final fn iter_from<'a>(&'a self, key: &[K]) -> Result<Iter<'a, K, V, Self>, AllocError>
        ensures { IfOk result (λ walk. IsWalk K.cmp
            (not_below K.cmp (lookup K.cmp (Self.tree self.now)) key.now)
            (pairs_left Self.tree walk)) }
    {
        walks::iter_from(self, key)
    }

    /// The pairs of the tree whose keys are not less than `from` and less than `to`, by ascending
    /// keys. Where `to` is not greater than `from` there are none.
    ///
    /// Goes down to where `from` stands, takes memory on the way, and fails as
    /// [`iter_from`](AbstractRadixTree::iter_from) does. A step takes memory as one of `iter` does,
    /// and compares its key with `to`. What comes after the first key that is not less than `to` is
    /// not walked.
    ///
    /// ```
    /// // The names from `m` up to `n`, without `n`.
    /// for item in tree.range(b"m", b"n")? {
    ///     let (key, value) = item?;
    ///     ..
    /// }
    /// ```
    final fn range<'a>(
        &'a self,
        from: &[K],
        to: &'a [K],
    ) -> Result<Range<'a, K, V, Self>, AllocError>
        ensures { let f = not_below K.cmp (lookup K.cmp (Self.tree self.now)) from.now in
            IfOk result (λ walk. IsWalk K.cmp (below K.cmp f to.now)
            (range_left K.cmp Self.tree walk)) }
    {
        walks::range(self, from, to)
    }

    /// The values of the tree, in the order of their keys, which is that of `iter`. Takes no
    /// memory; a step may, for its way back.
    final fn values(&self) -> Values<'_, K, V, Self>
        ensures { values_left Self.tree result ≡ map (λ b. b.1) (walk (Self.tree self.now)) }
    {
        walks::values(self)
    }

    /// Folds the closure over all pairs of the tree, by ascending keys. It is called with `init`
    /// and the first pair, then with its answer and the next pair, and so on. For the empty tree
    /// the answer is `init`. An error of the closure ends the walk, and is answered.
    ///
    /// The closure gets each key by reference. All keys are written to one list, where the walk
    /// keeps what a key shares with the last one; a closure copies what it wants to keep. So this
    /// mostly takes less time than `iter`, whose keys may be kept. It takes memory for the longest
    /// key, and stack for each level. Fails where that memory is refused, or where the closure
    /// fails.
    ///
    /// ```
    /// let letters: Result<usize, AllocError> =
    ///     names.fold(0, |letters, name, _| Ok(letters.saturating_add(name.len())));
    /// ```
    final fn fold<B: Drop, E: From<AllocError>, F: Fn(B, &[K], &V) -> Result<B, E> + Drop>(
        &self,
        init: B,
        turn: F,
    ) -> Result<B, E>
        requires callable { CanFold F.Fn turn init (walk (Self.tree self.now)) }
        ensures folded { IfOk result (FoldsTo (Turns F.Fn turn) init (walk (Self.tree self.now))) }
        ensures err { IfErr result (λ e. E.from_gives alloc_error e
            ⊎ IsStopped F.Fn turn init (walk (Self.tree self.now)) e) }
        ensures none { is_bare (Self.tree self.now) ≡ true → result ≡ Ok init }
    {
        folding::fold(self, init, &turn)
    }

    /// Folds the closure over the pairs of the tree whose keys start with the prefix, each with its
    /// whole key, as [`fold`](AbstractRadixTree::fold) does, and fails where that does. Goes down
    /// to the node below which these keys are, as `get` does. Up to the prefix of that node, a key
    /// is spelled with the components of `prefix`. Where no key starts so, the answer is `init`,
    /// and no memory is taken.
    final fn fold_prefix<B: Drop, E: From<AllocError>, F: Fn(B, &[K], &V) -> Result<B, E> + Drop>(
        &self,
        prefix: &[K],
        init: B,
        turn: F,
    ) -> Result<B, E>
        requires callable { (l : _)
            → IsWalk K.cmp (under K.cmp (lookup K.cmp (Self.tree self.now)) prefix.now) l
            → CanFold F.Fn turn init l }
        ensures folded { IfOk result (λ last. (l : _)
            × IsWalk K.cmp (under K.cmp (lookup K.cmp (Self.tree self.now)) prefix.now) l
            × FoldsTo (Turns F.Fn turn) init l last) }
        ensures err { IfErr result (λ e. E.from_gives alloc_error e
            ⊎ ((l : _) × IsWalk K.cmp (under K.cmp (lookup K.cmp (Self.tree self.now)) prefix.now) l
            × IsStopped F.Fn turn init l e)) }
        ensures none { let f = lookup K.cmp (Self.tree self.now) in
            ((k : List K) → under K.cmp f prefix.now k ≡ None) → result ≡ Ok init }
    {
        folding::fold_prefix(self, prefix, init, &turn)
    }

    /// All pairs of the tree, by ascending keys, each with a clone of its value. The iterator owns
    /// the tree, and drops it. Takes no memory; a step may, for its key and for the clone.
    final fn into_iter(self) -> ObjAndIter<K, V, Self>
    where
        Self: Drop,
        ensures all { held_left Self.tree result ≡ walk (Self.tree self) }
        ensures ascending { IsWalk K.cmp (lookup K.cmp (Self.tree self))
            (held_left Self.tree result) }
    {
        walks::into_iter(self)
    }

    /// A new tree without the first `n` components of every key, of any flavour, with clones of the
    /// values.
    ///
    /// Fails only where memory is refused, or the clone of a value.
    final fn materialize_shortened<M: AbstractRadixTreeMut<K, V>>(
        &self,
        n: usize,
    ) -> Result<M, AllocError>
        requires { n < length (Self.tree self.now).prefix }
        ensures alike { IfOk result
            (λ made. IsAlike V.is_clone (shortened n (Self.tree self.now)) (M.tree made)) }
        ensures map { IfOk result
            (λ made. IsShortened K.cmp V.is_clone n (Self.tree self.now) (M.tree made)) }
        ensures canonical { IfOk result (λ made. IsCanonical K.cmp (M.tree made)) }
    {
        combines::materialize_shortened(self, n)
    }

    /// A new tree of the keys of either tree. A key of only one side has a clone of its value. A
    /// shared key has the closure's answer; where that is `None`, the key is left out. Both trees
    /// are unchanged.
    ///
    /// Fails only where memory is refused, the clone of a value, or a call of the closure. It makes
    /// at most three comparisons of components for each node and each component of a prefix of both
    /// trees.
    final fn outer_combine<
        M: AbstractRadixTreeMut<K, V>,
        S: AbstractRadixTree<K, V>,
        F: Fn(&V, &V) -> Result<Option<V>, AllocError>,
    >(&self, that: &S, f: F) -> Result<M, AllocError>
        requires { (k : List K) → CanAsk F.Fn f (lookup K.cmp (Self.tree self.now) k)
            (lookup K.cmp (S.tree that.now) k) }
        ensures made { IfOk result (λ made. IsCombined K.cmp
            (IsOuterAt V.is_clone V.is_clone (λ v w z. MayAnswer F.Fn f v w (Ok z)))
            (Self.tree self.now) (S.tree that.now) (M.tree made)) }
        ensures canonical { IfOk result (λ made. IsCanonical K.cmp (M.tree made)) }
    {
        combines::outer_combine(self, that, &f, &mut Uncounted)
    }

    /// The answer of [`outer_combine`](AbstractRadixTree::outer_combine), with each comparison of
    /// two components counted.
    ///
    /// There are at most three for each node and each component of a prefix of both trees.
    final fn outer_combine_counted<
        M: AbstractRadixTreeMut<K, V>,
        S: AbstractRadixTree<K, V>,
        F: Fn(&V, &V) -> Result<Option<V>, AllocError>,
    >(&self, that: &S, f: F, steps: &mut Steps) -> Result<M, AllocError>
        requires { (k : List K) → CanAsk F.Fn f (lookup K.cmp (Self.tree self.now) k)
            (lookup K.cmp (S.tree that.now) k) }
        ensures made { IfOk result (λ made. IsCombined K.cmp
            (IsOuterAt V.is_clone V.is_clone (λ v w z. MayAnswer F.Fn f v w (Ok z)))
            (Self.tree self.now) (S.tree that.now) (M.tree made)) }
        ensures canonical { IfOk result (λ made. IsCanonical K.cmp (M.tree made)) }
        ensures counted { steps.new
            ≤ steps.old + 3 * (weight (Self.tree self.now) + weight (S.tree that.now)) }
        ensures grows { steps.old ≤ steps.new }
    {
        let mut own = Steps::new();
        let combined = combines::outer_combine(self, that, &f, &mut own);
        steps.add(&own);
        combined
    }

    /// A new tree of the keys that both bind, with the closure's answers; where an answer is
    /// `None`, the key is left out. Both trees are unchanged.
    ///
    /// Fails only where memory is refused, or a call of the closure.
    final fn inner_combine<
        M: AbstractRadixTreeMut<K, V>,
        W: TValue,
        S: AbstractRadixTree<K, W>,
        F: Fn(&V, &W) -> Result<Option<V>, AllocError>,
    >(&self, that: &S, f: F) -> Result<M, AllocError>
        requires { (k : List K) → CanAsk F.Fn f (lookup K.cmp (Self.tree self.now) k)
            (lookup K.cmp (S.tree that.now) k) }
        ensures made { IfOk result (λ made.
            IsCombined K.cmp (IsInnerAt (λ v w z. MayAnswer F.Fn f v w (Ok z)))
            (Self.tree self.now) (S.tree that.now) (M.tree made)) }
        ensures canonical { IfOk result (λ made. IsCanonical K.cmp (M.tree made)) }
    {
        combines::inner_combine(self, that, &f)
    }

    /// A new tree of keys of this tree. Each has the closure's answer to its value and to what that
    /// tree binds there, if anything; where the answer is `None`, the key is left out. Both trees
    /// are unchanged.
    ///
    /// Fails only where memory is refused, or a call of the closure.
    ///
    /// ```
    /// // The prices of the old list, with the new price where there is one.
    /// let prices: RadixTree<u8, u32> =
    ///     old.left_combine(&new, |price, change| Ok(Some(*change.unwrap_or(price))))?;
    /// ```
    final fn left_combine<
        M: AbstractRadixTreeMut<K, V>,
        W: TValue,
        S: AbstractRadixTree<K, W>,
        F: Fn(&V, Option<&W>) -> Result<Option<V>, AllocError>,
    >(&self, that: &S, f: F) -> Result<M, AllocError>
        requires { (k : List K) → CanAskAt F.Fn f (lookup K.cmp (Self.tree self.now) k)
            (lookup K.cmp (S.tree that.now) k) }
        ensures made { IfOk result (λ made.
            IsCombined K.cmp (IsLeftAt (λ v w z. MayAnswerAt F.Fn f v w (Ok z)))
            (Self.tree self.now) (S.tree that.now) (M.tree made)) }
        ensures canonical { IfOk result (λ made. IsCanonical K.cmp (M.tree made)) }
    {
        left::left_combine(self, that, &f)
    }
}

impl<K: TKey, V: TValue, T: RadixNode<K, V>> AbstractRadixTree<K, V> for T {}
