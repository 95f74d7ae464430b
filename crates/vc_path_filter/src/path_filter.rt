//! Filters of paths: rules that allow or deny a path with all that is below it.
//!
//! Of the rules whose paths are prefixes of a path the longest decides. A path is a prefix of
//! itself. Where no rule is a prefix, the path is not allowed.
//!
//! ```
//! let mut filter = PathFilter::new(alloc);
//! filter.allow(b"a")?;
//! filter.deny(b"ab")?;
//! assert!(rt; filter.check(b"ac") && !filter.check(b"abc"));
//! ```

ghost use Rattle.std.specs.Prelude.{◌≡◌, List, Ok, None, true, false, IfOk, OnOk, OnErr};
ghost use Rattle.std.specs.Option.{is_some};
ghost use Rattle.vc_path_filter.specs.Allowed.{is_allowed, IsRestricted};
ghost use Rattle.vc_tree_model.specs.Canonical.{IsCanonical};
ghost use Rattle.vc_tree_model.specs.Key.{behind};
ghost use Rattle.vc_tree_model.specs.Map.{lookup, HaveEqualMaps, IsInserted};
ghost use Rattle.vc_tree_model.specs.Tree.{no_tree};
ghost use Rattle.vc_tree_removal.specs.Without.{IsWithout};

use std::alloc::{AllocError, Global};
use std::fmt;
use std::fmt::Debug;
use std::marker::Model;
use vc_trees::radix_tree::{
    AbstractRadixTree, AbstractRadixTreeMut, ArcRadixTree, RadixNode, TKey, TValue,
};

/// Rules on paths. Contracts see the tree of the rules, which has true at the paths that were
/// allowed, and false at those that were denied.
#[derive(Drop)]
pub struct PathFilter<K: TKey> {
    rules: ArcRadixTree<K, bool>,
}

impl<K: TKey> Model for PathFilter<K> {
    ghost use Rattle.std.specs.Prelude.{Bool};
    ghost use Rattle.std.specs.Coded.{coded_bool};
    ghost use Rattle.vc_tree_model.specs.Tree.{Tree};
    ghost use Rattle.vc_tree_model.specs.TreeCode.{tree_code};

    ghost Value = { Tree K Bool };

    ghost coded = { tree_code K.code coded_bool };

    ghost view = { λ a. a.rules };
}

impl<K: TKey> PathFilter<K> {
    /// The filter without rules, which allows no path. Takes no memory.
    pub fn new(alloc: Global) -> Self
        ensures is { result ≡ no_tree }
        ensures canonical { IsCanonical K.cmp result }
    {
        PathFilter {
            rules: ArcRadixTree::empty(alloc),
        }
    }

    /// Allows a path and what is below it, except where longer rules decide. A rule that the path
    /// had is replaced, and `check` answers true at the path itself. No answer changes for a path
    /// that does not start with this one.
    ///
    /// Compares as often as `insert` of a tree. Fails only where memory is refused; each path then
    /// has the rule that it had.
    pub fn allow(&mut self, path: &[K]) -> Result<(), AllocError>
        ensures ok { OnOk result (IsInserted K.cmp (λ v w. v ≡ w) path.now true self.old self.new) }
        ensures allowed { OnOk result (is_allowed K.cmp self.new path.now ≡ true) }
        ensures outside { OnOk result ((q : List K) → is_some (behind K.cmp path.now q) ≡ false
            → is_allowed K.cmp self.new q ≡ is_allowed K.cmp self.old q) }
        ensures err { OnErr result (HaveEqualMaps K.cmp (λ v w. v ≡ w) self.old self.new) }
        ensures canonical { IsCanonical K.cmp self.new }
    {
        self.set(path, true)
    }

    /// Denies a path and what is below it, except where longer rules decide. A rule that the path
    /// had is replaced, and `check` answers false at the path itself. No answer changes for a path
    /// that does not start with this one.
    ///
    /// Compares as often as `insert` of a tree. Fails only where memory is refused; each path then
    /// has the rule that it had.
    pub fn deny(&mut self, path: &[K]) -> Result<(), AllocError>
        ensures ok { OnOk result
            (IsInserted K.cmp (λ v w. v ≡ w) path.now false self.old self.new) }
        ensures denied { OnOk result (is_allowed K.cmp self.new path.now ≡ false) }
        ensures outside { OnOk result ((q : List K) → is_some (behind K.cmp path.now q) ≡ false
            → is_allowed K.cmp self.new q ≡ is_allowed K.cmp self.old q) }
        ensures err { OnErr result (HaveEqualMaps K.cmp (λ v w. v ≡ w) self.old self.new) }
        ensures canonical { IsCanonical K.cmp self.new }
    {
        self.set(path, false)
    }

    /// Removes the rule of a path and answers what it said, or none where the path had no rule of
    /// its own. Longer and shorter rules then decide on the path and on what is below it; for every
    /// other path the answer is as before.
    ///
    /// Compares as often as `remove` of a tree. A path without a rule costs only the look-up, and
    /// takes no memory. Fails only where memory is refused; each path then has the rule that it
    /// had.
    pub fn remove(&mut self, path: &[K]) -> Result<Option<bool>, AllocError>
        ensures old { IfOk result (λ rule. rule ≡ lookup K.cmp self.old path.now) }
        ensures ok { OnOk result (IsWithout K.cmp (λ v w. v ≡ w) path.now (lookup K.cmp self.old)
            (lookup K.cmp self.new)) }
        ensures outside { OnOk result ((q : List K) → is_some (behind K.cmp path.now q) ≡ false
            → is_allowed K.cmp self.new q ≡ is_allowed K.cmp self.old q) }
        ensures absent { lookup K.cmp self.old path.now ≡ None
            → (result ≡ Ok None) × (self.new ≡ self.old) }
        ensures err { OnErr result (HaveEqualMaps K.cmp (λ v w. v ≡ w) self.old self.new) }
        ensures canonical { IsCanonical K.cmp self.new }
    {
        self.rules.remove(path)
    }

    /// Sets the rule of a path.
    fn set(&mut self, path: &[K], allowed: bool) -> Result<(), AllocError>
        ensures ok { OnOk result
            (IsInserted K.cmp (λ v w. v ≡ w) path.now allowed self.old self.new) }
        ensures decides { OnOk result (is_allowed K.cmp self.new path.now ≡ allowed) }
        ensures outside { OnOk result ((q : List K) → is_some (behind K.cmp path.now q) ≡ false
            → is_allowed K.cmp self.new q ≡ is_allowed K.cmp self.old q) }
        ensures err { OnErr result (HaveEqualMaps K.cmp (λ v w. v ≡ w) self.old self.new) }
        ensures canonical { IsCanonical K.cmp self.new }
    {
        self.rules.insert(path, allowed)
    }
}

impl<K: TKey> PathFilter<K> {
    /// Whether the longest rule that is a prefix of the path allows it; false where no rule is a
    /// prefix of it. Takes no memory.
    ///
    /// Goes down the tree of rules once, with a search among the children of each node on the way.
    pub fn check(&self, path: &[K]) -> bool
        ensures { result ≡ is_allowed K.cmp self.now path.now }
    {
        matches!(self.rules.get_longest(path), Some((_, true)))
    }

    /// Keeps the keys of a tree that the filter allows, with their values, and drops the others:
    /// those that it denies, and those that no rule covers.
    ///
    /// Goes down both trees at once, and reads each rule that it meets once. On refusal it leaves
    /// the empty tree.
    ///
    /// ```
    /// filter.restrict(&mut files)?;
    /// ```
    pub fn restrict<V: TValue, T: AbstractRadixTreeMut<K, V>>(
        &self,
        tree: &mut T,
    ) -> Result<(), AllocError>
        ensures ok { OnOk result (IsRestricted K.cmp self.now T.keeps
            (lookup K.cmp (T.tree tree.old)) (lookup K.cmp (T.tree tree.new))) }
        ensures err { OnErr result (T.tree tree.new ≡ no_tree) }
        ensures canonical { IsCanonical K.cmp (T.tree tree.new) }
    {
        tree.retain_prefix_with(
            &self.rules,
            |allowed: &bool| -> bool
                ensures { result ≡ allowed.now }
            { *allowed },
        )
    }

    /// The rules: the tree has true at the paths that were allowed, and false at those that were
    /// denied. Takes no memory.
    pub fn rules(&self) -> &ArcRadixTree<K, bool>
        ensures is { result.now ≡ self.now }
        ensures canonical { IsCanonical K.cmp result.now }
    {
        self.rules.prefix();
        &self.rules
    }
}

impl<K: TKey> Clone for PathFilter<K> {
    ghost is_clone = { λ x y. y ≡ x };

    /// A snapshot, which shares the rules: later rules of one filter change no answer of the other.
    #[tactic(auto, using(vc_trees::specs::Exact::exactly))]
    fn clone(&self) -> Result<Self, AllocError> {
        Ok(PathFilter {
            rules: self.rules.clone()?,
        })
    }
}

/// Shows the tree of the rules.
impl<K: TKey> Debug for PathFilter<K> {
    fn fmt<W: fmt::Write>(&self, f: &mut fmt::Formatter<W>) -> fmt::Result {
        f.debug_tuple("PathFilter").field(&self.rules).finish()
    }
}
