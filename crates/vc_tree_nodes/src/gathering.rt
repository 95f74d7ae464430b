//! Pairs that become a tree. As long as keys ascend, the pairs are kept, and the tree is built at
//! once. From the first key on that does not ascend, each pair is inserted into the tree.

ghost use Rattle.std.specs.Prelude.{◌≡◌, false, List, true, length, [], IfOk, IfSome, OnOk};
ghost use Rattle.vc_tree_model.specs.Map.{lookup};
ghost use Rattle.vc_tree_model.specs.Pairs.{IsCollected, last_bound};
ghost use Rattle.vc_tree_nodes.specs.Ascending.{BindsMore, FollowsLast, IsAscending, MayGrow};
ghost use Rattle.vc_tree_nodes.specs.Ascending.{KeepsMore, gathered};
ghost use Rattle.vc_tree_nodes.specs.Ascending.{pairs_behind};

use crate::ascending::{Step, build_run, common_front};
use crate::building::{Build, Seal};
use crate::insertion::insert;
use crate::reading::{TKey, TValue};
use crate::spelling::Spelled;
use std::alloc::{AllocError, Global};
use std::marker::PhantomData;
use std::mem;

/// The pairs that came, as long as their keys ascend.
#[derive(Drop)]
pub struct Gathering<K, V, S> {
    /// Whether pairs are still kept: each key so far is greater than the one before it.
    ascends: bool,
    /// The keys, as long as they ascend.
    run: Vec<Step<S>>,
    /// The values of these keys.
    values: Vec<V>,
    components: PhantomData<K>,
}

/// The tree of pairs whose keys ascend.
fn build<K: TKey, V: TValue, S: Spelled<K>, T: Build<K, V>>(
    alloc: Global,
    run: Vec<Step<S>>,
    values: Vec<V>,
) -> Result<T, AllocError>
    requires ascends { IsAscending K.cmp (λ s. S.components s.key) (λ s. s.common) run.items }
    requires values { length run.items ≡ length values.items }
    ensures { IfOk result (λ t. IsCollected K.cmp
        (pairs_behind (λ s. S.components s.key) 0 run.items values.items) (T.tree t)) }
{
    if run.is_empty() {
        return Ok(T::blank(alloc, Seal::new()));
    }
    build_run(alloc, run.as_slice(), 0, &mut values.into_iter())
}

impl<K: TKey, V: TValue, S: Spelled<K>> Gathering<K, V, S> {
    /// A gathering with no pair yet. If `ascends`, pairs are kept as long as their keys ascend;
    /// otherwise each pair is inserted.
    pub fn new(alloc: Global, ascends: bool) -> Self
        ensures ascends { result.ascends ≡ ascends }
        ensures none { result.run.items ≡ [] }
        ensures no_values { result.values.items ≡ [] }
    {
        Gathering {
            ascends,
            run: Vec::new(alloc),
            values: Vec::new(alloc),
            components: PhantomData,
        }
    }

    /// Adds one more pair: to the kept ones, or to `tree`, which has the pairs that are no longer
    /// kept.
    pub fn add<T: Build<K, V>>(
        &mut self,
        alloc: Global,
        tree: &mut T,
        key: S,
        value: V,
    ) -> Result<(), AllocError>
        requires { MayGrow K.cmp (λ s. S.components s.key) (λ s. s.common) self.old.ascends
            self.old.run.items self.old.values.items }
        ensures grows { OnOk result (MayGrow K.cmp (λ s. S.components s.key) (λ s. s.common)
            self.new.ascends self.new.run.items self.new.values.items) }
        ensures binds { OnOk result (KeepsMore K.cmp T.keeps (S.components key) value
            (gathered K.cmp (λ s. S.components s.key) self.old.ascends
            self.old.run.items self.old.values.items (T.tree tree.old))
            (gathered K.cmp (λ s. S.components s.key) self.new.ascends
            self.new.run.items self.new.values.items (T.tree tree.new))) }
    {
        if self.ascends {
            match self.follows(key.as_key()) {
                Some(common) => self.keep(key, common, value),
                None => {
                    self.end_run(alloc, tree)?;
                    insert(tree, key.as_key(), value)
                }
            }
        } else {
            insert(tree, key.as_key(), value)
        }
    }

    /// The number of leading components that the key shares with the last key of the run, or `None`
    /// where it is not greater.
    fn follows(&self, key: &[K]) -> Option<usize>
        ensures { IfSome result (FollowsLast K.cmp (λ s. S.components s.key) (λ s. s.common)
            self.now.run.items key.now) }
    {
        match self.run.last() {
            Some(last) => common_front(last.key.as_key(), key),
            None => Some(0),
        }
    }

    /// Adds one more pair to the run.
    fn keep(&mut self, key: S, common: usize, value: V) -> Result<(), AllocError>
        requires ascends { self.old.ascends ≡ true }
        requires grows { MayGrow K.cmp (λ s. S.components s.key) (λ s. s.common) self.old.ascends
            self.old.run.items self.old.values.items }
        requires follows { FollowsLast K.cmp (λ s. S.components s.key) (λ s. s.common)
            self.old.run.items (S.components key) common }
        ensures grows { OnOk result (MayGrow K.cmp (λ s. S.components s.key) (λ s. s.common)
            self.new.ascends self.new.run.items self.new.values.items) }
        ensures binds { OnOk result (BindsMore K.cmp (S.components key) value
            (last_bound K.cmp (pairs_behind (λ s. S.components s.key) 0
            self.old.run.items self.old.values.items))
            (last_bound K.cmp (pairs_behind (λ s. S.components s.key) 0
            self.new.run.items self.new.values.items))) }
        ensures ascends { self.new.ascends ≡ true }
    {
        self.run.push(Step { key, common })?;
        self.values.push(value)?;
        Ok(())
    }

    /// Builds the tree of the run.
    fn end_run<T: Build<K, V>>(&mut self, alloc: Global, tree: &mut T) -> Result<(), AllocError>
        requires ascends { self.old.ascends ≡ true }
        requires grows { MayGrow K.cmp (λ s. S.components s.key) (λ s. s.common) self.old.ascends
            self.old.run.items self.old.values.items }
        ensures ended { OnOk result (self.new.ascends ≡ false) }
        ensures pairs { OnOk result (IsCollected K.cmp (pairs_behind (λ s. S.components s.key) 0
            self.old.run.items self.old.values.items) (T.tree tree.new)) }
    {
        let run = mem::replace(&mut self.run, Vec::new(alloc));
        let values = mem::replace(&mut self.values, Vec::new(alloc));
        *tree = build(alloc, run, values)?;
        self.ascends = false;
        Ok(())
    }

    /// Builds the tree of all pairs.
    pub fn finish<T: Build<K, V>>(&mut self, alloc: Global, tree: &mut T) -> Result<(), AllocError>
        requires { MayGrow K.cmp (λ s. S.components s.key) (λ s. s.common) self.old.ascends
            self.old.run.items self.old.values.items }
        ensures { OnOk result ((k : List K) → lookup K.cmp (T.tree tree.new) k
            ≡ gathered K.cmp (λ s. S.components s.key) self.old.ascends
            self.old.run.items self.old.values.items (T.tree tree.old) k) }
    {
        if self.ascends {
            self.end_run(alloc, tree)
        } else {
            Ok(())
        }
    }
}
