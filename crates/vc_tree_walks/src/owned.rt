//! The pairs of a tree that the iterator owns.

ghost use Rattle.std.specs.Prelude.{◌≡◌, ◌+◌, ◌*◌, ◌<◌, ◌++◌, [], length, None, Some, MatchOption};
ghost use Rattle.std.specs.Prelude.{IfOk, OnOk, OnErr};
ghost use Rattle.std.specs.Option.{option_copied};
ghost use Rattle.vc_tree_model.specs.Tree.{nodes};
ghost use Rattle.vc_tree_model.specs.Walk.{walk};
ghost use Rattle.vc_tree_walks.specs.Left.{pair_at};
ghost use Rattle.vc_tree_walks.specs.OwnedLeft.{entered, held_left, held_work, opened, own_pairs};
ghost use Rattle.vc_tree_walks.specs.OwnedLeft.{way_left, way_work, IsItem, IsReached, IsStep};

use crate::key::IterKey;
use crate::turn::WalkStep;
use std::alloc::{AllocError, Global};
use std::marker::PhantomData;
use vc_tree_nodes::reading::{RadixNode, TKey, TValue};

/// An open node on the way: how many of its children were entered, and how many components of the
/// key come before their keys.
#[derive(Clone, Copy)]
struct OpenNode {
    entered: usize,
    base: usize,
}

/// The way from the root of a tree to where a walk is.
#[derive(Drop)]
struct Way<K> {
    /// The key of the last node, and how many of its components still belong to an open node.
    key: IterKey<K>,
    front: usize,
    /// The open nodes, the outermost first.
    path: Vec<OpenNode>,
}

/// The pairs of a tree that it owns, by ascending keys, each as its key and a clone of its value.
///
/// The tree is dropped with the iterator. The walk keeps its key and a stack of places. A step
/// finds its node from the root, with one place for each node, and writes only the components that
/// the next node adds. Apart from the clone of the value, it takes no memory where the last key was
/// dropped, and the walk was as deep before, with a key as long. After an `Err` the walk is at its
/// end, and answers `None`.
#[derive(Drop)]
pub struct ObjAndIter<K, V, T> {
    tree: T,
    /// Whether a step was made.
    started: bool,
    way: Way<K>,
    values: PhantomData<V>,
}

impl<K: TKey, V: TValue, T: RadixNode<K, V> + Drop> ObjAndIter<K, V, T> {
    /// The pairs of a tree. Takes no memory.
    pub(crate) fn new(tree: T) -> Self
        ensures { held_left T.tree result ≡ walk (T.tree tree) }
    {
        let alloc = tree.allocator();
        ObjAndIter {
            tree,
            started: false,
            way: Way {
                key: IterKey::empty(),
                front: 0,
                path: Vec::new(alloc),
            },
            values: PhantomData,
        }
    }

    /// Makes one step: to the root, to the next child of the innermost open node, or out of that
    /// node.
    fn step(&mut self) -> Result<WalkStep<(IterKey<K>, V)>, AllocError>
        ensures ok { IfOk result (λ step. IsStep T.tree V.is_clone self.old step self.new) }
        ensures err { OnErr result (0 < held_work T.tree self.old) }
    {
        let alloc = self.tree.allocator();
        if !self.started {
            self.way.start(alloc, &self.tree)?;
            self.started = true;
            return item(&self.way.key, self.tree.value());
        }
        if self.way.path.is_empty() {
            return Ok(WalkStep::Done);
        }
        match self.way.advance(alloc, &self.tree)? {
            Some(node) => item(&self.way.key, node.value()),
            None => Ok(WalkStep::Moved),
        }
    }

    /// Ends the walk: nothing is left.
    fn stop(&mut self)
        ensures left { held_left T.tree self.new ≡ [] }
        ensures work { held_work T.tree self.new ≡ 0 }
    {
        self.started = true;
        self.way.path.clear();
    }
}

impl<K: TKey> Way<K> {
    /// Goes to the root of a tree.
    fn start<V: TValue, T: RadixNode<K, V>>(
        &mut self,
        alloc: Global,
        tree: &T,
    ) -> Result<(), AllocError>
        ensures left { OnOk result (walk (T.tree tree.now)
            ≡ pair_at self.new.key (T.tree tree.now).value ++ way_left (T.tree tree.now) self.new) }
        ensures work { OnOk result
            (way_work (T.tree tree.now) self.new < 1 + 2 * nodes (T.tree tree.now)) }
    {
        self.path.clear();
        self.key.turn_to(alloc, 0, tree.prefix())?;
        self.front = self.key.as_ref().len();
        self.open(tree, self.front)
    }

    /// Continues from the innermost open node: to its next child, which it answers, or out of it.
    fn advance<'t, V: TValue, T: RadixNode<K, V>>(
        &mut self,
        alloc: Global,
        tree: &'t T,
    ) -> Result<Option<&'t T>, AllocError>
        requires { 0 < length self.old.path.items }
        ensures left { IfOk result (λ node. way_left (T.tree tree.now) self.old
            ≡ own_pairs T.tree self.new.key node ++ way_left (T.tree tree.now) self.new) }
        ensures work { OnOk result
            (way_work (T.tree tree.now) self.new < way_work (T.tree tree.now) self.old) }
        ensures some_work { 0 < way_work (T.tree tree.now) self.old }
    {
        let (node, depth) = reach(tree, self.path.as_slice());
        let place = self.path[depth];
        let base = place.base.min(self.front);
        self.path.truncate(depth);
        let Some(child) = node.children().get(place.entered) else {
            self.front = base;
            return Ok(None);
        };
        let prefix = child.prefix();
        self.key.turn_to(alloc, base, prefix)?;
        self.front = self.key.as_ref().len();
        self.path.push(OpenNode {
            entered: place.entered + 1,
            base: self.front - prefix.len(),
        })?;
        self.open(child, self.front)?;
        Ok(Some(child))
    }

    /// Opens a node, if it has children. `base` components of the key come before their keys.
    fn open<V: TValue, T: RadixNode<K, V>>(
        &mut self,
        node: &T,
        base: usize,
    ) -> Result<(), AllocError>
        ensures path { OnOk result
            (self.new.path.items ≡ self.old.path.items ++ opened (T.tree node.now) base) }
        ensures key { self.new.key ≡ self.old.key }
        ensures front { self.new.front ≡ self.old.front }
    {
        if node.children().is_empty() {
            return Ok(());
        }
        self.path.push(OpenNode { entered: 0, base })?;
        Ok(())
    }
}

/// The item of a node with this key and this value, if it has a value.
fn item<K: Drop, V: Clone>(
    key: &IterKey<K>,
    value: Option<&V>,
) -> Result<WalkStep<(IterKey<K>, V)>, AllocError>
    ensures { IfOk result (IsItem V.is_clone key.now (option_copied value.entry)) }
{
    match value {
        Some(value) => Ok(WalkStep::Item((key.clone()?, value.clone()?))),
        None => Ok(WalkStep::Moved),
    }
}

/// The innermost open node of a path, and the number of open nodes above it.
fn reach<'t, K: TKey, V: TValue, T: RadixNode<K, V>>(
    tree: &'t T,
    path: &[OpenNode],
) -> (&'t T, usize)
    requires { 0 < length path.now }
    ensures { IsReached (T.tree tree.now) path.now (T.tree result.0.now) result.1 }
{
    let mut node = tree;
    let mut depth = 0;
    while depth + 1 < path.len() {
        let place = path[depth];
        let Some(child) = last_entered(node, place.entered) else {
            return (node, depth);
        };
        node = child;
        depth += 1;
    }
    (node, depth)
}

/// The child that was entered last, where `count` children were entered.
fn last_entered<'t, K: TKey, V: TValue, T: RadixNode<K, V>>(
    node: &'t T,
    count: usize,
) -> Option<&'t T>
    ensures { let kids = (T.tree node.now).children in
        MatchOption result (entered count kids ≡ None)
        (λ child. entered count kids ≡ Some (T.tree child.now)) }
{
    let children = node.children();
    if count == 0 {
        None
    } else {
        children.get(count - 1)
    }
}

impl<K: TKey, V: TValue, T: RadixNode<K, V> + Drop> Iterator for ObjAndIter<K, V, T> {
    type Item = Result<(IterKey<K>, V), AllocError>;

    ghost use Rattle.std.specs.Iterator.{at_most};
    ghost use Rattle.vc_tree_walks.specs.OwnedLeft.{held_left, held_work, WalksClones};

    ghost next_gives = { WalksClones V.is_clone (held_left T.tree) (held_work T.tree) };

    ghost remaining = { λ s. at_most (held_work T.tree s) };

    fn next(&mut self) -> Option<Result<(IterKey<K>, V), AllocError>> {
        loop {
            match self.step() {
                Ok(WalkStep::Item(item)) => return Some(Ok(item)),
                Ok(WalkStep::Moved) => {}
                Ok(WalkStep::Done) => return None,
                Err(fault) => {
                    self.stop();
                    return Some(Err(fault));
                }
            }
        }
    }
}
