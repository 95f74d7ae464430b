//! The one recursion of all combines that build a tree.

ghost use Rattle.std.specs.Prelude.{◌≡◌, ◌+◌, ◌-◌, ◌*◌, ◌<◌, ◌≤◌, ◌++◌, List, [], ◌∷◌, Option, Some};
ghost use Rattle.std.specs.Prelude.{IfOk};
ghost use Rattle.std.specs.Prelude.{IfSome, OnOk, drop, take, length, map, option_map};
ghost use Rattle.std.proofs.Common.{inl, inr};
ghost use Rattle.std.specs.List.{cons_option};
ghost use Rattle.std.specs.Option.{option_copied, option_to_list};
ghost use Rattle.vc_tree_model.specs.Canonical.{AreChildren, IsCanonical};
ghost use Rattle.vc_tree_model.specs.Child.{value_at as node_value};
ghost use Rattle.vc_tree_model.specs.Combine.{IsCombined};
ghost use Rattle.vc_tree_model.specs.Look.{values};
ghost use Rattle.vc_tree_model.specs.Map.{lookup};
ghost use Rattle.vc_tree_model.specs.Shortened.{weight, forest_weight};
ghost use Rattle.vc_tree_model.specs.Tree.{forest_nodes, shortened};
ghost use Rattle.vc_tree_nodes.specs.Children.{seen};
ghost use Rattle.vc_tree_nodes.specs.Parting.{Agree};
ghost use Rattle.vc_tree_facing.specs.Doing.{AreNext, IsDoing, IsSaidIn, IsSaidOf};
ghost use Rattle.vc_tree_facing.specs.Facing.{shortened_in};
ghost use Rattle.vc_tree_facing.specs.Sides.{by_component, side_next};
ghost use Rattle.vc_tree_facing.specs.declared.sides.EventSide.TheVariants.{Left, Right};
ghost use Rattle.vc_tree_combines.specs.Ended.{IsEnded};
ghost use Rattle.vc_tree_combines.specs.Making.{IsAdded, AreMadeOf, IsMadeBelow};

use crate::adding::{add_lefts, add_rights, finish_onto, look_around};
use crate::kids::{Kids, MakeAlone, merge_to_pair, take_pair};
use crate::operation::{Combine, room_for};
use std::alloc::{AllocError, Global};
use std::marker::PhantomData;
use vc_merge::merge::Count;
use vc_merge::plan::plan_of;
use vc_tree_facing::nodes::{finish, value_at};
use vc_tree_nodes::building::{Build, Seal};
use vc_tree_nodes::parting::{Parting, find_parting};
use vc_tree_nodes::reading::{RadixNode, TKey, TValue, canonical};

/// The combine of the values of the two nodes that are after equal fronts of two prefixes.
fn combine_values<
    K: TKey,
    V: TValue,
    W: TValue,
    A: RadixNode<K, V>,
    B: RadixNode<K, W>,
    O: Combine<K, V, W, A, B>,
>(a: &A, i: usize, b: &B, j: usize, front: usize, op: &O) -> Result<Option<V>, AllocError>
    requires left { i ≤ length (A.tree a.now).prefix }
    requires right { j ≤ length (B.tree b.now).prefix }
    requires left_front { front ≤ length (drop i (A.tree a.now).prefix) }
    requires right_front { front ≤ length (drop j (B.tree b.now).prefix) }
    requires asks { O.asks op.now
        (node_value (shortened i (A.tree a.now)) (drop front (drop i (A.tree a.now).prefix)))
        (node_value (shortened j (B.tree b.now)) (drop front (drop j (B.tree b.now).prefix))) }
    ensures { IfOk result (O.says op.now
        (node_value (shortened i (A.tree a.now)) (drop front (drop i (A.tree a.now).prefix)))
        (node_value (shortened j (B.tree b.now)) (drop front (drop j (B.tree b.now).prefix)))) }
{
    op.at_values(value_at(a, i, front), value_at(b, j, front))
}

/// The result of the combine of two trees after equal fronts of their prefixes, from the children
/// that it has built.
fn end<
    K: TKey,
    V: TValue,
    W: TValue,
    A: RadixNode<K, V>,
    B: RadixNode<K, W>,
    O: Combine<K, V, W, A, B>,
>(
    alloc: Global,
    a: &A,
    i: usize,
    b: &B,
    j: usize,
    front: usize,
    op: &O,
    kids: Vec<O::Made>,
) -> Result<Option<O::Made>, AllocError>
    requires left { i ≤ length (A.tree a.now).prefix }
    requires right { j ≤ length (B.tree b.now).prefix }
    requires left_front { front ≤ length (drop i (A.tree a.now).prefix) }
    requires right_front { front ≤ length (drop j (B.tree b.now).prefix) }
    requires asks { O.asks op.now
        (node_value (shortened i (A.tree a.now)) (drop front (drop i (A.tree a.now).prefix)))
        (node_value (shortened j (B.tree b.now)) (drop front (drop j (B.tree b.now).prefix))) }
    requires children { AreChildren K.cmp (seen O.Made.tree kids.items) }
    ensures { IfOk result
        (λ made. IsEnded (O.says op.now (node_value (shortened i (A.tree a.now))
        (drop front (drop i (A.tree a.now).prefix)))
        (node_value (shortened j (B.tree b.now)) (drop front (drop j (B.tree b.now).prefix))))
        (take front (drop i (A.tree a.now).prefix)) (seen O.Made.tree kids.items)
        (option_map O.Made.tree made)) }
{
    let prefix = &a.prefix()[i..];
    let value = combine_values(a, i, b, j, front, op)?;
    let made = finish(alloc, &prefix[..front], value, kids)?;
    Ok(made)
}

/// Appends the result of the combine of two trees after equal fronts of their prefixes to a list.
/// What `end` returns would be moved several times on the way there.
fn end_onto<
    K: TKey,
    V: TValue,
    W: TValue,
    A: RadixNode<K, V>,
    B: RadixNode<K, W>,
    O: Combine<K, V, W, A, B>,
>(
    alloc: Global,
    a: &A,
    i: usize,
    b: &B,
    j: usize,
    front: usize,
    op: &O,
    kids: Vec<O::Made>,
    made: &mut Vec<O::Made>,
) -> Result<(), AllocError>
    requires left { i ≤ length (A.tree a.now).prefix }
    requires right { j ≤ length (B.tree b.now).prefix }
    requires left_front { front ≤ length (drop i (A.tree a.now).prefix) }
    requires right_front { front ≤ length (drop j (B.tree b.now).prefix) }
    requires asks { O.asks op.now
        (node_value (shortened i (A.tree a.now)) (drop front (drop i (A.tree a.now).prefix)))
        (node_value (shortened j (B.tree b.now)) (drop front (drop j (B.tree b.now).prefix))) }
    requires children { AreChildren K.cmp (seen O.Made.tree kids.items) }
    ensures { OnOk result ((one : Option _)
        × IsEnded (O.says op.now (node_value (shortened i (A.tree a.now))
        (drop front (drop i (A.tree a.now).prefix)))
        (node_value (shortened j (B.tree b.now)) (drop front (drop j (B.tree b.now).prefix))))
        (take front (drop i (A.tree a.now).prefix)) (seen O.Made.tree kids.items) one
        × (map O.Made.tree made.new.items ≡ map O.Made.tree made.old.items ++ cons_option one [])) }
{
    let prefix = &a.prefix()[i..];
    let value = combine_values(a, i, b, j, front, op)?;
    finish_onto(alloc, &prefix[..front], value, kids, made)
}

/// What is left of two trees, each without the front of its prefix, where the left one continues
/// with a lesser component.
fn make_lower<
    K: TKey,
    V: TValue,
    W: TValue,
    A: RadixNode<K, V>,
    B: RadixNode<K, W>,
    O: Combine<K, V, W, A, B>,
>(alloc: Global, a: &A, i: usize, b: &B, j: usize, op: &O) -> Result<Vec<O::Made>, AllocError>
    requires left { AreChildren K.cmp (shortened_in A.tree i (a.now ∷ [])) }
    requires right { AreChildren K.cmp (shortened_in B.tree j (b.now ∷ [])) }
    requires first { side_next (by_component A.tree B.tree i j K.cmp) (Some a.now) (Some b.now)
        ≡ Some Left }
    requires asks { IsSaidIn K.cmp A.tree B.tree i j (values K.cmp) (O.asks op.now) (a.now ∷ [])
        (b.now ∷ []) }
    ensures { IfOk result (λ made. AreMadeOf K.cmp (O.says op.now)
        (shortened_in A.tree i (a.now ∷ [])) (shortened_in B.tree j (b.now ∷ []))
        (seen O.Made.tree made.items)) }
{
    let mut made = Vec::with_capacity(alloc, room_for::<K, V, W, A, B, O>(op, 1, 1))?;
    op.add_left(alloc, a, i, &mut made)?;
    op.add_right(alloc, b, j, &mut made)?;
    Ok(made)
}

/// What is left of two trees, each without the front of its prefix, where the left one continues
/// with a greater component.
fn make_higher<
    K: TKey,
    V: TValue,
    W: TValue,
    A: RadixNode<K, V>,
    B: RadixNode<K, W>,
    O: Combine<K, V, W, A, B>,
>(alloc: Global, a: &A, i: usize, b: &B, j: usize, op: &O) -> Result<Vec<O::Made>, AllocError>
    requires left { AreChildren K.cmp (shortened_in A.tree i (a.now ∷ [])) }
    requires right { AreChildren K.cmp (shortened_in B.tree j (b.now ∷ [])) }
    requires first { side_next (by_component A.tree B.tree i j K.cmp) (Some a.now) (Some b.now)
        ≡ Some Right }
    requires asks { IsSaidIn K.cmp A.tree B.tree i j (values K.cmp) (O.asks op.now) (a.now ∷ [])
        (b.now ∷ []) }
    ensures { IfOk result (λ made. AreMadeOf K.cmp (O.says op.now)
        (shortened_in A.tree i (a.now ∷ [])) (shortened_in B.tree j (b.now ∷ []))
        (seen O.Made.tree made.items)) }
{
    let mut made = Vec::with_capacity(alloc, room_for::<K, V, W, A, B, O>(op, 1, 1))?;
    op.add_right(alloc, b, j, &mut made)?;
    op.add_left(alloc, a, i, &mut made)?;
    Ok(made)
}

/// The state where one tree continues after a place of its prefix, and is combined with the
/// children of the other node. The first of these are done.
#[derive(Drop)]
struct BuiltBefore<'a, T, M> {
    /// The trees that were built.
    made: Vec<M>,
    /// The child that begins as the tree continues.
    found: Option<&'a T>,
    /// The number of children that are left.
    left: usize,
}

/// Begins the combine of a left tree that continues after a place of its prefix with the children
/// of a right node: adds the trees before the one that begins alike.
fn begin_inside<
    'b,
    K: TKey,
    V: TValue,
    W: TValue,
    A: RadixNode<K, V>,
    B: RadixNode<K, W>,
    O: Combine<K, V, W, A, B>,
    C: Count,
>(
    alloc: Global,
    a: &A,
    i: usize,
    others: &'b [B],
    op: &O,
    steps: &mut C,
) -> Result<BuiltBefore<'b, B, O::Made>, AllocError>
    requires within { i < length (A.tree a.now).prefix }
    requires right { AreChildren K.cmp (seen B.tree others.now) }
    requires asks { IsSaidIn K.cmp A.tree B.tree i 0 (values K.cmp) (O.asks op.now) (a.now ∷ [])
        others.now }
    ensures next { IfOk result (λ s. AreNext K.cmp A.tree B.tree i 0 (values K.cmp) (O.says op.now)
        (O.asks op.now) (a.now ∷ []) others.now (Some a.now) (option_copied s.found) []
        (drop (length others.now - s.left) others.now)
        (map O.Made.tree s.made.items)) }
    ensures paid { IfOk result (λ s. let found = option_to_list (option_copied s.found) in
        C.counted steps.new + 3 * forest_weight (shortened_in B.tree 0 found)
        ≤ C.counted steps.old + 3 * forest_weight (seen B.tree others.now) + length found) }
    ensures left { IfOk result (λ s. s.left ≤ length others.now) }
    ensures counted { C.counted steps.new
        ≤ C.counted steps.old + 3 * forest_weight (seen B.tree others.now) }
    ensures fewer { IfOk result
        (λ s. forest_nodes (seen B.tree (option_to_list (option_copied s.found)))
        ≤ forest_nodes (seen B.tree others.now)) }
{
    let room = room_for::<K, V, W, A, B, O>(op, 1, others.len());
    let mut made = Vec::with_capacity(alloc, room)?;
    let around = look_around(others, &a.prefix()[i], steps);
    add_rights::<K, V, W, A, B, O>(alloc, around.before, op, &mut made)?;
    Ok(BuiltBefore {
        made,
        found: around.found,
        left: around.after.len(),
    })
}

/// Ends the combine that `begin_inside` began: adds the trees after the one that was found. `a` and
/// `i` serve the contract alone.
fn end_inside<
    K: TKey,
    V: TValue,
    W: TValue,
    A: RadixNode<K, V>,
    B: RadixNode<K, W>,
    O: Combine<K, V, W, A, B>,
>(
    alloc: Global,
    a: &A,
    i: usize,
    others: &[B],
    left: usize,
    op: &O,
    mut made: Vec<O::Made>,
) -> Result<Vec<O::Made>, AllocError>
    requires left { left ≤ length others.now }
    requires doing { IsDoing K.cmp A.tree B.tree i 0 (values K.cmp) (O.says op.now) (O.asks op.now)
        (a.now ∷ []) others.now [] (drop (length others.now - left) others.now)
        (map O.Made.tree made.items) }
    ensures { IfOk result (λ all. AreMadeOf K.cmp (O.says op.now)
        (shortened_in A.tree i (a.now ∷ [])) (seen B.tree others.now)
        (seen O.Made.tree all.items)) }
{
    let after = others.split_at(others.len() - left).1;
    add_rights::<K, V, W, A, B, O>(alloc, after, op, &mut made)?;
    Ok(made)
}

/// Begins the combine of the children of a left node with a right tree that continues after a place
/// of its prefix: adds the trees before the one that begins alike.
fn begin_within<
    'a,
    K: TKey,
    V: TValue,
    W: TValue,
    A: RadixNode<K, V>,
    B: RadixNode<K, W>,
    O: Combine<K, V, W, A, B>,
    C: Count,
>(
    alloc: Global,
    trees: &'a [A],
    b: &B,
    j: usize,
    op: &O,
    steps: &mut C,
) -> Result<BuiltBefore<'a, A, O::Made>, AllocError>
    requires left { AreChildren K.cmp (seen A.tree trees.now) }
    requires within { j < length (B.tree b.now).prefix }
    requires asks { IsSaidIn K.cmp A.tree B.tree 0 j (values K.cmp) (O.asks op.now) trees.now
        (b.now ∷ []) }
    ensures next { IfOk result (λ s. AreNext K.cmp A.tree B.tree 0 j (values K.cmp) (O.says op.now)
        (O.asks op.now) trees.now (b.now ∷ []) (option_copied s.found) (Some b.now)
        (drop (length trees.now - s.left) trees.now) []
        (map O.Made.tree s.made.items)) }
    ensures paid { IfOk result (λ s. let found = option_to_list (option_copied s.found) in
        C.counted steps.new + 3 * forest_weight (shortened_in A.tree 0 found)
        ≤ C.counted steps.old + 3 * forest_weight (seen A.tree trees.now) + length found) }
    ensures left { IfOk result (λ s. s.left ≤ length trees.now) }
    ensures counted { C.counted steps.new
        ≤ C.counted steps.old + 3 * forest_weight (seen A.tree trees.now) }
    ensures fewer { IfOk result
        (λ s. forest_nodes (seen A.tree (option_to_list (option_copied s.found)))
        ≤ forest_nodes (seen A.tree trees.now)) }
{
    let room = room_for::<K, V, W, A, B, O>(op, trees.len(), 1);
    let mut made = Vec::with_capacity(alloc, room)?;
    let around = look_around(trees, &b.prefix()[j], steps);
    add_lefts::<K, V, W, A, B, O>(alloc, around.before, op, &mut made)?;
    Ok(BuiltBefore {
        made,
        found: around.found,
        left: around.after.len(),
    })
}

/// Ends the combine that `begin_within` began: adds the trees after the one that was found. `b` and
/// `j` serve the contract alone.
fn end_within<
    K: TKey,
    V: TValue,
    W: TValue,
    A: RadixNode<K, V>,
    B: RadixNode<K, W>,
    O: Combine<K, V, W, A, B>,
>(
    alloc: Global,
    trees: &[A],
    b: &B,
    j: usize,
    left: usize,
    op: &O,
    mut made: Vec<O::Made>,
) -> Result<Vec<O::Made>, AllocError>
    requires left { left ≤ length trees.now }
    requires doing { IsDoing K.cmp A.tree B.tree 0 j (values K.cmp) (O.says op.now) (O.asks op.now)
        trees.now (b.now ∷ []) (drop (length trees.now - left) trees.now) []
        (map O.Made.tree made.items) }
    ensures { IfOk result (λ all. AreMadeOf K.cmp (O.says op.now)
        (seen A.tree trees.now) (shortened_in B.tree j (b.now ∷ [])) (seen O.Made.tree all.items)) }
{
    let after = trees.split_at(trees.len() - left).1;
    add_lefts::<K, V, W, A, B, O>(alloc, after, op, &mut made)?;
    Ok(made)
}

/// What was built below the common front of two prefixes.
#[derive(Drop)]
struct Opened<M> {
    /// The number of components in which the prefixes agree.
    front: usize,
    /// The trees that were built from what is below.
    kids: Vec<M>,
}

/// Appends the combine of two trees, each without the front of its prefix. The first `known`
/// components that are left of either prefix are known to agree.
#[cycle(combining)]
fn combine_onto<
    K: TKey,
    V: TValue,
    W: TValue,
    A: RadixNode<K, V>,
    B: RadixNode<K, W>,
    O: Combine<K, V, W, A, B>,
    C: Count,
>(
    alloc: Global,
    a: &A,
    i: usize,
    b: &B,
    j: usize,
    known: usize,
    op: &O,
    made: &mut Vec<O::Made>,
    steps: &mut C,
) -> Result<(), AllocError>
    requires left { i ≤ length (A.tree a.now).prefix }
    requires right { j ≤ length (B.tree b.now).prefix }
    requires known { Agree K.cmp (drop i (A.tree a.now).prefix)
        (drop j (B.tree b.now).prefix) known }
    requires asks { (k : List K) → O.asks op.now (lookup K.cmp (shortened i (A.tree a.now)) k)
        (lookup K.cmp (shortened j (B.tree b.now)) k) }
    ensures added { OnOk result (IsAdded K.cmp (O.says op.now)
        (Some (shortened i (A.tree a.now))) (Some (shortened j (B.tree b.now)))
        (map O.Made.tree made.old.items) (map O.Made.tree made.new.items)) }
    ensures counted { C.counted steps.new + 2
        ≤ C.counted steps.old + 3
        * (weight (shortened i (A.tree a.now)) + weight (shortened j (B.tree b.now))) }
{
    let Opened { front, kids } = combine_below(alloc, a, i, b, j, known, op, steps)?;
    end_onto(alloc, a, i, b, j, front, op, kids, made)
}

/// The combine of the trees below the place where two prefixes diverge: that of `a` without its
/// first `i` components, and that of `b` without its first `j`. The first `known` components that
/// are left of either prefix are known to agree.
#[cycle(combining)]
fn combine_below<
    K: TKey,
    V: TValue,
    W: TValue,
    A: RadixNode<K, V>,
    B: RadixNode<K, W>,
    O: Combine<K, V, W, A, B>,
    C: Count,
>(
    alloc: Global,
    a: &A,
    i: usize,
    b: &B,
    j: usize,
    known: usize,
    op: &O,
    steps: &mut C,
) -> Result<Opened<O::Made>, AllocError>
    requires left { i ≤ length (A.tree a.now).prefix }
    requires right { j ≤ length (B.tree b.now).prefix }
    requires known { Agree K.cmp (drop i (A.tree a.now).prefix)
        (drop j (B.tree b.now).prefix) known }
    requires asks { (k : List K) → O.asks op.now (lookup K.cmp (shortened i (A.tree a.now)) k)
        (lookup K.cmp (shortened j (B.tree b.now)) k) }
    ensures made { IfOk result (λ made. IsMadeBelow K.cmp (O.says op.now)
        (shortened i (A.tree a.now)) (shortened j (B.tree b.now)) made.front
        (seen O.Made.tree made.kids.items)) }
    ensures counted { C.counted steps.new + 2
        ≤ C.counted steps.old + 3
        * (weight (shortened i (A.tree a.now)) + weight (shortened j (B.tree b.now))) }
{
    let p = &a.prefix()[i..];
    let q = &b.prefix()[j..];
    match find_parting(p, q, known, steps) {
        Parting::Lower(front) => {
            let kids = make_lower(alloc, a, i + front, b, j + front, op)?;
            Ok(Opened { front, kids })
        }
        Parting::Higher(front) => {
            let kids = make_higher(alloc, a, i + front, b, j + front, op)?;
            Ok(Opened { front, kids })
        }
        Parting::Inside(front) => {
            let others = b.children();
            let kids = combine_inside(alloc, a, i + front, others, op, steps)?;
            Ok(Opened { front, kids })
        }
        Parting::Behind => {
            let front = p.len();
            let lefts = a.children();
            if front < q.len() {
                let kids = combine_within(alloc, lefts, b, j + front, op, steps)?;
                return Ok(Opened { front, kids });
            }
            let rights = b.children();
            let kids = combine_kids(alloc, lefts, rights, op, steps)?;
            Ok(Opened { front, kids })
        }
    }
}

/// The combine of a left tree that continues after a place of its prefix with the children of a
/// right node.
#[cycle(combining)]
fn combine_inside<
    K: TKey,
    V: TValue,
    W: TValue,
    A: RadixNode<K, V>,
    B: RadixNode<K, W>,
    O: Combine<K, V, W, A, B>,
    C: Count,
>(
    alloc: Global,
    a: &A,
    i: usize,
    others: &[B],
    op: &O,
    steps: &mut C,
) -> Result<Vec<O::Made>, AllocError>
    requires within { i < length (A.tree a.now).prefix }
    requires right { AreChildren K.cmp (seen B.tree others.now) }
    requires asks { IsSaidIn K.cmp A.tree B.tree i 0 (values K.cmp) (O.asks op.now) (a.now ∷ [])
        others.now }
    ensures made { IfOk result (λ made. AreMadeOf K.cmp (O.says op.now)
        (shortened_in A.tree i (a.now ∷ [])) (seen B.tree others.now)
        (seen O.Made.tree made.items)) }
    ensures counted { C.counted steps.new ≤ C.counted steps.old + 3
        * (weight (shortened i (A.tree a.now)) + forest_weight (seen B.tree others.now)) }
{
    let BuiltBefore {
        mut made,
        found,
        left,
    } = begin_inside::<K, V, W, A, B, O, C>(alloc, a, i, others, op, steps)?;
    combine_one(alloc, Some(a), i, found, 0, op, &mut made, steps)?;
    end_inside(alloc, a, i, others, left, op, made)
}

/// The combine of the children of a left node with a right tree that continues after a place of its
/// prefix.
#[cycle(combining)]
fn combine_within<
    K: TKey,
    V: TValue,
    W: TValue,
    A: RadixNode<K, V>,
    B: RadixNode<K, W>,
    O: Combine<K, V, W, A, B>,
    C: Count,
>(
    alloc: Global,
    trees: &[A],
    b: &B,
    j: usize,
    op: &O,
    steps: &mut C,
) -> Result<Vec<O::Made>, AllocError>
    requires left { AreChildren K.cmp (seen A.tree trees.now) }
    requires within { j < length (B.tree b.now).prefix }
    requires asks { IsSaidIn K.cmp A.tree B.tree 0 j (values K.cmp) (O.asks op.now) trees.now
        (b.now ∷ []) }
    ensures made { IfOk result (λ made. AreMadeOf K.cmp (O.says op.now)
        (seen A.tree trees.now) (shortened_in B.tree j (b.now ∷ []))
        (seen O.Made.tree made.items)) }
    ensures counted { C.counted steps.new ≤ C.counted steps.old + 3
        * (forest_weight (seen A.tree trees.now) + weight (shortened j (B.tree b.now))) }
{
    let BuiltBefore {
        mut made,
        found,
        left,
    } = begin_within::<K, V, W, A, B, O, C>(alloc, trees, b, j, op, steps)?;
    combine_one(alloc, found, 0, Some(b), j, op, &mut made, steps)?;
    end_within(alloc, trees, b, j, left, op, made)
}

/// Appends the combine of the next trees, where one side may have none.
#[cycle(combining)]
fn combine_one<
    K: TKey,
    V: TValue,
    W: TValue,
    A: RadixNode<K, V>,
    B: RadixNode<K, W>,
    O: Combine<K, V, W, A, B>,
    C: Count,
>(
    alloc: Global,
    a: Option<&A>,
    i: usize,
    b: Option<&B>,
    j: usize,
    op: &O,
    made: &mut Vec<O::Made>,
    steps: &mut C,
) -> Result<(), AllocError>
    requires left { IfSome a (λ x. i < length (A.tree x.now).prefix) }
    requires right { IfSome b (λ y. j < length (B.tree y.now).prefix) }
    requires known { IfSome a (λ x. IfSome b (λ y. Agree K.cmp (drop i (A.tree x.now).prefix)
        (drop j (B.tree y.now).prefix) 1)) }
    requires asks { IsSaidOf K.cmp A.tree B.tree i j (values K.cmp) (O.asks op.now)
        (option_copied a) (option_copied b) }
    ensures added { OnOk result (IsAdded K.cmp (O.says op.now)
        (option_map (λ x. shortened i (A.tree x)) (option_copied a.entry))
        (option_map (λ y. shortened j (B.tree y)) (option_copied b.entry))
        (map O.Made.tree made.old.items) (map O.Made.tree made.new.items)) }
    ensures counted { let lefts = option_to_list (option_copied a.entry) in
        let rights = option_to_list (option_copied b.entry) in
        C.counted steps.new + length lefts + length rights ≤ C.counted steps.old + 3
        * (forest_weight (shortened_in A.tree i lefts)
        + forest_weight (shortened_in B.tree j rights)) }
{
    match (a, b) {
        (Some(x), Some(y)) => combine_onto(alloc, x, i, y, j, 1, op, made, steps),
        (Some(x), None) => op.add_left(alloc, x, i, made),
        (None, Some(y)) => op.add_right(alloc, y, j, made),
        (None, None) => Ok(()),
    }
}

/// The combine of the children of two nodes. All merges use the plan of the two whole lists. Two
/// nodes without children need no merge.
#[cycle(combining)]
fn combine_kids<
    K: TKey,
    V: TValue,
    W: TValue,
    A: RadixNode<K, V>,
    B: RadixNode<K, W>,
    O: Combine<K, V, W, A, B>,
    C: Count,
>(
    alloc: Global,
    lefts: &[A],
    rights: &[B],
    op: &O,
    steps: &mut C,
) -> Result<Vec<O::Made>, AllocError>
    requires left { AreChildren K.cmp (seen A.tree lefts.now) }
    requires right { AreChildren K.cmp (seen B.tree rights.now) }
    requires asks { IsSaidIn K.cmp A.tree B.tree 0 0 (values K.cmp) (O.asks op.now) lefts.now
        rights.now }
    ensures made { IfOk result (λ made. AreMadeOf K.cmp (O.says op.now) (seen A.tree lefts.now)
        (seen B.tree rights.now) (seen O.Made.tree made.items)) }
    ensures counted { C.counted steps.new ≤ C.counted steps.old + 3
        * (forest_weight (seen A.tree lefts.now) + forest_weight (seen B.tree rights.now)) }
{
    if lefts.is_empty() && rights.is_empty() {
        return Ok(Vec::new(alloc));
    }
    let room = room_for::<K, V, W, A, B, O>(op, lefts.len(), rights.len());
    let mut state = Kids {
        left: lefts,
        right: rights,
        made: Vec::with_capacity(alloc, room)?,
    };
    let alone: MakeAlone<'_, '_, '_, K, V, W, A, B, O> = MakeAlone {
        alloc,
        op,
        lefts,
        rights,
        key: PhantomData,
        left_value: PhantomData,
        right_value: PhantomData,
    };
    let plan = plan_of(lefts.len(), rights.len());
    merge_to_pair(&mut state, &alone, plan, steps)?;
    'pairs: while let Some((x, y)) = take_pair(&mut state) {
        combine_onto(alloc, x, 0, y, 0, 1, op, &mut state.made, steps)?;
        merge_to_pair(&mut state, &alone, plan, steps)?;
    }
    Ok(state.made)
}

/// The combine of two whole trees.
pub fn combine_whole<
    K: TKey,
    V: TValue,
    W: TValue,
    A: RadixNode<K, V>,
    B: RadixNode<K, W>,
    O: Combine<K, V, W, A, B>,
    C: Count,
>(this: &A, that: &B, op: &O, steps: &mut C) -> Result<O::Made, AllocError>
    requires asks { (k : List K)
        → O.asks op.now (lookup K.cmp (A.tree this.now) k) (lookup K.cmp (B.tree that.now) k) }
    ensures made { IfOk result (λ made.
        IsCombined K.cmp (O.says op.now) (A.tree this.now) (B.tree that.now) (O.Made.tree made)) }
    ensures canonical { IfOk result (λ made. IsCanonical K.cmp (O.Made.tree made)) }
    ensures counted { C.counted steps.new
        ≤ C.counted steps.old + 3 * (weight (A.tree this.now) + weight (B.tree that.now)) }
{
    let alloc = this.allocator();
    let Opened { front, kids } = combine_below(alloc, this, 0, that, 0, 0, op, steps)?;
    let made = match end(alloc, this, 0, that, 0, front, op, kids)? {
        Some(tree) => tree,
        None => O::Made::blank(alloc, Seal::new()),
    };
    // By this call the proof learns that each tree is canonical. It does nothing else.
    canonical(&made);
    Ok(made)
}
