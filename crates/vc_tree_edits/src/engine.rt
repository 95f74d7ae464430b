//! The recursion of the changes of a tree in place into which copies of trees of another one come.

ghost use Rattle.std.specs.Prelude.{◌≡◌, ◌+◌, ◌<◌, ◌≤◌, ◌∷◌, List, [], Option, None, IfOk, IfSome};
ghost use Rattle.std.specs.Prelude.{Some, cond, drop, length, get_or, option_map};
ghost use Rattle.std.proofs.Common.{inl, inr};
ghost use Rattle.std.specs.Option.{option_copied};
ghost use Rattle.std.specs.declared.cmp.Ordering.{Ordering};
ghost use Rattle.std.specs.declared.cmp.Ordering.TheVariants.{Equal};
ghost use Rattle.vc_tree_model.specs.Tree.{shortened};
ghost use Rattle.vc_tree_model.specs.Map.{lookup};
ghost use Rattle.vc_tree_model.specs.Value.{IsKept};
ghost use Rattle.vc_tree_model.specs.Same.{IsAlikeIn};
ghost use Rattle.vc_tree_model.specs.Look.{Look};
ghost use Rattle.vc_tree_model.specs.Canonical.{AreChildren, IsCanonical};
ghost use Rattle.vc_tree_model.specs.Child.{solid_child, value_at as node_value};
ghost use Rattle.vc_tree_nodes.specs.Children.{listed, seen};
ghost use Rattle.vc_tree_nodes.specs.Parting.{Agree};
ghost use Rattle.vc_tree_facing.specs.Doing.{IsSaidIn, IsSaidOf};
ghost use Rattle.vc_tree_facing.specs.Facing.{shortened_in};
ghost use Rattle.vc_tree_facing.specs.Made.{IsMade, IsMadeOf, IsBothMadeBy};
ghost use Rattle.vc_tree_facing.specs.Sides.{by_component};
ghost use Rattle.vc_tree_edits.specs.Kids.{IsSetAt};
ghost use Rattle.vc_tree_edits.specs.Pairs.{trees_of};
ghost use Rattle.vc_tree_edits.specs.Taken.{lefts_of, from_of, LeftStands, RightStands, AreApart};
ghost use Rattle.vc_tree_edits.specs.Taken.{IsMet, IsTaken, IsBegun, IsCombinedBelow};
ghost use Rattle.vc_tree_edits.specs.Woven.{ComesAs};

use crate::comers::{come, next_noted, weave};
use crate::lessening::pass;
use crate::pairs::{Around, Stop, Trees, look_around, trees_at};
use std::alloc::{AllocError, Global};
use std::cmp::Ordering;
use std::mem;
use vc_merge::plan::plan_of;
use vc_merge::states::Uncounted;
use vc_tree_facing::facing::{compare_at, expected, split};
use vc_tree_facing::nodes::{finish, keep, value_at};
use vc_tree_nodes::building::{Build, Seal};
use vc_tree_nodes::children::{ChildList, Fragment, Parts};
use vc_tree_nodes::making::children_of;
use vc_tree_nodes::reading::{RadixNode, TKey, TValue};

/// What a change makes of values, and of trees that one side alone has. Values of the left tree are
/// handed over, and those that stay are handed back.
pub trait Change<K: TKey, V: TValue, W: TValue, B: RadixNode<K, W>, T: Build<K, V>>: Sized + Drop {
    /// How the right tree is read at a key.
    ghost look: { (cmp : K → K → Ordering) → Look cmp W (Option W) };

    /// What the change says of the values that the left tree has, of what is read of the right one,
    /// and of the value that is left.
    ghost says: { Self → Option V → Option W → Option V → Type 0 };

    /// What it needs in order to be asked there.
    ghost asks: { Self → Option V → Option W → Type 0 };

    /// The value of a key to which the trees bind these, and the change of all that is below.
    fn at_values(&self, v: Option<V>, w: Option<&W>) -> Result<(Option<V>, Self), AllocError>
        requires { asks self.now v ((look K.cmp).at (option_copied w)) }
        ensures value { IfOk result
            (λ r. says self.now v ((look K.cmp).at (option_copied w.entry)) r.0) }
        ensures below { IfOk result (λ r. (u : Option V) (o : Option W) (z : Option V)
            → says r.1 u o z → says self.now u ((look K.cmp).under (option_copied w.entry) o) z) }
        ensures asked { IfOk result (λ r. (u : Option V) (o : Option W)
            → asks self.now u ((look K.cmp).under (option_copied w.entry) o) → asks r.1 u o) };

    /// What is left of a tree that the left side alone has, without the first `from` components of
    /// its prefix.
    fn left_alone(&self, alloc: Global, tree: T, from: usize) -> Result<T, AllocError>
        requires within { from < length (T.tree tree).prefix }
        ensures { IfOk result (λ made. IsMade K.cmp (λ v z. says self.now v (look K.cmp).none z)
            (shortened from (T.tree tree)) (Some (T.tree made))) };

    /// What comes of a tree that the right side alone has, without the first `from` components of
    /// its prefix.
    fn right_alone(&self, alloc: Global, tree: &B, from: usize) -> Result<T, AllocError>
        requires within { from < length (B.tree tree.now).prefix }
        ensures { IfOk result (λ made. ComesAs K.cmp (look K.cmp) (says self.now) T.tree B.tree from
            tree.now made) };

    /// A key that neither tree binds is not bound afterwards.
    ghost says_none: { (op : Self) → says op None (look K.cmp).none None };

    /// A value stays, or its kept clone does, where the right tree has nothing.
    ghost says_left: { (op : Self) (v z : Option V) → IsKept T.keeps v z
        → says op v (look K.cmp).none z };

    /// It needs nothing where neither tree binds a key.
    ghost asks_none: { (op : Self) → asks op None (look K.cmp).none };

    /// What it says of a kept clone of a value, it says of the value, too.
    ghost says_kept: { (op : Self) (u v : Option V) (w : Option W) (z : Option V)
        → IsKept T.keeps u v → says op v w z → says op u w z };

    /// What it needs of a value holds of its kept clone, too.
    ghost asks_kept: { (op : Self) (u v : Option V) (w : Option W) → IsKept T.keeps u v
        → asks op u w → asks op v w };
}

/// What the right tree has below the place where two prefixes diverge.
#[derive(Drop)]
struct Meeting<'b, B> {
    /// For how many components the prefixes agree.
    front: usize,
    /// What the right tree has below them.
    right: Trees<'b, B>,
    /// How many components of it are left out.
    right_from: usize,
}

/// Lays two trees side by side, each without the front of its prefix.
fn meet<'b, K: TKey, V: TValue, W: TValue, T: RadixNode<K, V>, B: RadixNode<K, W>>(
    tree: &T,
    i: usize,
    that: &'b B,
    j: usize,
    known: usize,
) -> Meeting<'b, B>
    requires left { i ≤ length (T.tree tree.now).prefix }
    requires right { j ≤ length (B.tree that.now).prefix }
    requires known { Agree K.cmp (drop i (T.tree tree.now).prefix) (drop j (B.tree that.now).prefix)
        known }
    ensures met { let t = shortened i (T.tree tree.now) in let u = shortened j (B.tree that.now) in
        IsMet K.cmp B.tree t u result.front (trees_of result.right) result.right_from }
    ensures stands { RightStands B.tree that.now (j + result.front) result.right
        result.right_from }
    ensures left_canonical { IsCanonical K.cmp (T.tree tree.now) }
    ensures right_canonical { IsCanonical K.cmp (B.tree that.now) }
{
    let front = split(tree, i, that, j, known);
    // The length of a slice fits in a `usize`, and so does the sum.
    that.prefix();
    let (right, right_from) = trees_at(that, j + front);
    Meeting {
        front,
        right,
        right_from,
    }
}

/// What is below a place of the prefix of a tree.
#[derive(Drop)]
pub(crate) enum Below<T> {
    /// The tree itself, which continues after so many components.
    Alone(T, usize),
    /// Its children.
    Children(Vec<T>),
}

/// What is left of a tree without the front of its prefix, taken apart at a place of that prefix.
#[derive(Drop)]
pub(crate) struct Taken<P, V, T> {
    /// The components up to that place.
    pub(crate) prefix: P,
    /// The value of the key that ends there.
    pub(crate) value: Option<V>,
    /// What is below that place.
    pub(crate) left: Below<T>,
}

/// Takes a tree apart after the first `i` components of its prefix and `front` more.
pub(crate) fn take_apart<K: TKey, V: TValue, T: Build<K, V>>(
    alloc: Global,
    tree: T,
    i: usize,
    front: usize,
) -> Result<Taken<T::Prefix, V, T>, AllocError>
    requires within { i ≤ length (T.tree tree).prefix }
    requires front { front ≤ length (drop i (T.tree tree).prefix) }
    ensures taken { IfOk result (λ o. IsTaken T.tree T.keeps (shortened i (T.tree tree)) front
        (T.Prefix.items o.prefix) o.value (lefts_of o.left) (from_of o.left)) }
    ensures stands { IfOk result (λ o. LeftStands T.tree tree (i + front) o.left) }
{
    let whole = tree.prefix();
    if i + front < whole.len() {
        return Ok(Taken {
            prefix: T::Prefix::from_slice(alloc, &whole[i..i + front])?,
            value: None,
            left: Below::Alone(tree, i + front),
        });
    }
    let Parts {
        prefix,
        value,
        children,
    } = tree.take_apart(Seal::new());
    let prefix = without_front::<K, T::Prefix>(alloc, prefix, i)?;
    let list = take_list::<K, V, T>(alloc, children)?;
    Ok(Taken {
        prefix,
        value,
        left: Below::Children(list),
    })
}

/// The components after the first `i`. Asks for memory where `i` is above 0 and more than 16 are
/// left.
fn without_front<K, P: Fragment<K>>(alloc: Global, prefix: P, i: usize) -> Result<P, AllocError>
    requires { i ≤ length (P.items prefix) }
    ensures { IfOk result (λ left. P.items left ≡ drop i (P.items prefix)) }
{
    if i == 0 {
        return Ok(prefix);
    }
    P::from_slice(alloc, &prefix.as_slice()[i..])
}

/// The children, taken out of where they are stored. Shared ones are copied.
fn take_list<K: TKey, V: TValue, T: Build<K, V>>(
    alloc: Global,
    children: Option<T::Children>,
) -> Result<Vec<T>, AllocError>
    ensures { IfOk result (λ list. IsAlikeIn T.keeps
        (seen T.tree (listed T.Children.items children)) (seen T.tree list.items)) }
{
    let Some(mut children) = children else {
        return Ok(Vec::new(alloc));
    };
    let list = children.make_mut()?;
    Ok(mem::replace(list, Vec::new(alloc)))
}

/// What the change makes of the value of a node that was taken apart, and of the value that the
/// right node has after an equal front.
fn change_values<
    K: TKey,
    V: TValue,
    W: TValue,
    B: RadixNode<K, W>,
    T: Build<K, V>,
    O: Change<K, V, W, B, T>,
>(value: Option<V>, that: &B, j: usize, front: usize, op: &O) -> Result<(Option<V>, O), AllocError>
    requires right { j ≤ length (B.tree that.now).prefix }
    requires front { front ≤ length (drop j (B.tree that.now).prefix) }
    requires asks { O.asks op.now value ((O.look K.cmp).at
        (node_value (shortened j (B.tree that.now))
        (drop front (drop j (B.tree that.now).prefix)))) }
    ensures value { let w = node_value (shortened j (B.tree that.now))
        (drop front (drop j (B.tree that.now).prefix)) in
        IfOk result (λ r. O.says op.now value ((O.look K.cmp).at w) r.0) }
    ensures below { let w = node_value (shortened j (B.tree that.now))
        (drop front (drop j (B.tree that.now).prefix)) in
        IfOk result (λ r. (u : Option V) (o : Option W) (z : Option V) → O.says r.1 u o z
        → O.says op.now u ((O.look K.cmp).under w o) z) }
    ensures asked { let w = node_value (shortened j (B.tree that.now))
        (drop front (drop j (B.tree that.now).prefix)) in
        IfOk result (λ r. (u : Option V) (o : Option W) → O.asks op.now u ((O.look K.cmp).under w o)
        → O.asks r.1 u o) }
{
    op.at_values(value, value_at(that, j, front))
}

/// The state of a change, before anything below is changed.
#[derive(Drop)]
struct Begun<'b, P, V, B, O, T> {
    /// The components up to the place where the prefixes diverge.
    prefix: P,
    /// What is left of the value there.
    value: Option<V>,
    /// The change of all that is below.
    below: O,
    /// What the left tree has below.
    left: Below<T>,
    /// What the right tree has below.
    right: Trees<'b, B>,
    /// How many components of their prefixes come before the place.
    right_from: usize,
}

/// Takes a tree apart beside another one, and changes the value at the place where their prefixes
/// diverge.
fn begin<
    'b,
    K: TKey,
    V: TValue,
    W: TValue,
    B: RadixNode<K, W>,
    T: Build<K, V>,
    O: Change<K, V, W, B, T>,
>(
    alloc: Global,
    tree: T,
    i: usize,
    that: &'b B,
    j: usize,
    known: usize,
    op: &O,
) -> Result<Begun<'b, T::Prefix, V, B, O, T>, AllocError>
    requires left { i ≤ length (T.tree tree).prefix }
    requires right { j ≤ length (B.tree that.now).prefix }
    requires known { Agree K.cmp (drop i (T.tree tree).prefix) (drop j (B.tree that.now).prefix)
        known }
    requires asks { (k : List K) → O.asks op.now (lookup K.cmp (shortened i (T.tree tree)) k)
        ((O.look K.cmp).of_tree (shortened j (B.tree that.now)) k) }
    ensures { IfOk result (λ s. IsBegun K.cmp T.tree B.tree (O.look K.cmp) T.keeps
        (O.says op.now) (O.says s.below) (O.asks s.below) (shortened i (T.tree tree))
        (shortened j (B.tree that.now)) (T.Prefix.items s.prefix) s.value s.left s.right
        s.right_from) }
{
    let Meeting {
        front,
        right,
        right_from,
    } = meet(&tree, i, that, j, known);
    let Taken {
        prefix,
        value,
        left,
    } = take_apart(alloc, tree, i, front)?;
    let (value, below) = change_values(value, that, j, front, op)?;
    Ok(Begun {
        prefix,
        value,
        below,
        left,
        right,
        right_from,
    })
}

/// Puts what was made of the tree at a place back there, and answers whether it stays.
pub(crate) fn put_back<T: Drop>(list: &mut Vec<T>, at: usize, made: Option<T>) -> bool
    requires { at < length list.old.items }
    ensures { (x : T) × IsSetAt list.old.items at x list.new.items
        × (made ≡ cond result (Some x) None) }
{
    match made {
        Some(tree) => {
            list[at] = tree;
            true
        }
        None => false,
    }
}

/// Takes the tree at a place out of a list, and leaves the empty one there.
pub(crate) fn take_at<K: TKey, V: TValue, T: Build<K, V>>(
    alloc: Global,
    list: &mut Vec<T>,
    at: usize,
) -> T
    requires { at < length list.old.items }
    ensures tree { result ≡ get_or list.old.items at result }
    ensures left { (x : T) × IsSetAt list.old.items at x list.new.items }
{
    mem::replace(&mut list[at], T::blank(alloc, Seal::new()))
}

/// What is left of a tree that continues after a place, which the left side alone has.
fn leave<
    K: TKey,
    V: TValue,
    W: TValue,
    B: RadixNode<K, W>,
    T: Build<K, V>,
    O: Change<K, V, W, B, T>,
>(alloc: Global, tree: T, from: usize, op: &O) -> Result<T, AllocError>
    requires { from < length (T.tree tree).prefix }
    ensures { IfOk result (λ made. IsMade K.cmp (λ v z. O.says op.now v (O.look K.cmp).none z)
        (shortened from (T.tree tree)) (Some (T.tree made))) }
{
    op.left_alone(alloc, tree, from)
}

/// A list of two trees.
pub(crate) fn two<T: Drop>(alloc: Global, first: T, second: T) -> Result<Vec<T>, AllocError>
    ensures { IfOk result (λ list. list.items ≡ first ∷ second ∷ []) }
{
    let mut list = Vec::with_capacity(alloc, 2)?;
    list.push(first)?;
    list.push(second)?;
    Ok(list)
}

/// Two trees of which neither begins as the other one, in order.
fn keep_both<
    K: TKey,
    V: TValue,
    W: TValue,
    B: RadixNode<K, W>,
    T: Build<K, V>,
    O: Change<K, V, W, B, T>,
>(
    alloc: Global,
    tree: T,
    from: usize,
    that: &B,
    right_from: usize,
    op: &O,
) -> Result<Vec<T>, AllocError>
    requires left { AreChildren K.cmp (shortened_in T.tree from (tree ∷ [])) }
    requires right { AreChildren K.cmp (shortened_in B.tree right_from (that.now ∷ [])) }
    requires asks { IsSaidIn K.cmp T.tree B.tree from right_from (O.look K.cmp) (O.asks op.now)
        (tree ∷ []) (that.now ∷ []) }
    requires apart { by_component T.tree B.tree from right_from K.cmp (inl tree) (inr that.now)
        ≡ Equal → ⊥ }
    ensures { IfOk result (λ kids. IsCombinedBelow K.cmp (O.look K.cmp) (O.says op.now)
        (shortened_in T.tree from (tree ∷ [])) (shortened_in B.tree right_from (that.now ∷ []))
        (seen T.tree kids.items)) }
{
    let order = compare_at(that, right_from, &tree, from, &mut Uncounted);
    let comer = op.right_alone(alloc, that, right_from)?;
    let left = op.left_alone(alloc, tree, from)?;
    match order {
        Ordering::Less => two(alloc, comer, left),
        _ => two(alloc, left, comer),
    }
}

/// The node of these parts as a child, once no event is left. A prefix that stays is moved.
pub(crate) fn finish_in<K: TKey, V: TValue, T: Build<K, V>>(
    alloc: Global,
    prefix: T::Prefix,
    value: Option<V>,
    kids: Vec<T>,
) -> Result<Option<T>, AllocError>
    requires { AreChildren K.cmp (seen T.tree kids.items) }
    ensures { IfOk result (λ made. option_map T.tree made
        ≡ solid_child (T.Prefix.items prefix) value (seen T.tree kids.items)) }
{
    if value.is_none() && kids.len() < 2 {
        return finish(alloc, prefix.as_slice(), value, kids);
    }
    let children = children_of::<K, V, T>(kids)?;
    Ok(Some(T::assemble(prefix, value, children, Seal::new())))
}

/// Changes a tree without the first `i` components of its prefix, by another one without the first
/// `j` of its own: `None` where no key is left. The first `known` components that are left of
/// either prefix are known to agree.
#[cycle(changing)]
pub fn change_at<
    K: TKey,
    V: TValue,
    W: TValue,
    B: RadixNode<K, W>,
    T: Build<K, V>,
    O: Change<K, V, W, B, T>,
>(
    alloc: Global,
    tree: T,
    i: usize,
    that: &B,
    j: usize,
    known: usize,
    op: &O,
) -> Result<Option<T>, AllocError>
    requires left { i ≤ length (T.tree tree).prefix }
    requires right { j ≤ length (B.tree that.now).prefix }
    requires known { Agree K.cmp (drop i (T.tree tree).prefix) (drop j (B.tree that.now).prefix)
        known }
    requires asks { (k : List K) → O.asks op.now (lookup K.cmp (shortened i (T.tree tree)) k)
        ((O.look K.cmp).of_tree (shortened j (B.tree that.now)) k) }
    ensures { IfOk result (λ made. IsBothMadeBy K.cmp (O.look K.cmp) (O.says op.now)
        (shortened i (T.tree tree)) (shortened j (B.tree that.now)) (option_map T.tree made)) }
{
    let Begun {
        prefix,
        value,
        below,
        left,
        right,
        right_from,
    } = begin(alloc, tree, i, that, j, known, op)?;
    let kids = change_below(alloc, left, right, right_from, &below)?;
    let made = finish_in::<K, V, T>(alloc, prefix, value, kids)?;
    Ok(made)
}

/// Changes what is below the place where two prefixes diverge, by what the right tree has below it.
#[cycle(changing)]
fn change_below<
    K: TKey,
    V: TValue,
    W: TValue,
    B: RadixNode<K, W>,
    T: Build<K, V>,
    O: Change<K, V, W, B, T>,
>(
    alloc: Global,
    left: Below<T>,
    right: Trees<'_, B>,
    right_from: usize,
    op: &O,
) -> Result<Vec<T>, AllocError>
    requires left { AreChildren K.cmp (shortened_in T.tree (from_of left) (lefts_of left)) }
    requires right { AreChildren K.cmp (shortened_in B.tree right_from (trees_of right)) }
    requires asks { IsSaidIn K.cmp T.tree B.tree (from_of left) right_from (O.look K.cmp)
        (O.asks op.now) (lefts_of left) (trees_of right) }
    requires apart { AreApart K.cmp T.tree B.tree left right right_from }
    ensures { IfOk result (λ kids. IsCombinedBelow K.cmp (O.look K.cmp) (O.says op.now)
        (shortened_in T.tree (from_of left) (lefts_of left))
        (shortened_in B.tree right_from (trees_of right.entry)) (seen T.tree kids.items)) }
{
    match left {
        Below::Alone(tree, from) => match right {
            Trees::One(that) => {
                keep_both::<K, V, W, B, T, O>(alloc, tree, from, that, right_from, op)
            }
            Trees::Many(others) => change_one(alloc, tree, from, others, op),
        },
        Below::Children(list) => change_list(alloc, list, right, right_from, op),
    }
}

/// Changes a tree that continues after a place by the children of the right node. All but the one
/// that begins as it continues come in.
#[cycle(changing)]
fn change_one<
    K: TKey,
    V: TValue,
    W: TValue,
    B: RadixNode<K, W>,
    T: Build<K, V>,
    O: Change<K, V, W, B, T>,
>(alloc: Global, tree: T, from: usize, others: &[B], op: &O) -> Result<Vec<T>, AllocError>
    requires left { AreChildren K.cmp (shortened_in T.tree from (tree ∷ [])) }
    requires right { AreChildren K.cmp (seen B.tree others.now) }
    requires asks { IsSaidIn K.cmp T.tree B.tree from 0 (O.look K.cmp) (O.asks op.now) (tree ∷ [])
        others.now }
    ensures { IfOk result (λ kids. IsCombinedBelow K.cmp (O.look K.cmp) (O.says op.now)
        (shortened_in T.tree from (tree ∷ [])) (seen B.tree others.now)
        (seen T.tree kids.items)) }
{
    let Around {
        before,
        found,
        after,
    } = look_around(others, &tree, from);
    let mut kids = Vec::with_capacity(alloc, expected(1, others.len()))?;
    come::<K, V, W, B, T, O>(alloc, before, 0, op, &mut kids)?;
    let kid = change_beside(alloc, tree, from, found, op)?;
    keep(&mut kids, kid)?;
    come::<K, V, W, B, T, O>(alloc, after, 0, op, &mut kids)?;
    Ok(kids)
}

/// Changes a tree that continues after a place by the one that begins so, if there is one.
#[cycle(changing)]
fn change_beside<
    K: TKey,
    V: TValue,
    W: TValue,
    B: RadixNode<K, W>,
    T: Build<K, V>,
    O: Change<K, V, W, B, T>,
>(alloc: Global, tree: T, from: usize, that: Option<&B>, op: &O) -> Result<Option<T>, AllocError>
    requires within { from < length (T.tree tree).prefix }
    requires known { IfSome that
        (λ y. Agree K.cmp (drop from (T.tree tree).prefix) (B.tree y.now).prefix 1) }
    requires asks { IsSaidOf K.cmp T.tree B.tree from 0 (O.look K.cmp) (O.asks op.now) (Some tree)
        (option_copied that) }
    ensures { IfOk result (λ made. IsMadeOf K.cmp (O.look K.cmp) (O.says op.now)
        (Some (shortened from (T.tree tree)))
        (option_map (λ y. shortened 0 (B.tree y)) (option_copied that.entry))
        (option_map T.tree made)) }
{
    match that {
        Some(that) => change_at(alloc, tree, from, that, 0, 1, op),
        None => Ok(Some(leave::<K, V, W, B, T, O>(alloc, tree, from, op)?)),
    }
}

/// Changes the trees of a list where they are, pair by pair. Once all are changed, it puts the
/// right trees that come in between them.
#[cycle(changing)]
fn change_list<
    K: TKey,
    V: TValue,
    W: TValue,
    B: RadixNode<K, W>,
    T: Build<K, V>,
    O: Change<K, V, W, B, T>,
>(
    alloc: Global,
    mut list: Vec<T>,
    right: Trees<'_, B>,
    right_from: usize,
    op: &O,
) -> Result<Vec<T>, AllocError>
    requires left { AreChildren K.cmp (seen T.tree list.items) }
    requires right { AreChildren K.cmp (shortened_in B.tree right_from (trees_of right)) }
    requires asks { IsSaidIn K.cmp T.tree B.tree 0 right_from (O.look K.cmp) (O.asks op.now)
        list.items (trees_of right) }
    ensures { IfOk result (λ kids. IsCombinedBelow K.cmp (O.look K.cmp) (O.says op.now)
        (seen T.tree list.items) (shortened_in B.tree right_from (trees_of right.entry))
        (seen T.tree kids.items)) }
{
    let plan = plan_of(list.len(), right.len());
    let mut rights = right;
    let mut comers = Vec::new(alloc);
    let mut kept = 0;
    let mut at = 0;
    'pairs: loop {
        let Stop {
            passed,
            other,
            others,
        } = next_noted::<K, V, W, B, T, O>(
            alloc,
            &list,
            kept,
            at,
            rights,
            right_from,
            plan,
            op,
            &mut comers,
        )?;
        kept = pass(&mut list, kept, at, passed, true);
        at += passed;
        let Some(other) = other else {
            list.truncate(kept);
            return weave(list, comers);
        };
        let tree = take_at::<K, V, T>(alloc, &mut list, at);
        let made = change_at(alloc, tree, 0, other, right_from, 1, op)?;
        let stays = put_back(&mut list, at, made);
        kept = pass(&mut list, kept, at, 1, stays);
        at += 1;
        rights = others;
    }
}
