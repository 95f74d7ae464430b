//! The recursion of the changes in place that add no key.

ghost use Rattle.std.specs.Prelude.{◌≡◌, ◌+◌, ◌<◌, ◌≤◌, ◌++◌, ◌∷◌, true, false, List, [], Option};
ghost use Rattle.std.specs.Prelude.{Some, None, IfOk, MatchBool, cond, drop, take, length};
ghost use Rattle.std.specs.Prelude.{option_map};
ghost use Rattle.std.specs.List.{cons_option};
ghost use Rattle.std.specs.Option.{is_none, option_copied};
ghost use Rattle.std.specs.declared.cmp.Ordering.{Ordering};
ghost use Rattle.vc_tree_model.specs.Tree.{shortened};
ghost use Rattle.vc_tree_model.specs.Map.{lookup, lookup_in};
ghost use Rattle.vc_tree_model.specs.Value.{IsKept};
ghost use Rattle.vc_tree_model.specs.Look.{Look};
ghost use Rattle.vc_tree_model.specs.Canonical.{AreChildren, IsCanonical};
ghost use Rattle.vc_tree_model.specs.Child.{solid_child};
ghost use Rattle.vc_tree_nodes.specs.Children.{listed, seen};
ghost use Rattle.vc_tree_nodes.specs.Parting.{Agree};
ghost use Rattle.vc_tree_facing.specs.Facing.{shortened_in};
ghost use Rattle.vc_tree_facing.specs.Lessening.{IsLessened, IsInside, IsNodeLeft, IsLessenedIn};
ghost use Rattle.vc_tree_facing.specs.Lessening.{alone};
ghost use Rattle.vc_merge.specs.MovesDown.{MovesDown};
ghost use Rattle.vc_tree_edits.specs.Kids.{AreKids};
ghost use Rattle.vc_tree_edits.specs.Pairs.{trees_of};

use crate::pairs::{Stop, Trees, look_around, next_pair, trees_at};
use std::alloc::{AllocError, Global};
use std::mem;
use vc_merge::plan::plan_of;
use vc_tree_facing::facing::split;
use vc_tree_facing::nodes::value_at;
use vc_tree_nodes::building::{Build, Seal};
use vc_tree_nodes::children::{ChildList, Fragment, Parts};
use vc_tree_nodes::making::new_joined;
use vc_tree_nodes::reading::{RadixNode, TKey, TValue, canonical};

/// How a change that adds no key treats values, and trees that only the left side has. Values are
/// passed by value, and those that stay are returned.
pub trait Lessen<K: TKey, V: TValue, W: TValue, T: Build<K, V>>: Sized + Drop {
    /// How the right tree is read at a key.
    ghost look: { (cmp : K → K → Ordering) → Look cmp W (Option W) };

    /// The relation between the value that the left tree has, what is read from the right one, and
    /// the value that is left.
    ghost says: { Self → Option V → Option W → Option V → Type 0 };

    /// What it requires of these.
    ghost asks: { Self → Option V → Option W → Type 0 };

    /// What is left of the value at a key where the trees have these, and the change for all that
    /// is below.
    fn at_values(&self, v: Option<V>, w: Option<&W>) -> (Option<V>, Self)
        requires { asks self.now v ((look K.cmp).at (option_copied w)) }
        ensures value { says self.now v ((look K.cmp).at (option_copied w.entry)) result.0 }
        ensures below { (u : Option V) (o : Option W) (z : Option V) → says result.1 u o z
            → says self.now u ((look K.cmp).under (option_copied w.entry) o) z }
        ensures asked { (u : Option V) (o : Option W)
            → asks self.now u ((look K.cmp).under (option_copied w.entry) o) → asks result.1 u o };

    /// Whether keys stay that only the left tree has.
    fn left_stays(&self) -> bool
        ensures { MatchBool result
            ((v z : Option V) → IsKept T.keeps v z → says self.now v (look K.cmp).none z)
            ((v : Option V) → says self.now v (look K.cmp).none None) };

    ghost says_nothing: { (op : Self) (w : Option W) → says op None w None };

    ghost asks_none: { (op : Self) → asks op None (look K.cmp).none };

    ghost says_kept: { (op : Self) (u v : Option V) (w : Option W) (z : Option V)
        → IsKept T.keeps u v → says op v w z → says op u w z };

    ghost asks_kept: { (op : Self) (u v : Option V) (w : Option W) → IsKept T.keeps u v
        → asks op u w → asks op v w };
}

/// Changes the value of a node by that of the right node.
fn change_value<K: TKey, V: TValue, W: TValue, T: Build<K, V>, O: Lessen<K, V, W, T>>(
    value: Option<V>,
    that: Option<&W>,
    op: &O,
) -> (Option<V>, O)
    requires asks { O.asks op.now value ((O.look K.cmp).at (option_copied that)) }
    ensures value { O.says op.now value ((O.look K.cmp).at (option_copied that.entry)) result.0 }
    ensures below { (u : Option V) (o : Option W) (z : Option V) → O.says result.1 u o z
        → O.says op.now u ((O.look K.cmp).under (option_copied that.entry) o) z }
    ensures asked { (u : Option V) (o : Option W)
        → O.asks op.now u ((O.look K.cmp).under (option_copied that.entry) o)
        → O.asks result.1 u o }
{
    op.at_values(value, that)
}

/// Whether what only the left side has stays.
fn stays_alone<K: TKey, V: TValue, W: TValue, T: Build<K, V>, O: Lessen<K, V, W, T>>(op: &O) -> bool
    ensures { MatchBool result
        ((v z : Option V) → IsKept T.keeps v z → O.says op.now v (O.look K.cmp).none z)
        ((v : Option V) → O.says op.now v (O.look K.cmp).none None) }
{
    op.left_stays()
}

/// Moves the `n` elements from the place `at` on down after the first `kept`. Those that were
/// between end up after them.
fn move_down<T>(list: &mut [T], kept: usize, at: usize, n: usize)
    requires order { kept < at }
    requires within { at + n ≤ length list.old }
    ensures { MovesDown list.old kept at n list.new }
{
    for moved in 0..n {
        list.swap(kept + moved, at + moved);
    }
}

/// Passes the `n` trees from the place `at` on. If they stay, they are moved after the `kept` trees
/// that stay before them; nothing is moved while none was removed. Answers how many stay so far.
pub fn pass<T>(list: &mut Vec<T>, kept: usize, at: usize, n: usize, stay: bool) -> usize
    requires order { kept ≤ at }
    requires within { at + n ≤ length list.old.items }
    ensures built { take result list.new.items
        ≡ take kept list.old.items ++ cond stay (take n (drop at list.old.items)) [] }
    ensures rest { drop (at + n) list.new.items ≡ drop (at + n) list.old.items }
    ensures long { length list.new.items ≡ length list.old.items }
    ensures order { result ≤ at + n }
{
    if !stay {
        return kept;
    }
    if kept < at {
        move_down(list, kept, at, n);
    }
    kept + n
}

/// What is left of the children of a node.
#[derive(Drop)]
struct KidsLeft<C, T> {
    /// The number of children that are stored.
    many: usize,
    /// The children that are stored.
    stored: Option<C>,
    /// The only child, which is taken out where the node has no value.
    lone: Option<T>,
}

/// Makes the node of what is left, as a child.
fn remake<K: TKey, V: TValue, T: Build<K, V>>(
    alloc: Global,
    prefix: T::Prefix,
    value: Option<V>,
    kids: KidsLeft<T::Children, T>,
) -> Result<Option<T>, AllocError>
    requires kids { AreKids (is_none value) kids.lone (listed T.Children.items kids.stored)
        kids.many }
    requires canonical { AreChildren K.cmp
        (seen T.tree (cons_option kids.lone (listed T.Children.items kids.stored))) }
    ensures { IfOk result (λ made. option_map T.tree made ≡ solid_child (T.Prefix.items prefix)
        value (seen T.tree (cons_option kids.lone (listed T.Children.items kids.stored)))) }
{
    let KidsLeft { many, stored, lone } = kids;
    if let Some(kid) = lone {
        return Ok(Some(new_joined(alloc, prefix.as_slice(), kid)?));
    }
    if value.is_none() && many == 0 {
        return Ok(None);
    }
    Ok(Some(T::assemble(prefix, value, stored, Seal::new())))
}

/// Changes a tree after the first `i` components of its prefix, which stay, by another one after
/// the first `j` of its own. Answers whether a key is left. The next `known` components of both
/// prefixes are known to agree. Where no key is left, or memory is refused, the tree may be any.
#[cycle(lessening)]
pub fn lessen_at<
    K: TKey,
    V: TValue,
    W: TValue,
    B: RadixNode<K, W>,
    T: Build<K, V>,
    O: Lessen<K, V, W, T>,
>(
    alloc: Global,
    tree: &mut T,
    i: usize,
    that: &B,
    j: usize,
    known: usize,
    op: &O,
) -> Result<bool, AllocError>
    requires left { i ≤ length (T.tree tree.old).prefix }
    requires right { j ≤ length (B.tree that.now).prefix }
    requires known { Agree K.cmp (drop i (T.tree tree.old).prefix) (drop j (B.tree that.now).prefix)
        known }
    requires asks { (k : List K) → O.asks op.now (lookup K.cmp (shortened i (T.tree tree.old)) k)
        ((O.look K.cmp).of_tree (shortened j (B.tree that.now)) k) }
    ensures { IfOk result (λ stays. IsLessened K.cmp (O.look K.cmp) (O.says op.now) i
        (T.tree tree.old) (shortened j (B.tree that.now)) stays (T.tree tree.new)) }
{
    let whole = tree.prefix().len();
    let other_whole = that.prefix().len();
    let front = split(tree, i, that, j, known);
    let (place, other_place) = (i + front, j + front);
    if place < whole {
        if other_place < other_whole {
            return Ok(stays_alone::<K, V, W, T, O>(op));
        }
        return lessen_inside(alloc, tree, place, that, op);
    }
    let (right, from) = trees_at(that, other_place);
    lessen_node(alloc, tree, i, value_at(that, j, front), right, from, op)
}

/// Changes a tree in whose prefix the right one has ended, at a place.
#[cycle(lessening)]
fn lessen_inside<
    K: TKey,
    V: TValue,
    W: TValue,
    B: RadixNode<K, W>,
    T: Build<K, V>,
    O: Lessen<K, V, W, T>,
>(alloc: Global, tree: &mut T, place: usize, that: &B, op: &O) -> Result<bool, AllocError>
    requires within { place < length (T.tree tree.old).prefix }
    requires asks_value { O.asks op.now None ((O.look K.cmp).at (B.tree that.now).value) }
    requires asks_below { (x : K) (q : List K) → O.asks op.now
        (lookup_in K.cmp (alone place (T.tree tree.old)) (x ∷ q)) ((O.look K.cmp).under
        (B.tree that.now).value ((O.look K.cmp).of_forest (B.tree that.now).children (x ∷ q))) }
    ensures { IfOk result (λ stays. IsInside K.cmp (O.look K.cmp) (O.says op.now) place
        (T.tree tree.old) (B.tree that.now).value (B.tree that.now).children stays
        (T.tree tree.new)) }
{
    canonical(that);
    let (_, below) = change_value::<K, V, W, T, O>(None, that.value(), op);
    match look_around(that.children(), tree, place).found {
        Some(other) => lessen_at(alloc, tree, place, other, 0, 1, &below),
        None => Ok(stays_alone::<K, V, W, T, O>(&below)),
    }
}

/// Changes a tree whose prefix has ended, by the value of the right node and what is below it. `i`
/// serves the contract alone.
#[cycle(lessening)]
fn lessen_node<
    K: TKey,
    V: TValue,
    W: TValue,
    B: RadixNode<K, W>,
    T: Build<K, V>,
    O: Lessen<K, V, W, T>,
>(
    alloc: Global,
    tree: &mut T,
    i: usize,
    that: Option<&W>,
    right: Trees<'_, B>,
    from: usize,
    op: &O,
) -> Result<bool, AllocError>
    requires within { i ≤ length (T.tree tree.old).prefix }
    requires right { AreChildren K.cmp (shortened_in B.tree from (trees_of right)) }
    requires asks_value { O.asks op.now (T.tree tree.old).value
        ((O.look K.cmp).at (option_copied that)) }
    requires asks_below { (x : K) (q : List K) → O.asks op.now
        (lookup_in K.cmp (T.tree tree.old).children (x ∷ q)) ((O.look K.cmp).under
        (option_copied that) ((O.look K.cmp).of_forest
        (shortened_in B.tree from (trees_of right)) (x ∷ q))) }
    ensures { IfOk result (λ stays. IsNodeLeft K.cmp (O.look K.cmp) (O.says op.now) i
        (T.tree tree.old) (option_copied that.entry)
        (shortened_in B.tree from (trees_of right.entry)) stays (T.tree tree.new)) }
{
    let had = tree.children().len();
    let node = mem::replace(tree, T::blank(alloc, Seal::new()));
    let Parts {
        prefix,
        value,
        children,
    } = node.take_apart(Seal::new());
    let (value, below) = change_value::<K, V, W, T, O>(value, that, op);
    let kids = lessen_kids::<K, V, W, B, T, O>(
        alloc,
        children,
        had,
        value.is_none(),
        right,
        from,
        &below,
    )?;
    let Some(made) = remake::<K, V, T>(alloc, prefix, value, kids)? else {
        return Ok(false);
    };
    *tree = made;
    Ok(true)
}

/// What is left of the `had` children of a node, which has no value where `is_bare`. Children that
/// meet nothing stay where they are stored, or are all dropped.
#[cycle(lessening)]
fn lessen_kids<
    K: TKey,
    V: TValue,
    W: TValue,
    B: RadixNode<K, W>,
    T: Build<K, V>,
    O: Lessen<K, V, W, T>,
>(
    alloc: Global,
    children: Option<T::Children>,
    had: usize,
    is_bare: bool,
    right: Trees<'_, B>,
    from: usize,
    op: &O,
) -> Result<KidsLeft<T::Children, T>, AllocError>
    requires had { had ≡ length (listed T.Children.items children) }
    requires left { AreChildren K.cmp (seen T.tree (listed T.Children.items children)) }
    requires right { AreChildren K.cmp (shortened_in B.tree from (trees_of right)) }
    requires asks { (x : K) (q : List K) → O.asks op.now
        (lookup_in K.cmp (seen T.tree (listed T.Children.items children)) (x ∷ q))
        ((O.look K.cmp).of_forest (shortened_in B.tree from (trees_of right)) (x ∷ q)) }
    ensures kids { IfOk result
        (λ kids. AreKids is_bare kids.lone (listed T.Children.items kids.stored) kids.many) }
    ensures children { IfOk result (λ kids. AreChildren K.cmp
        (seen T.tree (cons_option kids.lone (listed T.Children.items kids.stored)))) }
    ensures below { IfOk result (λ kids. IsLessenedIn K.cmp (O.look K.cmp) (O.says op.now)
        (seen T.tree (listed T.Children.items children))
        (shortened_in B.tree from (trees_of right.entry))
        (seen T.tree (cons_option kids.lone (listed T.Children.items kids.stored)))) }
{
    let Some(mut children) = children else {
        return Ok(KidsLeft {
            many: 0,
            stored: None,
            lone: None,
        });
    };
    if right.len() == 0 && !(is_bare && had == 1) {
        let stays = stays_alone::<K, V, W, T, O>(op);
        return Ok(KidsLeft {
            many: if stays { had } else { 0 },
            stored: if stays { Some(children) } else { None },
            lone: None,
        });
    }
    let (many, lone) = lessen_in::<K, V, W, B, T, O>(
        alloc,
        &mut children,
        is_bare,
        right,
        from,
        op,
    )?;
    Ok(KidsLeft {
        many,
        stored: Some(children),
        lone,
    })
}

/// What is left of children that are stored: the number that stay there, and an only child, which
/// is taken out where the node has no value.
#[cycle(lessening)]
fn lessen_in<
    K: TKey,
    V: TValue,
    W: TValue,
    B: RadixNode<K, W>,
    T: Build<K, V>,
    O: Lessen<K, V, W, T>,
>(
    alloc: Global,
    children: &mut T::Children,
    is_bare: bool,
    right: Trees<'_, B>,
    from: usize,
    op: &O,
) -> Result<(usize, Option<T>), AllocError>
    requires left { AreChildren K.cmp (seen T.tree (T.Children.items children.old)) }
    requires right { AreChildren K.cmp (shortened_in B.tree from (trees_of right)) }
    requires asks { (x : K) (q : List K) → O.asks op.now
        (lookup_in K.cmp (seen T.tree (T.Children.items children.old)) (x ∷ q))
        ((O.look K.cmp).of_forest (shortened_in B.tree from (trees_of right)) (x ∷ q)) }
    ensures kids { IfOk result
        (λ left. AreKids is_bare left.1 (T.Children.items children.new) left.0) }
    ensures children { IfOk result (λ left.
        AreChildren K.cmp (seen T.tree (cons_option left.1 (T.Children.items children.new)))) }
    ensures below { IfOk result (λ left. IsLessenedIn K.cmp (O.look K.cmp) (O.says op.now)
        (seen T.tree (T.Children.items children.old))
        (shortened_in B.tree from (trees_of right.entry))
        (seen T.tree (cons_option left.1 (T.Children.items children.new)))) }
{
    let list = children.make_mut()?;
    let kept = lessen_list(alloc, list, right, from, op)?;
    list.truncate(kept);
    if is_bare && kept == 1 {
        return Ok((0, list.pop()));
    }
    Ok((kept, None))
}

/// Changes the trees of a list in place, moves those that stay to the front, and answers how many
/// they are.
#[cycle(lessening)]
fn lessen_list<
    K: TKey,
    V: TValue,
    W: TValue,
    B: RadixNode<K, W>,
    T: Build<K, V>,
    O: Lessen<K, V, W, T>,
>(
    alloc: Global,
    list: &mut Vec<T>,
    right: Trees<'_, B>,
    from: usize,
    op: &O,
) -> Result<usize, AllocError>
    requires left { AreChildren K.cmp (seen T.tree list.old.items) }
    requires right { AreChildren K.cmp (shortened_in B.tree from (trees_of right)) }
    requires asks { (x : K) (q : List K) → O.asks op.now
        (lookup_in K.cmp (seen T.tree list.old.items) (x ∷ q))
        ((O.look K.cmp).of_forest (shortened_in B.tree from (trees_of right)) (x ∷ q)) }
    ensures within { IfOk result (λ kept. kept ≤ length list.new.items) }
    ensures children { IfOk result
        (λ kept. AreChildren K.cmp (seen T.tree (take kept list.new.items))) }
    ensures below { IfOk result (λ kept. IsLessenedIn K.cmp (O.look K.cmp) (O.says op.now)
        (seen T.tree list.old.items)
        (shortened_in B.tree from (trees_of right.entry))
        (seen T.tree (take kept list.new.items))) }
{
    let stay = stays_alone::<K, V, W, T, O>(op);
    let plan = plan_of(list.len(), right.len());
    let mut rights = right;
    let mut kept = 0;
    let mut at = 0;
    'pairs: loop {
        let Stop {
            passed,
            other,
            others,
        } = next_pair(list, at, rights, from, plan);
        kept = pass(list, kept, at, passed, stay);
        at += passed;
        let Some(other) = other else {
            return Ok(kept);
        };
        let stays = lessen_at(alloc, &mut list[at], 0, other, from, 1, op)?;
        kept = pass(list, kept, at, 1, stays);
        at += 1;
        rights = others;
    }
}
