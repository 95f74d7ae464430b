//! Walks, as a user writes them: several walks of one tree, their steps, and the keys that they
//! give.
ghost use Rattle.std.specs.Prelude.{◌≡◌, ◌≤◌, ◌⊎◌, ◌+◌, ◌-◌, ◌^◌, ℕ, List, None, IfErr, IfOk};
ghost use Rattle.std.specs.Prelude.{Contains, IsSome, IsTrue, MatchOption, length, map, max, min};
ghost use Rattle.std.specs.List.{fold};
ghost use Rattle.std.specs.Map.Iter.{TakesFirst};
ghost use Rattle.std.specs.Ordering.{nat_cmp};
ghost use Rattle.vec_collections.specs.Bounds.{below, not_below};
ghost use Rattle.vec_collections.specs.Ends.{IsGreatestPair, IsLeastPair};
ghost use Rattle.vec_collections.specs.IterLeft.{pairs_left, work_left};
ghost use Rattle.vec_collections.specs.Left.{Walks};
ghost use Rattle.vec_collections.specs.Map.{lookup};
ghost use Rattle.vec_collections.specs.OwnedLeft.{held_left, held_work, WalksClones};
ghost use Rattle.vec_collections.specs.Prefixes.{bound_prefixes};
ghost use Rattle.vec_collections.specs.PrefixLaws.{ListsEqualMap};
ghost use Rattle.vec_collections.specs.PrefixesLeft.{prefixes_left};
ghost use Rattle.vec_collections.specs.RangeLeft.{range_left, range_work};
ghost use Rattle.vec_collections.specs.Under.{under};
ghost use Rattle.vec_collections.specs.ValuesLeft.{values_left, values_work};
ghost use Rattle.vec_collections.specs.Walk.{IsWalk, walk};
ghost use Rattle.vec_collections_tests.specs.declared.walks.Uncounted.TheVariants.{NoMemory, Port};

use crate::trees::Ports;
use std::alloc::AllocError;
use vec_collections::laws::{ByItself, walk_is_filtered};
use vec_collections::radix_tree::{
    AbstractRadixTree, AbstractRadixTreeMut, Iter, IterKey, ObjAndIter, Prefixes, Range, TKey,
    TValue, Values,
};

/// The pairs of a tree by ascending keys, and its values, which are those of the pairs in their
/// order.
pub fn pairs_and_values<'a, K: TKey, V: TValue + 'a, T: AbstractRadixTree<K, V>>(
    tree: &'a T,
) -> (Iter<'a, K, V, T>, Values<'a, K, V, T>)
    ensures ascending { IsWalk K.cmp (lookup K.cmp (T.tree tree.now)) (pairs_left T.tree result.0) }
    ensures values { values_left T.tree result.1 ≡ map (λ b. b.1) (pairs_left T.tree result.0) }
{
    (tree.iter(), tree.values())
}

/// The pairs of a tree whose keys begin with a prefix, here called a folder.
pub fn pairs_below<'a, K: TKey, V: TValue + 'a, T: AbstractRadixTree<K, V>>(
    tree: &'a T,
    folder: &'a [K],
) -> Iter<'a, K, V, T>
    ensures { IsWalk K.cmp (under K.cmp (lookup K.cmp (T.tree tree.now)) folder.now)
        (pairs_left T.tree result) }
{
    tree.scan_prefix(folder)
}

/// The ports of the names that begin with a prefix: as a tree of their own, and as a walk over all
/// ports. Both have the same pairs.
pub fn filtered_and_walked<'a>(
    ports: &'a Ports,
    prefix: &'a [u8],
) -> Result<(Ports, Iter<'a, u8, u32, Ports>), AllocError>
    ensures { IfOk result (λ both. ListsEqualMap ℕ ℕ nat_cmp (λ v w. v ≡ w)
        (pairs_left (λ t. t) both.1) (lookup nat_cmp both.0)) }
{
    walk_is_filtered::<u8, u32, ByItself>();
    let made = ports.filter_prefix(prefix)?;
    Ok((made, ports.scan_prefix(prefix)))
}

/// The names from one on, up to another one, each with its port.
pub fn names_between<'a, T: AbstractRadixTree<u8, u32>>(
    ports: &'a T,
    first: &[u8],
    end: &'a [u8],
) -> Result<Range<'a, u8, u32, T>, AllocError>
    ensures { let port_of = not_below nat_cmp (lookup nat_cmp (T.tree ports.now)) first.now in
        IfOk result (λ walk. IsWalk nat_cmp (below nat_cmp port_of end.now)
        (range_left nat_cmp T.tree walk)) }
{
    ports.range(first, end)
}

/// The next of them.
pub fn next_between<'a, T: AbstractRadixTree<u8, u32>>(
    walk: &mut Range<'a, u8, u32, T>,
) -> Option<Result<(IterKey<u8>, &'a u32), AllocError>>
    ensures { Walks (λ item. (item.0, item.1.now)) (range_left nat_cmp T.tree)
        (range_work T.tree) walk.old result walk.new }
{
    walk.next()
}

/// The settings of each folder that a path lies in, the outermost first.
pub fn settings_above<'a, K: TKey, V: TValue + 'a, T: AbstractRadixTree<K, V>>(
    folders: &'a T,
    path: &'a [K],
) -> Prefixes<'a, K, V, T>
    ensures { prefixes_left K.cmp T.tree result
        ≡ bound_prefixes (lookup K.cmp (T.tree folders.now)) path.now }
{
    folders.prefixes_of(path)
}

/// The next of them.
pub fn next_above<'a, T: AbstractRadixTree<u8, u32>>(
    walk: &mut Prefixes<'a, u8, u32, T>,
) -> Option<(usize, &'a u32)>
    ensures { TakesFirst (λ item. (item.0, item.1.now)) (prefixes_left nat_cmp T.tree walk.old)
        result (prefixes_left nat_cmp T.tree walk.new) }
{
    walk.next()
}

/// The pairs of a tree that the walk owns, each with a clone of its value.
pub fn pairs_held<T: AbstractRadixTree<u8, u32> + Drop>(tree: T) -> ObjAndIter<u8, u32, T>
    ensures { IsWalk nat_cmp (lookup nat_cmp (T.tree tree)) (held_left T.tree result) }
{
    tree.into_iter()
}

/// The next pair of a walk.
pub fn next_pair<'a, T: AbstractRadixTree<u8, u32>>(
    walk: &mut Iter<'a, u8, u32, T>,
) -> Option<Result<(IterKey<u8>, &'a u32), AllocError>>
    ensures { Walks (λ item. (item.0, item.1.now)) (pairs_left T.tree) (work_left T.tree)
        walk.old result walk.new }
{
    walk.next()
}

/// The next value of a walk.
pub fn next_value<'a, T: AbstractRadixTree<u8, u32>>(
    walk: &mut Values<'a, u8, u32, T>,
) -> Option<Result<&'a u32, AllocError>>
    ensures { Walks (λ item. item.now) (values_left T.tree) (values_work T.tree) walk.old result
        walk.new }
{
    walk.next()
}

/// The next pair of a walk that owns its tree.
pub fn next_held<T: AbstractRadixTree<u8, u32> + Drop>(
    walk: &mut ObjAndIter<u8, u32, T>,
) -> Option<Result<(IterKey<u8>, u32), AllocError>>
    ensures { WalksClones (λ x y. y ≡ x) (held_left T.tree) (held_work T.tree) walk.old result
        walk.new }
{
    walk.next()
}

/// Whether a walk ended at a refusal. No pair comes after it, nor another refusal.
pub fn is_refused<'a, T: AbstractRadixTree<u8, u32>>(walk: &mut Iter<'a, u8, u32, T>) -> bool
    ensures { IsTrue result → work_left T.tree walk.new ≡ 0 }
{
    match walk.next() {
        Some(Err(_)) => true,
        _ => false,
    }
}

/// What comes after that.
pub fn next_after_refusal<'a, T: AbstractRadixTree<u8, u32>>(
    walk: &mut Iter<'a, u8, u32, T>,
) -> Option<Result<(IterKey<u8>, &'a u32), AllocError>>
    requires { work_left T.tree walk.old ≡ 0 }
    ensures { result ≡ None }
{
    walk.next()
}

/// A key of a walk once more, and how long it is.
pub fn key_again(key: &IterKey<u8>) -> Result<(IterKey<u8>, usize), AllocError>
    ensures { IfOk result (λ two. (two.0 ≡ key.now) × (two.1 ≡ length key.now)) }
{
    Ok((key.clone()?, key.as_ref().len()))
}

/// The server whose name comes first, and its port.
pub fn first_server<T: AbstractRadixTree<u8, u32>>(
    ports: &T,
) -> Result<Option<(Vec<u8>, u32)>, AllocError>
    ensures { let port_of = lookup nat_cmp (T.tree ports.now) in
        IfOk result (λ found. MatchOption found ((k : List ℕ) → port_of k ≡ None)
        (λ b. IsLeastPair nat_cmp port_of (b.0.items, b.1))) }
{
    let Some((name, port)) = ports.first_key_value()? else {
        return Ok(None);
    };
    Ok(Some((name, *port)))
}

/// The name that comes last of the names of servers.
pub fn last_name<T: AbstractRadixTree<u8, u32>>(ports: &T) -> Result<Option<Vec<u8>>, AllocError>
    ensures { let port_of = lookup nat_cmp (T.tree ports.now) in
        IfOk result (λ found. MatchOption found ((k : List ℕ) → port_of k ≡ None)
        (λ name. IsSome (port_of name.items))) }
{
    Ok(ports.last_key_value()?.map(|(name, _)| name))
}

/// How many letters the names of all servers have, up to the greatest number.
pub fn letters_of_names<T: AbstractRadixTree<u8, u32>>(ports: &T) -> Result<usize, AllocError>
    ensures { IfOk result (λ letters. letters
        ≡ fold (λ sum b. min (sum + length b.0) (2 ^ 64 - 1)) 0 (walk (T.tree ports.now))) }
{
    ports.fold(0usize, |sum, name, _| Ok(sum.saturating_add(name.len())))
}

/// The greatest port of the names that begin with a folder, and 0 where there is none.
pub fn greatest_port_below<T: AbstractRadixTree<u8, u32>>(
    ports: &T,
    folder: &[u8],
) -> Result<u32, AllocError>
    ensures { IfOk result (λ port. (l : _)
        × IsWalk nat_cmp (under nat_cmp (lookup nat_cmp (T.tree ports.now)) folder.now) l
        × (port ≡ fold (λ most b. max most b.1) 0 l)) }
{
    ports.fold_prefix(folder, 0u32, |most, _, port| Ok(most.max(*port)))
}

/// Why ports are not counted.
#[derive(Clone, Copy, Debug, PartialEq, Eq)]
pub enum Uncounted {
    /// Memory was refused.
    NoMemory,
    /// This port is not below the limit.
    Port(u32),
}

impl From<AllocError> for Uncounted {
    ghost from_gives = { λ _ error. error ≡ NoMemory };

    fn from(_: AllocError) -> Uncounted {
        Uncounted::NoMemory
    }
}

/// How many ports there are, where all are below a limit. One that is not ends the count.
pub fn count_ports_below<T: AbstractRadixTree<u8, u32>>(
    ports: &T,
    limit: u32,
) -> Result<usize, Uncounted>
    ensures above { IfErr result (λ e. (e ≡ NoMemory) ⊎ ((b : List ℕ × ℕ)
        × Contains (walk (T.tree ports.now)) b × (limit ≤ b.1) × (e ≡ Port b.1))) }
{
    ports.fold(0usize, |count, _, port| {
        if *port < limit {
            Ok(count.saturating_add(1))
        } else {
            Err(Uncounted::Port(*port))
        }
    })
}
