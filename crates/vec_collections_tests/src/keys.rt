//! Trees, as a user writes them: look-ups by the longest key and with a counter, tests of keys, and
//! whole trees made of others.
ghost use Rattle.std.specs.Prelude.{◌≡◌, ◌↔◌, ◌==◌, ◌+◌, ◌-◌, ◌*◌, ◌^◌, ◌≤◌, MatchBool, IfOk, IsTrue, Some, length, map, min};
ghost use Rattle.std.specs.Option.{is_some, option_map};
ghost use Rattle.std.specs.Ordering.{nat_cmp};
ghost use Rattle.vec_collections.specs.Children.{seen};
ghost use Rattle.vec_collections.specs.Count.{digits};
ghost use Rattle.vec_collections.specs.Cover.{cover};
ghost use Rattle.vec_collections.specs.KeySets.{AreDisjoint, HasKeysOf, LacksKeyOf, ShareKey};
ghost use Rattle.vec_collections.specs.Map.{lookup, IsEqualMap};
ghost use Rattle.vec_collections.specs.Same.{IsAlike};
ghost use Rattle.vec_collections.specs.Tree.{key_count, width};
ghost use Rattle.vec_collections.specs.TreePairs.{IsCollected, last_bound};
ghost use Rattle.vec_collections.specs.Value.{Copies};

use crate::trees::{Ports, SharedPorts};
use std::alloc::{AllocError, Global};
use vec_collections::merge::Steps;
use vec_collections::radix_tree::{
    AbstractRadixTree, AbstractRadixTreeMut, ArcRadixTree, RadixNode, RadixTree,
};

/// How many servers have a port.
pub fn count_servers<T: AbstractRadixTree<u8, u32>>(ports: &T) -> usize
    ensures { result ≡ min (key_count (T.tree ports.now)) (2 ^ 64 - 1) }
{
    ports.len()
}

/// Whether a server has a port.
pub fn has_port<T: AbstractRadixTree<u8, u32>>(ports: &T, server: &[u8]) -> bool
    ensures { result ≡ is_some (lookup nat_cmp (T.tree ports.now) server.now) }
{
    ports.contains_key(server)
}

/// The port of the domain with the longest name that this one begins with, and what is left of the
/// name after it.
pub fn port_of_domain<'n, T: AbstractRadixTree<u8, u32>>(
    ports: &T,
    name: &'n [u8],
) -> Option<(u32, &'n [u8])>
    ensures { option_map (λ b. b.0) result ≡ cover (lookup nat_cmp (T.tree ports.now)) name.now }
{
    let (length, port) = ports.get_longest(name)?;
    Some((*port, &name[length..]))
}

/// The port of a server, with the comparisons added to `steps`.
pub fn port_counted<T: AbstractRadixTree<u8, u32>>(
    ports: &T,
    server: &[u8],
    steps: &mut Steps,
) -> Option<u32>
    ensures port { result ≡ lookup nat_cmp (T.tree ports.now) server.now }
    ensures counted { steps.new
        ≤ steps.old + length server.now * (1 + digits (width (T.tree ports.now))) }
{
    ports.get_counted(server, steps).copied()
}

/// How the servers of two trees compare with each other.
pub struct ServersCompared {
    pub intersects: bool,
    pub is_disjoint: bool,
    pub is_subset: bool,
    pub is_superset: bool,
}

/// By the four tests.
pub fn compare_servers<S: AbstractRadixTree<u8, u32>, T: AbstractRadixTree<u8, u32>>(
    a: &S,
    b: &T,
) -> ServersCompared
    ensures intersects { MatchBool result.intersects
        (ShareKey nat_cmp (S.tree a.now) (T.tree b.now))
        (AreDisjoint nat_cmp (S.tree a.now) (T.tree b.now)) }
    ensures is_disjoint { MatchBool result.is_disjoint
        (AreDisjoint nat_cmp (S.tree a.now) (T.tree b.now))
        (ShareKey nat_cmp (S.tree a.now) (T.tree b.now)) }
    ensures is_subset { MatchBool result.is_subset (HasKeysOf nat_cmp (T.tree b.now) (S.tree a.now))
        (LacksKeyOf nat_cmp (T.tree b.now) (S.tree a.now)) }
    ensures is_superset { MatchBool result.is_superset
        (HasKeysOf nat_cmp (S.tree a.now) (T.tree b.now))
        (LacksKeyOf nat_cmp (S.tree a.now) (T.tree b.now)) }
{
    ServersCompared {
        intersects: a.intersects(b),
        is_disjoint: a.is_disjoint(b),
        is_subset: a.is_subset(b),
        is_superset: a.is_superset(b),
    }
}

/// Whether two trees have the same ports.
pub fn are_same(a: &Ports, b: &Ports) -> bool
    ensures { IsTrue result
        ↔ IsEqualMap (λ v w. IsTrue (v == w)) (lookup nat_cmp a.now) (lookup nat_cmp b.now) }
{
    *a == *b
}

/// Whether two snapshots have the same ports.
pub fn are_same_shared(a: &SharedPorts, b: &SharedPorts) -> bool
    ensures { IsTrue result
        ↔ IsEqualMap (λ v w. IsTrue (v == w)) (lookup nat_cmp a.now) (lookup nat_cmp b.now) }
{
    *a == *b
}

/// A copy of the ports.
pub fn copy_of(ports: &Ports) -> Result<Ports, AllocError>
    ensures nodes { IfOk result (IsAlike (λ x y. y ≡ x) ports.now) }
    ensures ports { IfOk result (λ copy. IsEqualMap (λ x y. y ≡ x) (lookup nat_cmp ports.now)
        (lookup nat_cmp copy)) }
{
    ports.clone()
}

/// The same ports, of which snapshots can be kept from now on.
pub fn shared(ports: Ports) -> Result<SharedPorts, AllocError>
    ensures { IfOk result (λ shared. shared ≡ ports) }
{
    ArcRadixTree::from_radix_tree(ports)
}

/// The ports of a list in any order. Of two entries of a server the later one counts.
pub fn of_entries(alloc: Global, entries: Vec<(Vec<u8>, u32)>) -> Result<Ports, AllocError>
    ensures { IfOk result (IsCollected nat_cmp (map (λ b. (b.0.items, b.1)) entries.items)) }
{
    RadixTree::from_vecs(alloc, entries.into_iter())
}

/// The same for a list that borrows the names.
pub fn of_names<'a>(alloc: Global, entries: Vec<(&'a [u8], u32)>) -> Result<Ports, AllocError>
    ensures { IfOk result (IsCollected nat_cmp (map (λ b. (b.0.now, b.1)) entries.entry.items)) }
{
    RadixTree::from_iter(alloc, entries.into_iter())
}

/// The ports of a list, of which snapshots can be kept. A port that is cloned is the same number.
pub fn of_entries_shared(
    alloc: Global,
    entries: Vec<(Vec<u8>, u32)>,
) -> Result<SharedPorts, AllocError>
    ensures { IfOk result (λ ports. IsEqualMap (λ v w. v ≡ w)
        (last_bound nat_cmp (map (λ b. (b.0.items, b.1)) entries.items))
        (lookup nat_cmp ports)) }
{
    ArcRadixTree::from_vecs(alloc, entries.into_iter())
}

/// The same for a list that borrows the names. Nothing is required of the clone of a port.
pub fn of_names_shared<'a>(
    alloc: Global,
    entries: Vec<(&'a [u8], u32)>,
) -> Result<SharedPorts, AllocError>
    ensures { IfOk result (λ ports. IsEqualMap (Copies (λ x y. y ≡ x))
        (last_bound nat_cmp (map (λ b. (b.0.now, b.1)) entries.entry.items))
        (lookup nat_cmp ports)) }
{
    ArcRadixTree::from_iter(alloc, entries.into_iter())
}

/// The trees below the root.
pub fn below_root<T: AbstractRadixTree<u8, u32>>(ports: &T) -> &[T]
    ensures { seen T.tree result.now ≡ (T.tree ports.now).children }
{
    ports.children()
}

/// A turn of a way. It has no default.
#[derive(Debug, Clone, Copy, PartialEq, Eq, PartialOrd, Ord)]
pub enum Turn {
    Left,
    Ahead,
    Right,
}

/// How long it is to a place, by the turns that lead there.
pub type Ways = RadixTree<Turn, u32>;

/// How long a way is, in a tree of only that way.
pub fn noted_way(alloc: Global, way: &[Turn], minutes: u32) -> Result<Option<u32>, AllocError>
    ensures { IfOk result (λ noted. noted ≡ Some minutes) }
{
    let mut ways = Ways::empty(alloc);
    ways.insert(way, minutes)?;
    Ok(ways.get(way).copied())
}
