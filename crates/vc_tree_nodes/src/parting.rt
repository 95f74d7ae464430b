//! Where a key diverges from the prefix of a node.

ghost use Rattle.std.specs.Prelude.{◌+◌, ◌-◌, ◌≤◌, length, min};
ghost use Rattle.vc_tree_nodes.specs.Parting.{Agree, IsParting};

use std::cmp::Ordering;
use vc_merge::merge::Count;

/// Where a key diverges from a prefix.
#[derive(Clone, Copy)]
pub enum Parting {
    /// The key starts with the whole prefix.
    Behind,
    /// The key ends inside the prefix, after that many components.
    Inside(usize),
    /// After that many components the prefix continues with a lesser component than the key.
    Lower(usize),
    /// After that many components the prefix continues with a greater component than the key.
    Higher(usize),
}

/// Where the key diverges from the prefix. The first `known` components are known to agree.
/// Compares each further component once.
pub fn find_parting<K: Ord, C: Count>(
    prefix: &[K],
    key: &[K],
    known: usize,
    steps: &mut C,
) -> Parting
    requires { Agree K.cmp prefix.now key.now known }
    ensures is { IsParting K.cmp prefix.now key.now result }
    ensures counted { C.counted steps.new
        ≤ C.counted steps.old + (min (length prefix.now) (length key.now) - known) }
{
    let mut n = known;
    while n < prefix.len() && n < key.len() {
        steps.tick();
        match prefix[n].cmp(&key[n]) {
            Ordering::Less => return Parting::Lower(n),
            Ordering::Equal => n += 1,
            Ordering::Greater => return Parting::Higher(n),
        }
    }
    if n < prefix.len() {
        Parting::Inside(n)
    } else {
        Parting::Behind
    }
}
