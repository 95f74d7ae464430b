//! Trees of either flavour, as a user combines them: with a counter, restricted by the prefixes of
//! another tree, and with other fronts of their keys.
ghost use Rattle.std.specs.Prelude.{◌≡◌, ◌+◌, ◌*◌, ◌<◌, ◌≤◌, List, ℕ, length, IfOk, OnOk};
ghost use Rattle.std.specs.Ordering.{nat_cmp};
ghost use Rattle.vec_collections.specs.Cover.{IsRemoved, IsRetained};
ghost use Rattle.vec_collections.specs.Map.{lookup};
ghost use Rattle.vec_collections.specs.PrefixLaws.{IsInOne};
ghost use Rattle.vec_collections.specs.Shortened.{weight, IsShortened};
ghost use Rattle.vec_collections.specs.Under.{prefixed};

use crate::trees::Ports;
use std::alloc::AllocError;
use vec_collections::laws::{ByItself, removal_and_retention_part};
use vec_collections::merge::Steps;
use vec_collections::radix_tree::{AbstractRadixTree, AbstractRadixTreeMut, RadixTree};

/// The ports of either tree, the first of two, with the comparisons added to `steps`.
pub fn first_counted<T: AbstractRadixTreeMut<u8, u32>>(
    a: &T,
    b: &T,
    steps: &mut Steps,
) -> Result<T, AllocError>
    ensures { steps.new ≤ steps.old + 3 * (weight (T.tree a.now) + weight (T.tree b.now)) }
{
    a.outer_combine_counted(
        b,
        |v: &u32, _: &u32| -> Result<Option<u32>, AllocError> { Ok(Some(*v)) },
        steps,
    )
}

/// Whether a prefix is marked.
fn is_marked(mark: &bool) -> bool
    ensures { result ≡ mark.now }
{
    *mark
}

/// Drops what begins with a prefix that is closed.
pub fn close_all<T: AbstractRadixTreeMut<u8, u32>>(
    ports: &mut T,
    closed: &RadixTree<u8, bool>,
) -> Result<(), AllocError>
    ensures { OnOk result (IsRemoved T.keeps (λ is_closed covered. covered ≡ is_closed)
        (lookup nat_cmp closed.now) (lookup nat_cmp (T.tree ports.old))
        (lookup nat_cmp (T.tree ports.new))) }
{
    ports.remove_prefix_with(closed, is_marked)
}

/// Keeps what begins with a prefix that is open.
pub fn keep_open<T: AbstractRadixTreeMut<u8, u32>>(
    ports: &mut T,
    opened: &RadixTree<u8, bool>,
) -> Result<(), AllocError>
    ensures { OnOk result (IsRetained T.keeps (λ is_open covered. covered ≡ is_open)
        (lookup nat_cmp opened.now) (lookup nat_cmp (T.tree ports.old))
        (lookup nat_cmp (T.tree ports.new))) }
{
    ports.retain_prefix_with(opened, is_marked)
}

/// Parts the ports into those that stay open and those that are closed: each is in one part, and in
/// one alone.
pub fn part(ports: &Ports, closed: &RadixTree<u8, bool>) -> Result<(Ports, Ports), AllocError>
    ensures open { IfOk result (λ parts. IsRemoved (λ v w. v ≡ w)
        (λ is_closed covered. covered ≡ is_closed) (lookup nat_cmp closed.now)
        (lookup nat_cmp ports.now) (lookup nat_cmp parts.0)) }
    ensures parts { IfOk result (λ parts. (k : List ℕ) → IsInOne (λ v w. v ≡ w)
        (lookup nat_cmp ports.now k) (lookup nat_cmp parts.0 k) (lookup nat_cmp parts.1 k)) }
{
    removal_and_retention_part::<u8, u32, bool, ByItself, _>(&is_marked);
    let mut left = ports.clone()?;
    left.remove_prefix_with(closed, is_marked)?;
    let mut kept = ports.clone()?;
    kept.retain_prefix_with(closed, is_marked)?;
    Ok((left, kept))
}

/// Puts a front before the names of all servers.
pub fn put_before<T: AbstractRadixTreeMut<u8, u32>>(
    ports: &mut T,
    front: &[u8],
) -> Result<(), AllocError>
    ensures { OnOk result ((k : List ℕ) → lookup nat_cmp (T.tree ports.new) k
        ≡ prefixed nat_cmp (lookup nat_cmp (T.tree ports.old)) front.now k) }
{
    ports.prepend(front)
}

/// The ports by names without the first `n` letters, which all share.
pub fn without_front<T: AbstractRadixTreeMut<u8, u32>>(ports: &T, n: usize) -> Result<T, AllocError>
    requires { n < length (T.tree ports.now).prefix }
    ensures { IfOk result
        (λ made. IsShortened nat_cmp (λ x y. y ≡ x) n (T.tree ports.now) (T.tree made)) }
{
    ports.materialize_shortened(n)
}
