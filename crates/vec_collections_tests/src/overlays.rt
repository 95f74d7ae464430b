//! Trees laid over one another, new and in place, in both flavours and after a snapshot, with
//! clauses on the value at each key in words of this crate. `exactly` names the lemmas that a clone
//! of a number is that number; a proof file is needed only where a tree is held in a variable.
ghost use Rattle.std.specs.Prelude.{◌≡◌, Some, List, ℕ, min, max, IfOk, OnOk};
ghost use Rattle.std.specs.Option.{unwrap_or};
ghost use Rattle.std.specs.Ordering.{nat_cmp};
ghost use Rattle.vec_collections.specs.JoinValues.{in_both, in_left};
ghost use Rattle.vec_collections.specs.Map.{lookup, or_else};
ghost use Rattle.vec_collections.specs.Under.{under};
ghost use Rattle.vec_collections_tests.specs.Overlays.{first_alone, first_of_both, merged_by, renewed_by};

use crate::trees::{Ports, SharedPorts, snapshot_of};
use std::alloc::AllocError;
use vec_collections::radix_tree::{AbstractRadixTree, AbstractRadixTreeMut};

/// The port of the override where there is one, otherwise that of the base.
#[tactic(auto, using(vec_collections::specs::Exact::exactly))]
pub fn overlaid<T: AbstractRadixTreeMut<u8, u32>>(overrides: &T, base: &T) -> Result<T, AllocError>
    ensures { IfOk result (λ all. (k : List ℕ) → lookup nat_cmp (T.tree all) k
        ≡ or_else (lookup nat_cmp (T.tree overrides.now) k) (lookup nat_cmp (T.tree base.now) k)) }
{
    overrides.union(base)
}

/// The ports of the servers that both have, by the first.
#[tactic(auto, using(vec_collections::specs::Exact::exactly))]
pub fn common<T: AbstractRadixTreeMut<u8, u32>>(a: &T, b: &T) -> Result<T, AllocError>
    ensures { IfOk result (λ made. (k : List ℕ) → lookup nat_cmp (T.tree made) k
        ≡ first_of_both (lookup nat_cmp (T.tree a.now) k) (lookup nat_cmp (T.tree b.now) k)) }
{
    a.intersection(b)
}

/// The ports of the servers that only the first tree has.
#[tactic(auto, using(vec_collections::specs::Exact::exactly))]
pub fn without<T: AbstractRadixTreeMut<u8, u32>>(a: &T, b: &T) -> Result<T, AllocError>
    ensures { IfOk result (λ made. (k : List ℕ) → lookup nat_cmp (T.tree made) k
        ≡ first_alone (lookup nat_cmp (T.tree a.now) k) (lookup nat_cmp (T.tree b.now) k)) }
{
    a.difference(b)
}

/// The ports of either tree; where both have one, the greater.
#[tactic(auto, using(vec_collections::specs::Exact::exactly))]
pub fn greatest_of_either<T: AbstractRadixTreeMut<u8, u32>>(a: &T, b: &T) -> Result<T, AllocError>
    ensures { IfOk result (λ made. (k : List ℕ) → lookup nat_cmp (T.tree made) k
        ≡ merged_by max (lookup nat_cmp (T.tree a.now) k) (lookup nat_cmp (T.tree b.now) k)) }
{
    a.outer_combine(b, |v: &u32, w: &u32| -> Result<Option<u32>, AllocError> {
        Ok(Some((*v).max(*w)))
    })
}

/// The servers of both trees, each with the lesser port.
#[tactic(auto, using(vec_collections::specs::Exact::exactly))]
pub fn least_of_both<T: AbstractRadixTreeMut<u8, u32>>(a: &T, b: &T) -> Result<T, AllocError>
    ensures { IfOk result (λ made. (k : List ℕ) → lookup nat_cmp (T.tree made) k
        ≡ in_both (λ v w. Some (min v w)) (lookup nat_cmp (T.tree a.now) k)
        (lookup nat_cmp (T.tree b.now) k)) }
{
    a.inner_combine(b, |v: &u32, w: &u32| -> Result<Option<u32>, AllocError> {
        Ok(Some((*v).min(*w)))
    })
}

/// The servers of the first tree, each with the port of the second where that has one.
#[tactic(auto, using(vec_collections::specs::Exact::exactly))]
pub fn renewed<T: AbstractRadixTreeMut<u8, u32>>(a: &T, b: &T) -> Result<T, AllocError>
    ensures { IfOk result (λ made. (k : List ℕ) → lookup nat_cmp (T.tree made) k
        ≡ in_left (λ v w. Some (unwrap_or w v)) (lookup nat_cmp (T.tree a.now) k)
        (lookup nat_cmp (T.tree b.now) k)) }
{
    a.left_combine(
        b,
        |v: &u32, w: Option<&u32>| -> Result<Option<u32>, AllocError> { Ok(Some(*w.unwrap_or(v))) },
    )
}

/// The ports of the servers whose names start with the folder.
#[tactic(auto, using(vec_collections::specs::Exact::exactly))]
pub fn ports_of_folder<T: AbstractRadixTreeMut<u8, u32>>(
    ports: &T,
    front: &[u8],
) -> Result<T, AllocError>
    ensures { IfOk result (λ made. (k : List ℕ) → lookup nat_cmp (T.tree made) k
        ≡ under nat_cmp (lookup nat_cmp (T.tree ports.now)) front.now k) }
{
    ports.filter_prefix(front)
}

/// Adds the servers of the base that the overrides lack.
pub fn complete(overrides: &mut Ports, base: &Ports) -> Result<(), AllocError>
    ensures { OnOk result ((k : List ℕ) → lookup nat_cmp overrides.new k
        ≡ or_else (lookup nat_cmp overrides.old k) (lookup nat_cmp base.now k)) }
{
    overrides.union_with(base)
}

/// The same, where snapshots of the overrides may be kept.
#[tactic(auto, using(vec_collections::specs::Exact::exactly))]
pub fn complete_shared(overrides: &mut SharedPorts, base: &SharedPorts) -> Result<(), AllocError>
    ensures { OnOk result ((k : List ℕ) → lookup nat_cmp overrides.new k
        ≡ or_else (lookup nat_cmp overrides.old k) (lookup nat_cmp base.now k)) }
{
    overrides.union_with(base)
}

/// The overrides, completed by the base, after a snapshot of the overrides.
pub fn completed(overrides: &SharedPorts, base: &SharedPorts) -> Result<SharedPorts, AllocError>
    ensures { IfOk result (λ all. (k : List ℕ) → lookup nat_cmp all k
        ≡ or_else (lookup nat_cmp overrides.now k) (lookup nat_cmp base.now k)) }
{
    let mut all = snapshot_of(overrides)?;
    complete_shared(&mut all, base)?;
    Ok(all)
}

/// Keeps the servers that the other tree has too.
#[tactic(auto, using(vec_collections::specs::Exact::exactly))]
pub fn keep_common(ports: &mut SharedPorts, that: &SharedPorts) -> Result<(), AllocError>
    ensures { OnOk result ((k : List ℕ) → lookup nat_cmp ports.new k
        ≡ first_of_both (lookup nat_cmp ports.old k) (lookup nat_cmp that.now k)) }
{
    ports.intersection_with(that)
}

/// Drops the servers that the other tree has.
#[tactic(auto, using(vec_collections::specs::Exact::exactly))]
pub fn leave_out(ports: &mut SharedPorts, that: &SharedPorts) -> Result<(), AllocError>
    ensures { OnOk result ((k : List ℕ) → lookup nat_cmp ports.new k
        ≡ first_alone (lookup nat_cmp ports.old k) (lookup nat_cmp that.now k)) }
{
    ports.difference_with(that)
}

/// Moves the overrides into the ports. A server that is in both gets its port from the overrides.
#[tactic(auto, using(vec_collections::specs::Exact::exactly))]
pub fn put_over(ports: &mut SharedPorts, overrides: SharedPorts) -> Result<(), AllocError>
    ensures { OnOk result ((k : List ℕ) → lookup nat_cmp ports.new k
        ≡ or_else (lookup nat_cmp overrides k) (lookup nat_cmp ports.old k)) }
{
    ports.append(overrides)
}

/// Takes over the ports of another tree, with all of its servers.
#[tactic(auto, using(vec_collections::specs::Exact::exactly))]
pub fn renew_all(ports: &mut SharedPorts, that: &SharedPorts) -> Result<(), AllocError>
    ensures { OnOk result ((k : List ℕ) → lookup nat_cmp ports.new k
        ≡ or_else (lookup nat_cmp that.now k) (lookup nat_cmp ports.old k)) }
{
    ports.outer_combine_with(that, |v: &mut u32, w: &u32| -> bool {
        *v = *w;
        true
    })
}

/// Takes over the ports of another tree, and drops the servers that it lacks.
#[tactic(auto, using(vec_collections::specs::Exact::exactly))]
pub fn renew_common(ports: &mut SharedPorts, that: &SharedPorts) -> Result<(), AllocError>
    ensures { OnOk result ((k : List ℕ) → lookup nat_cmp ports.new k
        ≡ in_both (λ v w. Some w) (lookup nat_cmp ports.old k) (lookup nat_cmp that.now k)) }
{
    ports.inner_combine_with(that, |v: &mut u32, w: &u32| -> bool {
        *v = *w;
        true
    })
}

/// Takes over the ports of another tree, for the servers that are there.
#[tactic(auto, using(vec_collections::specs::Exact::exactly))]
pub fn renew(ports: &mut SharedPorts, that: &SharedPorts) -> Result<(), AllocError>
    ensures { OnOk result ((k : List ℕ) → lookup nat_cmp ports.new k
        ≡ renewed_by (lookup nat_cmp ports.old k) (lookup nat_cmp that.now k)) }
{
    ports.left_combine_with(that, |v: &mut u32, w: &u32| -> bool {
        *v = *w;
        true
    })
}
