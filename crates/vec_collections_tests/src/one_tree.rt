//! One tree for each map: trees that were made in different ways and bind the same are equal.
ghost use Rattle.std.specs.Prelude.{◌≡◌, ◌↔◌, ℕ, List, IfOk, IsFalse, IsTrue, OnErr, OnOk, length, map};
ghost use Rattle.std.specs.Ordering.{nat_cmp};
ghost use Rattle.vec_collections.specs.Commanded.{command_of};
ghost use Rattle.vec_collections.specs.Key.{same_key};
ghost use Rattle.vec_collections.specs.Map.{lookup, or_else, HaveEqualMaps};
ghost use Rattle.vec_collections.specs.Same.{IsSame};
ghost use Rattle.vec_collections.specs.TreePairs.{IsCollected};

use crate::keys::of_entries;
use crate::trees::{Ports, SharedPorts};
use std::alloc::AllocError;
use vec_collections::laws::{ByItself, canonical_is_unique, inserts_commute, run_is_function};
use vec_collections::radix_tree::{
    AbstractRadixTree, AbstractRadixTreeMut, RadixNode, TreeCommand, run,
};

/// Whether ports are equal: exactly where they bind alike, and then they are one tree.
pub fn are_one(a: &Ports, b: &Ports) -> bool
    ensures alike { IsTrue result ↔ HaveEqualMaps nat_cmp (λ v w. v ≡ w) a.now b.now }
    ensures one { IsTrue result ↔ IsSame nat_cmp (λ v w. v ≡ w) a.now b.now }
{
    canonical_is_unique::<u8, u32, ByItself>();
    a.prefix();
    b.prefix();
    *a == *b
}

/// Trees of either flavour, of whatever making, are one tree exactly where they bind alike.
pub fn one_where_alike<S: AbstractRadixTree<u8, u32>, T: AbstractRadixTree<u8, u32>>(a: &S, b: &T)
    ensures { IsSame nat_cmp (λ v w. v ≡ w) (S.tree a.now) (T.tree b.now)
        ↔ HaveEqualMaps nat_cmp (λ v w. v ≡ w) (S.tree a.now) (T.tree b.now) }
{
    canonical_is_unique::<u8, u32, ByItself>();
    a.prefix();
    b.prefix();
}

/// Puts the ports of two servers into two trees that bind alike, in either order: one tree is left.
pub fn in_either_order(
    there: &mut Ports,
    back: &mut SharedPorts,
    first: (&[u8], u32),
    second: (&[u8], u32),
) -> Result<(), AllocError>
    requires alike { HaveEqualMaps nat_cmp (λ v w. v ≡ w) there.old back.old }
    requires two { IsFalse (same_key nat_cmp first.0.now second.0.now) }
    ensures { OnOk result (IsSame nat_cmp (λ v w. v ≡ w) there.new back.new) }
{
    there.insert(first.0, first.1)?;
    there.insert(second.0, second.1)?;
    back.insert(second.0, second.1)?;
    back.insert(first.0, first.1)?;
    inserts_commute::<u8, u32>();
    canonical_is_unique::<u8, u32, ByItself>();
    Ok(())
}

/// Unites the ports of two offices, collects those of a list, and says whether the two trees are
/// equal: exactly where they bind alike, and then they are one tree.
pub fn united_and_listed(
    united: &mut Ports,
    that: &SharedPorts,
    listed: &mut Ports,
    entries: Vec<(Vec<u8>, u32)>,
) -> Result<bool, AllocError>
    ensures united { OnOk result ((k : List ℕ) → lookup nat_cmp united.new k
        ≡ or_else (lookup nat_cmp united.old k) (lookup nat_cmp that.now k)) }
    ensures listed { OnOk result
        (IsCollected nat_cmp (map (λ b. (b.0.items, b.1)) entries.items) listed.new) }
    ensures alike { IfOk result (λ equal.
        IsTrue equal ↔ HaveEqualMaps nat_cmp (λ v w. v ≡ w) united.new listed.new) }
    ensures one { IfOk result (λ equal.
        IsTrue equal ↔ IsSame nat_cmp (λ v w. v ≡ w) united.new listed.new) }
{
    *united = united.union(that)?;
    *listed = of_entries(united.allocator(), entries)?;
    Ok(are_one(united, listed))
}

/// Changes ports by a run of commands, and a snapshot of ports in place by another tree: where the
/// two bind alike, they are one tree, whatever was refused.
pub fn run_and_in_place(
    ports: &mut Ports,
    changes: Vec<TreeCommand<u8, u32, Ports>>,
    made: &mut [bool],
    snapshot: &mut SharedPorts,
    that: &Ports,
) -> Result<(), AllocError>
    requires { length made.old ≡ length changes.items }
    ensures { HaveEqualMaps nat_cmp (λ v w. v ≡ w) ports.new snapshot.new
        → IsSame nat_cmp (λ v w. v ≡ w) ports.new snapshot.new }
{
    canonical_is_unique::<u8, u32, ByItself>();
    run(ports, changes, made);
    snapshot.union_with(that)
}

/// Sets a port. Where that is refused, the ports from before and those that are left are one tree.
pub fn set_or_before(ports: &mut SharedPorts, server: &[u8], port: u32) -> Result<(), AllocError>
    ensures { OnErr result (IsSame nat_cmp (λ v w. v ≡ w) ports.old ports.new) }
{
    canonical_is_unique::<u8, u32, ByItself>();
    ports.prefix();
    ports.insert(server, port)
}

/// Makes the same changes on two trees of either flavour that bind alike. Where the same ones are
/// accepted, one tree is left.
pub fn run_on_both(
    ports: &mut Ports,
    changes: Vec<TreeCommand<u8, u32, Ports>>,
    made: &mut [bool],
    shared: &mut SharedPorts,
    same_changes: Vec<TreeCommand<u8, u32, SharedPorts>>,
    made_too: &mut [bool],
)
    requires alike { HaveEqualMaps nat_cmp (λ v w. v ≡ w) ports.old shared.old }
    requires changes { map (command_of (λ t. t)) same_changes.items
        ≡ map (command_of (λ t. t)) changes.items }
    requires flags { length made.old ≡ length changes.items }
    requires flags_too { length made_too.old ≡ length same_changes.items }
    ensures { made_too.new ≡ made.new → IsSame nat_cmp (λ v w. v ≡ w) ports.new shared.new }
{
    canonical_is_unique::<u8, u32, ByItself>();
    run_is_function::<u8, u32>();
    run(ports, changes, made);
    run(shared, same_changes, made_too);
}
