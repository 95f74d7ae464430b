//! Joins of `BTreeMap`, as a user writes them, with clauses on the value at each key.
ghost use Rattle.std.specs.Prelude.{◌≡◌, min, Some, ℕ, IfOk, OnOk};
ghost use Rattle.std.specs.Option.{option_or};
ghost use Rattle.std.specs.Ordering.{nat_cmp};
ghost use Rattle.vec_collections.specs.Entries.{value_at};
ghost use Rattle.vec_collections.specs.JoinValues.{in_both, in_either, in_left, in_right};
ghost use Rattle.vec_collections.specs.KeepingValues.{or_given, or_stays};
ghost use Rattle.vec_collections_tests.specs.Stock.{held_or, unless_held};

use std::alloc::{AllocError, Global};
use std::collections::BTreeMap;
use vec_collections::btree_map::{AbstractBTreeMap, InPlaceRelationalOps, OuterJoinArg};

/// What is in each account.
pub type Ledger = BTreeMap<u32, u32>;

/// The accounts of a ledger, and further ones of another ledger.
pub fn with_others(alloc: Global, ledger: &Ledger, others: &Ledger) -> Result<Ledger, AllocError>
    ensures { IfOk result (λ all. (k : ℕ) → value_at nat_cmp all.entries k
        ≡ in_either option_or (value_at nat_cmp ledger.now.entries k)
        (value_at nat_cmp others.now.entries k)) }
{
    ledger.outer_join(
        alloc,
        others,
        |at: OuterJoinArg<&u32, &u32, &u32>| -> Result<Option<u32>, AllocError> {
            let (OuterJoinArg::Left(_, held)
            | OuterJoinArg::Right(_, held)
            | OuterJoinArg::Both(_, held, _)) = at;
            Ok(Some(*held))
        },
    )
}

/// What each claim on an account gets, which is no more than is there.
pub fn served(alloc: Global, ledger: &Ledger, claims: &Ledger) -> Result<Ledger, AllocError>
    ensures { IfOk result (λ paid. (k : ℕ) → value_at nat_cmp paid.entries k
        ≡ in_both (λ held wanted. Some (min held wanted)) (value_at nat_cmp ledger.now.entries k)
        (value_at nat_cmp claims.now.entries k)) }
{
    ledger.inner_join(
        alloc,
        claims,
        |_: &u32, held: &u32, wanted: &u32| -> Result<Option<u32>, AllocError> {
            Ok(Some((*held).min(*wanted)))
        },
    )
}

/// The accounts of a ledger that have no hold on them.
pub fn free(alloc: Global, ledger: &Ledger, holds: &Ledger) -> Result<Ledger, AllocError>
    ensures { IfOk result (λ rest. (k : ℕ) → value_at nat_cmp rest.entries k
        ≡ in_left unless_held (value_at nat_cmp ledger.now.entries k)
        (value_at nat_cmp holds.now.entries k)) }
{
    ledger.left_join(
        alloc,
        holds,
        |_: &u32, held: &u32, hold: Option<&u32>| -> Result<Option<u32>, AllocError> {
            match hold {
                Some(_) => Ok(None),
                None => Ok(Some(*held)),
            }
        },
    )
}

/// The accounts that a list names, as they are in the ledger, or as the list says where the ledger
/// has none.
pub fn listed(alloc: Global, ledger: &Ledger, list: &Ledger) -> Result<Ledger, AllocError>
    ensures { IfOk result (λ full. (k : ℕ) → value_at nat_cmp full.entries k
        ≡ in_right held_or (value_at nat_cmp ledger.now.entries k)
        (value_at nat_cmp list.now.entries k)) }
{
    ledger.right_join(
        alloc,
        list,
        |_: &u32, held: Option<&u32>, listed: &u32| -> Result<Option<u32>, AllocError> {
            match held {
                Some(held) => Ok(Some(*held)),
                None => Ok(Some(*listed)),
            }
        },
    )
}

/// Sets the accounts that a list names to what it says. All others are dropped.
pub fn replace_listed(ledger: &mut Ledger, list: &Ledger)
    ensures { (k : ℕ) → value_at nat_cmp ledger.new.entries k
        ≡ in_both (λ held listed. Some listed) (value_at nat_cmp ledger.old.entries k)
        (value_at nat_cmp list.now.entries k) }
{
    ledger.inner_join_with(list, |_: &u32, held: &mut u32, listed: &u32| -> bool {
        *held = *listed;
        true
    });
}

/// Drops the accounts that have a hold on them.
pub fn drop_held(ledger: &mut Ledger, holds: &Ledger)
    ensures { (k : ℕ) → value_at nat_cmp ledger.new.entries k
        ≡ in_left unless_held (value_at nat_cmp ledger.old.entries k)
        (value_at nat_cmp holds.now.entries k) }
{
    ledger.left_join_with(holds, |_: &u32, _: &mut u32, hold: Option<&u32>| -> bool {
        hold.is_none()
    });
}

/// Sets the accounts that a list names to what it says. All others stay.
pub fn correct(ledger: &mut Ledger, list: &Ledger)
    ensures { (k : ℕ) → value_at nat_cmp ledger.new.entries k
        ≡ in_left (or_stays (λ held listed. Some listed)) (value_at nat_cmp ledger.old.entries k)
        (value_at nat_cmp list.now.entries k) }
{
    ledger.right_join_with(
        list,
        |_: &u32, held: &mut u32, listed: &u32| -> bool {
            *held = *listed;
            true
        },
        |_: &u32, _: &u32| {},
    );
}

/// Drops the accounts that have a hold on them, and opens those that are only on the list of holds.
pub fn trade(alloc: Global, ledger: &mut Ledger, holds: &Ledger) -> Result<(), AllocError>
    ensures { OnOk result ((k : ℕ) → value_at nat_cmp ledger.new.entries k
        ≡ or_given unless_held (λ hold. Some hold) (value_at nat_cmp ledger.old.entries k)
        (value_at nat_cmp holds.now.entries k)) }
{
    ledger.outer_join_with(
        alloc,
        holds,
        |_: &u32, _: &mut u32, hold: Option<&u32>| -> bool { hold.is_none() },
        |_: &u32, hold: &u32| -> Option<u32> { Some(*hold) },
    )
}
