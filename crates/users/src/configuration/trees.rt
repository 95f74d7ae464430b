//! The trees of settings, and the two steps that make versions. Their clauses use the words of
//! trees.

ghost use Rattle.std.specs.Prelude.{◌≡◌, ◌==◌, cond, None, Some, Ok, IfOk, OnOk};
ghost use Rattle.std.specs.Option.{is_some};
ghost use Rattle.std.specs.Ordering.{nat_cmp};
ghost use Rattle.vec_collections.specs.Map.{lookup, IsInserted};
ghost use Rattle.users.specs.Path.{Path};
ghost use Rattle.users.specs.Settings.{are_different};

use std::alloc::AllocError;
use vec_collections::radix_tree::{
    AbstractRadixTree, AbstractRadixTreeMut, ArcRadixTree, RadixTree,
};

/// What is set at each path.
pub type Settings = ArcRadixTree<u8, u64>;

/// Sets the value of a path.
#[tactic(auto, using(vec_collections::specs::Exact::exactly))]
pub fn bind(settings: &mut Settings, path: &[u8], value: u64) -> Result<(), AllocError>
    ensures { OnOk result
        (IsInserted nat_cmp (λ x y. x ≡ y) path.now value settings.old settings.new) }
{
    settings.insert(path, value)
}

/// The paths at which two trees have different settings. Each has the one of the new tree, or of
/// the old one where the new tree has none.
pub fn differing<S: AbstractRadixTree<u8, u64>>(
    old: &S,
    new: &S,
) -> Result<RadixTree<u8, u64>, AllocError>
    ensures { IfOk result (λ paths. (path : Path)
        → is_some (lookup nat_cmp paths path)
        ≡ are_different (lookup nat_cmp (S.tree old.now) path)
        (lookup nat_cmp (S.tree new.now) path)) }
{
    old.outer_combine(
        new,
        |old: &u64, new: &u64| -> Result<Option<u64>, AllocError>
            ensures { result ≡ Ok (cond (old.now == new.now) None (Some new.now)) }
        { Ok(if old == new { None } else { Some(*new) }) },
    )
}
