//! Settings by their paths, in the shared flavour: what a change leaves at each path, by the values
//! there.
ghost use Rattle.std.specs.Prelude.{◌≡◌, ℕ, List, None, Some, is_some, IfOk, IsFalse, IsTrue, OnOk};
ghost use Rattle.std.specs.Ordering.{nat_cmp};
ghost use Rattle.vec_collections.specs.Key.{behind, same_key};
ghost use Rattle.vec_collections.specs.Map.{lookup};
ghost use Rattle.vec_collections.specs.Without.{IsWithoutBelow};

use std::alloc::AllocError;
use vec_collections::laws::keys_are_ordered;
use vec_collections::radix_tree::{AbstractRadixTreeMut, ArcRadixTree};

/// The settings of a program by their paths, of which snapshots are kept.
pub type Settings = ArcRadixTree<u8, u32>;

/// Sets one setting. All others stay.
#[tactic(auto, using(vec_collections::specs::Exact::exactly))]
pub fn set(settings: &mut Settings, path: &[u8], value: u32) -> Result<(), AllocError>
    ensures set { OnOk result (lookup nat_cmp settings.new path.now ≡ Some value) }
    ensures others { OnOk result ((other : List ℕ) → IsFalse (same_key nat_cmp path.now other)
        → lookup nat_cmp settings.new other ≡ lookup nat_cmp settings.old other) }
{
    settings.insert(path, value)
}

/// Unsets one setting. All others stay.
#[tactic(auto, using(vec_collections::specs::Exact::exactly))]
pub fn unset(settings: &mut Settings, path: &[u8]) -> Result<(), AllocError>
    ensures unset { OnOk result (lookup nat_cmp settings.new path.now ≡ None) }
    ensures others { OnOk result ((other : List ℕ) → IsFalse (same_key nat_cmp path.now other)
        → lookup nat_cmp settings.new other ≡ lookup nat_cmp settings.old other) }
{
    keys_are_ordered::<u8>();
    settings.remove(path)?;
    Ok(())
}

/// Unsets what begins with the path of a folder, with the clause of the call.
#[tactic(auto, using(vec_collections::specs::Exact::exactly))]
fn clear(settings: &mut Settings, folder: &[u8]) -> Result<(), AllocError>
    ensures { OnOk result (IsWithoutBelow nat_cmp (λ x y. x ≡ y) folder.now
        (lookup nat_cmp settings.old) (lookup nat_cmp settings.new)) }
{
    settings.remove_below(folder)
}

/// Unsets all settings whose paths begin with that of a folder. All others stay.
pub fn unset_folder(settings: &mut Settings, folder: &[u8]) -> Result<(), AllocError>
    ensures unset { OnOk result ((path : List ℕ)
        → IsTrue (is_some (behind nat_cmp folder.now path))
        → lookup nat_cmp settings.new path ≡ None) }
    ensures others { OnOk result ((path : List ℕ)
        → IsFalse (is_some (behind nat_cmp folder.now path))
        → lookup nat_cmp settings.new path ≡ lookup nat_cmp settings.old path) }
{
    clear(settings, folder)
}

/// Sets one setting, and answers the settings from before.
pub fn set_and_keep(
    settings: &mut Settings,
    path: &[u8],
    value: u32,
) -> Result<Settings, AllocError>
    ensures before { IfOk result (λ before. (other : List ℕ)
        → lookup nat_cmp before other ≡ lookup nat_cmp settings.old other) }
    ensures set { IfOk result (λ _. lookup nat_cmp settings.new path.now ≡ Some value) }
{
    let before = settings.clone()?;
    match set(settings, path, value) {
        Ok(()) => Ok(before),
        Err(refused) => Err(refused),
    }
}
