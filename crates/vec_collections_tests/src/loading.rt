//! A map of a list from outside, with an error type of a user's own.
ghost use Rattle.std.specs.Prelude.{◌≡◌, Err, IfOk, IsOk};
ghost use Rattle.std.specs.Ordering.{nat_cmp};
ghost use Rattle.vec_collections.specs.Entries.{AscendsByKey};
ghost use Rattle.vec_collections_tests.specs.declared.loading.LoadError.TheVariants.{NoMemory, NotAscending};

use std::alloc::{AllocError, Global};
use vec_collections::iterators::ascends_by_key;
use vec_collections::vec_map::VecMap;

/// Why a list was not loaded.
#[derive(Clone, Copy, Debug, PartialEq, Eq)]
pub enum LoadError {
    /// Its keys do not ascend.
    NotAscending,
    /// Memory was refused.
    NoMemory,
}

impl From<AllocError> for LoadError {
    ghost from_gives = { λ _ error. error ≡ NoMemory };

    fn from(_: AllocError) -> LoadError {
        LoadError::NoMemory
    }
}

/// The map of a list whose keys ascend.
pub fn load(alloc: Global, list: Vec<(u32, u32)>) -> Result<VecMap<u32, u32, 4>, LoadError>
    ensures ok { IfOk result (λ map. map ≡ list.items) }
    ensures ascends { IsOk result → AscendsByKey nat_cmp list.items }
    ensures not_ascending { result ≡ Err NotAscending → ¬ (AscendsByKey nat_cmp list.items) }
{
    if !ascends_by_key(list.as_slice()) {
        return Err(LoadError::NotAscending);
    }
    Ok(VecMap::from_vec(alloc, list)?)
}
