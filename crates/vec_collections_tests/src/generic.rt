//! Code of a user that is generic in elements, keys and values, with only the bounds that it needs.
ghost use Rattle.std.specs.Prelude.{◌≡◌, ◌||◌, Some, IfOk, OnErr, OnOk};
ghost use Rattle.vec_collections.specs.Ascending.{member};
ghost use Rattle.vec_collections.specs.Clones.{ClonesAreEqual};
ghost use Rattle.vec_collections.specs.Entries.{value_at};
ghost use Rattle.vec_collections.specs.JoinValues.{in_both};

use std::alloc::{AllocError, Global};
use std::default::MadeWith;
use vec_collections::vec_map::{VecMap, inner_join};
use vec_collections::vec_set::VecSet;

/// What is in either of two sets, of any elements that can be cloned.
pub fn either<T: Ord + Clone + MadeWith<Global>>(
    left: &VecSet<T, 4>,
    right: &VecSet<T, 4>,
) -> Result<VecSet<T, 4>, AllocError>
    requires clones { ClonesAreEqual T.cmp T.is_clone }
    ensures { IfOk result (λ both. (x : T)
        → member T.cmp both x ≡ (member T.cmp left.now x || member T.cmp right.now x)) }
{
    left.union(right)
}

/// Binds a key in a map of any keys and values.
pub fn bind<K: Ord + Drop, V: Drop>(
    map: &mut VecMap<K, V, 4>,
    key: K,
    value: V,
) -> Result<(), AllocError>
where
    (K, V): MadeWith<Global>,
    ensures ok { OnOk result (value_at K.cmp map.new key ≡ Some value) }
    ensures err { OnErr result (map.new ≡ map.old) }
{
    map.insert(key, value)?;
    Ok(())
}

/// The values of a map at the keys that another one has too.
pub fn common<K: Ord + Clone + Drop, V: Clone + Drop, W>(
    alloc: Global,
    left: &VecMap<K, V, 4>,
    right: &VecMap<K, W, 4>,
) -> Result<VecMap<K, V, 4>, AllocError>
where
    (K, V): MadeWith<Global>,
    requires keys { ClonesAreEqual K.cmp K.is_clone }
    requires values { (v : V) (copy : V) → V.is_clone v copy → copy ≡ v }
    ensures { IfOk result (λ both. (k : K) → value_at K.cmp both k
        ≡ in_both (λ v w. Some v) (value_at K.cmp left.now k) (value_at K.cmp right.now k)) }
{
    inner_join(
        alloc,
        left,
        right,
        |_: &K, value: &V, _: &W| -> Result<Option<V>, AllocError> { Ok(Some(value.clone()?)) },
    )
}
