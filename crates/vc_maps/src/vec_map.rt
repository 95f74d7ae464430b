//! `VecMap`, a small map as a list of pairs that ascends by key.
ghost use Rattle.std.specs.Prelude.{◌≡◌, ◌<◌, ◌-◌, ◌↔◌, [], List, cond, Some, IsSome, is_some, length, slice_get, IfOk, IsOk, OnErr, IsTrue};
ghost use Rattle.std.specs.BTreeMap.Range.{entries_between};
ghost use Rattle.std.specs.Borrow.{sem};
ghost use Rattle.std.specs.Map.{keys_of, values_of};
ghost use Rattle.std.specs.Option.{option_copied, option_copied_mut};
ghost use Rattle.std.specs.Ordering.{eq_by_cmp};
ghost use Rattle.std.specs.declared.cmp.Ordering.TheVariants.{Equal};
ghost use Rattle.vc_joins.specs.Entries.{AscendsByKey, entry_at, value_at};
ghost use Rattle.vc_maps.specs.Borrowed.{value_by};
ghost use Rattle.vc_merge.specs.Ascending.{Ascends};
ghost use Rattle.vc_merge.specs.Showing.{ShowsBothWays, ShowsByKey, ShowsItems};

mod borrowed;
mod changes;
mod collecting;
mod combining;
mod comparisons;
pub mod conversions;
mod in_place;
mod iteration;
mod joins;
mod mapping;
mod ordered;
mod removal;
mod updating;
mod writing;

pub use crate::fresh::join_asking;
use borrowed::find_key_by;
pub use joins::{inner_join, left_join, outer_join, right_join};
use smallvec::SmallVec;
use std::alloc::{AllocError, Allocator, Global};
use std::default::MadeWith;
use std::marker::Model;
use std::ops::RangeBounds;
use std::{mem, slice};
use vc_merge::iterators::{
    VecMapIter, VecMapKeys, VecMapValues, vec_map_iter_of, vec_map_keys_of, vec_map_values_of,
};
use vc_merge::moving::insert_at;
use vc_merge::search::{find_key, pairs_between};
use vc_sets::borrowed::Borrowed;

/// A map, as a list of its pairs in ascending order of their keys. Up to `N` of them are held
/// inline, without an allocation. A list that once spilled to the heap keeps its block until
/// `shrink_to_fit`.
///
/// Contracts see it as that list.
///
/// ```
/// let mut ports: VecMap<u16, bool, 4> = VecMap::single(alloc, (80, true))?;
/// assert!(rt; ports.insert(22, false)?.is_none());
/// assert!(rt; ports.as_ref() == [(22, false), (80, true)].as_slice());
/// ```
#[derive(Drop)]
pub struct VecMap<K: Ord, V, const N: usize, A: Allocator = Global> {
    pairs: SmallVec<(K, V), N, A>,
}

/// A map with room for one pair inline.
pub type VecMap1<K, V> = VecMap<K, V, 1>;

impl<K: Ord, V, const N: usize, A: Allocator> Model for VecMap<K, V, N, A> {
    ghost use Rattle.std.specs.Prelude.{List};
    ghost use Rattle.vc_joins.specs.Entries.{AscendsByKey};

    ghost Value = { List (K × V) };

    ghost view = { λ m. m.pairs.items };

    ghost invariant = { λ m. AscendsByKey K.cmp m.pairs.items };
}

impl<K: Ord, V, const N: usize, A: Allocator> VecMap<K, V, N, A> {
    ghost use Rattle.vc_maps.specs.Lending.{lends_value};

    /// The number of pairs. Takes no memory.
    pub fn len(&self) -> usize
        ensures { result ≡ length self.now }
    {
        self.pairs.len()
    }

    /// Whether there is no pair. Takes no memory.
    pub fn is_empty(&self) -> bool
        ensures { IsTrue result ↔ (self.now ≡ []) }
    {
        self.pairs.is_empty()
    }

    /// The allocator of the list of pairs.
    pub fn allocator(&self) -> A
    where
        A: Copy,
    {
        *self.pairs.allocator()
    }

    /// The pairs in ascending order of their keys. Takes no memory.
    pub fn as_ref(&self) -> &[(K, V)]
        ensures pairs { result.now ≡ self.now }
        ensures ascends { AscendsByKey K.cmp self.now }
    {
        self.pairs.as_slice()
    }

    /// The value at a key that is equal to `key`, to write through. The value written replaces the
    /// old one; the keys and all other values stay. Compares fewer than `1.5 * log2(n) + 4` times
    /// among `n` pairs, and takes no memory.
    ///
    /// ```
    /// if let Some(open) = ports.get_mut(&80) {
    ///     *open = false;
    /// }
    /// ```
    pub fn get_mut(&mut self, key: &K) -> Option<&mut V>
        ensures* writes_back { sem 𝓛 (lends_value K.row V.row N.row A.row K.Ord A.Allocator
            self.entry key.now result) }
        ensures value { option_copied_mut result ≡ value_at K.cmp self.old key.now }
    {
        match find_key(self.pairs.as_slice(), key) {
            Ok(place) => match self.pairs.get_mut(place) {
                Some((_, value)) => Some(value),
                None => None,
            },
            Err(_) => None,
        }
    }
}

impl<K: Ord + Drop, V: Drop, const N: usize, A: Allocator + Copy> VecMap<K, V, N, A>
where
    (K, V): MadeWith<A>,
{
    /// The map with no pair. Takes no memory.
    pub fn empty(alloc: A) -> Self
        ensures { result ≡ [] }
    {
        VecMap {
            pairs: SmallVec::new(alloc),
        }
    }

    /// Binds a key to a value. A key that is held is replaced together with its value, which is
    /// returned.
    ///
    /// Compares fewer than `1.5 * log2(n) + 4` times among `n` pairs, and moves the pairs after a
    /// new one. It takes memory only for a new key, where `N` or more pairs are held; on refusal it
    /// leaves the map unchanged and drops the key and the value.
    pub fn insert(&mut self, key: K, value: V) -> Result<Option<V>, AllocError>
        ensures old { IfOk result (λ old. old ≡ value_at K.cmp self.old key) }
        ensures values { IfOk result (λ _. (k : K)
            → value_at K.cmp self.new k
            ≡ cond (eq_by_cmp K.cmp k key) (Some value) (value_at K.cmp self.old k)) }
        ensures entries { IfOk result (λ _. (k : K)
            → entry_at K.cmp self.new k
            ≡ cond (eq_by_cmp K.cmp k key) (Some (key, value)) (entry_at K.cmp self.old k)) }

        // It succeeds where the key is held, and where fewer than `N` pairs are held.
        ensures known { IsSome (value_at K.cmp self.old key) → IsOk result }
        ensures room { length self.old < N → IsOk result }
        ensures err { OnErr result (self.new ≡ self.old) }
    {
        match find_key(self.pairs.as_slice(), &key) {
            Ok(place) => {
                let known = &mut self.pairs.as_mut_slice()[place];
                let (_, old) = mem::replace(known, (key, value));
                Ok(Some(old))
            }
            Err(place) => {
                insert_at(&mut self.pairs, place, (key, value))?;
                Ok(None)
            }
        }
    }
}

/// A map whose pairs can be read as one list that ascends by key.
///
/// An implementation writes only `as_slice`, and the pairs that contracts see.
pub trait AbstractVecMap<K: Ord, V> {
    ghost pairs: { Self → List (K × V) };

    /// The pairs in ascending order of their keys. Takes no memory.
    fn as_slice(&self) -> &[(K, V)]
        ensures pairs { result.now ≡ pairs self.now }
        ensures ascends { AscendsByKey K.cmp (pairs self.now) };

    /// Whether there is no pair. Takes no memory.
    fn is_empty(&self) -> bool
        ensures { IsTrue result ↔ (pairs self.now ≡ []) }
    {
        self.as_slice().is_empty()
    }

    /// The value at a key that is equal to `key`. Compares fewer than `1.5 * log2(n) + 4` times
    /// among `n` pairs, and takes no memory.
    fn get<'a>(&'a self, key: &K) -> Option<&'a V>
    where
        K: 'a,
        ensures { option_copied result ≡ value_at K.cmp (pairs self.now) key.now }
    {
        let pairs = self.as_slice();
        match find_key(pairs, key) {
            Ok(place) => Some(&pairs[place].1),
            Err(_) => None,
        }
    }

    /// Whether a key is equal to `key`. Compares as often as `get`, and takes no memory.
    fn contains_key(&self, key: &K) -> bool
        ensures { result ≡ is_some (value_at K.cmp (pairs self.now) key.now) }
    {
        find_key(self.as_slice(), key).is_ok()
    }

    /// The value at the key that is equal to a borrowed form, such as an `Option<&str>` among
    /// `Option<String>`s. Compares as often as `get`, and takes no memory.
    ///
    /// ```
    /// assert!(rt; ages.get_by(Some("ada")) == Some(&36));
    /// ```
    final fn get_by<'a, Q: Borrowed<K>>(&'a self, sought: Q) -> Option<&'a V>
    where
        K: 'a,
        ensures value { option_copied result ≡ value_by (Q.side sought) (pairs self.now) }

        // It answers as `get` does by any key that is equal to the form.
        ensures equal { (k : K) → Q.side sought k ≡ Equal
            → option_copied result ≡ value_at K.cmp (pairs self.now) k }
    {
        let pairs = self.as_slice();
        match find_key_by(pairs, sought) {
            Ok(found) => Some(&pairs[found].1),
            Err(_) => None,
        }
    }

    /// Whether a key is equal to a borrowed form. Compares as often as `get`, and takes no memory.
    final fn contains_key_by<Q: Borrowed<K>>(&self, sought: Q) -> bool
        ensures answer { result ≡ is_some (value_by (Q.side sought) (pairs self.now)) }
        ensures equal { (k : K) → Q.side sought k ≡ Equal
            → result ≡ is_some (value_at K.cmp (pairs self.now) k) }
    {
        find_key_by(self.as_slice(), sought).is_ok()
    }

    /// The pair with the least key, or none where there is no pair. Makes no comparison, and takes
    /// no memory.
    fn first(&self) -> Option<&(K, V)>
        ensures { option_copied result ≡ slice_get (pairs self.now) 0 }
    {
        self.as_slice().first()
    }

    /// The pair with the greatest key, or none where there is no pair. Makes no comparison, and
    /// takes no memory.
    fn last(&self) -> Option<&(K, V)>
        ensures { option_copied result
            ≡ slice_get (pairs self.now) (length (pairs self.now) - 1) }
    {
        self.as_slice().last()
    }

    /// The pairs whose keys lie in a range of keys, in ascending order of their keys. A range that
    /// runs backwards has none.
    ///
    /// Compares as often as `get` for each end that the range has, and takes no memory.
    ///
    /// ```
    /// assert!(rt; ports.range(..1024) == [(22, false), (80, true)].as_slice());
    /// ```
    final fn range<R: RangeBounds<K>>(&self, range: R) -> &[(K, V)]
        ensures { R.has_bounds range → result.now
            ≡ entries_between K.cmp (R.start_bound range) (R.end_bound range) (pairs self.now) }
    {
        pairs_between(self.as_slice(), range)
    }

    /// The pairs in ascending order of their keys, by reference. Takes no memory.
    fn iter(&self) -> VecMapIter<slice::Iter<'_, (K, V)>>
        ensures items { ShowsItems (pairs self.now) result }
        ensures ascends { AscendsByKey K.cmp (pairs self.now) }
        ensures steps { ShowsByKey K.cmp result }
    {
        vec_map_iter_of(self.as_slice())
    }

    /// The keys in ascending order, by reference. Takes no memory.
    fn keys(&self) -> VecMapKeys<'_, K, V>
        ensures keys { ShowsBothWays (keys_of (pairs self.now)) result }
        ensures ascends { Ascends K.cmp result }
    {
        vec_map_keys_of(self.as_slice())
    }

    /// The values in ascending order of their keys, by reference. Takes no memory.
    fn values(&self) -> VecMapValues<'_, K, V>
        ensures { ShowsBothWays (values_of (pairs self.now)) result }
    {
        vec_map_values_of(self.as_slice())
    }
}

impl<K: Ord, V, const N: usize, A: Allocator> AbstractVecMap<K, V> for VecMap<K, V, N, A> {
    ghost pairs = { λ m. m };

    fn as_slice(&self) -> &[(K, V)] {
        self.as_ref()
    }
}
