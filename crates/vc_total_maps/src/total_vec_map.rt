//! `TotalVecMap`, a map with a value at every key.
ghost use Rattle.std.specs.Prelude.{◌≡◌, ◌<◌, [], cond, length, not, Ok, IfOk, IsOk, IsSome, IsTrue, OnErr, OnOk};
ghost use Rattle.std.specs.Ordering.{eq_by_cmp};
ghost use Rattle.std.specs.Fn.{FnOnceReturnsAt};
ghost use Rattle.std.specs.List.{filter};
ghost use Rattle.vc_merge.specs.Clones.{ClonesAreEqual};
ghost use Rattle.vc_joins.specs.Entries.{entry_at, value_at};
ghost use Rattle.vc_total_maps.specs.Putting.{IsPut};
ghost use Rattle.vc_total_maps.specs.TotalMap.{total_map, at, put_value, put_entry, NoneIsDefault, IsClonedMap};

mod arithmetic;
mod change;
mod combine;
mod comparisons;
mod numbers;

use std::alloc::{AllocError, Allocator, Global};
use std::default::MadeWith;
use std::marker::Model;
use std::ops::Index;
use vc_maps::vec_map::{AbstractVecMap, VecMap};
use vc_sets::cloning::ClonesEqual;

/// A map with a value at every key: a `VecMap`, and a default for each key that it lacks. No key is
/// mapped to a value that equals the default.
///
/// Contracts see it as the list of its pairs and the default.
///
/// ```
/// let calls: VecMap<u16, u32, 4> = VecMap::single(alloc, (22, 3))?;
/// let counts = TotalVecMap::new(calls, 0);
/// assert!(rt; counts[&22] == 3 && counts[&80] == 0);
/// ```
#[derive(Drop)]
pub struct TotalVecMap<K: Ord, V: Eq, const N: usize, A: Allocator = Global> {
    mappings: VecMap<K, V, N, A>,
    default: V,
}

/// A total map with room for one pair inline.
pub type TotalVecMap1<K, V> = TotalVecMap<K, V, 1>;

impl<K: Ord, V: Eq, const N: usize, A: Allocator> Model for TotalVecMap<K, V, N, A> {
    ghost use Rattle.vc_total_maps.specs.TotalMap.{TotalMap, total_map, total_map_code, NoneIsDefault};

    ghost Value = { TotalMap K V };

    ghost coded = { total_map_code K.code V.code };

    ghost view = { λ m. total_map m.mappings m.default };

    ghost invariant = { λ m. NoneIsDefault K.cmp V.eq (total_map m.mappings m.default) };
}

impl<K: Ord, V: Eq, const N: usize, A: Allocator> TotalVecMap<K, V, N, A> {
    /// The pairs whose values differ from the default. Takes no memory.
    pub fn non_default_mappings(&self) -> &VecMap<K, V, N, A>
        ensures pairs { result.now ≡ self.now.mappings }
        ensures differ { NoneIsDefault K.cmp V.eq self.now }
    {
        &self.mappings
    }

    /// The pairs whose values differ from the default, and the default. Both are moved, and no
    /// memory is taken.
    pub fn into_parts(self) -> (VecMap<K, V, N, A>, V)
        ensures pairs { result.0 ≡ self.mappings }
        ensures default { result.1 ≡ self.default }
        ensures differ { NoneIsDefault K.cmp V.eq self }
    {
        (self.mappings, self.default)
    }

    /// The value at each key that is not mapped. Takes no memory.
    pub fn default_value(&self) -> &V
        ensures { result.now ≡ self.now.default }
    {
        &self.default
    }
}

/// The value at a key: the one of an equal key, and otherwise the default. Searches the list, and
/// takes no memory.
impl<'a, K: Ord, V: Eq, const N: usize, A: Allocator> Index<&'a K> for TotalVecMap<K, V, N, A> {
    type Output = V;

    ghost index_gives = { λ m k v. v ≡ at K.cmp m k.now };

    fn index(&self, key: &'a K) -> &V {
        match self.mappings.get(key) {
            Some(value) => value,
            None => &self.default,
        }
    }
}

impl<K: Ord + Drop, V: Eq + Drop, const N: usize, A: Allocator + Copy> TotalVecMap<K, V, N, A>
where
    (K, V): MadeWith<A>,
{
    /// The map with one value at every key. Takes no memory.
    pub fn constant(alloc: A, value: V) -> Self
        ensures { result ≡ total_map [] value }
    {
        TotalVecMap {
            mappings: VecMap::empty(alloc),
            default: value,
        }
    }

    /// The map with the values of `map`, and `default` at each key that it lacks.
    ///
    /// Pairs with a value that equals the default are dropped: such a key has the default itself.
    /// Takes no memory.
    pub fn new(mut map: VecMap<K, V, N, A>, default: V) -> Self
        ensures { result ≡ total_map (filter (λ p. not (V.eq p.1 default)) map) default }
    {
        map.retain(
            |pair: &(K, V)| -> bool
                ensures { result ≡ not (V.eq pair.now.1 default) }
            { pair.1 != default },
        );
        TotalVecMap {
            mappings: map,
            default,
        }
    }

    /// Sets the value at one key. All other keys and the default are unchanged.
    ///
    /// A value that equals the default is dropped, and the key is not mapped then: it has the
    /// default itself. Otherwise a key that is held is replaced together with its value. Compares
    /// fewer than `1.5 * log2(n) + 4` times among `n` pairs. It takes memory only for a new key,
    /// where `N` or more pairs are held; on refusal it leaves the map unchanged and drops the key
    /// and the value.
    ///
    /// ```
    /// counts.set(80, 5)?;
    /// assert!(rt; counts[&80] == 5);
    /// ```
    pub fn set(&mut self, key: K, value: V) -> Result<(), AllocError>
        ensures values { OnOk result ((k : K) → at K.cmp self.new k ≡ cond (eq_by_cmp K.cmp k key)
            (put_value V.eq self.old value) (at K.cmp self.old k)) }
        ensures entries { OnOk result ((k : K) → entry_at K.cmp self.new.mappings k
            ≡ cond (eq_by_cmp K.cmp k key) (put_entry V.eq self.old (key, value))
            (entry_at K.cmp self.old.mappings k)) }
        ensures default { self.new.default ≡ self.old.default }

        // It succeeds where the value equals the default, at a key that is mapped, and where fewer
        // than `N` pairs are held.
        ensures same { IsTrue (V.eq value self.old.default) → IsOk result }
        ensures known { IsSome (value_at K.cmp self.old.mappings key) → IsOk result }
        ensures room { length self.old.mappings < N → IsOk result }
        ensures err { OnErr result (self.new ≡ self.old) }
    {
        if value == self.default {
            let _old = self.mappings.remove(&key);
            return Ok(());
        }
        let _old = self.mappings.insert(key, value)?;
        Ok(())
    }

    /// Replaces the value at one key by the result of `f` on it. All other keys and the default are
    /// unchanged.
    ///
    /// `f` is called once, with the value of the key or, where it is not mapped, the default. Its
    /// answer is set as by [`set`](TotalVecMap::set), and takes memory as that does. On refusal
    /// there or by `f`, the map is unchanged, and the key and the answer are dropped.
    ///
    /// ```
    /// counts.update(80, |count| Ok(*count + 1))?;
    /// ```
    pub fn update<F: FnOnce(&V) -> Result<V, AllocError> + Drop>(
        &mut self,
        key: K,
        f: F,
    ) -> Result<(), AllocError>
        requires callable { (v : _) → v.now ≡ at K.cmp self.old key → F.pre f v }
        ensures put { OnOk result ((value : V)
            × FnOnceReturnsAt F.FnOnce f (at K.cmp self.old key) (Ok value)
            × IsPut K.cmp V.eq self.old key value self.new) }

        // With a closure that answers as a function does.
        ensures plain { OnOk result ((g : V → V)
            → ((v w : V) → FnOnceReturnsAt F.FnOnce f v (Ok w) → w ≡ g v)
            → IsPut K.cmp V.eq self.old key (g (at K.cmp self.old key)) self.new) }
        ensures default { self.new.default ≡ self.old.default }
        ensures err { OnErr result (self.new ≡ self.old) }
    {
        let value = f(&self[&key])?;
        self.set(key, value)
    }

    /// Gives back memory that the list does not need. Where the allocator refuses, the list stays
    /// where it is, so the call always succeeds.
    pub fn shrink_to_fit(&mut self) -> Result<(), AllocError>
        ensures same { self.new ≡ self.old }
        ensures succeeds { IsOk result }
    {
        self.mappings.shrink_to_fit()
    }
}

impl<K: Ord + Clone + Drop, V: Eq + Clone + Drop, const N: usize, A: Allocator + Copy> TotalVecMap<
    K,
    V,
    N,
    A,
>
where
    (K, V): MadeWith<A>,
{
    /// A clone of each pair and of the default. Clones of values have to equal their sources, so
    /// that no value of the copy equals its default.
    ///
    /// Takes memory where there are more than `N` pairs, and as the clones do; on refusal it drops
    /// what was copied.
    pub fn clone(&self) -> Result<Self, AllocError>
        requires keys { ClonesAreEqual K.cmp K.is_clone }
        requires values { (x y : V) → V.is_clone x y → IsTrue (V.eq x y) }
        ensures { IfOk result (IsClonedMap K.is_clone V.is_clone self.now) }
    {
        let mappings = self.mappings.clone()?;
        let default = self.default.clone()?;
        Ok(TotalVecMap { mappings, default })
    }
}

/// Takes memory as [`clone`](TotalVecMap::clone) does.
impl<K: ClonesEqual, V: ClonesEqual, const N: usize, A: Allocator + Copy> Clone
    for TotalVecMap<K, V, N, A>
where
    (K, V): MadeWith<A>,
{
    ghost is_clone = { IsClonedMap K.is_clone V.is_clone };

    fn clone(&self) -> Result<Self, AllocError> {
        TotalVecMap::clone(self)
    }
}
