//! One key of a map: its value read, changed or inserted.
ghost use Rattle.smallvec.specs.SmallVec.{HasRoomFor};
ghost use Rattle.std.specs.Prelude.{◌≡◌, ◌<◌, cond, false, length, None, Some, IfOk, IsOk, IsSome, IsSomeAnd, OnErr, OnOk};
ghost use Rattle.std.specs.Borrow.{sem};
ghost use Rattle.std.specs.Map.Calls.{MayWrite};
ghost use Rattle.std.specs.Option.{option_map, unwrap_or, UnwrapsOrElse};
ghost use Rattle.std.specs.Ordering.{eq_by_cmp};
ghost use Rattle.vc_joins.specs.Entries.{AscendsByKey, entry_at, value_at};
ghost use Rattle.vc_maps.specs.Updating.{UpsertsEntry, UpsertsValue};
ghost use Rattle.vc_merge.specs.Place.{IsFound};

use super::{AbstractVecMap, VecMap};
use smallvec::SmallVec;
use std::alloc::{AllocError, Allocator};
use std::default::MadeWith;
use std::ops::Index;
use vc_merge::moving::insert_at;
use vc_merge::search::find_key;

/// `map[&key]` is the value at a key, which the map has to bind; where it may not, call
/// [`get`](AbstractVecMap::get). Compares as often as that, and takes no memory.
impl<'a, K: Ord, V, const N: usize, A: Allocator> Index<&'a K> for VecMap<K, V, N, A> {
    type Output = V;

    ghost can_index = { λ m k. IsSome (value_at K.cmp m k.now) };

    ghost index_gives = { λ m k v. value_at K.cmp m k.now ≡ Some v };

    fn index(&self, key: &'a K) -> &V {
        self.get(key).unwrap()
    }
}

/// Makes room for one more. It is not refused where fewer than `N` are held.
fn make_room<T: MadeWith<A> + Drop, const N: usize, A: Allocator + Copy>(
    list: &mut SmallVec<T, N, A>,
) -> Result<(), AllocError>
    ensures items { list.new.items ≡ list.old.items }
    ensures room { OnOk result (HasRoomFor list.new 1) }
    ensures few { length list.old.items < N → IsOk result }
{
    if list.len() == list.capacity() {
        list.reserve(1)?;
    }
    Ok(())
}

/// The place of the pair at a key. Where there is none, room is made, and then a pair with the
/// answer of `make` is inserted.
fn place_of<K: Ord + Drop, V: Drop, const N: usize, A: Allocator + Copy, F: FnOnce() -> V + Drop>(
    pairs: &mut SmallVec<(K, V), N, A>,
    key: K,
    make: F,
) -> Result<usize, AllocError>
where
    (K, V): MadeWith<A>,
    requires ascends { AscendsByKey K.cmp pairs.old.items }
    requires callable { value_at K.cmp pairs.old.items key ≡ None → F.pre make }
    ensures found { IfOk result (λ place. IsFound (λ p. K.cmp p.0 key) pairs.new.items place) }
    ensures ascends { AscendsByKey K.cmp pairs.new.items }
    ensures entry { OnOk result (IsSomeAnd (entry_at K.cmp pairs.new.items key)
        (UnwrapsOrElse (entry_at K.cmp pairs.old.items key) (λ p. (p.0 ≡ key) × F.post make p.1))) }
    ensures others { OnOk result ((k : K) → eq_by_cmp K.cmp k key ≡ false
        → entry_at K.cmp pairs.new.items k ≡ entry_at K.cmp pairs.old.items k) }
    ensures known { IsSome (value_at K.cmp pairs.old.items key) → IsOk result }
    ensures room { length pairs.old.items < N → IsOk result }
    ensures err { OnErr result (pairs.new.items ≡ pairs.old.items) }
{
    match find_key(pairs.as_slice(), &key) {
        Ok(place) => Ok(place),
        Err(place) => {
            make_room(pairs)?;
            insert_at(pairs, place, (key, make()))?;
            Ok(place)
        }
    }
}

impl<K: Ord + Drop, V: Drop, const N: usize, A: Allocator + Copy> VecMap<K, V, N, A>
where
    (K, V): MadeWith<A>,
{
    ghost use Rattle.vc_maps.specs.Updating.{lends_bound};

    /// Lets `f` change the value at a key that is bound; binds a key that is not bound to
    /// `default`, without a call of `f`. A key that is held is kept, and `key` and `default` are
    /// dropped then.
    ///
    /// Looks the key up once: compares fewer than `1.5 * log2(n) + 4` times among `n` pairs, and
    /// moves the pairs after a new one. It takes memory only for a new key, where `N` or more pairs
    /// are held; on refusal it leaves the map unchanged and drops the key, the value and `f`.
    ///
    /// ```
    /// counts.upsert(word, 1, |count| *count += 1)?;
    /// ```
    pub fn upsert<F: FnOnce(&mut V) + Drop>(
        &mut self,
        key: K,
        default: V,
        f: F,
    ) -> Result<(), AllocError>
        requires callable { (v : _) → value_at K.cmp self.old key ≡ Some v.now → F.pre f v }
        ensures value { OnOk result (UpsertsValue (MayWrite F.FnOnce f) default
            (value_at K.cmp self.old key) (value_at K.cmp self.new key)) }
        ensures entry { OnOk result (UpsertsEntry (MayWrite F.FnOnce f) (key, default)
            (entry_at K.cmp self.old key) (entry_at K.cmp self.new key)) }
        ensures others { OnOk result ((k : K) → eq_by_cmp K.cmp k key ≡ false
            → entry_at K.cmp self.new k ≡ entry_at K.cmp self.old k) }
        ensures other_values { OnOk result ((k : K) → eq_by_cmp K.cmp k key ≡ false
            → value_at K.cmp self.new k ≡ value_at K.cmp self.old k) }

        // With a closure that writes the result of a function.
        ensures plain { OnOk result ((g : V → V)
            → ((v w : V) → MayWrite F.FnOnce f v w → w ≡ g v)
            → (k : K) → value_at K.cmp self.new k ≡ cond (eq_by_cmp K.cmp k key)
            (Some (unwrap_or (option_map g (value_at K.cmp self.old key)) default))
            (value_at K.cmp self.old k)) }

        // It succeeds where the key is held, and where fewer than `N` pairs are held.
        ensures known { IsSome (value_at K.cmp self.old key) → IsOk result }
        ensures room { length self.old < N → IsOk result }
        ensures err { OnErr result (self.new ≡ self.old) }
    {
        match find_key(self.pairs.as_slice(), &key) {
            Ok(place) => {
                let (_, value) = &mut self.pairs.as_mut_slice()[place];
                f(value);
            }
            Err(place) => insert_at(&mut self.pairs, place, (key, default))?,
        }
        Ok(())
    }

    /// The value at a key, to write through. A key that is not bound is first bound to the answer
    /// of `make`. Where the key is held, `make` is not called, the held key is kept, and `key` is
    /// dropped.
    ///
    /// The value written through the reference is what the key is bound to; all other pairs stay.
    /// Looks the key up once, and compares as often as [`upsert`](VecMap::upsert). It takes memory
    /// only for a new key, where `N` or more pairs are held; on refusal it leaves the map
    /// unchanged, has not called `make`, and drops it and the key.
    ///
    /// ```
    /// let count = counts.get_or_insert_with(word, || 0)?;
    /// *count += 1;
    /// ```
    pub fn get_or_insert_with<F: FnOnce() -> V + Drop>(
        &mut self,
        key: K,
        make: F,
    ) -> Result<&mut V, AllocError>
        requires callable { value_at K.cmp self.old key ≡ None → F.pre make }
        ensures* writes_back { sem 𝓛 (lends_bound K.row V.row N.row A.row K.Ord A.Allocator
            self.entry key result) }
        ensures value { IfOk result (λ lent.
            UnwrapsOrElse (value_at K.cmp self.old key) (F.post make) lent.now) }

        // It succeeds where the key is held, and where fewer than `N` pairs are held.
        ensures known { IsSome (value_at K.cmp self.old key) → IsOk result }
        ensures room { length self.old < N → IsOk result }
    {
        let place = place_of(&mut self.pairs, key, make)?;
        match self.pairs.get_mut(place) {
            Some((_, value)) => Ok(value),
            None => unreachable!(),
        }
    }
}
