//! Look-ups and removals by a borrowed form of keys.
ghost use Rattle.std.specs.Prelude.{◌≡◌, cond, None};
ghost use Rattle.std.specs.Borrow.{sem};
ghost use Rattle.std.specs.Map.{keys_of};
ghost use Rattle.std.specs.Option.{option_copied_mut};
ghost use Rattle.std.specs.Ordering.{is_eq};
ghost use Rattle.std.specs.declared.cmp.Ordering.TheVariants.{Equal};
ghost use Rattle.vc_joins.specs.Entries.{entry_at, value_at};
ghost use Rattle.vc_maps.specs.Borrowed.{value_by};
ghost use Rattle.vc_merge.specs.Ascending.{Ascends};
ghost use Rattle.vc_merge.specs.Place.{IsPlace};

use super::VecMap;
use std::alloc::Allocator;
use std::cmp::Ordering;
use std::default::MadeWith;
use vc_merge::merge::Count;
use vc_merge::search::{Sought, look_up};
use vc_sets::borrowed::Borrowed;

/// A form of keys that is sought in a list of pairs.
#[derive(Clone, Copy)]
struct KeyForm<Q>(Q);

impl<K: Ord, V, Q: Borrowed<K>, C: Count> Sought<(K, V), C> for KeyForm<Q> {
    ghost side = { λ s p. Q.side s.0 p.0 };

    fn compare(&self, pair: &(K, V), steps: &mut C) -> Ordering {
        steps.tick();
        self.0.compare(&pair.0)
    }
}

/// The place of the pair whose key is equal to a form in a list that ascends by its keys, or the
/// gap where it would be.
pub fn find_key_by<K: Ord, V, Q: Borrowed<K>>(pairs: &[(K, V)], sought: Q) -> Result<usize, usize>
    requires { Ascends K.cmp (keys_of pairs.now) }
    ensures { IsPlace (λ p. Q.side sought p.0) pairs.now result }
{
    look_up(pairs, &KeyForm(sought))
}

impl<K: Ord, V, const N: usize, A: Allocator> VecMap<K, V, N, A> {
    ghost use Rattle.vc_maps.specs.Updating.{lends_value_by};

    /// The value at the key that is equal to a borrowed form, to write through. The value written
    /// replaces the old one; the keys and all other values stay. Compares as often as `get`, and
    /// takes no memory.
    ///
    /// ```
    /// if let Some(age) = ages.get_mut_by(Some("ada")) {
    ///     *age = 37;
    /// }
    /// ```
    pub fn get_mut_by<Q: Borrowed<K>>(&mut self, sought: Q) -> Option<&mut V>
        ensures* writes_back { sem 𝓛 (lends_value_by K.row V.row N.row A.row K.Ord A.Allocator
            self.entry (Q.side sought) result) }
        ensures value { option_copied_mut result ≡ value_by (Q.side sought) self.old }

        // It answers as `get_mut` does by any key that is equal to the form.
        ensures equal { (k : K) → Q.side sought k ≡ Equal
            → option_copied_mut result ≡ value_at K.cmp self.old k }
    {
        match find_key_by(self.pairs.as_slice(), sought) {
            Ok(place) => match self.pairs.get_mut(place) {
                Some((_, value)) => Some(value),
                None => None,
            },
            Err(_) => None,
        }
    }
}

impl<K: Ord + Drop, V: Drop, const N: usize, A: Allocator + Copy> VecMap<K, V, N, A>
where
    (K, V): MadeWith<A>,
{
    /// Removes the pair whose key is equal to a borrowed form, and returns its value, or none where
    /// no such pair is held. The key that was held is dropped; all other pairs stay, and the list
    /// keeps its capacity.
    ///
    /// Compares as often as `get`, moves the pairs after the removed one, and takes no memory.
    ///
    /// ```
    /// assert!(rt; ages.remove_by(Some("ada")) == Some(36));
    /// assert!(rt; ages.get_by(Some("ada")).is_none());
    /// ```
    pub fn remove_by<Q: Borrowed<K>>(&mut self, sought: Q) -> Option<V>
        ensures old { result ≡ value_by (Q.side sought) self.old }
        ensures values { (k : K) → value_at K.cmp self.new k
            ≡ cond (is_eq (Q.side sought k)) None (value_at K.cmp self.old k) }
        ensures entries { (k : K) → entry_at K.cmp self.new k
            ≡ cond (is_eq (Q.side sought k)) None (entry_at K.cmp self.old k) }

        // It answers as `remove` does by any key that is equal to the form.
        ensures equal { (k : K) → Q.side sought k ≡ Equal → result ≡ value_at K.cmp self.old k }
    {
        match find_key_by(self.pairs.as_slice(), sought) {
            Ok(place) => {
                let (_, value) = self.pairs.remove(place);
                Some(value)
            }
            Err(_) => None,
        }
    }
}
