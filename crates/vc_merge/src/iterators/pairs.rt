//! The keys of a map, and its values, by reference and in ascending order of the keys.
ghost use Rattle.std.specs.Prelude.{◌≡◌, length};
ghost use Rattle.std.specs.Iterator.{at_most};
ghost use Rattle.std.specs.Map.{keys_of, values_of};
ghost use Rattle.std.specs.Map.Iter.{TakesFirst, TakesLast, deref};
ghost use Rattle.vc_merge.specs.Ascending.{Ascends};
ghost use Rattle.vc_merge.specs.Showing.{ShowsBothWays};
ghost use Rattle.vc_merge.specs.Yielded.{shown_ascend};

use crate::iterators::SortedByItem;
use std::marker::Model;
use std::slice;

/// The keys of a map in ascending order, by reference. Contracts see the list of the keys that are
/// left.
///
/// A step takes no memory.
#[derive(Drop)]
pub struct VecMapKeys<'a, K, V> {
    pairs: slice::Iter<'a, (K, V)>,
}

impl<'a, K, V> Model for VecMapKeys<'a, K, V> {
    ghost use Rattle.std.specs.Prelude.{List};
    ghost use Rattle.std.specs.Map.{keys_of};
    ghost use Rattle.std.specs.Slice.Iter.{iter_rest};

    ghost Value = { List K };

    ghost view = { λ s. keys_of (iter_rest s.pairs) };
}

/// The iterator over the keys of a list of pairs. For the crates of maps; takes no memory.
pub fn vec_map_keys_of<K, V>(list: &[(K, V)]) -> VecMapKeys<'_, K, V>
    ensures { ShowsBothWays (keys_of list.now) result }
{
    VecMapKeys { pairs: list.iter() }
}

impl<'a, K, V> Iterator for VecMapKeys<'a, K, V> {
    type Item = &'a K;

    ghost next_gives = { TakesFirst deref };

    ghost remaining = { λ s. at_most (length s) };

    fn next(&mut self) -> Option<&'a K> {
        match self.pairs.next() {
            Some((key, _)) => Some(key),
            None => None,
        }
    }

    fn size_hint(&self) -> (usize, Option<usize>) {
        let len = self.len();
        (len, Some(len))
    }
}

impl<'a, K, V> DoubleEndedIterator for VecMapKeys<'a, K, V> {
    ghost next_back_gives = { TakesLast deref };

    fn next_back(&mut self) -> Option<&'a K> {
        match self.pairs.next_back() {
            Some((key, _)) => Some(key),
            None => None,
        }
    }
}

impl<'a, K, V> ExactSizeIterator for VecMapKeys<'a, K, V> {
    fn len(&self) -> usize {
        self.pairs.len()
    }
}

impl<'a, K: Ord, V> SortedByItem for VecMapKeys<'a, K, V> {
    ghost is_sorted = { λ rest. Ascends K.cmp rest };

    ghost items_ascend = { shown_ascend K.cmp };
}

/// The values of a map in ascending order of their keys, by reference. Contracts see the list of
/// the values that are left.
///
/// A step takes no memory.
#[derive(Drop)]
pub struct VecMapValues<'a, K, V> {
    pairs: slice::Iter<'a, (K, V)>,
}

impl<'a, K, V> Model for VecMapValues<'a, K, V> {
    ghost use Rattle.std.specs.Prelude.{List};
    ghost use Rattle.std.specs.Map.{values_of};
    ghost use Rattle.std.specs.Slice.Iter.{iter_rest};

    ghost Value = { List V };

    ghost view = { λ s. values_of (iter_rest s.pairs) };
}

/// The iterator over the values of a list of pairs. For the crates of maps; takes no memory.
pub fn vec_map_values_of<K, V>(list: &[(K, V)]) -> VecMapValues<'_, K, V>
    ensures { ShowsBothWays (values_of list.now) result }
{
    VecMapValues { pairs: list.iter() }
}

impl<'a, K, V> Iterator for VecMapValues<'a, K, V> {
    type Item = &'a V;

    ghost next_gives = { TakesFirst deref };

    ghost remaining = { λ s. at_most (length s) };

    fn next(&mut self) -> Option<&'a V> {
        match self.pairs.next() {
            Some((_, value)) => Some(value),
            None => None,
        }
    }

    fn size_hint(&self) -> (usize, Option<usize>) {
        let len = self.len();
        (len, Some(len))
    }
}

impl<'a, K, V> DoubleEndedIterator for VecMapValues<'a, K, V> {
    ghost next_back_gives = { TakesLast deref };

    fn next_back(&mut self) -> Option<&'a V> {
        match self.pairs.next_back() {
            Some((_, value)) => Some(value),
            None => None,
        }
    }
}

impl<'a, K, V> ExactSizeIterator for VecMapValues<'a, K, V> {
    fn len(&self) -> usize {
        self.pairs.len()
    }
}
