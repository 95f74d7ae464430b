//! Values of a map that are changed in place.
ghost use Rattle.std.specs.Prelude.{◌≡◌};
ghost use Rattle.std.specs.Map.{keys_of};
ghost use Rattle.vc_joins.specs.Entries.{entry_at};
ghost use Rattle.vc_maps.specs.Writing.{CanWriteEach, WritesAt, WritesEntry, WritesInTurn};

use super::VecMap;
use std::alloc::Allocator;

impl<K: Ord, V, const N: usize, A: Allocator> VecMap<K, V, N, A> {
    /// Calls `f` once with each key and its value, in ascending order of the keys. `f` may change
    /// the value; the key is kept.
    ///
    /// Makes no comparison, moves no pair, and takes no memory.
    ///
    /// ```
    /// ports.for_each_value(|port, open| *open = *port < 1024);
    /// ```
    pub fn for_each_value<F: FnMut(&K, &mut V) + Drop>(&mut self, f: F)
        requires { CanWriteEach F.FnMut f self.old }
        ensures keys { keys_of self.new ≡ keys_of self.old }
        ensures values { (last : F) × WritesInTurn (WritesAt F.FnMut) f self.old self.new last }
        ensures entries { (k : K) → WritesEntry (WritesAt F.FnMut) (entry_at K.cmp self.old k)
            (entry_at K.cmp self.new k) }
    {
        write_each(self.pairs.as_mut_slice(), f);
    }
}

/// Calls `f` with the key and the value of each pair; `f` may change the value.
fn write_each<K, V, F: FnMut(&K, &mut V) + Drop>(pairs: &mut [(K, V)], mut f: F)
    requires { CanWriteEach F.FnMut f pairs.old }
    ensures { (last : F) × WritesInTurn (WritesAt F.FnMut) f pairs.old pairs.new last }
{
    'pairs: for at in 0..pairs.len() {
        let (key, value) = &mut pairs[at];
        f(key, value);
    }
}
