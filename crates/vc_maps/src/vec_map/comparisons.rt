//! Comparisons, hashes and `Debug` of a map: those of the list of its pairs.
ghost use Rattle.std.specs.Prelude.{◌&&◌, ◌++◌};
ghost use Rattle.std.specs.Ordering.{ordering_then, partial_ordering_then};
ghost use Rattle.std.specs.Cmp.{on_equiv, and_equiv, then_agrees, on_total, then_total, both_tied, on_per, and_per, on_po, then_po};
ghost use Rattle.std.specs.Cmp.Lexicographic.{pointwise, slice_cmp, slice_partial_cmp, lists_per, lists_equiv, lists_po, lists_total, lists_agrees, lists_ties};
ghost use Rattle.std.specs.Hash as fed;
ghost use Rattle.std.specs.Hash.{on_Alike, and-Alike, items_Alike};

use super::VecMap;
use std::alloc::Allocator;
use std::cmp::Ordering;
use std::fmt;
use std::hash::{Hash, Hasher};

/// Two maps are equal where they have equal pairs.
impl<K: Ord, V: PartialEq, const N: usize, A: Allocator> PartialEq for VecMap<K, V, N, A> {
    ghost eq = { pointwise (λ p q. K.eq p.0 q.0 && V.eq p.1 q.1) };

    ghost laws = { lists_per
        (and_per (on_per (λ p. p.0) K.PartialEq.laws) (on_per (λ p. p.1) V.laws)) };

    fn eq(&self, other: &Self) -> bool {
        self.as_ref() == other.as_ref()
    }
}

impl<K: Ord, V: Eq, const N: usize, A: Allocator> Eq for VecMap<K, V, N, A> {
    ghost laws = { lists_equiv
        (and_equiv (on_equiv (λ p. p.0) K.Eq.laws) (on_equiv (λ p. p.1) V.Eq.laws)) };
}

/// Maps are ordered as the lists of their pairs: by the first place at which they differ, first by
/// the key and then by the value. A list that has ended there comes first.
impl<K: Ord, V: PartialOrd, const N: usize, A: Allocator> PartialOrd for VecMap<K, V, N, A> {
    ghost partial_cmp = { slice_partial_cmp
        (λ p q. partial_ordering_then (K.partial_cmp p.0 q.0) (V.partial_cmp p.1 q.1)) };

    ghost laws = { lists_po
        (then_po (on_po (λ p. p.0) K.PartialOrd.laws) (on_po (λ p. p.1) V.PartialOrd.laws)) };

    fn partial_cmp(&self, other: &Self) -> Option<Ordering> {
        self.as_ref().partial_cmp(&other.as_ref())
    }
}

impl<K: Ord, V: Ord, const N: usize, A: Allocator> Ord for VecMap<K, V, N, A> {
    ghost cmp = { slice_cmp (λ p q. ordering_then (K.cmp p.0 q.0) (V.cmp p.1 q.1)) };

    ghost total = { lists_total
        (then_total (on_total (λ p. p.0) K.total) (on_total (λ p. p.1) V.total)) };

    ghost matches_partial_cmp = { lists_agrees
        (then_agrees (λ p q. K.matches_partial_cmp p.0 q.0)
        (λ p q. V.matches_partial_cmp p.1 q.1)) };

    ghost matches_eq = { let K' = K.cmp in let V' = V.cmp in
        lists_ties (λ p q. ordering_then (K' p.0 q.0) (V' p.1 q.1))
        (λ p q. both_tied _ _ (K' p.0 q.0) (V' p.1 q.1) (K.matches_eq p.0 q.0)
        (V.matches_eq p.1 q.1)) };

    fn cmp(&self, other: &Self) -> Ordering {
        self.as_ref().cmp(&other.as_ref())
    }
}

/// The hash of the list of the pairs.
impl<K: Ord + Hash, V: Hash, const N: usize, A: Allocator> Hash for VecMap<K, V, N, A> {
    ghost hash_input = { fed.slice (λ p. K.hash_input p.0 ++ V.hash_input p.1) };

    ghost respects_eq = { (items_Alike (and-Alike
        (on_Alike (λ p. p.0) (record { fed = K.respects_eq }))
        (on_Alike (λ p. p.1) (record { fed = V.respects_eq })))).fed };

    fn hash<H: Hasher>(&self, state: &mut H) {
        self.as_ref().hash(state);
    }
}

/// As a set of pairs, in ascending order of the keys: `{(1, 'a'), (2, 'b')}`.
impl<K: Ord + fmt::Debug, V: fmt::Debug, const N: usize, A: Allocator> fmt::Debug
    for VecMap<K, V, N, A> {
    fn fmt<W: fmt::Write>(&self, f: &mut fmt::Formatter<W>) -> fmt::Result {
        let mut set = f.debug_set();
        for pair in self.as_ref() {
            set.entry(pair);
        }
        set.finish()
    }
}
