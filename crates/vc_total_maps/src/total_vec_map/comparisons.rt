//! Comparisons, hashes and `Debug` of a total map: those of its mappings, and of its default.
ghost use Rattle.std.specs.Prelude.{◌&&◌, ◌++◌};
ghost use Rattle.std.specs.Ordering.{ordering_then, partial_ordering_then};
ghost use Rattle.std.specs.Cmp.{on_equiv, and_equiv, then_agrees, on_total, then_total, both_tied, on_per, and_per, on_po, then_po};
ghost use Rattle.std.specs.Cmp.Lexicographic.{pointwise, slice_cmp, slice_partial_cmp, lists_per, lists_equiv, lists_po, lists_total, lists_agrees, lists_ties};
ghost use Rattle.std.specs.Hash as fed;
ghost use Rattle.std.specs.Hash.{on_Alike, and-Alike, items_Alike, first_alike};

use super::TotalVecMap;
use std::alloc::Allocator;
use std::cmp::Ordering;
use std::fmt;
use std::hash::{Hash, Hasher};

/// Two total maps are equal where they have equal mappings, and equal defaults.
impl<K: Ord, V: Eq, const N: usize, A: Allocator> PartialEq for TotalVecMap<K, V, N, A> {
    ghost eq = { λ a b. pointwise (λ p q. K.eq p.0 q.0 && V.eq p.1 q.1) a.mappings b.mappings
        && V.eq a.default b.default };

    ghost laws = { and_per (on_per (λ m. m.mappings)
        (lists_per (and_per (on_per (λ p. p.0) K.PartialEq.laws)
        (on_per (λ p. p.1) V.PartialEq.laws)))) (on_per (λ m. m.default) V.PartialEq.laws) };

    fn eq(&self, other: &Self) -> bool {
        self.mappings == other.mappings && self.default == other.default
    }
}

impl<K: Ord, V: Eq, const N: usize, A: Allocator> Eq for TotalVecMap<K, V, N, A> {
    ghost laws = { and_equiv (on_equiv (λ m. m.mappings)
        (lists_equiv (and_equiv (on_equiv (λ p. p.0) K.Eq.laws) (on_equiv (λ p. p.1) V.Eq.laws))))
        (on_equiv (λ m. m.default) V.Eq.laws) };
}

/// Total maps are ordered as their mappings are, and those with equal mappings as their defaults.
impl<K: Ord, V: Ord, const N: usize, A: Allocator> PartialOrd for TotalVecMap<K, V, N, A> {
    ghost partial_cmp = { λ a b. partial_ordering_then
        (slice_partial_cmp (λ p q. partial_ordering_then (K.partial_cmp p.0 q.0)
        (V.partial_cmp p.1 q.1)) a.mappings b.mappings) (V.partial_cmp a.default b.default) };

    ghost laws = { then_po (on_po (λ m. m.mappings)
        (lists_po (then_po (on_po (λ p. p.0) K.PartialOrd.laws)
        (on_po (λ p. p.1) V.PartialOrd.laws)))) (on_po (λ m. m.default) V.PartialOrd.laws) };

    fn partial_cmp(&self, other: &Self) -> Option<Ordering> {
        Some(self.cmp(other))
    }
}

impl<K: Ord, V: Ord, const N: usize, A: Allocator> Ord for TotalVecMap<K, V, N, A> {
    ghost cmp = { λ a b. ordering_then (slice_cmp
        (λ p q. ordering_then (K.cmp p.0 q.0) (V.cmp p.1 q.1)) a.mappings b.mappings)
        (V.cmp a.default b.default) };

    ghost total = { then_total (on_total (λ m. m.mappings)
        (lists_total (then_total (on_total (λ p. p.0) K.total) (on_total (λ p. p.1) V.total))))
        (on_total (λ m. m.default) V.total) };

    ghost matches_partial_cmp = { then_agrees
        (λ a b. lists_agrees (then_agrees (λ p q. K.matches_partial_cmp p.0 q.0)
        (λ p q. V.matches_partial_cmp p.1 q.1)) a.mappings b.mappings)
        (λ a b. V.matches_partial_cmp a.default b.default) };

    /// `cmp` answers `Equal` for maps that are equal, and for no others: pair by pair, then by the
    /// defaults.
    ghost matches_eq = { let K' = K.cmp in let V' = V.cmp in
        let pairs = lists_ties (λ p q. ordering_then (K' p.0 q.0) (V' p.1 q.1))
        (λ p q. both_tied _ _ (K' p.0 q.0) (V' p.1 q.1) (K.matches_eq p.0 q.0)
        (V.matches_eq p.1 q.1)) in λ a b. both_tied _ _
        (slice_cmp (λ p q. ordering_then (K' p.0 q.0) (V' p.1 q.1)) a.mappings b.mappings)
        (V' a.default b.default) (pairs a.mappings b.mappings) (V.matches_eq a.default b.default) };

    fn cmp(&self, other: &Self) -> Ordering {
        match self.mappings.cmp(&other.mappings) {
            Ordering::Equal => self.default.cmp(&other.default),
            order => order,
        }
    }
}

/// The hash of only the mappings.
impl<K: Ord + Hash, V: Eq + Hash, const N: usize, A: Allocator> Hash for TotalVecMap<K, V, N, A> {
    ghost hash_input = { λ m. fed.slice (λ p. K.hash_input p.0 ++ V.hash_input p.1) m.mappings };

    ghost respects_eq = { (first_alike (λ x y. V.eq x.default y.default)
        (on_Alike (λ m. m.mappings) (items_Alike
        (and-Alike (on_Alike (λ p. p.0) (record { fed = K.respects_eq }))
        (on_Alike (λ p. p.1) (record { fed = V.respects_eq })))))).fed };

    fn hash<H: Hasher>(&self, state: &mut H) {
        self.mappings.hash(state);
    }
}

/// As its two parts: `TotalVecMap { values: {(1, 2)}, default: 0 }`.
impl<K: Ord + fmt::Debug, V: Eq + fmt::Debug, const N: usize, A: Allocator> fmt::Debug
    for TotalVecMap<K, V, N, A> {
    fn fmt<W: fmt::Write>(&self, f: &mut fmt::Formatter<W>) -> fmt::Result {
        f.debug_struct("TotalVecMap")
            .field("values", &self.mappings)
            .field("default", &self.default)
            .finish()
    }
}
