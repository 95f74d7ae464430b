//! An element that counts its own comparisons.
ghost use Rattle.std.specs.Prelude.{nat_eq};
ghost use Rattle.std.specs.Ordering.{nat_cmp, on, as_partial_cmp};
ghost use Rattle.std.specs.Cmp.{partial_order_from_own_ties};
ghost use Rattle.std.specs.Cmp.Rules.{comparing};
ghost use Rattle.std.proofs.Common.{rules, refl};

use std::cell::Cell;
use std::cmp::Ordering;
use std::fmt;

/// A number that counts how often it is compared, where it has a counter.
#[derive(Clone, Copy)]
pub struct Compared<'a> {
    /// The number that is compared.
    pub number: u32,
    /// The number of comparisons so far.
    pub count: Option<&'a Cell<u128>>,
}

impl Default for Compared<'_> {
    fn default() -> Self {
        Compared {
            number: 0,
            count: None,
        }
    }
}

impl fmt::Debug for Compared<'_> {
    fn fmt<W: fmt::Write>(&self, f: &mut fmt::Formatter<W>) -> fmt::Result {
        self.number.fmt(f)
    }
}

impl PartialEq for Compared<'_> {
    ghost eq = { on (λ e. e.number) nat_eq };

    ghost laws = { Prim.search (comparing, rules) };

    fn eq(&self, other: &Self) -> bool {
        if let Some(count) = self.count {
            count.set(count.get().saturating_add(1));
        }
        self.number == other.number
    }
}

impl Eq for Compared<'_> {
    ghost laws = { Prim.search (comparing, rules) };
}

impl PartialOrd for Compared<'_> {
    ghost partial_cmp = { as_partial_cmp (on (λ e. e.number) nat_cmp) };

    ghost laws = { partial_order_from_own_ties (Prim.search (comparing, rules))
        (Prim.search (comparing, rules)) };

    fn partial_cmp(&self, other: &Self) -> Option<Ordering> {
        Some(self.cmp(other))
    }
}

impl Ord for Compared<'_> {
    ghost cmp = { on (λ e. e.number) nat_cmp };

    ghost total = { Prim.search (comparing, rules) };

    ghost matches_partial_cmp = { λ x y. refl };

    ghost matches_eq = { Prim.search (comparing, rules) };

    fn cmp(&self, other: &Self) -> Ordering {
        if let Some(count) = self.count {
            count.set(count.get().saturating_add(1));
        }
        self.number.cmp(&other.number)
    }
}
