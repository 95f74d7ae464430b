//! The laws of the definitions that contracts on total maps cite.
//!
//! Each function does nothing: its contract is the law. Code that calls one has the law in its
//! proof. A law on closures takes the closure by reference, since its type has no name.
ghost use Rattle.std.specs.Prelude.{Ok};
ghost use Rattle.std.specs.Fn.{FnReturnsAt, FnReturnsAtPair};
ghost use Rattle.vc_total_maps.specs.Laws.{StandingIsAt, CombinedIsPointwise, MappedIsPointwise};

use std::alloc::AllocError;

/// The value at a key equals each value that `Stands` there. Where no key is mapped to the default,
/// as in each `TotalVecMap`, it itself `Stands` there.
pub fn standing_is_at<K: Ord, V: Eq>()
    ensures { StandingIsAt K V K.cmp V.eq }
{}

/// Where a closure answers as a function of two values does, a combination by it has at every key
/// the result of the function on the two values there, up to `==`.
pub fn combined_is_pointwise<K: Ord + Clone, V: Eq, F: Fn(&V, &V) -> Result<V, AllocError>>(
    closure: &F,
)
    ensures { CombinedIsPointwise K.cmp V.eq K.is_clone
        (λ x y v. FnReturnsAtPair F.Fn closure.now x y (Ok v)) }
{}

/// Where a closure answers as a function of a value does, a map that it changed has at every key
/// the result of the function on the value there, up to `==`.
pub fn mapped_is_pointwise<K: Ord + Clone, V, W: Eq, F: Fn(&V) -> Result<W, AllocError>>(
    closure: &F,
)
    ensures { MappedIsPointwise K.cmp W.eq K.is_clone
        (λ x v. FnReturnsAt F.Fn closure.now x (Ok v)) }
{}
