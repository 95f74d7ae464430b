//! Types whose clones are equal to their sources.
ghost use Rattle.std.specs.Ordering.{bool_cmp, int_cmp, nat_cmp};
ghost use Rattle.std.specs.Prelude.{string_bytes};
ghost use Rattle.std.specs.Cmp.Lexicographic.{slice_cmp};
ghost use Rattle.vc_merge.specs.Clones.{ClonesAreEqual};
ghost use Rattle.vc_sets.specs.EqualClones.{lists_equal, options_equal, pairs_equal, same_equal, seen_equal, triples_equal};

use super::vec_set::VecSet;
use std::alloc::Allocator;
use std::default::MadeWith;

/// Elements whose clones are equal to them: a clone compares with every element as its source does.
///
/// Sets of such elements, and maps with such keys, have `Clone`. So they can be values of other
/// maps and of trees, elements of other sets, and fields of a struct that derives `Clone`.
///
/// The law: clones are equal.
pub trait ClonesEqual: Ord + Clone {
    ghost clones_equal: { ClonesAreEqual Self.cmp Self.is_clone };
}

impl ClonesEqual for u8 {
    ghost clones_equal = { same_equal nat_cmp };
}

impl ClonesEqual for u16 {
    ghost clones_equal = { same_equal nat_cmp };
}

impl ClonesEqual for u32 {
    ghost clones_equal = { same_equal nat_cmp };
}

impl ClonesEqual for u64 {
    ghost clones_equal = { same_equal nat_cmp };
}

impl ClonesEqual for u128 {
    ghost clones_equal = { same_equal nat_cmp };
}

impl ClonesEqual for usize {
    ghost clones_equal = { same_equal nat_cmp };
}

impl ClonesEqual for i8 {
    ghost clones_equal = { same_equal int_cmp };
}

impl ClonesEqual for i16 {
    ghost clones_equal = { same_equal int_cmp };
}

impl ClonesEqual for i32 {
    ghost clones_equal = { same_equal int_cmp };
}

impl ClonesEqual for i64 {
    ghost clones_equal = { same_equal int_cmp };
}

impl ClonesEqual for i128 {
    ghost clones_equal = { same_equal int_cmp };
}

impl ClonesEqual for isize {
    ghost clones_equal = { same_equal int_cmp };
}

impl ClonesEqual for bool {
    ghost clones_equal = { same_equal bool_cmp };
}

impl ClonesEqual for char {
    ghost clones_equal = { same_equal nat_cmp };
}

impl ClonesEqual for &str {
    ghost clones_equal = { same_equal (λ x y. slice_cmp nat_cmp x.now y.now) };
}

impl<A: Allocator + Clone> ClonesEqual for String<A> {
    ghost clones_equal = { seen_equal string_bytes (slice_cmp nat_cmp) };
}

impl<'a, T: Ord> ClonesEqual for &'a T {
    ghost clones_equal = { same_equal (λ x y. T.cmp x.now y.now) };
}

impl<S: ClonesEqual, T: ClonesEqual> ClonesEqual for (S, T) {
    ghost clones_equal = { pairs_equal S.clones_equal T.clones_equal };
}

impl<S: ClonesEqual, T: ClonesEqual, U: ClonesEqual> ClonesEqual for (S, T, U) {
    ghost clones_equal = { triples_equal S.clones_equal T.clones_equal U.clones_equal };
}

impl<T: ClonesEqual> ClonesEqual for Option<T> {
    ghost clones_equal = { options_equal _ (λ x y h. h) (λ y h. h) (λ x h. h) T.clones_equal };
}

impl<T: ClonesEqual, A: Allocator + Clone> ClonesEqual for Vec<T, A> {
    ghost clones_equal = { λ x y h z. lists_equal T.clones_equal x.items y.items h.0 z.items };
}

impl<T: ClonesEqual + MadeWith<A>, const N: usize, A: Allocator + Copy> ClonesEqual
    for VecSet<T, N, A> {
    ghost clones_equal = { lists_equal T.clones_equal };
}
