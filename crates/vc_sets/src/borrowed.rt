//! Borrowed forms, which look elements up without an owned element.
ghost use Rattle.std.specs.Prelude.{◌≡◌, refl};
ghost use Rattle.std.specs.Cmp.Lexicographic.{lists_total, nat_list_cmp_total, slice_cmp};
ghost use Rattle.std.specs.Ordering.{nat_cmp};
ghost use Rattle.std.specs.String.{string_bytes};
ghost use Rattle.std.specs.declared.cmp.Ordering.{Ordering};
ghost use Rattle.std.specs.declared.cmp.Ordering.TheVariants.{Less, Equal, Greater};
ghost use Rattle.vc_sets.specs.Borrowed.{equal_by_form, behind_by_form, equal_by_option, behind_by_option, option_side};

use std::alloc::Allocator;
use std::cmp::Ordering;

/// A borrowed form of elements, ordered among them as an element equal to it is. `&str` is one of
/// `String`, `&[T]` of `Vec<T>`, `&T` of any `T`, and `Option<Q>` of `Option<T>` where `Q` is one
/// of `T`.
///
/// An implementation says how an element compares with the form, and proves two laws. Where
/// elements are ordered by what they lend, `equal_by_form` and `behind_by_form` of
/// `specs::Borrowed` are these laws.
///
/// ```
/// assert!(rt; names.contains_by("ada"));
/// ```
pub trait Borrowed<T: Ord>: Copy {
    ghost side: { Self → T → Ordering };

    /// How the element compares with the form: `Less` before it, `Equal` at it, `Greater` after it.
    fn compare(&self, element: &T) -> Ordering
        ensures { result ≡ side self.now element.now };

    // An element that is equal to the form orders all elements as the form does.
    ghost orders_as_equal: { (q : Self) (x y : T) → side q x ≡ Equal → side q y ≡ T.cmp y x };

    // Each element after one that is after the form is after the form too.
    ghost stays_behind: { (q : Self) (x y : T)
        → side q x ≡ Greater → T.cmp x y ≡ Less → side q y ≡ Greater };
}

impl<T: Ord> Borrowed<T> for &T {
    ghost side = { λ q x. T.cmp x q.now };

    ghost orders_as_equal = { λ q. equal_by_form T.total (λ x. x) (λ x y. refl) q.now };

    ghost stays_behind = { λ q. behind_by_form T.total (λ x. x) (λ x y. refl) q.now };

    fn compare(&self, element: &T) -> Ordering {
        element.cmp(*self)
    }
}

impl<A: Allocator> Borrowed<String<A>> for &str {
    ghost side = { λ q x. slice_cmp nat_cmp (string_bytes x) q.now };

    ghost orders_as_equal = { λ q.
        equal_by_form nat_list_cmp_total (λ x. string_bytes x) (λ x y. refl) q.now };

    ghost stays_behind = { λ q.
        behind_by_form nat_list_cmp_total (λ x. string_bytes x) (λ x y. refl) q.now };

    fn compare(&self, element: &String<A>) -> Ordering {
        texts(element.as_str(), *self)
    }
}

impl<T: Ord, B: Allocator> Borrowed<Vec<T, B>> for &[T] {
    ghost side = { λ q x. slice_cmp T.cmp x.items q.now };

    ghost orders_as_equal = { λ q.
        equal_by_form (lists_total T.total) (λ x. x.items) (λ x y. refl) q.now };

    ghost stays_behind = { λ q.
        behind_by_form (lists_total T.total) (λ x. x.items) (λ x y. refl) q.now };

    fn compare(&self, element: &Vec<T, B>) -> Ordering {
        slices(element.as_slice(), *self)
    }
}

impl<T: Ord, Q: Borrowed<T>> Borrowed<Option<T>> for Option<Q> {
    ghost side = { option_side Q.side };

    ghost orders_as_equal = { equal_by_option Q.side T.cmp Q.orders_as_equal };

    ghost stays_behind = { behind_by_option Q.side T.cmp Q.stays_behind };

    fn compare(&self, element: &Option<T>) -> Ordering {
        match self {
            Some(form) => match element {
                Some(held) => form.compare(held),
                None => Ordering::Less,
            },
            None => match element {
                Some(_) => Ordering::Greater,
                None => Ordering::Equal,
            },
        }
    }
}

/// The order of two slices, with one lifetime for both, as their comparison requires.
fn slices<'x, T: Ord>(a: &'x [T], b: &'x [T]) -> Ordering
    ensures { result ≡ slice_cmp T.cmp a.now b.now }
{
    Ord::cmp(&a, &b)
}

/// The order of two strings, with one lifetime for both, as their comparison requires.
fn texts<'x>(a: &'x str, b: &'x str) -> Ordering
    ensures { result ≡ slice_cmp nat_cmp a.now b.now }
{
    Ord::cmp(&a, &b)
}
