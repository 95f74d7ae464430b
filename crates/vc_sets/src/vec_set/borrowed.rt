//! Look-ups and removals by a borrowed form.
ghost use Rattle.std.specs.Prelude.{◌≡◌, ◌&&◌, not, cond, None};
ghost use Rattle.std.specs.Ordering.{is_eq};
ghost use Rattle.std.specs.declared.cmp.Ordering.TheVariants.{Equal};
ghost use Rattle.vc_merge.specs.Ascending.{Ascends, member, element_at};
ghost use Rattle.vc_merge.specs.Place.{IsPlace};
ghost use Rattle.vc_sets.specs.Borrowed.{member_by};

use super::VecSet;
use crate::borrowed::Borrowed;
use std::alloc::Allocator;
use std::cmp::Ordering;
use std::default::MadeWith;
use vc_merge::merge::Count;
use vc_merge::search::{Sought, look_up};

/// A form that is sought in a list of elements.
#[derive(Clone, Copy)]
struct Form<Q>(Q);

impl<T: Ord, Q: Borrowed<T>, C: Count> Sought<T, C> for Form<Q> {
    ghost side = { λ s y. Q.side s.0 y };

    fn compare(&self, element: &T, steps: &mut C) -> Ordering {
        steps.tick();
        self.0.compare(element)
    }
}

/// The place of the element that is equal to a form in an ascending list, or the gap where it would
/// be.
pub fn find_by<T: Ord, Q: Borrowed<T>>(list: &[T], sought: Q) -> Result<usize, usize>
    requires { Ascends T.cmp list.now }
    ensures { IsPlace (Q.side sought) list.now result }
{
    look_up(list, &Form(sought))
}

impl<T: Ord + MadeWith<A> + Drop, const N: usize, A: Allocator + Copy> VecSet<T, N, A> {
    /// Removes and drops the element that is equal to a borrowed form, and answers whether there
    /// was one.
    ///
    /// Compares as often as `contains`, moves the elements after the removed one, and takes no
    /// memory.
    ///
    /// ```
    /// assert!(rt; names.remove_by("ada"));
    /// assert!(rt; !names.contains_by("ada"));
    /// ```
    pub fn remove_by<Q: Borrowed<T>>(&mut self, sought: Q) -> bool
        ensures answer { result ≡ member_by (Q.side sought) self.old }
        ensures members { (x : T) → member T.cmp self.new x
            ≡ (not (is_eq (Q.side sought x)) && member T.cmp self.old x) }
        ensures kept { (x : T) → element_at T.cmp self.new x
            ≡ cond (is_eq (Q.side sought x)) None (element_at T.cmp self.old x) }

        // It answers as `remove` does by any element that is equal to the form.
        ensures equal { (x : T) → Q.side sought x ≡ Equal → result ≡ member T.cmp self.old x }
    {
        match find_by(self.elements.as_slice(), sought) {
            Ok(index) => {
                self.elements.remove(index);
                true
            }
            Err(_) => false,
        }
    }
}
