//! Elements removed from a set, and memory given back.
ghost use Rattle.std.specs.Prelude.{◌≡◌, ◌&&◌, [], not, cond, filter, Bool, None, IsOk, IsTrue};
ghost use Rattle.std.specs.Fn.{CalledAt};
ghost use Rattle.std.specs.Iterator.{CallableOnAllAt, YieldsFirst};
ghost use Rattle.std.specs.List.Retain.{IsFiltered};
ghost use Rattle.std.specs.Ordering.{eq_by_cmp};
ghost use Rattle.vc_merge.specs.Ascending.{member, element_at};
ghost use Rattle.vc_merge.specs.Retaining.{AnswersAs, IsRetained};

use super::VecSet;
use std::alloc::{AllocError, Allocator};
use std::default::MadeWith;
use vc_merge::lists::keep_in_front;

impl<T: Ord + MadeWith<A> + Drop, const N: usize, A: Allocator + Copy> VecSet<T, N, A> {
    /// Removes and drops the element that is equal to `that`, and answers whether there was one.
    ///
    /// Compares as often as `contains`, moves the elements after the removed one, and takes no
    /// memory.
    pub fn remove(&mut self, that: &T) -> bool
        ensures answer { result ≡ member T.cmp self.old that.now }
        ensures members { (x : T) → member T.cmp self.new x
            ≡ (not (eq_by_cmp T.cmp that.now x) && member T.cmp self.old x) }
        ensures kept { (x : T) → element_at T.cmp self.new x
            ≡ cond (eq_by_cmp T.cmp that.now x) None (element_at T.cmp self.old x) }
    {
        self.remove_by(that)
    }

    /// Keeps the elements for which `f` answers true, and drops the others. `f` is called once with
    /// each element, in ascending order.
    ///
    /// Makes at most one swap for each element, so that one that stays moves at most once. Takes no
    /// memory.
    pub fn retain<F: FnMut(&T) -> bool>(&mut self, f: F)
        requires { CallableOnAllAt (YieldsFirst (λ rest. rest)) F.FnMut self.old f }
        ensures filtered { IsFiltered (CalledAt F.FnMut) f self.old self.new }
        ensures kept { (x : T) → IsRetained (CalledAt F.FnMut) (element_at T.cmp self.old x)
            (element_at T.cmp self.new x) }
        ensures members { (x : T) → IsTrue (member T.cmp self.new x)
            → IsTrue (member T.cmp self.old x) }

        // With a pure test, exactly the elements that pass it stay.
        ensures plain { (test : T → Bool) → AnswersAs (CalledAt F.FnMut) f test
            → self.new ≡ filter test self.old }
    {
        let kept = keep_in_front(self.elements.as_mut_slice(), f);
        self.elements.truncate(kept);
    }

    /// Drops all elements. The list keeps its capacity, so that as many can be inserted again
    /// without memory; `shrink_to_fit` gives it back. Takes no memory.
    pub fn clear(&mut self)
        ensures { self.new ≡ [] }
    {
        self.elements.clear();
    }

    /// Gives back memory that the elements do not need. Where the allocator refuses, the list stays
    /// where it is, so the call always succeeds.
    pub fn shrink_to_fit(&mut self) -> Result<(), AllocError>
        ensures elements { self.new ≡ self.old }
        ensures succeeds { IsOk result }
    {
        self.elements.shrink_to_fit();
        Ok(())
    }
}
