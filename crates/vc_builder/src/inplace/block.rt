//! The block of a builder: the built elements in front, a hole, and the elements that are left at
//! the end.
ghost use Rattle.std.specs.Prelude.{◌≡◌, ◌+◌, ◌-◌, ◌<◌, ◌≤◌, [], ◌∷◌, ◌++◌, length, take, drop, vec_len, vec_capacity, IfOk};
ghost use Rattle.vc_builder.specs.Builder.{builder};
ghost use Rattle.vc_builder.specs.Block.{IsBlock, Becomes};

use super::places::{Base, Deed, Places, allocate, deallocate};
use std::alloc::{AllocError, Allocator};
use std_alloc::room::may_hold;

/// The built elements are at the places from 0 on, and those that are left at the places from
/// `start` to the end.
pub struct Block<T, A: Allocator> {
    pub(super) base: Base<T>,
    pub(super) capacity: usize,
    pub(super) built: usize,
    pub(super) start: usize,
    pub(super) places: Places<T>,
    deed: Deed<T, A>,
    alloc: A,
}

impl<T, A: Allocator> Block<T, A> {
    /// A block that is one hole.
    pub(super) fn with_capacity(alloc: A, capacity: usize) -> Result<Self, AllocError>
        ensures { IfOk result (λ b. IsBlock b × (b.places.parts ≡ builder [] [] capacity)
            × (b.places.tail ≡ 0)) }
    {
        if !may_hold::<T>(capacity) {
            return Err(AllocError);
        }
        let (base, places, deed) = allocate(&alloc, capacity)?;
        Ok(Block {
            base,
            capacity,
            built: 0,
            start: capacity,
            places,
            deed,
            alloc,
        })
    }

    /// Deallocates an empty block.
    pub(super) fn destroy_empty(self)
        requires { IsBlock self × (self.places.parts ≡ builder [] [] self.places.parts.room) }
    {
        let Block {
            base,
            capacity,
            built: _,
            start: _,
            places,
            deed,
            alloc,
        } = self;
        deallocate(&alloc, base, capacity, places, deed);
    }

    /// Puts a value before those that are left.
    #[tactic(auto, using(crate::proofs::PlacesLaid::laid_steps))]
    pub(super) fn put_rest(&mut self, value: T)
        requires { IsBlock self.old × (0 < self.old.places.parts.room) }
        ensures { let parts = self.old.places.parts in Becomes self.old self.new
            (builder parts.built (value ∷ parts.rest) (parts.room - 1)) }
    {
        self.start -= 1;
        self.places.write(self.base, self.start, value);
    }

    /// Puts a value after the built ones.
    #[tactic(auto, using(crate::proofs::PlacesLaid::laid_steps))]
    pub(super) fn put_built(&mut self, value: T)
        requires { IsBlock self.old × (0 < self.old.places.parts.room) }
        ensures { let parts = self.old.places.parts in Becomes self.old self.new
            (builder (parts.built ++ value ∷ []) parts.rest (parts.room - 1)) }
    {
        self.places.write(self.base, self.built, value);
        self.built += 1;
    }

    /// Takes the first of those that are left.
    pub(super) fn take_rest(&mut self) -> T
        requires { IsBlock self.old × (0 < length self.old.places.parts.rest) }
        ensures value { self.old.places.parts.rest ≡ result ∷ drop 1 self.old.places.parts.rest }
        ensures after { let parts = self.old.places.parts in Becomes self.old self.new
            (builder parts.built (drop 1 parts.rest) (parts.room + 1)) }
    {
        let first = self.start;
        self.start += 1;
        self.places.read(self.base, first)
    }

    /// Makes the first `count` of those that are left built ones. There is no hole, so no element
    /// moves.
    #[tactic(auto, using(crate::proofs::PlacesLaid::laid_steps))]
    pub(super) fn pass(&mut self, count: usize)
        requires { IsBlock self.old × (self.old.places.parts.room ≡ 0)
            × (count ≤ length self.old.places.parts.rest) }
        ensures { let parts = self.old.places.parts in Becomes self.old self.new
            (builder (parts.built ++ take count parts.rest) (drop count parts.rest) 0) }
    {
        self.built += count;
        self.start += count;
        self.places.recount(count);
    }

    /// Moves the first `count` of those that are left over the hole, after the built ones.
    #[tactic(auto, using(crate::proofs::PlacesLaid::loop_steps))]
    pub(super) fn move_down(&mut self, count: usize)
        requires { IsBlock self.old × (count ≤ length self.old.places.parts.rest) }
        ensures { let parts = self.old.places.parts in Becomes self.old self.new
            (builder (parts.built ++ take count parts.rest) (drop count parts.rest) parts.room) }
    {
        for moved in 0..count {
            let value = self.take_rest();
            self.put_built(value);
        }
    }

    pub(super) fn rest(&self) -> &[T]
        requires { IsBlock self.now × (self.now.places.tail ≡ 0) }
        ensures { result.now ≡ self.now.places.parts.rest }
    {
        self.places
            .slice(self.base, self.start, self.capacity - self.start)
    }

    /// Moves the elements of `list` to the end of the block, as those that are left.
    pub(super) fn fill(&mut self, list: &mut Vec<T, A>)
        requires { IsBlock self.old × (length list.old.items ≤ self.old.places.parts.room)
            × (self.old.places.parts ≡ builder [] [] self.old.places.parts.room) }
        ensures after { let room = self.old.places.parts.room in Becomes self.old self.new
            (builder [] list.old.items (room - length list.old.items)) }
        ensures emptied { list.new.items ≡ [] }
    {
        for moved in 0..list.len() {
            self.put_rest(list.take_last());
        }
    }

    /// Drops the first `count` of those that are left.
    #[tactic(auto, using(crate::proofs::PlacesLaid::loop_steps))]
    pub(super) fn drop_rest(&mut self, count: usize)
    where
        T: Drop,
        requires { IsBlock self.old × (count ≤ length self.old.places.parts.rest) }
        ensures { let parts = self.old.places.parts in Becomes self.old self.new
            (builder parts.built (drop count parts.rest) (parts.room + count)) }
    {
        for dropped in 0..count {
            drop(self.take_rest());
        }
    }

    /// Moves the built elements to the end of `list`.
    #[tactic(auto, using(crate::proofs::PlacesLaid::laid_steps))]
    pub(super) fn pour(&mut self, list: &mut Vec<T, A>)
        requires { IsBlock self.old × (self.old.places.parts.rest ≡ [])
            × (vec_len list.old + self.old.capacity ≤ vec_capacity list.old) }
        ensures block { IsBlock self.new
            × (self.new.places.parts ≡ builder [] [] self.new.places.parts.room) }
        ensures items { list.new.items ≡ list.old.items ++ self.old.places.parts.built }
    {
        // They become those that are left, and are taken one by one.
        let count = self.built;
        self.built = 0;
        self.start = 0;
        self.places.recount(count);
        for poured in 0..count {
            list.push_reserved(self.take_rest());
        }
    }
}
