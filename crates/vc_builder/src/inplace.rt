//! `InPlace`: a list that is built before the list that is left.
ghost use Rattle.std.specs.Prelude.{◌≡◌, ◌+◌, ◌-◌, ◌^◌, ◌<◌, ◌≤◌, [], ◌∷◌, ◌++◌, length, take, drop, IfOk, IfNone, IfSome, OnErr, OnOk, OnSome};
ghost use Rattle.std.specs.Borrow.{sem};
ghost use Rattle.vc_builder.specs.Builder.{builder};

use block::Block;
use std::alloc::{AllocError, Allocator};
use std::marker::Model;

mod block;
mod places;

/// A list that is built out of another one: its elements are kept, dropped or taken out from the
/// front, and new ones are inserted between.
///
/// Contracts see it as two lists, `built` and `rest`, and a number `room`. What was built comes
/// first, then what is left of the old list; between them there is room for `room` more elements.
/// Each call moves, drops or adds exactly the elements that it names. All memory is taken when it
/// is made; no later call takes any.
///
/// # Examples
///
/// ```
/// let mut list = vec![in alloc; 1, 2, 3, 4]?;
/// let mut both = InPlace::new(&mut list, 1)?;
/// both.take(1);
/// both.push(10);
/// both.drop_front(2);
/// both.take(1);
/// assert!(rt; both.finish().as_slice() == [1, 10, 4].as_slice());
/// ```
pub struct InPlace<T, A: Allocator> {
    block: Block<T, A>,
    // Empty, with room for all that the block holds, so that `finish` takes no memory.
    finished: Vec<T, A>,
}

impl<T, A: Allocator> Model for InPlace<T, A> {
    ghost use Rattle.std.specs.Prelude.{◌≡◌, ◌≤◌, [], vec_capacity};
    ghost use Rattle.vc_builder.specs.Builder.{Builder, builder_code};

    ghost Value = { Builder T };

    ghost coded = { builder_code T.code };

    ghost use Rattle.vc_builder.specs.Block.{IsBlock};

    ghost view = { λ s. s.block.places.parts };

    ghost invariant = { λ s. IsBlock s.block × (s.block.places.tail ≡ 0)
        × (s.finished.items ≡ []) × (s.block.capacity ≤ vec_capacity s.finished) };
}

impl<T, A: Allocator> InPlace<T, A> {
    ghost use Rattle.vc_builder.specs.BuilderLends.{lends_rest};

    /// Moves all elements of `list` to the rest of a new builder, which has room for `extra` more.
    ///
    /// # Errors
    ///
    /// Where memory is refused, or the elements with the extra places are more than any list can
    /// hold; `list` is then unchanged. All memory is taken before the first element is moved.
    pub fn new(list: &mut Vec<T, A>, extra: usize) -> Result<Self, AllocError>
    where
        T: Drop,
        A: Copy,
        ensures ok { IfOk result (λ s. s ≡ builder [] list.old.items extra) }
        ensures emptied { OnOk result (list.new.items ≡ []) }
        ensures err { OnErr result (list.new ≡ list.old) }
    {
        let alloc = *list.allocator();
        let count = list.len();
        if usize::MAX - count < extra {
            return Err(AllocError);
        }
        let capacity = count + extra;
        let finished = Vec::with_capacity(alloc, capacity)?;
        let mut block = Block::with_capacity(alloc, capacity)?;
        block.fill(list);
        Ok(InPlace { block, finished })
    }

    /// The elements that are left, in their order.
    pub fn rest(&self) -> &[T]
        ensures value { result.now ≡ self.now.rest }
        ensures fits { length self.now.built + length self.now.rest + self.now.room < 2 ^ 63 }
    {
        self.block.rest()
    }

    /// The elements that are left, for writing.
    pub fn rest_mut(&mut self) -> &mut [T]
        ensures* writes_back { sem 𝓛 (lends_rest T.row A.row A.Allocator self.entry result) }
        ensures value { result.now ≡ self.old.rest }
    {
        let (base, start, count) = (
            self.block.base,
            self.block.start,
            self.block.capacity - self.block.start,
        );
        self.block.places.slice_mut(base, start, count)
    }

    /// How many more elements fit: the extra places, and one for each element that was removed or
    /// dropped, less one for each that was pushed.
    pub fn room(&self) -> usize
        ensures { result ≡ self.now.room }
    {
        self.block.start - self.block.built
    }

    /// Removes and returns the first element that is left, which makes room for one more. `None`
    /// where none is left.
    pub fn pop_front(&mut self) -> Option<T>
        ensures none { IfNone result ((self.old.rest ≡ []) × (self.new ≡ self.old)) }
        ensures some { IfSome result (λ x. self.old.rest ≡ x ∷ self.new.rest) }
        ensures others { OnSome result (self.new
            ≡ builder self.old.built (drop 1 self.old.rest) (self.old.room + 1)) }
    {
        if self.block.start == self.block.capacity {
            return None;
        }
        Some(self.block.take_rest())
    }

    /// Moves the first `n` elements that are left to the end of the built ones.
    pub fn take(&mut self, n: usize)
        requires { n ≤ length self.old.rest }
        ensures { self.new ≡ builder (self.old.built ++ take n self.old.rest) (drop n self.old.rest)
            self.old.room }
    {
        if self.room() == 0 {
            self.block.pass(n);
        } else {
            self.block.move_down(n);
        }
    }

    /// Drops the first `n` elements that are left, which makes room for `n` more.
    pub fn drop_front(&mut self, n: usize)
    where
        T: Drop,
        requires { n ≤ length self.old.rest }
        ensures { self.new ≡ builder self.old.built (drop n self.old.rest) (self.old.room + n) }
    {
        self.block.drop_rest(n);
    }

    /// Appends an element to the built ones.
    pub fn push(&mut self, value: T)
        requires { 0 < self.old.room }
        ensures { self.new ≡ builder (self.old.built ++ value ∷ []) self.old.rest
            (self.old.room - 1) }
    {
        self.block.put_built(value);
    }

    /// The built elements as a list. Those that are left are dropped.
    pub fn finish(self) -> Vec<T, A>
    where
        T: Drop,
        ensures { result.items ≡ self.built }
    {
        let InPlace {
            mut block,
            mut finished,
        } = self;
        let left = block.capacity - block.start;
        block.drop_rest(left);
        block.pour(&mut finished);
        block.destroy_empty();
        finished
    }
}

/// Each element that was built or is left is dropped once.
impl<T: Drop, A: Allocator> Drop for InPlace<T, A> {
    fn drop(self) {
        let _built = self.finish();
    }
}
