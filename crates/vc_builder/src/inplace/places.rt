//! A block of raw memory as a row of places, each empty or holding a value. Only this file touches
//! its pointer.
ghost use Rattle.std.specs.Prelude.{◌≡◌, ℕ, ◌+◌, ◌<◌, [], ◌∷◌, Some, None, length, drop, IfOk, ⊤};
ghost use Rattle.std.specs.Borrow.{sem};
ghost use Rattle.std.specs.Vec.Ownership.{FitsInBlock};
ghost use denote.RawPtr.{Ptr};
ghost use Rattle.circular_buffer.specs.Ownership.{cells_own, cells_lent, deed_owns};
ghost use Rattle.vc_builder.specs.Builder.{Builder, builder, builder_code};
ghost use Rattle.vc_builder.specs.Places.{laid, Turns};

use std::alloc::{AllocError, Allocator};
use std::marker::{Model, PhantomData};
use std::mem::{align_of, size_of};
use std::slice;

/// The address at which a block begins. It owns nothing.
pub struct Base<T> {
    ptr: *mut T,
}

impl<T> Clone for Base<T> {
    ghost is_clone = { λ x y. y ≡ x };

    ghost is_infallible = { λ _. ⊤ };

    fn clone(&self) -> Result<Base<T>, AllocError> {
        Ok(*self)
    }
}

impl<T> Copy for Base<T> {}

/// The owner of the places and of the values in them: the built ones, a hole, those that are left,
/// and a tail of empty places. It takes no space.
pub struct Places<T> {
    mark: PhantomData<*const T>,
    ghost at: { Ptr },
    ghost parts: { Builder T } by { builder_code T.code },
    ghost tail: { ℕ },
}

impl<T> Model for Places<T> {
    ghost also_owns = { λ p. cells_own T.row p.at (laid p.parts p.tail) };

    ghost also_shares = { λ p _ κ. cells_lent T.row p.at (laid p.parts p.tail) κ };
}

/// The right to give a block of `count` places back to the allocator. It takes no space.
pub struct Deed<T, A: Allocator> {
    mark: PhantomData<*const (T, A)>,
    ghost at: { Ptr },
    ghost count: { ℕ },
    ghost alloc: { A },
}

impl<T, A: Allocator> Model for Deed<T, A> {
    ghost also_owns = { λ d. deed_owns T.row (A.dealloc_token d.alloc) d.at d.count };
}

/// A block of `count` empty places.
pub(crate) fn allocate<T, A: Allocator>(
    alloc: &A,
    count: usize,
) -> Result<(Base<T>, Places<T>, Deed<T, A>), AllocError>
    requires { FitsInBlock T.row count }
    ensures { IfOk result (λ r. (r.1.at ≡ r.0.ptr) × (r.1.parts ≡ builder [] [] count)
        × (r.1.tail ≡ 0) × (r.2.at ≡ r.0.ptr) × (r.2.count ≡ count) × (r.2.alloc ≡ alloc.now)) }
{
    match alloc.allocate(count * size_of::<T>(), align_of::<T>()) {
        Ok(block) => {
            let base = Base {
                ptr: block as *mut T,
            };
            Ok((
                base,
                Places { mark: PhantomData },
                Deed { mark: PhantomData },
            ))
        }
        Err(error) => Err(error),
    }
}

/// Deallocates a block whose places are all empty.
pub(crate) fn deallocate<T, A: Allocator>(
    alloc: &A,
    base: Base<T>,
    count: usize,
    places: Places<T>,
    deed: Deed<T, A>,
)
    requires { (places.at ≡ base.ptr) × (places.parts ≡ builder [] [] places.parts.room)
        × (places.parts.room + places.tail ≡ count) × (deed.at ≡ base.ptr) × (deed.count ≡ count)
        × (deed.alloc ≡ alloc.now) }
{
    let Places { mark: _ } = places;
    let Deed { mark: _ } = deed;
    unsafe {
        alloc.deallocate(base.ptr as *mut u8, count * size_of::<T>(), align_of::<T>());
    }
}

impl<T> Places<T> {
    ghost use Rattle.vc_builder.specs.PlacesLend.{lends_left};

    /// Divides the places into other parts, which fill the same places. The number lets the caller
    /// say which parts.
    pub(crate) fn recount(&mut self, _count: usize)
        ghost to: { Builder T × ℕ }
        requires { laid self.old.parts self.old.tail ≡ laid to.0 to.1 }
        ensures { (self.new.parts ≡ to.0) × (self.new.at ≡ self.old.at) × (self.new.tail ≡ to.1) }
    {}

    /// Puts a value into an empty place.
    pub(crate) fn write(&mut self, base: Base<T>, index: usize, value: T)
        ghost to: { Builder T }
        requires { (base.ptr ≡ self.old.at) × Turns (laid self.old.parts self.old.tail)
            (laid to self.old.tail) index None (Some value) }
        ensures { (self.new.parts ≡ to) × (self.new.at ≡ self.old.at)
            × (self.new.tail ≡ self.old.tail) }
    {
        unsafe { base.ptr.add(index).write(value) }
    }

    /// Moves the first of those that are left out of the block.
    pub(crate) fn read(&mut self, base: Base<T>, index: usize) -> T
        requires { (base.ptr ≡ self.old.at) × (0 < length self.old.parts.rest)
            × (index ≡ length self.old.parts.built + self.old.parts.room) }
        ensures { let parts = self.old.parts in (parts.rest ≡ result ∷ drop 1 parts.rest)
            × (self.new.parts ≡ builder parts.built (drop 1 parts.rest) (parts.room + 1))
            × (self.new.at ≡ self.old.at) × (self.new.tail ≡ self.old.tail) }
    {
        unsafe { base.ptr.add(index).read() }
    }

    /// Those that are left: `count` of them, from the place `from` on.
    pub(crate) fn slice(&self, base: Base<T>, from: usize, count: usize) -> &[T]
        requires { (base.ptr ≡ self.now.at) × (count ≡ length self.now.parts.rest)
            × (from ≡ length self.now.parts.built + self.now.parts.room) }
        ensures { result.now ≡ self.now.parts.rest }
    {
        unsafe { slice::from_raw_parts(base.ptr.add(from), count) }
    }

    /// Those that are left, for writing.
    pub(crate) fn slice_mut(&mut self, base: Base<T>, from: usize, count: usize) -> &mut [T]
        requires { (base.ptr ≡ self.old.at) × (count ≡ length self.old.parts.rest)
            × (from ≡ length self.old.parts.built + self.old.parts.room) }
        ensures* writes_back { sem 𝓛 (lends_left T.row self.entry result) }
        ensures value { result.now ≡ self.old.parts.rest }
    {
        unsafe { slice::from_raw_parts_mut(base.ptr.add(from), count) }
    }
}
