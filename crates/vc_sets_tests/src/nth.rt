//! An allocator that refuses one of its requests, and grants the others.

use std::alloc::{AllocError, Allocator};
use std::cell::Cell;

/// Passes each request on to another allocator, except for one, which it refuses.
pub struct Nth<B: Allocator> {
    inner: B,
    left: Cell<u64>,
}

impl<B: Allocator> Nth<B> {
    /// Refuses the request of that number, counted from 1. At 0 it grants each.
    pub fn new(inner: B, number: u64) -> Nth<B> {
        Nth {
            inner,
            left: Cell::new(number),
        }
    }

    /// Whether the request that is to be refused was made, or there is none.
    pub fn is_done(&self) -> bool {
        self.left.get() == 0
    }

    /// Refuses the request of that number, counted from now on from 1. At 0 it grants each.
    pub fn refuse(&self, number: u64) {
        self.left.set(number);
    }
}

impl<B: Allocator> Nth<Nth<B>> {
    /// Refuses the request of that number, counted from now on from 1, and the next one. At 0 it
    /// grants each.
    pub fn refuse_two(&self, number: u64) {
        self.refuse(number);
        self.inner.refuse(number);
    }
}

impl<B: Allocator> Drop for Nth<B> {
    fn drop(self) {
        let Self { inner: _, left: _ } = self;
    }
}

/// Counts a request, and answers whether it is granted.
fn is_granted(left: &Cell<u64>) -> bool {
    let number = left.get();
    left.set(number.saturating_sub(1));
    number != 1
}

unsafe impl<B: Allocator> Allocator for Nth<B> {
    ghost dealloc_token = { λ heap ty ptr. B.dealloc_token heap.inner ty ptr };

    fn allocate(&self, size: usize, align: usize) -> Result<*mut u8, AllocError> {
        if is_granted(&self.left) {
            self.inner.allocate(size, align)
        } else {
            Err(AllocError)
        }
    }

    unsafe fn deallocate(&self, ptr: *mut u8, size: usize, align: usize) {
        self.inner.deallocate(ptr, size, align);
    }
}
