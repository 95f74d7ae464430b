//! Lists that sets and maps change in place.
ghost use Rattle.std.specs.Prelude.{◌≡◌, ◌≤◌, ◌++◌, length, take};
ghost use Rattle.smallvec.specs.SmallVec.{HasRoomFor};
ghost use Rattle.std.specs.Fn.{CalledAt};
ghost use Rattle.std.specs.Iterator.{CallableOnAllAt, YieldsFirst};
ghost use Rattle.std.specs.List.Retain.{IsFiltered};

use smallvec::SmallVec;
use std::alloc::Allocator;
use std::default::MadeWith;
use std::mem;

/// Moves the elements of `that` to the end of `list`, which has room for them.
///
/// A list on the heap is taken into a `Vec` in a local variable, so that no step asks again whether
/// a list is inline or on the heap.
pub fn append_moved<T: MadeWith<A> + Drop, const N: usize, const M: usize, A: Allocator + Copy>(
    list: &mut SmallVec<T, N, A>,
    mut that: SmallVec<T, M, A>,
)
    requires { HasRoomFor list.old (length that.items) }
    ensures { list.new.items ≡ list.old.items ++ that.items }
{
    if !that.spilled() {
        let _fits = list.append(&mut that);
        return;
    }
    let alloc = *list.allocator();
    let mut whole = mem::replace(list, SmallVec::new(alloc));
    for item in that.into_vec().unwrap() {
        whole.push_reserved(item);
    }
    *list = whole;
}

/// Moves the elements for which `f` answers true to the front, in their order, and answers how many
/// they are.
///
/// `f` must be callable with each element, one after the other.
pub fn keep_in_front<T, F: FnMut(&T) -> bool>(list: &mut [T], mut f: F) -> usize
    requires { CallableOnAllAt (YieldsFirst (λ rest. rest)) F.FnMut list.old f }
    ensures within { result ≤ length list.new }
    ensures kept { IsFiltered (CalledAt F.FnMut) f list.old (take result list.new) }
{
    let mut kept = 0;
    'elements: for at in 0..list.len() {
        if f(&list[at]) {
            list.swap(kept, at);
            kept += 1;
        }
    }
    kept
}
