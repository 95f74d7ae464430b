//! What a node is made of, in each flavour: its prefix and its children.

ghost use Rattle.std.specs.Prelude.{◌≡◌, ◌++◌, ◌⊎◌, ◌≤◌, List, length, IsOk, IfOk, IfErr};
ghost use Rattle.std.specs.Borrow.{sem};
ghost use Rattle.std.specs.List.{AllZip};
ghost use Rattle.vc_tree_nodes.specs.Children.{LendsChildren};

use std::alloc::{AllocError, AllocFailed, Allocator, Global};
use std::rc::Rc;

/// A node's prefix, as it is stored.
pub trait Fragment<K>: Sized + Drop {
    ghost items: { Self → List K };

    /// The components.
    fn as_slice(&self) -> &[K]
        ensures { result.now ≡ items self.now };

    /// A copy of the components. Takes memory where there are more than 16.
    fn from_slice(alloc: Global, slice: &[K]) -> Result<Self, AllocError>
        ensures items { IfOk result (λ made. items made ≡ slice.now) }
        ensures short { length slice.now ≤ 16 → IsOk result };

    /// A copy of both slices, one after the other, by at most two allocations.
    fn joined(alloc: Global, front: &[K], back: &[K]) -> Result<Self, AllocError>
        ensures { IfOk result (λ made. items made ≡ front.now ++ back.now) };
}

/// The children of a node that has some, as they are stored.
pub trait ChildList<T>: Sized + Drop {
    ghost items: { Self → List T };

    ghost kept: { List T → List T → Type 0 };

    /// The children of a list.
    fn of(list: Vec<T>) -> Result<Self, AllocFailed<Vec<T>>>
        ensures ok { IfOk result (λ made. items made ≡ list.items) }
        ensures err { IfErr result (λ failed. failed.value.items ≡ list.items) };

    /// The children, for writing. Shared ones are copied first, and that copy can be refused.
    fn make_mut(&mut self) -> Result<&mut Vec<T>, AllocError>
        ensures* writes_back { sem 𝓛 (LendsChildren Self.row T.row ⟦<Global as Allocator>⟧ items
            kept self.entry result) }
        ensures value { IfOk result (λ list. kept (items self.old) list.now.items) };
}

/// Children that only this node holds.
#[derive(Drop)]
pub struct OwnedChildren<T> {
    pub list: Vec<T>,
}

impl<T: Drop> ChildList<T> for OwnedChildren<T> {
    ghost items = { λ own. own.list.items };

    ghost kept = { λ old new. new ≡ old };

    fn of(list: Vec<T>) -> Result<OwnedChildren<T>, AllocFailed<Vec<T>>>
        ensures ok { IfOk result (λ made. made.list.items ≡ list.items) }
        ensures err { IfErr result (λ failed. failed.value.items ≡ list.items) }
    {
        Ok(OwnedChildren { list })
    }

    fn make_mut(&mut self) -> Result<&mut Vec<T>, AllocError> {
        Ok(&mut self.list)
    }
}

/// Children that several nodes may hold.
#[derive(Drop)]
pub struct SharedChildren<T> {
    pub shared: Rc<Vec<T>>,
}

impl<T: Clone + Drop> ChildList<T> for SharedChildren<T> {
    ghost items = { λ held. held.shared.value.items };

    ghost kept = { λ old new. (new ≡ old) ⊎ AllZip T.is_clone old new };

    fn of(list: Vec<T>) -> Result<SharedChildren<T>, AllocFailed<Vec<T>>>
        ensures ok { IfOk result (λ made. made.shared.value.items ≡ list.items) }
        ensures err { IfErr result (λ failed. failed.value.items ≡ list.items) }
    {
        match Rc::new(*list.allocator(), list) {
            Ok(shared) => Ok(SharedChildren { shared }),
            Err(failed) => Err(failed),
        }
    }

    fn make_mut(&mut self) -> Result<&mut Vec<T>, AllocError> {
        Rc::make_mut(&mut self.shared)
    }
}

/// The three parts of a node.
#[derive(Drop)]
pub struct Parts<P, V, C> {
    pub prefix: P,
    pub value: Option<V>,
    pub children: Option<C>,
}
