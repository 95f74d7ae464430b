//! A node's prefix, as both flavours store them.

ghost use Rattle.std.specs.Prelude.{◌≡◌, ◌++◌, ◌≤◌, [], IfOk, IsOk, length, take};

use crate::children::Fragment;
use std::alloc::{AllocError, Global};
use std::marker::Model;

/// The components of a node's prefix: up to 16 inline, and more on the heap, so that a prefix of
/// bytes takes three words. Contracts see the list of its components.
#[derive(Drop)]
pub struct Prefix<K> {
    alloc: Global,
    cells: Cells<K>,
}

/// Where the components of a prefix are stored.
#[derive(Drop)]
pub(crate) enum Cells<K> {
    /// The components in the first `len` of these places. The others are filled with one of the
    /// components, and are not read.
    Short { len: u8, places: [K; 16] },
    /// A list on the heap. `None` is the empty prefix: it has no component to fill places with.
    Apart(Option<Box<Vec<K>>>),
}

impl<K> Model for Prefix<K> {
    ghost use Rattle.std.specs.Prelude.{List};
    ghost use Rattle.std.specs.Coded.{coded_list};
    ghost use Rattle.vc_tree_nodes.specs.Prefix.{stored, IsSound};

    ghost Value = { List K };

    ghost coded = { coded_list K.code };

    ghost view = { λ p. stored p.cells };

    ghost invariant = { λ p. IsSound p.cells };
}

impl<K> Prefix<K> {
    /// The components.
    #[inline]
    pub fn as_slice(&self) -> &[K]
        ensures { result.now ≡ self.now }
    {
        match &self.cells {
            Cells::Short { len, places } => &places[..usize::from(*len)],
            Cells::Apart(Some(list)) => list.as_slice(),
            Cells::Apart(None) => &[],
        }
    }

    /// The allocator of the tree.
    #[inline]
    pub fn allocator(&self) -> Global {
        self.alloc
    }
}

impl<K: Copy> Prefix<K> {
    /// The prefix with no component.
    pub fn new(alloc: Global) -> Self
        ensures { result ≡ [] }
    {
        Prefix {
            alloc,
            cells: Cells::Apart(None),
        }
    }

    /// The prefix of the first `len` places.
    #[inline]
    fn short(alloc: Global, len: usize, places: [K; 16]) -> Self
        requires { len ≤ 16 }
        ensures { result ≡ take len places }
    {
        let len = len as u8;
        Prefix {
            alloc,
            cells: Cells::Short { len, places },
        }
    }

    /// The prefix with the components of a list.
    fn long(alloc: Global, list: Vec<K>) -> Result<Self, AllocError>
        ensures { IfOk result (λ made. made ≡ list.items) }
    {
        let list = Box::new(alloc, list)?;
        Ok(Prefix {
            alloc,
            cells: Cells::Apart(Some(list)),
        })
    }
}

impl<K: Copy> Fragment<K> for Prefix<K> {
    ghost items = { λ made. made };

    fn as_slice(&self) -> &[K] {
        Prefix::as_slice(self)
    }

    #[inline(always)]
    fn from_slice(alloc: Global, slice: &[K]) -> Result<Prefix<K>, AllocError> {
        let Some(first) = slice.first() else {
            return Ok(Prefix::new(alloc));
        };
        let len = slice.len();
        if len > 16 {
            return Prefix::long(alloc, Vec::from_slice(alloc, slice)?);
        }
        let mut places = [*first; 16];
        // One component is in all places already.
        if len > 1 {
            places[..len].copy_from_slice(slice);
        }
        Ok(Prefix::short(alloc, len, places))
    }

    fn joined(alloc: Global, front: &[K], back: &[K]) -> Result<Prefix<K>, AllocError> {
        let Some(some) = front.first().or(back.first()) else {
            return Ok(Prefix::new(alloc));
        };
        let whole = front.len().saturating_add(back.len());
        if whole > 16 {
            let mut list = Vec::with_capacity(alloc, whole)?;
            list.extend_from_slice(front)?;
            list.extend_from_slice(back)?;
            return Prefix::long(alloc, list);
        }
        let mut places = [*some; 16];
        let all = &mut places[..whole];
        all[..front.len()].copy_from_slice(front);
        all[front.len()..].copy_from_slice(back);
        Ok(Prefix::short(alloc, whole, places))
    }
}
