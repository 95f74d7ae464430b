//! The keys of the items of a walk.

ghost use Rattle.std.specs.Prelude.{◌≡◌, ◌++◌, [], take, IfOk, OnOk};

use std::alloc::{AllocError, Global};
use std::fmt;
use std::marker::Model;
use std::rc::Rc;

/// The key of an item of a walk. Contracts see the list of its components.
///
/// The walk and the keys that it gave share their components: a walk that continues copies them
/// where an earlier key is still held, and otherwise writes over them. So a key that is held does
/// not change.
#[derive(Drop)]
pub struct IterKey<K> {
    /// The components; `None` for the empty key.
    shared: Option<Rc<Vec<K>>>,
}

impl<K> Model for IterKey<K> {
    ghost use Rattle.std.specs.Prelude.{List};
    ghost use Rattle.vc_tree_nodes.specs.Children.{listed};

    ghost Value = { List K };

    ghost view = { λ a. listed (λ rc. rc.value.items) a.shared };
}

impl<K: Drop> IterKey<K> {
    /// The empty key.
    pub(crate) fn empty() -> Self
        ensures { result ≡ [] }
    {
        IterKey { shared: None }
    }

    /// The components of the key. Takes no memory.
    pub fn as_ref(&self) -> &[K]
        ensures { result.now ≡ self.now }
    {
        match &self.shared {
            Some(list) => list.as_slice(),
            None => &[],
        }
    }

    /// The same key, which shares the components. Fails where one more owner is refused; the key is
    /// unchanged.
    pub fn clone(&self) -> Result<Self, AllocError>
        ensures { IfOk result (λ key. key ≡ self.now) }
    {
        let shared = match &self.shared {
            Some(list) => Some(list.clone()?),
            None => None,
        };
        Ok(IterKey { shared })
    }
}

impl<K: Copy> IterKey<K> {
    /// The key with the components of both parts.
    fn join(alloc: Global, front: &[K], back: &[K]) -> Result<Self, AllocError>
        ensures { IfOk result (λ key. key ≡ front.now ++ back.now) }
    {
        let mut list = Vec::new(alloc);
        list.extend_from_slice(front)?;
        list.extend_from_slice(back)?;
        Ok(IterKey {
            shared: Some(Rc::new(alloc, list)?),
        })
    }

    /// Keeps the first `kept` components and appends others: in the same list where no other key
    /// shares it.
    pub(crate) fn turn_to(
        &mut self,
        alloc: Global,
        kept: usize,
        back: &[K],
    ) -> Result<(), AllocError>
        ensures { OnOk result (self.new ≡ take kept self.old ++ back.now) }
    {
        if let Some(shared) = &mut self.shared {
            if let Some(list) = Rc::get_mut(shared) {
                list.truncate(kept);
                return list.extend_from_slice(back);
            }
        }
        let front = self.as_ref();
        *self = IterKey::join(alloc, &front[..kept.min(front.len())], back)?;
        Ok(())
    }

    /// Appends components.
    pub(crate) fn push(&mut self, alloc: Global, back: &[K]) -> Result<(), AllocError>
        ensures { OnOk result (self.new ≡ self.old ++ back.now) }
    {
        let kept = self.as_ref().len();
        self.turn_to(alloc, kept, back)
    }
}

impl<K: fmt::Debug + Drop> fmt::Debug for IterKey<K> {
    fn fmt<W: fmt::Write>(&self, f: &mut fmt::Formatter<W>) -> fmt::Result {
        f.debug_tuple("IterKey").field(&self.as_ref()).finish()
    }
}
