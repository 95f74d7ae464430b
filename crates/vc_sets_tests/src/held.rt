//! An element that counts its holders, and may refuse to be cloned.
ghost use Rattle.std.specs.Prelude.{◌≡◌};

use std::alloc::AllocError;
use std::rc::Rc;

/// A count of holders.
pub type Shared = Option<Rc<u32>>;

/// A number that holds a share, and may refuse to be cloned. Only the number counts in comparisons.
#[derive_where(Debug, PartialEq, Eq, PartialOrd, Ord)]
#[derive(Drop)]
pub struct Held {
    pub number: u32,
    #[derive_where(skip)]
    pub share: Shared,
    #[derive_where(skip)]
    pub refuses: bool,
}

impl Default for Held {
    fn default() -> Held {
        Held {
            number: 0,
            share: None,
            refuses: false,
        }
    }
}

impl Clone for Held {
    ghost is_clone = { λ x y. y.number ≡ x.number };

    fn clone(&self) -> Result<Held, AllocError> {
        if self.refuses {
            return Err(AllocError);
        }
        Ok(Held {
            number: self.number,
            share: self.share.clone()?,
            refuses: self.refuses,
        })
    }
}

/// The number of holders of a share.
pub fn holders_of(share: &Shared) -> usize {
    share.as_ref().map_or(0, |rc| Rc::strong_count(rc))
}

/// The number of a share, and one more holder of it.
pub fn hold(share: &Shared, refuses: bool) -> Result<Held, AllocError> {
    let number = share.as_ref().map_or(0, |rc| **rc);
    Ok(Held {
        number,
        share: share.clone()?,
        refuses,
    })
}
