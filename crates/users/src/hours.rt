//! Opening hours: those of a shop, and those of two shops together.

ghost use Rattle.std.specs.Prelude.{◌≡◌, ◌||◌, ◌&&◌, not, IfOk, IsOk, ℕ, leb, ltb};
ghost use Rattle.vec_collections.specs.SetOf.{exactly_one};
ghost use Rattle.users.specs.Hours.{is_open};

use std::alloc::{AllocError, Global};
use vec_collections::interval_set::IntervalSet;

/// The hours at which a shop is open. Two spans of hours take no memory.
#[derive(Drop)]
pub struct Hours {
    open: IntervalSet<u64, 4>,
}

impl Hours {
    /// Open from one hour until another; never, where that is not later.
    pub fn between(alloc: Global, opens: u64, closes: u64) -> Result<Self, AllocError>
        ensures hours { IfOk result
            (λ made. (hour : ℕ) → is_open made hour ≡ (leb opens hour && ltb hour closes)) }
        ensures room { IsOk result }
    {
        let open = IntervalSet::between(alloc, opens, closes)?;
        Ok(Hours { open })
    }

    /// Whether the shop is open at the hour.
    pub fn is_open(&self, hour: u64) -> bool
        ensures { result ≡ is_open self.now hour }
    {
        self.open.contains(&hour)
    }

    /// When either shop is open.
    pub fn either(&self, other: &Self) -> Result<Self, AllocError>
        ensures { IfOk result (λ made. (hour : ℕ)
            → is_open made hour ≡ (is_open self.now hour || is_open other.now hour)) }
    {
        let open = (&self.open | &other.open)?;
        Ok(Hours { open })
    }

    /// When both shops are open.
    pub fn both(&self, other: &Self) -> Result<Self, AllocError>
        ensures { IfOk result (λ made. (hour : ℕ)
            → is_open made hour ≡ (is_open self.now hour && is_open other.now hour)) }
    {
        let open = (&self.open & &other.open)?;
        Ok(Hours { open })
    }

    /// When this shop is open and the other one is not.
    pub fn alone(&self, other: &Self) -> Result<Self, AllocError>
        ensures { IfOk result (λ made. (hour : ℕ)
            → is_open made hour ≡ (is_open self.now hour && not (is_open other.now hour))) }
    {
        let open = (&self.open - &other.open)?;
        Ok(Hours { open })
    }

    /// When exactly one of the shops is open.
    pub fn only_one(&self, other: &Self) -> Result<Self, AllocError>
        ensures { IfOk result (λ made. (hour : ℕ)
            → is_open made hour ≡ exactly_one (is_open self.now hour) (is_open other.now hour)) }
    {
        let open = (&self.open ^ &other.open)?;
        Ok(Hours { open })
    }

    /// When the shop is closed.
    pub fn closed(self) -> Self
        ensures { (hour : ℕ) → is_open result hour ≡ not (is_open self hour) }
    {
        Hours { open: !self.open }
    }
}
