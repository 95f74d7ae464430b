//! Arithmetic of total maps, as a user writes it, by operators on references, with clauses on the
//! value at each key.
ghost use Rattle.std.specs.Prelude.{◌≡◌, ◌==◌, ◌+◌, ◌-◌, ◌*◌, ◌/◌, ◌^◌, ◌<◌, ◌≤◌, ℕ, cond, min, Ok, IfOk, OnOk};
ghost use Rattle.std.specs.Ordering.{nat_cmp};
ghost use Rattle.vec_collections.specs.CombinedTotals.{HoldsEverywhere, CombinesValues};
ghost use Rattle.vec_collections.specs.TotalMap.{at};

use std::alloc::{AllocError, Global};
use vec_collections::VecMap;
use vec_collections::total_vec_map::TotalVecMap;

/// A number for each article, where most have the same one.
pub type Tally = TotalVecMap<u32, u32, 4>;

/// The pieces of each article on two shelves together.
#[tactic(auto, using(vec_collections::specs::Pointwise::pointwise))]
pub fn together(here: &Tally, there: &Tally) -> Result<Tally, AllocError>
    requires fits { HoldsEverywhere nat_cmp (λ x y. x + y < 2 ^ 32) here.now there.now }
    ensures { IfOk result (CombinesValues nat_cmp ◌+◌ here.now there.now) }
{
    here + there
}

/// The same, said at each article.
pub fn together_at_each(here: &Tally, there: &Tally) -> Result<Tally, AllocError>
    requires fits { HoldsEverywhere nat_cmp (λ x y. x + y < 2 ^ 32) here.now there.now }
    ensures { IfOk result (λ all. (article : ℕ) → at nat_cmp all article
        ≡ at nat_cmp here.now article + at nat_cmp there.now article) }
{
    together(here, there)
}

/// Pieces of one article, and none of the others.
pub fn only(alloc: Global, article: u32, pieces: u32) -> Result<Tally, AllocError>
    ensures { IfOk result (λ tally. (other : ℕ)
        → at nat_cmp tally other ≡ cond (other == article) pieces 0) }
{
    Ok(TotalVecMap::new(VecMap::single(alloc, (article, pieces))?, 0))
}

/// Counts one article anew. The pieces of all others stay.
pub fn recount(tally: &mut Tally, article: u32, pieces: u32) -> Result<(), AllocError>
    ensures { OnOk result ((other : ℕ) → at nat_cmp tally.new other
        ≡ cond (other == article) pieces (at nat_cmp tally.old other)) }
{
    tally.set(article, pieces)
}

/// Gives back the memory that the tally does not need.
pub fn pack(tally: &mut Tally)
    ensures { tally.new ≡ tally.old }
{
    let _always = tally.shrink_to_fit();
}

/// The pieces of each article together, or the greatest number where they are more.
#[tactic(auto, using(vec_collections::specs::Pointwise::pointwise))]
pub fn together_up_to_most(here: &Tally, there: &Tally) -> Result<Tally, AllocError>
    ensures { IfOk result
        (CombinesValues nat_cmp (λ x y. min (x + y) (2 ^ 32 - 1)) here.now there.now) }
{
    here.combine_ref(
        there,
        |x: &u32, y: &u32| -> Result<u32, AllocError>
            ensures { result ≡ Ok (min (x.now + y.now) (2 ^ 32 - 1)) }
        { Ok(x.saturating_add(*y)) },
    )
}

/// The pieces of each article after some more of one were added, or the greatest number.
pub fn with_more(alloc: Global, held: &Tally, article: u32, more: u32) -> Result<Tally, AllocError>
    ensures { IfOk result (λ tally. (other : ℕ) → at nat_cmp tally other
        ≡ min (at nat_cmp held.now other + cond (other == article) more 0) (2 ^ 32 - 1)) }
{
    let arrived = only(alloc, article, more)?;
    together_up_to_most(held, &arrived)
}

/// The pieces of each article that are left after some were sold.
#[tactic(auto, using(vec_collections::specs::Pointwise::pointwise))]
pub fn left_over(held: &Tally, sold: &Tally) -> Result<Tally, AllocError>
    requires suffices { HoldsEverywhere nat_cmp (λ x y. y ≤ x) held.now sold.now }
    ensures { IfOk result (CombinesValues nat_cmp ◌-◌ held.now sold.now) }
{
    held - sold
}

/// What the pieces of each article cost.
#[tactic(auto, using(vec_collections::specs::Pointwise::pointwise))]
pub fn worth(pieces: &Tally, prices: &Tally) -> Result<Tally, AllocError>
    requires fits { HoldsEverywhere nat_cmp (λ x y. x * y < 2 ^ 32) pieces.now prices.now }
    ensures { IfOk result (CombinesValues nat_cmp ◌*◌ pieces.now prices.now) }
{
    pieces * prices
}

/// How many full boxes the pieces of each article make, by how many a box holds.
#[tactic(auto, using(vec_collections::specs::Pointwise::pointwise))]
pub fn full_boxes(pieces: &Tally, room: &Tally) -> Result<Tally, AllocError>
    requires hold_some { HoldsEverywhere nat_cmp (λ x y. 0 < y) pieces.now room.now }
    ensures { IfOk result (CombinesValues nat_cmp ◌/◌ pieces.now room.now) }
{
    pieces / room
}
