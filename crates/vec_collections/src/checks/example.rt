//! The example of the README, as a user writes it, with all names from this crate. Its contracts
//! are in the words of the subject.
ghost use Rattle.std.specs.Prelude.{◌≡◌, ◌||◌, ◌&&◌, ◌↔◌, not, IfOk, OnOk, IsTrue, ℕ};
ghost use Rattle.std.specs.Option.{option_copied};
ghost use Rattle.std.specs.Ordering.{nat_cmp};
ghost use Rattle.vec_collections.specs.Words.{at, exactly_one, lookup, member, value_at, IsInserted};

use crate::radix_tree::{AbstractRadixTree, AbstractRadixTreeMut, RadixTree};
use crate::total_vec_map::TotalVecMap;
use crate::{
    AbstractVecMap, AbstractVecSet, VecMap, VecSet, difference, intersection, symmetric_difference,
    union,
};
use std::alloc::{AllocError, Global};

/// The tags of an article. Four of them need no allocation.
pub type Tags = VecSet<u32, 4>;

/// The tags that either article has.
pub fn all_tags(alloc: Global, a: &Tags, b: &Tags) -> Result<Tags, AllocError>
    ensures { IfOk result (λ all. (tag : ℕ)
        → member nat_cmp all tag ≡ (member nat_cmp a.now tag || member nat_cmp b.now tag)) }
{
    union(alloc, a, b)
}

/// The tags that both articles have.
pub fn shared_tags(alloc: Global, a: &Tags, b: &Tags) -> Result<Tags, AllocError>
    ensures { IfOk result (λ all. (tag : ℕ)
        → member nat_cmp all tag ≡ (member nat_cmp a.now tag && member nat_cmp b.now tag)) }
{
    intersection(alloc, a, b)
}

/// The tags of the first article that the second one lacks.
pub fn missing_tags(alloc: Global, a: &Tags, b: &Tags) -> Result<Tags, AllocError>
    ensures { IfOk result (λ all. (tag : ℕ)
        → member nat_cmp all tag ≡ (member nat_cmp a.now tag && not (member nat_cmp b.now tag))) }
{
    difference(alloc, a, b)
}

/// The tags in which the articles differ.
pub fn differing_tags(alloc: Global, a: &Tags, b: &Tags) -> Result<Tags, AllocError>
    ensures { IfOk result (λ all. (tag : ℕ)
        → member nat_cmp all tag
        ≡ exactly_one (member nat_cmp a.now tag) (member nat_cmp b.now tag)) }
{
    symmetric_difference(alloc, a, b)
}

/// Whether an article has all tags in `asked`.
pub fn has_tags(tags: &Tags, asked: &Tags) -> bool
    ensures { IsTrue result ↔ ((tag : ℕ) → IsTrue (member nat_cmp asked.now tag)
        → IsTrue (member nat_cmp tags.now tag)) }
{
    asked.is_subset(tags)
}

/// Sets the port of a server, and answers the old one.
pub fn set_port(
    ports: &mut RadixTree<u8, u32>,
    server: &[u8],
    port: u32,
) -> Result<Option<u32>, AllocError>
    ensures had { IfOk result (λ had. had ≡ lookup nat_cmp ports.old server.now) }
    ensures set { OnOk result
        (IsInserted nat_cmp (λ x y. x ≡ y) server.now port ports.old ports.new) }
{
    let had = ports.get(server).copied();
    ports.insert(server, port)?;
    Ok(had)
}

/// The stock of a shop: the number of pieces of each article. Four articles need no allocation.
pub type Stock = VecMap<u32, u32, 4>;

/// The number of pieces of an article.
pub fn pieces(stock: &Stock, article: u32) -> Option<&u32>
    ensures { option_copied result ≡ value_at nat_cmp stock.now article }
{
    stock.get(&article)
}

/// The prices of articles, most of which cost the same.
pub type Prices = TotalVecMap<u32, u32, 4>;

/// The price of an article.
pub fn price(prices: &Prices, article: u32) -> u32
    ensures { result ≡ at nat_cmp prices.now article }
{
    prices[&article]
}
