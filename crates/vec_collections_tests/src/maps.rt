//! Maps, as a user writes them: look-ups, changes and joins, with a user's clauses.
ghost use Rattle.std.specs.Prelude.{◌≡◌, ◌==◌, ◌-◌, ◌↔◌, [], cond, count_by, drop, length, min, reverse, slice_get, take, false, Some, None, ℕ, IsSome, IsTrue, IfOk, IfSome, IsOk, OnOk, OnErr};
ghost use Rattle.std.specs.BTreeMap.Range.{entries_between};
ghost use Rattle.std.specs.Map.{keys_of, lookup, values_of};
ghost use Rattle.std.specs.String.{string_cmp};
ghost use Rattle.std.specs.Option.{option_cmp, option_copied, option_or};
ghost use Rattle.std.specs.Ordering.{eq_by_cmp, nat_cmp};
ghost use Rattle.std.specs.declared.ops.Bound.TheVariants.{Included, Excluded};
ghost use Rattle.vec_collections.specs.Entries.{entry_at, value_at};
ghost use Rattle.vec_collections.specs.JoinValues.{in_both, in_either, in_left, in_right};
ghost use Rattle.vec_collections_tests.specs.Names.{has_letters, IsSpelled};
ghost use Rattle.vec_collections_tests.specs.Stock.{filled, left_over, together};

use std::alloc::{AllocError, Global};
use vec_collections::iterators::ascends_by_key;
use vec_collections::vec_map::{
    AbstractVecMap, OuterJoinArg, VecMap, inner_join, left_join, outer_join, right_join,
};

/// The number of pieces of each article. Four articles need no allocation.
pub type Stock = VecMap<u32, u32, 4>;

/// How many pieces of an article there are.
pub fn pieces_of(stock: &Stock, article: u32) -> Option<&u32>
    ensures { option_copied result ≡ value_at nat_cmp stock.now article }
{
    stock.get(&article)
}

/// The stock of a list, or none where its articles do not ascend.
pub fn of_list(alloc: Global, list: Vec<(u32, u32)>) -> Result<Option<Stock>, AllocError>
    ensures { IfOk result (λ stock. IfSome stock (λ map. map ≡ list.items)) }
{
    if ascends_by_key(list.as_slice()) {
        Ok(Some(Stock::from_vec(alloc, list)?))
    } else {
        Ok(None)
    }
}

/// Records how many pieces of an article there are, and answers how many there were.
pub fn recount(stock: &mut Stock, article: u32, pieces: u32) -> Result<Option<u32>, AllocError>
    ensures before { IfOk result (λ before. before ≡ value_at nat_cmp stock.old article) }
    ensures after { OnOk result (value_at nat_cmp stock.new article ≡ Some pieces) }
    ensures err { OnErr result (stock.new ≡ stock.old) }
{
    stock.insert(article, pieces)
}

/// Corrects how many pieces there are of an article that is in stock, and answers whether it is. No
/// other article changes.
pub fn correct(stock: &mut Stock, article: u32, pieces: u32) -> bool
    ensures known { IsTrue result ↔ IsSome (value_at nat_cmp stock.old article) }
    ensures corrected { IsTrue result → (k : ℕ)
        → value_at nat_cmp stock.new k
        ≡ cond (eq_by_cmp nat_cmp k article) (Some pieces) (value_at nat_cmp stock.old k) }
    ensures unknown { ¬ (IsTrue result) → stock.new ≡ stock.old }
    ensures articles { keys_of stock.new ≡ keys_of stock.old }
{
    let Some(held) = stock.get_mut(&article) else {
        return false;
    };
    *held = pieces;
    true
}

/// Corrects how many pieces there are of an article that is looked up by a reference to its number.
pub fn correct_by(stock: &mut Stock, article: &u32, pieces: u32)
    ensures articles { keys_of stock.new ≡ keys_of stock.old }
{
    if let Some(held) = stock.get_mut_by(article) {
        *held = pieces;
    }
}

/// Counts one more piece of an article, or one where there was none. On refusal no article changes.
pub fn add_piece(stock: &mut Stock, article: u32) -> Result<(), AllocError>
    ensures others { OnOk result ((k : ℕ) → eq_by_cmp nat_cmp k article ≡ false
        → entry_at nat_cmp stock.new k ≡ entry_at nat_cmp stock.old k) }
    ensures err { OnErr result (stock.new ≡ stock.old) }
{
    stock.upsert(
        article,
        1,
        |pieces: &mut u32| *pieces = pieces.saturating_add(1),
    )
}

/// The stock of deliveries in any order, where the last one of an article counts.
pub fn of_deliveries(alloc: Global, list: Vec<(u32, u32)>) -> Result<Stock, AllocError> {
    list.into_iter().collect(alloc)
}

/// Takes an article out of stock, and answers how many pieces of it there were. No other article
/// changes.
pub fn discontinue(stock: &mut Stock, article: u32) -> Option<u32>
    ensures held { result ≡ value_at nat_cmp stock.old article }
    ensures rest { (k : ℕ) → value_at nat_cmp stock.new k
        ≡ cond (eq_by_cmp nat_cmp k article) None (value_at nat_cmp stock.old k) }
{
    stock.remove(&article)
}

/// Whether an article is in stock.
pub fn is_listed(stock: &Stock, article: u32) -> bool
    ensures { IsTrue result ↔ IsSome (value_at nat_cmp stock.now article) }
{
    stock.contains_key(&article)
}

/// How many articles are sold out, by a loop.
pub fn count_sold_out(stock: &Stock) -> usize
    ensures { result ≡ count_by (λ pair. pair.1 == 0) stock.now }
{
    let mut count = 0;
    for (_, pieces) in stock {
        if *pieces == 0 {
            count += 1;
        }
    }
    count
}

/// The desk of a user, in any map by names, or none where there is none.
pub fn desk_of<'a, M: AbstractVecMap<String, u32>>(desks: &'a M, name: &str) -> Option<&'a u32>
    ensures { option_copied result ≡ lookup (has_letters name.now) (M.pairs desks.now) }
{
    desks.get_by(name)
}

/// Whether a user has a desk, in any map by names.
pub fn has_desk<M: AbstractVecMap<String, u32>>(desks: &M, name: &str) -> bool
    ensures { IsTrue result ↔ IsSome (lookup (has_letters name.now) (M.pairs desks.now)) }
{
    desks.contains_key_by(name)
}

/// The desks of users by their names. Four of them need no allocation. One may be nobody's.
pub type Desks = VecMap<Option<String>, u32, 4>;

/// Removes the desk of a user, and answers which one it was. All others keep theirs.
pub fn clear_desk(desks: &mut Desks, name: &str) -> Option<u32>
    ensures was { (user : _) → IsSpelled name.now user
        → result ≡ value_at (option_cmp string_cmp) desks.old (Some user) }
    ensures desks { (user : _) → value_at (option_cmp string_cmp) desks.new (Some user)
        ≡ cond (has_letters name.now user) None
        (value_at (option_cmp string_cmp) desks.old (Some user)) }
{
    desks.remove_by(Some(name))
}

/// The articles with the least and the greatest number, or none where nothing is in stock.
pub fn ends(stock: &Stock) -> (Option<&(u32, u32)>, Option<&(u32, u32)>)
    ensures least { option_copied result.0 ≡ slice_get stock.now 0 }
    ensures greatest { option_copied result.1 ≡ slice_get stock.now (length stock.now - 1) }
{
    (stock.first(), stock.last())
}

/// The articles from one number on and below another, none where that is not above the first.
pub fn articles_within(stock: &Stock, from: u32, to: u32) -> &[(u32, u32)]
    ensures { result.now ≡ entries_between nat_cmp (Included from) (Excluded to) stock.now }
{
    stock.range(from..to)
}

/// The numbers of all articles, the greatest first.
pub fn numbers_backwards(alloc: Global, stock: &Stock) -> Result<Vec<u32>, AllocError>
    ensures { IfOk result (λ list. list.items ≡ reverse (keys_of stock.now)) }
{
    stock.keys().rev().copied().collect(alloc)
}

/// How many pieces there are of each article, in ascending order of the articles.
pub fn all_pieces(alloc: Global, stock: &Stock) -> Result<Vec<u32>, AllocError>
    ensures { IfOk result (λ list. list.items ≡ values_of stock.now) }
{
    stock.values().copied().collect(alloc)
}

/// How many articles an iterator shows.
pub fn count_shown(stock: &Stock) -> usize
    ensures { result ≡ length stock.now }
{
    stock.iter().len()
}

/// The stock of a list in any order. Of an article that is there twice the last entry counts.
pub fn of_any_list(alloc: Global, list: Vec<(u32, u32)>) -> Result<Stock, AllocError>
    ensures { IfOk result (λ stock. (article : ℕ)
        → value_at nat_cmp stock article ≡ value_at nat_cmp (reverse list.items) article) }
{
    Stock::from_unsorted(alloc, list)
}

/// Takes the article with the least number out of stock.
pub fn take_least(stock: &mut Stock) -> Option<(u32, u32)>
    ensures least { result ≡ slice_get stock.old 0 }
    ensures rest { stock.new ≡ drop 1 stock.old }
{
    stock.pop_first()
}

/// Takes the article with the greatest number out of stock.
pub fn take_greatest(stock: &mut Stock) -> Option<(u32, u32)>
    ensures greatest { result ≡ slice_get stock.old (length stock.old - 1) }
    ensures rest { stock.new ≡ take (length stock.old - 1) stock.old }
{
    stock.pop_last()
}

/// Takes all articles out of stock.
pub fn sell_out(stock: &mut Stock)
    ensures { stock.new ≡ [] }
{
    stock.clear();
}

/// Gives back the memory that the stock does not need.
pub fn pack(stock: &mut Stock)
    ensures { stock.new ≡ stock.old }
{
    let _always = stock.shrink_to_fit();
}

/// The price of each article: that of today where there is one, otherwise that of the list.
pub fn of_today(alloc: Global, list: &Stock, today: &Stock) -> Result<Stock, AllocError>
    ensures { IfOk result (λ prices. (k : ℕ) → value_at nat_cmp prices k
        ≡ in_either (λ listed new. option_or new listed) (value_at nat_cmp list.now k)
        (value_at nat_cmp today.now k)) }
{
    outer_join(
        alloc,
        list,
        today,
        |at: OuterJoinArg<&u32, &u32, &u32>| -> Result<Option<u32>, AllocError> {
            Ok(match at {
                OuterJoinArg::Left(_, price) => Some(*price),
                OuterJoinArg::Right(_, price) | OuterJoinArg::Both(_, _, price) => Some(*price),
            })
        },
    )
}

/// Replaces the prices of the list by those of today.
pub fn renew_prices(list: &mut Stock, today: Stock) -> Result<(), AllocError>
    ensures { OnOk result ((k : ℕ) → value_at nat_cmp list.new k
        ≡ option_or (value_at nat_cmp today k) (value_at nat_cmp list.old k)) }
{
    list.merge_with(today)
}

/// Adds a delivery.
pub fn deliver(stock: &mut Stock, delivery: &Stock) -> Result<(), AllocError>
    ensures pieces { OnOk result ((k : ℕ) → value_at nat_cmp stock.new k
        ≡ in_either together (value_at nat_cmp stock.old k) (value_at nat_cmp delivery.now k)) }
    ensures err { OnErr result (stock.new ≡ stock.old) }
{
    stock.outer_join_with(
        delivery,
        |at: OuterJoinArg<&u32, u32, &u32>| -> Option<u32> {
            match at {
                OuterJoinArg::Left(_, held) => Some(held),
                OuterJoinArg::Right(_, more) => Some(*more),
                OuterJoinArg::Both(_, held, more) => Some(held.saturating_add(*more)),
            }
        },
    )
}

/// Removes from stock what was sold.
pub fn sell(stock: &mut Stock, sold: &Stock) -> Result<(), AllocError>
    ensures pieces { (k : ℕ) → value_at nat_cmp stock.new k
        ≡ in_left left_over (value_at nat_cmp stock.old k) (value_at nat_cmp sold.now k) }
    ensures always { IsOk result }
{
    stock.left_join_with(
        sold,
        |_: &u32, held: u32, sold: Option<&u32>| -> Option<u32> {
            match sold {
                Some(sold) => Some(held.saturating_sub(*sold)),
                None => Some(held),
            }
        },
    )
}

/// Keeps the articles that a list names.
pub fn keep_listed(stock: &mut Stock, list: &Stock) -> Result<(), AllocError>
    ensures pieces { (k : ℕ) → value_at nat_cmp stock.new k
        ≡ in_both (λ held listed. Some held) (value_at nat_cmp stock.old k)
        (value_at nat_cmp list.now k) }
    ensures always { IsOk result }
{
    stock.inner_join_with(list, |_: &u32, held: u32, _: &u32| -> Option<u32> {
        Some(held)
    })
}

/// Raises the stock to what a list says, where that is more than is there.
pub fn fill_up(stock: &mut Stock, list: &Stock) -> Result<(), AllocError>
    ensures pieces { OnOk result ((k : ℕ) → value_at nat_cmp stock.new k
        ≡ in_right filled (value_at nat_cmp stock.old k) (value_at nat_cmp list.now k)) }
    ensures err { OnErr result (stock.new ≡ stock.old) }
{
    stock.right_join_with(
        list,
        |_: &u32, held: Option<u32>, listed: &u32| -> Option<u32> {
            match held {
                Some(held) => Some(held.max(*listed)),
                None => Some(*listed),
            }
        },
    )
}

/// What is left of a stock after these pieces are sold.
pub fn after_sale(alloc: Global, stock: &Stock, sold: &Stock) -> Result<Stock, AllocError>
    ensures { IfOk result (λ rest. (k : ℕ) → value_at nat_cmp rest k
        ≡ in_left left_over (value_at nat_cmp stock.now k) (value_at nat_cmp sold.now k)) }
{
    left_join(
        alloc,
        stock,
        sold,
        |_: &u32, held: &u32, sold: Option<&u32>| -> Result<Option<u32>, AllocError> {
            match sold {
                Some(sold) => Ok(Some(held.saturating_sub(*sold))),
                None => Ok(Some(*held)),
            }
        },
    )
}

/// The stock raised to what a list says, where that is more than is there.
pub fn filled_up(alloc: Global, stock: &Stock, list: &Stock) -> Result<Stock, AllocError>
    ensures { IfOk result (λ full. (k : ℕ) → value_at nat_cmp full k
        ≡ in_right filled (value_at nat_cmp stock.now k) (value_at nat_cmp list.now k)) }
{
    right_join(
        alloc,
        stock,
        list,
        |_: &u32, held: Option<&u32>, listed: &u32| -> Result<Option<u32>, AllocError> {
            match held {
                Some(held) => Ok(Some((*held).max(*listed))),
                None => Ok(Some(*listed)),
            }
        },
    )
}

/// What each order of an article gets, which is no more than is there.
pub fn served(alloc: Global, stock: &Stock, orders: &Stock) -> Result<Stock, AllocError>
    ensures { IfOk result (λ sent. (k : ℕ) → value_at nat_cmp sent k
        ≡ in_both (λ held wanted. Some (min held wanted)) (value_at nat_cmp stock.now k)
        (value_at nat_cmp orders.now k)) }
{
    inner_join(
        alloc,
        stock,
        orders,
        |_: &u32, held: &u32, wanted: &u32| -> Result<Option<u32>, AllocError> {
            Ok(Some((*held).min(*wanted)))
        },
    )
}

/// Counts one piece more of each article, as far as numbers go. The articles stay.
pub fn add_one_of_each(stock: &mut Stock)
    ensures articles { keys_of stock.new ≡ keys_of stock.old }
    ensures pieces { (article : ℕ) → IsSome (entry_at nat_cmp stock.old article)
        → IsSome (entry_at nat_cmp stock.new article) }
{
    stock.for_each_value(|_: &u32, pieces: &mut u32| *pieces = pieces.saturating_add(1));
}
