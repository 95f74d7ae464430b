//! Sets and maps inside others: a set as the value of a map, of a total map and of a tree, as the
//! element of a set, and as a field of a type of this crate's own.
ghost use Rattle.std.specs.Prelude.{◌≡◌, ◌||◌, ◌==◌, ℕ, List, [], Some, not, string_bytes, IfOk, IsFalse, OnErr, OnOk};
ghost use Rattle.std.proofs.Common.{rules};
ghost use Rattle.std.specs.Cmp.Lexicographic.{slice_cmp};
ghost use Rattle.std.specs.Option.{option_copied, option_flatten, unwrap_or};
ghost use Rattle.std.specs.Ordering.{nat_cmp};
ghost use Rattle.vec_collections.specs.Ascending.{member};
ghost use Rattle.vec_collections.specs.Entries.{value_at};
ghost use Rattle.vec_collections.specs.Key.{same_key};
ghost use Rattle.vec_collections.specs.Map.{lookup};
ghost use Rattle.vec_collections.specs.TotalMap.{at};
ghost use Rattle.vec_collections.specs.Value.{IsKept};

use std::alloc::{AllocError, Global};
use std::default::MadeWith;
use vec_collections::radix_tree::{AbstractRadixTree, AbstractRadixTreeMut, RadixNode, RadixTree};
use vec_collections::total_vec_map::TotalVecMap;
use vec_collections::vec_map::{AbstractVecMap, VecMap};
use vec_collections::vec_set::{AbstractVecSet, ClonesEqual, VecSet};

/// Numbers of articles. Four of them need no allocation.
pub type Articles = VecSet<u32, 4>;

/// The articles on each shelf. Unused places of a map's list hold default values, so a set is there
/// as an option.
pub type Shelves = VecMap<u32, Option<Articles>, 4>;

/// Puts articles on a shelf, and replaces those that are there.
pub fn fill(shelves: &mut Shelves, shelf: u32, articles: Articles) -> Result<(), AllocError>
    ensures { OnOk result (value_at nat_cmp shelves.new shelf ≡ Some (Some articles)) }
{
    shelves.insert(shelf, Some(articles))?;
    Ok(())
}

/// The articles on a shelf, if it has any.
pub fn on_shelf(shelves: &Shelves, shelf: u32) -> Option<&Articles>
    ensures { option_copied result ≡ option_flatten (value_at nat_cmp shelves.now shelf) }
{
    match shelves.get(&shelf) {
        Some(Some(articles)) => Some(articles),
        _ => None,
    }
}

/// A copy of the articles on a shelf, which may have none.
pub fn copy_of_shelf(shelves: &Shelves, shelf: u32) -> Result<Articles, AllocError>
    ensures { IfOk result (λ articles. articles
        ≡ unwrap_or (option_flatten (value_at nat_cmp shelves.now shelf)) []) }
{
    match shelves.get(&shelf) {
        Some(Some(articles)) => articles.clone(),
        _ => Ok(Articles::empty(shelves.allocator())),
    }
}

/// Puts one more article on a shelf. On refusal all shelves are unchanged.
pub fn put_on_shelf(shelves: &mut Shelves, shelf: u32, article: u32) -> Result<(), AllocError>
    ensures put { OnOk result ((other : ℕ)
        → member nat_cmp (unwrap_or (option_flatten (value_at nat_cmp shelves.new shelf)) []) other
        ≡ (article == other || member nat_cmp
        (unwrap_or (option_flatten (value_at nat_cmp shelves.old shelf)) []) other)) }
    ensures err { OnErr result (shelves.new ≡ shelves.old) }
{
    let mut articles = copy_of_shelf(shelves, shelf)?;
    articles.insert(article)?;
    shelves.insert(shelf, Some(articles))?;
    Ok(())
}

/// A copy of all shelves, with the same articles on each.
pub fn copy_shelves(shelves: &Shelves) -> Result<Shelves, AllocError>
    ensures { IfOk result (λ copy. (shelf : ℕ)
        → value_at nat_cmp copy shelf ≡ value_at nat_cmp shelves.now shelf) }
{
    shelves.clone()
}

/// The articles with each word.
pub type Index = RadixTree<u8, Articles>;

/// A copy of the articles with a word, or none.
pub fn articles_with(index: &Index, word: &[u8]) -> Result<Articles, AllocError>
    ensures { IfOk result
        (λ articles. articles ≡ unwrap_or (lookup nat_cmp index.now word.now) []) }
{
    match index.get(word) {
        Some(articles) => articles.clone(),
        None => Ok(Articles::empty(index.allocator())),
    }
}

/// Adds an article to those with a word. The other words keep theirs.
pub fn index_article(index: &mut Index, word: &[u8], article: u32) -> Result<(), AllocError>
    ensures added { OnOk result ((other : ℕ)
        → member nat_cmp (unwrap_or (lookup nat_cmp index.new word.now) []) other
        ≡ (article == other
        || member nat_cmp (unwrap_or (lookup nat_cmp index.old word.now) []) other)) }
    ensures kept { OnOk result ((other : List ℕ) → IsFalse (same_key nat_cmp word.now other)
        → IsKept (λ x y. x ≡ y) (lookup nat_cmp index.old other) (lookup nat_cmp index.new other)) }
{
    let mut articles = articles_with(index, word)?;
    articles.insert(article)?;
    index.insert(word, articles)?;
    Ok(())
}

/// How often each word is in each article.
pub type Counts = RadixTree<u8, VecMap<u32, u32, 4>>;

/// How often a word is in an article.
pub fn count_in(counts: &Counts, word: &[u8], article: u32) -> Option<u32>
    ensures { result
        ≡ value_at nat_cmp (unwrap_or (lookup nat_cmp counts.now word.now) []) article }
{
    counts.get(word)?.get(&article).copied()
}

/// Sets how often a word is in each article.
pub fn set_counts(
    counts: &mut Counts,
    word: &[u8],
    in_articles: VecMap<u32, u32, 4>,
) -> Result<(), AllocError>
    ensures { OnOk result (lookup nat_cmp counts.new word.now ≡ Some in_articles) }
{
    counts.insert(word, in_articles)
}

/// Groups of articles, each of them once.
pub type Groups = VecSet<Articles, 2>;

/// Adds a group, and answers whether it is a new one.
pub fn add_group(groups: &mut Groups, group: Articles) -> Result<bool, AllocError>
    ensures { IfOk result (λ is_new. is_new ≡ not (member (slice_cmp nat_cmp) groups.old group)) }
{
    groups.insert(group)
}

/// A copy of all groups.
pub fn copy_groups(groups: &Groups) -> Result<Groups, AllocError>
    ensures { IfOk result (λ copy. copy ≡ groups.now) }
{
    groups.clone()
}

/// A page, and the articles that it names.
#[derive(Clone, Drop)]
pub struct Page {
    title: String,
    articles: Articles,
}

/// A copy of a page, with the same title and the same articles.
pub fn copy_page(page: &Page) -> Result<Page, AllocError>
    ensures title { IfOk result
        (λ copy. string_bytes copy.title ≡ string_bytes page.now.title) }
    ensures articles { IfOk result (λ copy. copy.articles ≡ page.now.articles) }
{
    page.clone()
}

/// A spot on a board.
#[derive(Clone, Default, Drop, PartialEq, Eq, PartialOrd, Ord)]
pub struct Spot {
    row: u32,
    column: u32,
}

impl ClonesEqual for Spot {
    ghost clones_equal = { Prim.search rules };
}

/// The spots of a board that are taken, for each player.
#[derive(Clone, Drop)]
pub struct Board {
    first: VecSet<Spot, 8>,
    second: VecSet<Spot, 8>,
}

/// A copy of a board, with the same spots.
pub fn copy_board(board: &Board) -> Result<Board, AllocError>
    ensures first { IfOk result (λ copy. copy.first ≡ board.now.first) }
    ensures second { IfOk result (λ copy. copy.second ≡ board.now.second) }
{
    board.clone()
}

/// What is in either of two sets, of any elements whose clones are equal to them: nothing has to be
/// proved by hand.
pub fn either_of<T: ClonesEqual + MadeWith<Global>>(
    left: &VecSet<T, 4>,
    right: &VecSet<T, 4>,
) -> Result<VecSet<T, 4>, AllocError>
    ensures { IfOk result (λ both. (x : T)
        → member T.cmp both x ≡ (member T.cmp left.now x || member T.cmp right.now x)) }
{
    left.union(right)
}

/// The articles that each reader may read. Most readers may read the same ones.
pub type Rights = TotalVecMap<u32, Option<Articles>, 4>;

/// All readers may read the same articles.
pub fn same_for_all(alloc: Global, articles: Articles) -> Rights
    ensures { (reader : ℕ) → at nat_cmp result reader ≡ Some articles }
{
    Rights::constant(alloc, Some(articles))
}

/// Whether a reader may read an article.
pub fn may_read(rights: &Rights, reader: u32, article: u32) -> bool
    ensures { result ≡ member nat_cmp (unwrap_or (at nat_cmp rights.now reader) []) article }
{
    match &rights[&reader] {
        Some(articles) => articles.contains(&article),
        None => false,
    }
}

/// A copy of all rights.
pub fn copy_rights(rights: &Rights) -> Result<Rights, AllocError>
    ensures { IfOk result (λ copy. (reader : ℕ)
        → at nat_cmp copy reader ≡ at nat_cmp rights.now reader) }
{
    Clone::clone(rights)
}
