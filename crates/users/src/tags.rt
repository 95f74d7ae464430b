//! Articles by their tags, and queries whose answers are sets with complements, so that they can be
//! combined.

ghost use Rattle.std.specs.Prelude.{◌≡◌, ◌||◌, ◌&&◌, ◌==◌, not, false, IfOk, OnOk, OnErr, ℕ};
ghost use Rattle.users.specs.Tagged.{tagged, has_all, has_any, is_among, is_found};

use std::alloc::{AllocError, Global};
use std::collections::BTreeMap;
use vec_collections::VecSet;
use vec_collections::laws::total_operations_are_pointwise;
use vec_collections::total_vec_set::TotalVecSet;

/// The articles with a tag.
type Articles = VecSet<u64, 4>;

/// Which articles have which tags.
#[derive(Drop)]
pub struct Index {
    by_tag: BTreeMap<u32, Articles>,
}

impl Index {
    /// An index where no article has a tag.
    pub fn new(alloc: Global) -> Self
        ensures { (tag : ℕ) (article : ℕ) → tagged result tag article ≡ false }
    {
        Index {
            by_tag: BTreeMap::new(alloc),
        }
    }

    /// Tags an article. On refusal each article has its old tags.
    pub fn tag(&mut self, alloc: Global, article: u64, tag: u32) -> Result<(), AllocError>
        ensures ok { OnOk result ((t : ℕ) (a : ℕ)
            → tagged self.new t a ≡ (tagged self.old t a || (tag == t && article == a))) }
        ensures err { OnErr result ((t : ℕ) (a : ℕ) → tagged self.new t a ≡ tagged self.old t a) }
    {
        if let Some(articles) = self.by_tag.get_mut(&tag) {
            articles.insert(article)?;
            return Ok(());
        }
        self.by_tag.insert(tag, Articles::single(alloc, article)?)?;
        Ok(())
    }

    /// The articles that have the tag.
    fn articles(&self, alloc: Global, tag: u32) -> Result<Articles, AllocError>
        ensures { IfOk result
            (λ articles. (article : ℕ) → is_among articles article ≡ tagged self.now tag article) }
    {
        match self.by_tag.get(&tag) {
            Some(articles) => articles.clone(),
            None => Ok(Articles::empty(alloc)),
        }
    }

    /// The articles that have each of the tags.
    pub fn all_of(&self, alloc: Global, tags: &[u32]) -> Result<Found, AllocError>
        ensures { IfOk result
            (λ found. (article : ℕ) → is_found found article ≡ has_all self.now tags.now article) }
    {
        let mut found = Found {
            articles: TotalVecSet::all(alloc),
        };
        for tag in tags {
            found.narrow(self.articles(alloc, *tag)?)?;
        }
        Ok(found)
    }

    /// The articles that have a tag among these.
    pub fn any_of(&self, alloc: Global, tags: &[u32]) -> Result<Found, AllocError>
        ensures { IfOk result
            (λ found. (article : ℕ) → is_found found article ≡ has_any self.now tags.now article) }
    {
        let mut found = Found {
            articles: TotalVecSet::empty(alloc),
        };
        for tag in tags {
            found.widen(self.articles(alloc, *tag)?)?;
        }
        Ok(found)
    }

    /// The articles that have no tag among these: including those with no tag at all.
    pub fn none_of(&self, alloc: Global, tags: &[u32]) -> Result<Found, AllocError>
        ensures { IfOk result (λ found. (article : ℕ)
            → is_found found article ≡ not (has_any self.now tags.now article)) }
    {
        let found = self.any_of(alloc, tags)?;
        Ok(Found {
            articles: !found.articles,
        })
    }
}

/// What a query finds: the articles that it names, or all except those.
#[derive(Drop)]
pub struct Found {
    articles: TotalVecSet<u64, 4>,
}

impl Found {
    /// Whether the article is among them.
    pub fn has(&self, article: u64) -> bool
        ensures { result ≡ is_found self.now article }
    {
        self.articles.contains(&article)
    }

    /// The articles that both queries find.
    pub fn and(&self, other: &Self) -> Result<Self, AllocError>
        ensures { IfOk result (λ both. (article : ℕ)
            → is_found both article ≡ (is_found self.now article && is_found other.now article)) }
    {
        total_operations_are_pointwise::<u64>();
        let articles = (&self.articles & &other.articles)?;
        Ok(Found { articles })
    }

    /// Keeps only what is also among the articles.
    fn narrow(&mut self, articles: Articles) -> Result<(), AllocError>
        ensures { OnOk result ((article : ℕ) → is_found self.new article
            ≡ (is_found self.old article && is_among articles article)) }
    {
        total_operations_are_pointwise::<u64>();
        self.articles.bitand_assign(TotalVecSet::from(articles))
    }

    /// Adds the articles.
    fn widen(&mut self, articles: Articles) -> Result<(), AllocError>
        ensures { OnOk result ((article : ℕ) → is_found self.new article
            ≡ (is_found self.old article || is_among articles article)) }
    {
        total_operations_are_pointwise::<u64>();
        self.articles.bitor_assign(TotalVecSet::from(articles))
    }
}
