//! Filters of paths, as a user writes them: rules, which paths they allow, what they leave of a
//! tree, and snapshots of rules.
ghost use Rattle.std.specs.Prelude.{◌≡◌, ◌&&◌, ℕ, List, true, false, is_some, IfOk, OnOk};
ghost use Rattle.std.specs.Ordering.{nat_cmp};
ghost use Rattle.vec_collections.specs.Allowed.{is_allowed, IsRestricted};
ghost use Rattle.vec_collections.specs.Key.{behind};
ghost use Rattle.vec_collections.specs.Map.{lookup, IsInserted};
ghost use Rattle.vec_collections.specs.Tree.{no_tree};
ghost use Rattle.vec_collections.specs.Without.{IsWithout};

use std::alloc::{AllocError, Global};
use vec_collections::path_filter::PathFilter;
use vec_collections::radix_tree::{AbstractRadixTree, AbstractRadixTreeMut};

/// Which paths of a site may be read: those that begin with an opened one, except for closed ones.
pub type Readable = PathFilter<u8>;

/// A site without rules.
pub fn new_site(alloc: Global) -> Readable
    ensures { result ≡ no_tree }
{
    PathFilter::new(alloc)
}

/// Opens a path to readers, and all that begins with it. For every other path nothing changes.
pub fn open(site: &mut Readable, path: &[u8]) -> Result<(), AllocError>
    ensures bound { OnOk result
        (IsInserted nat_cmp (λ v w. v ≡ w) path.now true site.old site.new) }
    ensures readable { OnOk result (is_allowed nat_cmp site.new path.now ≡ true) }
    ensures elsewhere { OnOk result ((other : List ℕ)
        → is_some (behind nat_cmp path.now other) ≡ false
        → is_allowed nat_cmp site.new other ≡ is_allowed nat_cmp site.old other) }
{
    site.allow(path)
}

/// The path's own rule.
pub fn rule_of(site: &Readable, path: &[u8]) -> Option<bool>
    ensures { result ≡ lookup nat_cmp site.now path.now }
{
    site.rules().get(path).copied()
}

/// Removes the path's own rule, and answers it. For a path that does not begin with it nothing
/// changes.
pub fn take_back(site: &mut Readable, path: &[u8]) -> Result<Option<bool>, AllocError>
    ensures rule { IfOk result (λ rule. rule ≡ lookup nat_cmp site.old path.now) }
    ensures gone { OnOk result (IsWithout nat_cmp (λ v w. v ≡ w) path.now
        (lookup nat_cmp site.old) (lookup nat_cmp site.new)) }
    ensures elsewhere { OnOk result ((other : List ℕ)
        → is_some (behind nat_cmp path.now other) ≡ false
        → is_allowed nat_cmp site.new other ≡ is_allowed nat_cmp site.old other) }
{
    site.remove(path)
}

/// Drops the files that may not be read.
pub fn keep_readable<T: AbstractRadixTreeMut<u8, u32>>(
    site: &Readable,
    files: &mut T,
) -> Result<(), AllocError>
    ensures { OnOk result (IsRestricted nat_cmp site.now T.keeps (lookup nat_cmp (T.tree files.old))
        (lookup nat_cmp (T.tree files.new))) }
{
    site.restrict(files)
}

/// Whether both files may be read.
pub fn may_read_both(site: &Readable, first: &[u8], second: &[u8]) -> bool
    ensures { result ≡ (is_allowed nat_cmp site.now first.now
        && is_allowed nat_cmp site.now second.now) }
{
    site.check(first) && site.check(second)
}

/// Closes a path and all that begins with it, and answers what could be read before.
pub fn close(site: &mut Readable, path: &[u8]) -> Result<Readable, AllocError>
    ensures before { IfOk result (λ before. before ≡ site.old) }
    ensures closed { OnOk result (is_allowed nat_cmp site.new path.now ≡ false) }
{
    let before = site.clone()?;
    site.deny(path)?;
    Ok(before)
}
