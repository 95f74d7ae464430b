//! Paths by whole segments: which folders may be read, and how large files are.
ghost use Rattle.std.specs.Prelude.{◌≡◌, true, false, IfOk, OnOk};
ghost use Rattle.vec_collections.specs.Words.{is_allowed, lookup, IsInserted, IsWithoutBelow};
ghost use Rattle.vec_collections_tests.specs.Names.{by_letters};

use std::alloc::AllocError;
use vec_collections::path_filter::PathFilter;
use vec_collections::radix_tree::RadixTree;
use vec_collections::traits::*;

/// Which folders may be read. A path is the list of its segments, so the folder `doc` has
/// `doc/index` in it, and not `documents`.
pub type Access<'p> = PathFilter<&'p str>;

/// The sizes of files, by the segments of their paths.
pub type Sizes<'p> = RadixTree<&'p str, u64>;

/// Opens a folder and all that is in it.
pub fn open_folder<'p>(access: &mut Access<'p>, folder: &[&'p str]) -> Result<(), AllocError>
    ensures { OnOk result (is_allowed by_letters access.new folder.now ≡ true) }
{
    access.allow(folder)
}

/// Closes a folder and all that is in it.
pub fn close_folder<'p>(access: &mut Access<'p>, folder: &[&'p str]) -> Result<(), AllocError>
    ensures { OnOk result (is_allowed by_letters access.new folder.now ≡ false) }
{
    access.deny(folder)
}

/// Whether a file may be read.
pub fn may_read<'p>(access: &Access<'p>, file: &[&'p str]) -> bool
    ensures { result ≡ is_allowed by_letters access.now file.now }
{
    access.check(file)
}

/// The size of a file.
pub fn size_of<'p>(sizes: &Sizes<'p>, file: &[&'p str]) -> Option<u64>
    ensures { result ≡ lookup by_letters sizes.now file.now }
{
    sizes.get(file).copied()
}

/// Records the size of a file.
pub fn note_size<'p>(sizes: &mut Sizes<'p>, file: &[&'p str], size: u64) -> Result<(), AllocError>
    ensures { OnOk result (IsInserted by_letters (λ v w. v ≡ w) file.now size sizes.old sizes.new) }
{
    sizes.insert(file, size)
}
