//! Files by their paths. The rules of a filter decide which files remain.

ghost use Rattle.std.specs.Prelude.{◌≡◌, cond, None, Some, OnOk, OnErr};
ghost use Rattle.users.specs.Files.{allows, size_of};
ghost use Rattle.users.specs.Path.{Path, same_path};

use std::alloc::{AllocError, Global};
use vec_collections::path_filter::PathFilter;
use vec_collections::radix_tree::{AbstractRadixTree, AbstractRadixTreeMut, RadixTree};

/// The sizes of files, by their paths.
#[derive(Drop)]
pub struct Files {
    sizes: RadixTree<u8, u64>,
}

impl Files {
    /// A table with no file.
    pub fn new(alloc: Global) -> Self
        ensures { (path : Path) → size_of result path ≡ None }
    {
        Files {
            sizes: RadixTree::empty(alloc),
        }
    }

    /// Records the size of a file. On refusal each file has its old size.
    pub fn add(&mut self, path: &[u8], size: u64) -> Result<(), AllocError>
        ensures ok { OnOk result ((other : Path)
            → size_of self.new other
            ≡ cond (same_path path.now other) (Some size) (size_of self.old other)) }
        ensures err { OnErr result
            ((other : Path) → size_of self.new other ≡ size_of self.old other) }
    {
        self.sizes.insert(path, size)
    }

    /// The size of the file at the path.
    pub fn size(&self, path: &[u8]) -> Option<u64>
        ensures { result ≡ size_of self.now path.now }
    {
        self.sizes.get(path).copied()
    }

    /// Keeps the files that the longest rule on their path allows. On refusal no file remains.
    pub fn keep(&mut self, filter: &PathFilter<u8>) -> Result<(), AllocError>
        ensures ok { OnOk result ((path : Path)
            → size_of self.new path ≡ cond (allows filter.now path) (size_of self.old path) None) }
        ensures err { OnErr result ((path : Path) → size_of self.new path ≡ None) }
    {
        filter.restrict(&mut self.sizes)
    }
}
