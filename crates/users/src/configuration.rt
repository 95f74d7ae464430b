//! Versions of a configuration: each change makes a new version, which shares what it does not
//! change with the one before.

ghost use Rattle.std.specs.Prelude.{◌≡◌, ◌+◌, ◌<◌, cond, None, Some, ℕ, IfOk, OnOk, OnErr};
ghost use Rattle.std.specs.Option.{option_copied};
ghost use Rattle.users.specs.Path.{Path, same_path};
ghost use Rattle.users.specs.Settings.{count, setting, latest, set_in, version_of, HaveSameVersions, is_below, is_changed, are_different};

mod trees;

use std::alloc::{AllocError, Global};
use trees::{Settings, bind, differing};
use vec_collections::radix_tree::{AbstractRadixTree, AbstractRadixTreeMut, RadixTree};

/// The versions of a configuration, numbered from 0.
#[derive(Drop)]
pub struct History {
    versions: Vec<Settings>,
}

impl History {
    /// A history with no version.
    pub fn new(alloc: Global) -> Self
        ensures none { count result ≡ 0 }
        ensures unset { (path : Path) → latest result path ≡ None }
    {
        History {
            versions: Vec::new(alloc),
        }
    }

    /// What is set at the path in a version.
    pub fn at(&self, version: usize, path: &[u8]) -> Option<u64>
        ensures { result ≡ setting self.now version path.now }
    {
        self.version(version)?.get(path).copied()
    }

    /// Makes a version in which the path has this value. The versions before it are unchanged; on
    /// refusal no version is made.
    pub fn set(&mut self, alloc: Global, path: &[u8], value: u64) -> Result<(), AllocError>
        ensures one { OnOk result (count self.new ≡ count self.old + 1) }
        ensures set { OnOk result ((other : Path)
            → latest self.new other
            ≡ cond (same_path path.now other) (Some value) (latest self.old other)) }
        ensures past { OnOk result ((version : ℕ) (other : Path) → version < count self.old
            → setting self.new version other ≡ setting self.old version other) }
        ensures err { OnErr result (HaveSameVersions self.old self.new) }
    {
        let mut next = self.draft(alloc)?;
        bind(&mut next, path, value)?;
        self.publish(next)
    }

    /// Makes a version in which nothing is set at a path that begins with `folder`, by bytes. The
    /// versions before it are unchanged; on refusal no version is made.
    pub fn unset(&mut self, alloc: Global, folder: &[u8]) -> Result<(), AllocError>
        ensures one { OnOk result (count self.new ≡ count self.old + 1) }
        ensures unset { OnOk result ((path : Path)
            → latest self.new path ≡ cond (is_below folder.now path) None (latest self.old path)) }
        ensures past { OnOk result ((version : ℕ) (path : Path) → version < count self.old
            → setting self.new version path ≡ setting self.old version path) }
        ensures err { OnErr result (HaveSameVersions self.old self.new) }
    {
        let mut next = self.draft(alloc)?;
        next.remove_below(folder)?;
        self.publish(next)
    }

    /// What changed between two versions. In a version that does not exist, nothing is set.
    pub fn changes(&self, alloc: Global, from: usize, to: usize) -> Result<Changes, AllocError>
        ensures { IfOk result (λ changes. (path : Path)
            → is_changed changes path
            ≡ are_different (setting self.now from path) (setting self.now to path)) }
    {
        let nothing = Settings::empty(alloc);
        let old = self.version(from).unwrap_or(&nothing);
        let new = self.version(to).unwrap_or(&nothing);
        let paths = differing(old, new)?;
        Ok(Changes { paths })
    }

    /// Makes a tree the last version.
    fn publish(&mut self, next: Settings) -> Result<(), AllocError>
        ensures one { OnOk result (count self.new ≡ count self.old + 1) }
        ensures last { OnOk result ((path : Path) → latest self.new path ≡ set_in next path) }
        ensures past { OnOk result ((version : ℕ) (path : Path) → version < count self.old
            → setting self.new version path ≡ setting self.old version path) }
        ensures err { OnErr result (HaveSameVersions self.old self.new) }
    {
        self.versions.push(next)?;
        Ok(())
    }

    /// The settings of a version, if it exists.
    fn version(&self, number: usize) -> Option<&Settings>
        ensures { option_copied result ≡ version_of self.now number }
    {
        self.versions.get(number)
    }

    /// A tree for the next version, with the settings of the last one.
    fn draft(&self, alloc: Global) -> Result<Settings, AllocError>
        ensures { IfOk result (λ next. (path : Path) → set_in next path ≡ latest self.now path) }
    {
        match self.versions.last() {
            Some(settings) => settings.clone(),
            None => Ok(Settings::empty(alloc)),
        }
    }
}

/// The paths at which two versions have different settings.
#[derive(Drop)]
pub struct Changes {
    paths: RadixTree<u8, u64>,
}

impl Changes {
    /// Whether the path is among them.
    pub fn has(&self, path: &[u8]) -> bool
        ensures { result ≡ is_changed self.now path.now }
    {
        self.paths.contains_key(path)
    }
}
