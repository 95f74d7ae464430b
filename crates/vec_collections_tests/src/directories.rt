//! A small map by names: a set of entries that are ordered only by their names.
ghost use Rattle.std.specs.Prelude.{◌≡◌, cond, false, refl, Some, OnErr, OnOk};
ghost use Rattle.std.specs.Cmp.Lexicographic.{nat_list_cmp_total, slice_cmp};
ghost use Rattle.std.specs.List.{list_any};
ghost use Rattle.std.specs.Ordering.{eq_by_cmp, nat_cmp};
ghost use Rattle.std.specs.String.{string_bytes};
ghost use Rattle.vec_collections.specs.Words.{behind_by_form, element_at, equal_by_form, member};
ghost use Rattle.vec_collections_tests.specs.Directories.{by_name, number_under};
ghost use Rattle.vec_collections_tests.specs.Names.{has_letters};

use std::alloc::{AllocError, Global};
use std::cmp::Ordering;
use std::default::MadeWith;
use vec_collections::VecSet;
use vec_collections::traits::*;

/// A number under a name. Entries are ordered only by their names.
#[derive(Drop)]
#[derive_where(Debug, PartialEq, Eq, PartialOrd, Ord)]
pub struct Entry {
    /// The name.
    pub name: String,
    /// The number.
    #[derive_where(skip)]
    pub number: u32,
}

impl MadeWith<Global> for Entry {
    fn made_with(alloc: Global) -> Entry {
        Entry {
            name: String::new(alloc),
            number: 0,
        }
    }
}

impl Borrowed<Entry> for &str {
    ghost side = { λ q e. slice_cmp nat_cmp (string_bytes e.name) q.now };

    ghost orders_as_equal = { λ q.
        equal_by_form nat_list_cmp_total (λ e. string_bytes e.name) (λ x y. refl) q.now };

    ghost stays_behind = { λ q.
        behind_by_form nat_list_cmp_total (λ e. string_bytes e.name) (λ x y. refl) q.now };

    fn compare(&self, entry: &Entry) -> Ordering {
        Borrowed::compare(self, &entry.name)
    }
}

/// Numbers under names. Four of them need no allocation.
pub type Directory = VecSet<Entry, 4>;

/// The number under a name.
pub fn number_of(directory: &Directory, name: &str) -> Option<u32>
    ensures { result ≡ number_under name.now directory.now }
{
    match directory.get_by(name) {
        Some(entry) => Some(entry.number),
        None => None,
    }
}

/// Inserts an entry, or replaces the one of its name. Answers whether it is new.
pub fn put(directory: &mut Directory, entry: Entry) -> Result<bool, AllocError>
    ensures entries { OnOk result ((other : _) → element_at by_name directory.new other
        ≡ cond (eq_by_cmp by_name entry other) (Some entry)
        (element_at by_name directory.old other)) }
    ensures err { OnErr result (directory.new ≡ directory.old) }
{
    directory.insert(entry)
}

/// Removes the entry of a name, and answers whether there was one.
pub fn take_out(directory: &mut Directory, name: &str) -> bool
    ensures was_there { result ≡ list_any (λ e. has_letters name.now e.name) directory.old }
    ensures others { (other : _) → has_letters name.now other.name ≡ false
        → member by_name directory.new other ≡ member by_name directory.old other }
{
    directory.remove_by(name)
}
