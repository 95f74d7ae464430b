//! Sets that are searched by a borrowed form of a user's own type.
ghost use Rattle.std.specs.Prelude.{refl};
ghost use Rattle.std.specs.String.{string_bytes};
ghost use Rattle.vc_sets_tests.specs.Releases.{release_cmp, release_total};
ghost use Rattle.vc_sets.specs.Borrowed.{equal_by_form, behind_by_form};

use crate::outcomes::holds;
use std::alloc::{AllocError, Global};
use std::cmp::Ordering;
use std::default::MadeWith;
use vc_sets::borrowed::Borrowed;
use vc_sets::vec_set::{AbstractVecSet, VecSet};

/// A release of a program. Releases are ordered by name, and then by number.
#[derive(Debug, PartialEq, Eq, PartialOrd, Ord, Drop)]
struct Release {
    name: String,
    number: u32,
}

impl MadeWith<Global> for Release {
    fn made_with(alloc: Global) -> Release {
        Release {
            name: String::new(alloc),
            number: 0,
        }
    }
}

impl Borrowed<Release> for (&str, u32) {
    ghost side = { λ q r. release_cmp (string_bytes r.name, r.number) (q.0.now, q.1) };

    ghost orders_as_equal = { λ q. equal_by_form release_total
        (λ r. (string_bytes r.name, r.number)) (λ x y. refl) (q.0.now, q.1) };

    ghost stays_behind = { λ q. behind_by_form release_total
        (λ r. (string_bytes r.name, r.number)) (λ x y. refl) (q.0.now, q.1) };

    fn compare(&self, release: &Release) -> Ordering {
        Borrowed::compare(&self.0, &release.name).then(release.number.cmp(&self.1))
    }
}

/// The releases 1 and 2 of a program.
fn releases(alloc: Global, name: &str) -> Result<VecSet<Release, 2>, AllocError> {
    let mut set = VecSet::empty(alloc);
    for number in [1, 2] {
        let name = String::from_str(alloc, name)?;
        set.insert(Release { name, number })?;
    }
    Ok(set)
}

/// Whether a release is found by its name and its number, and removed.
fn is_found_by_name(alloc: Global) -> Result<bool, AllocError> {
    let mut set = releases(alloc, "a")?;
    let is_found = set.contains_by(("a", 2))
        && !set.contains_by(("a", 3))
        && !set.contains_by(("b", 1));
    Ok(is_found && set.remove_by(("a", 1)) && set.len() == 1 && set.contains_by(("a", 2)))
}

#[test]
fn releases_are_found_by_their_names(rt: HostRuntime) {
    holds(&rt, &"the names", is_found_by_name(rt.alloc()));
}
