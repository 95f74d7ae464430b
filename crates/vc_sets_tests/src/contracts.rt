//! Sets of borrowed words: a user has to prove nothing about their clones.

use std::alloc::AllocError;
use vc_sets::vec_set::VecSet;

/// The words of both.
pub fn all_words<'a>(
    ours: &VecSet<&'a str, 4>,
    theirs: &VecSet<&'a str, 4>,
) -> Result<VecSet<&'a str, 4>, AllocError> {
    ours.union(theirs)
}

/// The words of either set, by the operator.
pub fn words_by_operator<'a>(
    ours: &VecSet<&'a str, 4>,
    theirs: &VecSet<&'a str, 4>,
) -> Result<VecSet<&'a str, 4>, AllocError> {
    ours | theirs
}
