//! Total sets of numbers: a list, or all numbers except those of a list.
ghost use Rattle.std.specs.Prelude.{◌≡◌, ◌++◌, Some, None, MatchResult, IfOk, OnOk};
ghost use Rattle.std.specs.String.{string_bytes};
ghost use Rattle.vecbench_lines.specs.Totals.{list_in, total_in, total_text};
ghost use Rattle.vecbench_lines.specs.Judged.{fault_in_list, IsFault};

use crate::fault::Fault;
use crate::numbers::{put_numbers, read_set};
use std::alloc::{AllocError, Global};
use vec_collections::total_vec_set::TotalVecSet2;

/// A total set of numbers, up to two of its list inline.
pub type NumberTotal = TotalVecSet2<u64>;

/// The total set that a word means: a list of numbers or, after `!`, all numbers except these. Its
/// list is checked as by [`read_set`].
pub fn read_total(alloc: Global, word: &[u8]) -> Result<NumberTotal, Fault>
    ensures set { IfOk result (λ set. total_in word.now ≡ Some set) }
    ensures judged { MatchResult result (λ _. fault_in_list (list_in word.now) ≡ None)
        (λ fault. IsFault (fault_in_list (list_in word.now)) fault) }
{
    if let [b'!', list @ ..] = word {
        let excluded = NumberTotal::from(read_set(alloc, list)?);
        Ok(!excluded)
    } else {
        Ok(NumberTotal::from(read_set(alloc, word)?))
    }
}

/// Appends the total set to `text`, in the form in which it is read.
pub fn put_total(text: &mut String, set: &NumberTotal) -> Result<(), AllocError>
    ensures { OnOk result (string_bytes text.new ≡ string_bytes text.old ++ total_text set.now) }
{
    if set.is_negated() {
        text.push_str("!")?;
    }
    put_numbers(text, set.elements().as_ref())
}
