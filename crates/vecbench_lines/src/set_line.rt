//! Lines that begin with `set`.
use crate::fault::Fault;
use crate::numbers::{NumberSet, put_numbers, put_truth, read_set};
use crate::parts::Words;
use std::alloc::{AllocError, Global};
use vec_collections::{AbstractVecSet, SetOp, SetTest};

/// An operation on two sets.
#[derive(Clone, Copy)]
pub enum SetOperation {
    /// A set that is made of them.
    Combine(SetOp),
    /// Whether a test of them holds.
    Test(SetTest),
}

impl SetOperation {
    ghost use Rattle.std.specs.Prelude.{◌≡◌};
    ghost use Rattle.vecbench_lines.specs.Judged.{set_operation_named, test_named};

    /// The operation of this name.
    pub fn named(name: &[u8]) -> Option<SetOperation>
        ensures { result ≡ set_operation_named name.now }
    {
        if name == b"union".as_slice() {
            Some(SetOperation::Combine(SetOp::Union))
        } else if name == b"intersection".as_slice() {
            Some(SetOperation::Combine(SetOp::Intersection))
        } else if name == b"xor".as_slice() {
            Some(SetOperation::Combine(SetOp::SymmetricDifference))
        } else if name == b"difference".as_slice() {
            Some(SetOperation::Combine(SetOp::Difference))
        } else {
            Self::test_named(name)
        }
    }

    /// The test of this name.
    pub fn test_named(name: &[u8]) -> Option<SetOperation>
        ensures { result ≡ test_named name.now }
    {
        if name == b"subset".as_slice() {
            Some(SetOperation::Test(SetTest::Subset))
        } else if name == b"superset".as_slice() {
            Some(SetOperation::Test(SetTest::Superset))
        } else if name == b"disjoint".as_slice() {
            Some(SetOperation::Test(SetTest::Disjoint))
        } else {
            None
        }
    }
}

/// A line `set OP A B`, after its words were checked.
#[derive(Drop)]
pub struct SetLine {
    /// The operation.
    pub operation: SetOperation,
    /// The set `A`.
    pub left: NumberSet,
    /// The set `B`.
    pub right: NumberSet,
}

impl SetLine {
    ghost use Rattle.std.specs.Prelude.{◌≡◌, ◌↔◌, ◌++◌, List, ℕ, None, MatchResult, IfOk, OnOk, IsTrue};
    ghost use Rattle.std.specs.String.{string_bytes};
    ghost use Rattle.vecbench_lines.specs.PartsLeft.{words_left};
    ghost use Rattle.vecbench_lines.specs.Judged.{fault_in_set, IsFault};
    ghost use Rattle.std.specs.Ordering.{nat_cmp};
    ghost use Rattle.vec_collections.specs.Algebra.{made_by, IsTestedBy};
    ghost use Rattle.vecbench_lines.specs.Answers.{SaysSetLine, IsPicked, AnswersSets};

    /// The line whose words after the first are `words`. Their count is checked first, then the
    /// operation, the left list and the right list.
    pub fn read(alloc: Global, words: Words<'_>) -> Result<SetLine, Fault>
        ensures says { IfOk result (λ line. SaysSetLine (words_left words.entry) line) }
        ensures judged { MatchResult result (λ _. fault_in_set (words_left words.entry) ≡ None)
            (λ fault. IsFault (fault_in_set (words_left words.entry)) fault) }
    {
        let (operation, left, right) = words.three().ok_or(Fault::WrongCount)?;
        Ok(SetLine {
            operation: SetOperation::named(operation).ok_or(Fault::UnknownCommand)?,
            left: read_set(alloc, left)?,
            right: read_set(alloc, right)?,
        })
    }

    /// The result of `op` on the two sets.
    fn combine(&self, op: SetOp) -> Result<NumberSet, AllocError>
        ensures { IfOk result (IsPicked (made_by op) self.now.left self.now.right) }
    {
        self.left.combine(&self.right, op)
    }

    /// Whether `test` holds of the two sets.
    fn holds(&self, test: SetTest) -> bool
        ensures { IsTrue result ↔ IsTestedBy test nat_cmp self.now.left self.now.right }
    {
        match test {
            SetTest::Disjoint => self.left.is_disjoint(&self.right),
            SetTest::Subset => self.left.is_subset(&self.right),
            SetTest::Superset => self.left.is_superset(&self.right),
        }
    }

    /// Appends the answer to `text`.
    pub fn answer(&self, text: &mut String) -> Result<(), AllocError>
        ensures { OnOk result ((answer : List ℕ)
            × AnswersSets self.now.operation self.now.left self.now.right answer
            × (string_bytes text.new ≡ string_bytes text.old ++ answer)) }
    {
        match self.operation {
            SetOperation::Combine(op) => {
                let picked = self.combine(op)?;
                put_numbers(text, picked.as_ref())
            }
            SetOperation::Test(test) => put_truth(text, self.holds(test)),
        }
    }
}
