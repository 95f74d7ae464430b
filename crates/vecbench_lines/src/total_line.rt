//! Lines that begin with `total`.
use crate::fault::Fault;
use crate::numbers::put_truth;
use crate::parts::Words;
use crate::set_line::SetOperation;
use crate::totals::{NumberTotal, put_total, read_total};
use std::alloc::{AllocError, Global};
use vec_collections::laws::total_operations_are_pointwise;
use vec_collections::{SetOp, SetTest};

/// A line `total OP A B`, after its words were checked.
#[derive(Drop)]
pub struct TotalLine {
    /// The operation.
    pub operation: SetOperation,
    /// The set `A`.
    pub left: NumberTotal,
    /// The set `B`.
    pub right: NumberTotal,
}

impl TotalLine {
    ghost use Rattle.std.specs.Prelude.{◌≡◌, ◌↔◌, ◌++◌, List, ℕ, None, MatchResult, IfOk, OnOk, IsTrue};
    ghost use Rattle.std.specs.String.{string_bytes};
    ghost use Rattle.vecbench_lines.specs.PartsLeft.{words_left};
    ghost use Rattle.vecbench_lines.specs.Judged.{total_operation_named, fault_in_total, IsFault};
    ghost use Rattle.std.specs.Ordering.{nat_cmp};
    ghost use Rattle.vec_collections.specs.Algebra.{made_by};
    ghost use Rattle.vec_collections.specs.TotalOf.{IsPointwise};
    ghost use Rattle.vecbench_lines.specs.Totals.{IsTotalTestedBy};
    ghost use Rattle.vecbench_lines.specs.Answers.{SaysTotalLine, AnswersTotals};

    /// The operation of this name.
    fn operation_named(name: &[u8]) -> Option<SetOperation>
        ensures { result ≡ total_operation_named name.now }
    {
        if name == b"and".as_slice() {
            Some(SetOperation::Combine(SetOp::Intersection))
        } else if name == b"or".as_slice() {
            Some(SetOperation::Combine(SetOp::Union))
        } else if name == b"xor".as_slice() {
            Some(SetOperation::Combine(SetOp::SymmetricDifference))
        } else if name == b"minus".as_slice() {
            Some(SetOperation::Combine(SetOp::Difference))
        } else {
            SetOperation::test_named(name)
        }
    }

    /// The line whose words after the first are `words`. Their count is checked first, then the
    /// operation, the left set and the right set.
    pub fn read(alloc: Global, words: Words<'_>) -> Result<TotalLine, Fault>
        ensures says { IfOk result (λ line. SaysTotalLine (words_left words.entry) line) }
        ensures judged { MatchResult result (λ _. fault_in_total (words_left words.entry) ≡ None)
            (λ fault. IsFault (fault_in_total (words_left words.entry)) fault) }
    {
        let (operation, left, right) = words.three().ok_or(Fault::WrongCount)?;
        Ok(TotalLine {
            operation: Self::operation_named(operation).ok_or(Fault::UnknownCommand)?,
            left: read_total(alloc, left)?,
            right: read_total(alloc, right)?,
        })
    }

    /// The result of `op` on the two sets.
    fn combine(&self, op: SetOp) -> Result<NumberTotal, AllocError>
        ensures { IfOk result (IsPointwise nat_cmp (made_by op) self.now.left self.now.right) }
    {
        total_operations_are_pointwise::<u64>();
        match op {
            SetOp::Union => &self.left | &self.right,
            SetOp::Intersection => &self.left & &self.right,
            SetOp::SymmetricDifference => &self.left ^ &self.right,
            SetOp::Difference => &self.left - &self.right,
        }
    }

    /// Whether `test` holds of the two sets.
    fn holds(&self, test: SetTest) -> bool
        ensures { IsTrue result ↔ IsTotalTestedBy test self.now.left self.now.right }
    {
        match test {
            SetTest::Disjoint => self.left.is_disjoint(&self.right),
            SetTest::Subset => self.left.is_subset(&self.right),
            SetTest::Superset => self.left.is_superset(&self.right),
        }
    }

    /// Appends the answer to `text`.
    pub fn answer(&self, text: &mut String) -> Result<(), AllocError>
        ensures { OnOk result ((answer : List ℕ)
            × AnswersTotals self.now.operation self.now.left self.now.right answer
            × (string_bytes text.new ≡ string_bytes text.old ++ answer)) }
    {
        match self.operation {
            SetOperation::Combine(op) => {
                let made = self.combine(op)?;
                put_total(text, &made)
            }
            SetOperation::Test(test) => put_truth(text, self.holds(test)),
        }
    }
}
