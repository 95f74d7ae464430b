//! Lines that begin with `permit`.
use crate::fault::Fault;
use crate::keys::{KeyTree, put_keys, read_tree};
use crate::parts::Words;
use crate::rules::{KeyFilter, read_filter};
use std::alloc::{AllocError, Global};

/// A line `permit R A`, after its words were checked.
#[derive(Drop)]
pub struct PermitLine {
    /// The filter of the rules `R`.
    pub filter: KeyFilter,
    /// The tree of the keys of `A`.
    pub tree: KeyTree,
}

impl PermitLine {
    ghost use Rattle.std.specs.Prelude.{◌≡◌, ◌++◌, List, ℕ, None, MatchResult, IfOk, OnOk};
    ghost use Rattle.std.specs.String.{string_bytes};
    ghost use Rattle.vecbench_lines.specs.PartsLeft.{words_left};
    ghost use Rattle.vecbench_lines.specs.Judged.{fault_in_permit, IsFault};
    ghost use Rattle.vecbench_lines.specs.Answers.{SaysPermitLine, AnswersPermit};

    /// The line whose words after the first are `words`. Their count is checked first, then the
    /// rules and the keys.
    pub fn read(alloc: Global, words: Words<'_>) -> Result<PermitLine, Fault>
        ensures says { IfOk result (λ line. SaysPermitLine (words_left words.entry) line) }
        ensures judged { MatchResult result (λ _. fault_in_permit (words_left words.entry) ≡ None)
            (λ fault. IsFault (fault_in_permit (words_left words.entry)) fault) }
    {
        let (rules, keys) = words.two().ok_or(Fault::WrongCount)?;
        let filter = read_filter(alloc, rules)?;
        let tree = read_tree(alloc, keys)?;
        Ok(PermitLine { filter, tree })
    }

    /// Appends the answer to `text`.
    pub fn answer(self, text: &mut String) -> Result<(), AllocError>
        ensures { OnOk result ((answer : List ℕ) × AnswersPermit self answer
            × (string_bytes text.new ≡ string_bytes text.old ++ answer)) }
    {
        let PermitLine { filter, mut tree } = self;
        filter.restrict(&mut tree)?;
        put_keys(text, &tree)
    }
}
