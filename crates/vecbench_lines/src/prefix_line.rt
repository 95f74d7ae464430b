//! Lines that begin with `prefix`.
use crate::fault::Fault;
use crate::keys::{KeyTree, put_keys, read_tree};
use crate::parts::Words;
use crate::rules::{KeyFilter, read_filter};
use std::alloc::{AllocError, Global};
use vec_collections::radix_tree::AbstractRadixTreeMut;

/// What happens to the keys that rules admit.
#[derive(Clone, Copy)]
pub enum PrefixOperation {
    /// They are removed, and the others stay.
    Remove,
    /// They stay, and the others are removed.
    Retain,
}

impl PrefixOperation {
    ghost use Rattle.std.specs.Prelude.{◌≡◌};
    ghost use Rattle.vecbench_lines.specs.Judged.{prefix_operation_named};

    /// The operation of this name.
    pub fn named(name: &[u8]) -> Option<PrefixOperation>
        ensures { result ≡ prefix_operation_named name.now }
    {
        if name == b"remove".as_slice() {
            Some(PrefixOperation::Remove)
        } else if name == b"retain".as_slice() {
            Some(PrefixOperation::Retain)
        } else {
            None
        }
    }
}

/// A line `prefix OP A R`, after its words were checked.
#[derive(Drop)]
pub struct PrefixLine {
    /// The operation.
    pub operation: PrefixOperation,
    /// The tree of the keys of `A`.
    pub tree: KeyTree,
    /// The filter of the rules `R`.
    pub filter: KeyFilter,
}

impl PrefixLine {
    ghost use Rattle.std.specs.Prelude.{◌≡◌, ◌++◌, List, ℕ, None, MatchResult, IfOk, OnOk};
    ghost use Rattle.std.specs.Ordering.{nat_cmp};
    ghost use Rattle.std.specs.String.{string_bytes};
    ghost use Rattle.vec_collections.specs.Allowed.{is_allowed};
    ghost use Rattle.vec_collections.specs.Map.{lookup};
    ghost use Rattle.vecbench_lines.specs.PartsLeft.{words_left};
    ghost use Rattle.vecbench_lines.specs.Judged.{fault_in_prefix, IsFault};
    ghost use Rattle.vecbench_lines.specs.Answers.{SaysPrefixLine, KeysStay, AnswersPrefix};

    /// The line whose words after the first are `words`. Their count is checked first, then the
    /// operation, the keys and the rules.
    pub fn read(alloc: Global, words: Words<'_>) -> Result<PrefixLine, Fault>
        ensures says { IfOk result (λ line. SaysPrefixLine (words_left words.entry) line) }
        ensures judged { MatchResult result (λ _. fault_in_prefix (words_left words.entry) ≡ None)
            (λ fault. IsFault (fault_in_prefix (words_left words.entry)) fault) }
    {
        let (operation, keys, rules) = words.three().ok_or(Fault::WrongCount)?;
        let operation = PrefixOperation::named(operation).ok_or(Fault::UnknownCommand)?;
        let tree = read_tree(alloc, keys)?;
        let filter = read_filter(alloc, rules)?;
        Ok(PrefixLine {
            operation,
            tree,
            filter,
        })
    }

    /// The tree of the keys that stay.
    fn sift(self) -> Result<KeyTree, AllocError>
        ensures { IfOk result (λ left. KeysStay self.operation (is_allowed nat_cmp self.filter)
            (lookup nat_cmp self.tree) (lookup nat_cmp left)) }
    {
        let PrefixLine {
            operation,
            mut tree,
            filter,
        } = self;
        let is_admitted = |rule: &bool| -> bool
            ensures { result ≡ rule.now }
        { *rule };
        match operation {
            PrefixOperation::Remove => tree.remove_prefix_with(filter.rules(), is_admitted)?,
            PrefixOperation::Retain => tree.retain_prefix_with(filter.rules(), is_admitted)?,
        }
        Ok(tree)
    }

    /// Appends the answer to `text`.
    pub fn answer(self, text: &mut String) -> Result<(), AllocError>
        ensures { OnOk result ((answer : List ℕ) × AnswersPrefix self answer
            × (string_bytes text.new ≡ string_bytes text.old ++ answer)) }
    {
        let left = self.sift()?;
        put_keys(text, &left)
    }
}
