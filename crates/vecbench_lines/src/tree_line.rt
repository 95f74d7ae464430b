//! Lines that begin with `tree`.
ghost use Rattle.std.specs.Prelude.{◌≡◌, length, IfOk};
ghost use Rattle.std.specs.List.{list_all};

use crate::changes::{KeyCommand, read_changes};
use crate::fault::Fault;
use crate::keys::{KeyTree, put_keys, read_tree};
use crate::parts::Words;
use std::alloc::{AllocError, Global};
use vec_collections::radix_tree::run;

/// A line `tree A OP B ..`, after its words were checked.
#[derive(Drop)]
pub struct TreeLine {
    /// The tree of the keys of `A`.
    pub tree: KeyTree,
    /// What is done with it, in order.
    pub changes: Vec<KeyCommand>,
}

impl TreeLine {
    ghost use Rattle.std.specs.Prelude.{◌≡◌, ◌++◌, List, ℕ, None, MatchResult, IfOk, OnOk};
    ghost use Rattle.std.specs.Ordering.{nat_cmp};
    ghost use Rattle.std.specs.String.{string_bytes};
    ghost use Rattle.vec_collections.specs.Map.{lookup};
    ghost use Rattle.vecbench_lines.specs.PartsLeft.{words_left};
    ghost use Rattle.vecbench_lines.specs.Judged.{fault_in_tree, IsFault};
    ghost use Rattle.vecbench_lines.specs.Answers.{SaysTreeLine, AnswersTree};
    ghost use Rattle.vecbench_lines.specs.Changes.{Leads};

    /// The line whose words after the first are `words`. Their count is checked first, then the
    /// list and the commands from the left.
    pub fn read(alloc: Global, mut words: Words<'_>) -> Result<TreeLine, Fault>
        ensures says { IfOk result (λ line. SaysTreeLine (words_left words.entry) line) }
        ensures judged { MatchResult result (λ _. fault_in_tree (words_left words.entry) ≡ None)
            (λ fault. IsFault (fault_in_tree (words_left words.entry)) fault) }
    {
        let keys = words.next().ok_or(Fault::WrongCount)?;
        if !words.are_pairs() {
            return Err(Fault::WrongCount);
        }
        let tree = read_tree(alloc, keys)?;
        let changes = read_changes(alloc, words)?;
        Ok(TreeLine { tree, changes })
    }

    /// The tree after all commands.
    fn change(self) -> Result<KeyTree, AllocError>
        ensures { IfOk result (λ changed.
            Leads self.changes.items (lookup nat_cmp self.tree) (lookup nat_cmp changed)) }
    {
        let TreeLine { mut tree, changes } = self;
        let mut flags = unset(*changes.allocator(), changes.len())?;
        let accepted = flags.as_mut_slice();
        run(&mut tree, changes, accepted);
        if all_set(accepted) {
            Ok(tree)
        } else {
            Err(AllocError)
        }
    }

    /// Appends the answer to `text`. A command that is refused for memory has no answer.
    pub fn answer(self, text: &mut String) -> Result<(), AllocError>
        ensures { OnOk result ((answer : List ℕ) × AnswersTree self answer
            × (string_bytes text.new ≡ string_bytes text.old ++ answer)) }
    {
        let changed = self.change()?;
        put_keys(text, &changed)
    }
}

/// `count` flags, none of them set.
fn unset(alloc: Global, count: usize) -> Result<Vec<bool>, AllocError>
    ensures { IfOk result (λ flags. length flags.items ≡ count) }
{
    vec![in alloc; false; count]
}

/// Whether all flags are set.
fn all_set(flags: &[bool]) -> bool
    ensures { result ≡ list_all (λ flag. flag) flags.now }
{
    flags.iter().all(|flag| *flag)
}
