//! Lines that begin with `shape`.
use crate::fault::Fault;
use crate::keys::{KeyTree, put_shape, read_tree};
use crate::parts::Words;
use std::alloc::{AllocError, Global};

/// A line `shape A`, after its words were checked.
#[derive(Drop)]
pub struct ShapeLine {
    /// The tree of the keys of `A`.
    pub tree: KeyTree,
}

impl ShapeLine {
    ghost use Rattle.std.specs.Prelude.{◌≡◌, ◌++◌, None, MatchResult, IfOk, OnOk};
    ghost use Rattle.std.specs.String.{string_bytes};
    ghost use Rattle.vecbench_lines.specs.PartsLeft.{words_left};
    ghost use Rattle.vecbench_lines.specs.Judged.{fault_in_shape, IsFault};
    ghost use Rattle.vecbench_lines.specs.Answers.{SaysShapeLine};
    ghost use Rattle.vecbench_lines.specs.Shapes.{shape_text};

    /// The line whose words after the first are `words`. Their count is checked first, then the
    /// list.
    pub fn read(alloc: Global, words: Words<'_>) -> Result<ShapeLine, Fault>
        ensures says { IfOk result (λ line. SaysShapeLine (words_left words.entry) line) }
        ensures judged { MatchResult result (λ _. fault_in_shape (words_left words.entry) ≡ None)
            (λ fault. IsFault (fault_in_shape (words_left words.entry)) fault) }
    {
        let keys = words.one().ok_or(Fault::WrongCount)?;
        let tree = read_tree(alloc, keys)?;
        Ok(ShapeLine { tree })
    }

    /// Appends the answer to `text`.
    pub fn answer(&self, text: &mut String) -> Result<(), AllocError>
        ensures { OnOk result
            (string_bytes text.new ≡ string_bytes text.old ++ shape_text self.now.tree) }
    {
        put_shape(text, &self.tree)
    }
}
