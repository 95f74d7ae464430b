//! Lines, checked and answered.
ghost use Rattle.std.specs.Prelude.{◌≡◌, ◌++◌, List, ℕ, None, MatchResult, OnOk};
ghost use Rattle.std.specs.String.{string_bytes};
ghost use Rattle.vecbench_lines.specs.Parts.{words_of};
ghost use Rattle.vecbench_lines.specs.Judged.{fault_in_words, IsFault};
ghost use Rattle.vecbench_lines.specs.Answers.{AnswersWords};

use crate::fault::Fault;
use crate::parts::Words;
use crate::permit_line::PermitLine;
use crate::prefix_line::PrefixLine;
use crate::set_line::SetLine;
use crate::shape_line::ShapeLine;
use crate::total_line::TotalLine;
use crate::tree_line::TreeLine;
use std::alloc::{AllocError, Global};

/// What a line asks for, after its words were checked.
#[derive(Drop)]
pub enum Command {
    /// `set OP A B`
    Set(SetLine),
    /// `total OP A B`
    Total(TotalLine),
    /// `shape A`
    Shape(ShapeLine),
    /// `permit R A`
    Permit(PermitLine),
    /// `prefix OP A R`
    Prefix(PrefixLine),
    /// `tree A OP B ..`
    Tree(TreeLine),
}

impl Command {
    ghost use Rattle.std.specs.Prelude.{◌≡◌, ◌∷◌, ◌++◌, List, ℕ, None, MatchResult, IfOk, OnOk};
    ghost use Rattle.std.specs.String.{string_bytes};
    ghost use Rattle.vecbench_lines.specs.PartsLeft.{words_left};
    ghost use Rattle.vecbench_lines.specs.Judged.{fault_in_words, IsFault};
    ghost use Rattle.vecbench_lines.specs.Answers.{SaysCommand, Answers};

    /// The command of the first word `name`, with the words after it.
    pub fn read(alloc: Global, name: &[u8], words: Words<'_>) -> Result<Command, Fault>
        ensures says { IfOk result
            (λ command. SaysCommand (name.now ∷ words_left words.entry) command) }
        ensures judged { MatchResult result (λ _. fault_in_words (name.now ∷ words_left words.entry)
            ≡ None) (λ fault. IsFault (fault_in_words (name.now ∷ words_left words.entry)) fault) }
    {
        if name == b"set".as_slice() {
            Ok(Command::Set(SetLine::read(alloc, words)?))
        } else if name == b"total".as_slice() {
            Ok(Command::Total(TotalLine::read(alloc, words)?))
        } else if name == b"shape".as_slice() {
            Ok(Command::Shape(ShapeLine::read(alloc, words)?))
        } else if name == b"permit".as_slice() {
            Ok(Command::Permit(PermitLine::read(alloc, words)?))
        } else if name == b"prefix".as_slice() {
            Ok(Command::Prefix(PrefixLine::read(alloc, words)?))
        } else if name == b"tree".as_slice() {
            Ok(Command::Tree(TreeLine::read(alloc, words)?))
        } else {
            Err(Fault::UnknownCommand)
        }
    }

    /// Appends the answer to `text`.
    pub fn answer(self, text: &mut String) -> Result<(), AllocError>
        ensures { OnOk result ((answer : List ℕ) × Answers self answer
            × (string_bytes text.new ≡ string_bytes text.old ++ answer)) }
    {
        match self {
            Command::Set(line) => line.answer(text),
            Command::Total(line) => line.answer(text),
            Command::Shape(line) => line.answer(text),
            Command::Permit(line) => line.answer(text),
            Command::Prefix(line) => line.answer(text),
            Command::Tree(line) => line.answer(text),
        }
    }
}

/// Appends the answer to a line and an LF to `text`, and nothing for a line without words. After a
/// fault, `text` may end in a part of an answer.
pub fn answer_line(alloc: Global, line: &[u8], text: &mut String) -> Result<(), Fault>
    ensures answers { OnOk result ((answer : List ℕ) × AnswersWords (words_of line.now) answer
        × (string_bytes text.new ≡ string_bytes text.old ++ answer)) }
    ensures judged { MatchResult result (λ _. fault_in_words (words_of line.now) ≡ None)
        (λ fault. IsFault (fault_in_words (words_of line.now)) fault) }
{
    let mut words = Words::new(line);
    let Some(name) = words.next() else {
        return Ok(());
    };
    Command::read(alloc, name, words)?.answer(text)?;
    text.push_str("\n")?;
    Ok(())
}
