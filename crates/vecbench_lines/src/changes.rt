//! Lists of commands on a tree of keys.
ghost use Rattle.std.specs.Prelude.{◌≡◌, Some, None, MatchResult, IfOk};
ghost use Rattle.vecbench_lines.specs.PartsLeft.{words_left};
ghost use Rattle.vecbench_lines.specs.Keys.{key_in};
ghost use Rattle.vecbench_lines.specs.Judged.{fault_in_key, fault_in_change, fault_in_changes, IsFault};
ghost use Rattle.vecbench_lines.specs.Changes.{SaysChange, SaysChanges};

use crate::fault::Fault;
use crate::keys::{KeyTree, read_key, read_tree};
use crate::parts::Words;
use std::alloc::Global;
use vec_collections::radix_tree::TreeCommand;

/// A command on a tree of keys.
pub type KeyCommand = TreeCommand<u8, (), KeyTree>;

/// The key that a word means, as a new list.
fn read_own_key(alloc: Global, word: &[u8]) -> Result<Vec<u8>, Fault>
    ensures key { IfOk result (λ key. key_in word.now ≡ Some key.items) }
    ensures judged { MatchResult result (λ _. fault_in_key word.now ≡ None)
        (λ fault. IsFault (fault_in_key word.now) fault) }
{
    let key = read_key(word).ok_or(Fault::NotANumberOrKey)?;
    Ok(key.to_vec(alloc)?)
}

/// The command of this name, with the key or the list of keys that the word means.
fn read_change(alloc: Global, name: &[u8], word: &[u8]) -> Result<KeyCommand, Fault>
    ensures says { IfOk result (SaysChange name.now word.now) }
    ensures judged { MatchResult result (λ _. fault_in_change name.now word.now ≡ None)
        (λ fault. IsFault (fault_in_change name.now word.now) fault) }
{
    if name == b"insert".as_slice() {
        Ok(TreeCommand::Insert(read_own_key(alloc, word)?, ()))
    } else if name == b"prepend".as_slice() {
        Ok(TreeCommand::Prepend(read_own_key(alloc, word)?))
    } else if name == b"filter".as_slice() {
        Ok(TreeCommand::Filter(read_own_key(alloc, word)?))
    } else if name == b"union".as_slice() {
        Ok(TreeCommand::Union(read_tree(alloc, word)?))
    } else if name == b"intersection".as_slice() {
        Ok(TreeCommand::Intersection(read_tree(alloc, word)?))
    } else if name == b"difference".as_slice() {
        Ok(TreeCommand::Difference(read_tree(alloc, word)?))
    } else if name == b"remove".as_slice() {
        Ok(TreeCommand::RemovePrefix(read_tree(alloc, word)?))
    } else if name == b"retain".as_slice() {
        Ok(TreeCommand::RetainPrefix(read_tree(alloc, word)?))
    } else {
        Err(Fault::UnknownCommand)
    }
}

/// The commands of the words, each a name and the word after it. They are judged from the left.
pub fn read_changes(alloc: Global, mut words: Words<'_>) -> Result<Vec<KeyCommand>, Fault>
    ensures says { IfOk result (λ changes. SaysChanges (words_left words.entry) changes.items) }
    ensures judged { MatchResult result (λ _. fault_in_changes (words_left words.entry) ≡ None)
        (λ fault. IsFault (fault_in_changes (words_left words.entry)) fault) }
{
    let mut changes = Vec::new(alloc);
    while let Some(name) = words.next() {
        let word = words.next().ok_or(Fault::WrongCount)?;
        changes.push(read_change(alloc, name, word)?)?;
    }
    Ok(changes)
}
