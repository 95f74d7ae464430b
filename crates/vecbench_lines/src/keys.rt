//! Keys, lists of keys, and the trees of their keys.
ghost use Rattle.std.specs.Prelude.{◌≡◌, ◌++◌, List, ℕ, None, Some, MatchResult, IfOk, OnOk};
ghost use Rattle.std.specs.Char.{is_ascii_lowercase};
ghost use Rattle.std.specs.List.{list_all};
ghost use Rattle.std.specs.Option.{is_some, option_copied};
ghost use Rattle.std.specs.Ordering.{nat_cmp};
ghost use Rattle.std.specs.String.{string_bytes};
ghost use Rattle.vec_collections.specs.Map.{lookup};
ghost use Rattle.vecbench_lines.specs.KeyLists.{ListsKeys};
ghost use Rattle.vecbench_lines.specs.Keys.{key_in, keys_in, HasKeys};
ghost use Rattle.vecbench_lines.specs.Judged.{fault_in_keys, IsFault};
ghost use Rattle.vecbench_lines.specs.Shapes.{key_text, value_mark, shape_text};

use crate::fault::Fault;
use crate::parts::{Parts, Separator};
use std::alloc::{AllocError, Global};
use vec_collections::radix_tree::{
    AbstractRadixTree, AbstractRadixTreeMut, RadixNode, RadixTree, TValue,
};

/// A tree of keys of letters, which binds `()` to each.
pub type KeyTree = RadixTree<u8, ()>;

/// Whether there are only letters from a to z.
fn is_letters(word: &[u8]) -> bool
    ensures { result ≡ list_all is_ascii_lowercase word.now }
{
    word.iter().all(|letter| letter.is_ascii_lowercase())
}

/// The key that a word means: `.` is the empty key, and otherwise there are one or more letters
/// from a to z and nothing else.
pub fn read_key(word: &[u8]) -> Option<&[u8]>
    ensures { option_copied result ≡ key_in word.now }
{
    if word == b".".as_slice() {
        return Some(&[]);
    }
    if word.is_empty() || !is_letters(word) {
        return None;
    }
    Some(word)
}

/// The tree of the keys of a list, in any order and with repeats: `-` has none, and otherwise
/// commas separate them.
pub fn read_tree(alloc: Global, word: &[u8]) -> Result<KeyTree, Fault>
    ensures keys { IfOk result
        (λ tree. (keys : List (List ℕ)) × (keys_in word.now ≡ Some keys) × HasKeys keys tree) }
    ensures judged { MatchResult result (λ _. fault_in_keys word.now ≡ None)
        (λ fault. IsFault (fault_in_keys word.now) fault) }
{
    let mut tree = KeyTree::empty(alloc);
    if word == b"-".as_slice() {
        return Ok(tree);
    }
    for part in Parts::new(Separator::Comma, word) {
        let Some(key) = read_key(part) else {
            return Err(Fault::NotANumberOrKey);
        };
        tree.insert(key, ())?;
    }
    Ok(tree)
}

/// Appends a key of letters to `text`, in the form in which keys are read: `.` for the empty key,
/// and otherwise its letters. Of any other key, each component is appended as the character of its
/// number.
pub fn put_key(text: &mut String, key: &[u8]) -> Result<(), AllocError>
    ensures { OnOk result (string_bytes text.new ≡ string_bytes text.old ++ key_text key.now) }
{
    if key.is_empty() {
        return text.push('.');
    }
    for letter in key {
        text.push(char::from(*letter))?;
    }
    Ok(())
}

/// Appends the keys of a tree to `text`, ascending, in the form in which a list of keys is read.
pub fn put_keys(text: &mut String, tree: &KeyTree) -> Result<(), AllocError>
    ensures { OnOk result ((answer : List ℕ)
        × ListsKeys (λ key. is_some (lookup nat_cmp tree.now key)) answer
        × (string_bytes text.new ≡ string_bytes text.old ++ answer)) }
{
    let mut pairs = tree.iter();
    let Some(first) = pairs.next() else {
        return text.push('-');
    };
    let (key, _) = first?;
    put_key(text, key.as_ref())?;
    for pair in pairs {
        let (key, _) = pair?;
        text.push(',')?;
        put_key(text, key.as_ref())?;
    }
    Ok(())
}

/// Appends `*` to `text` where there is a value.
fn put_mark<V>(text: &mut String, value: Option<&V>) -> Result<(), AllocError>
    ensures { OnOk result
        (string_bytes text.new ≡ string_bytes text.old ++ value_mark (option_copied value.entry)) }
{
    match value {
        Some(_) => text.push('*'),
        None => Ok(()),
    }
}

/// Appends the shape of a tree to `text`: its prefix, `*` where it has a value, and the shapes of
/// its children in parentheses, if there are any.
pub fn put_shape<V: TValue, T: AbstractRadixTree<u8, V>>(
    text: &mut String,
    tree: &T,
) -> Result<(), AllocError>
    ensures { OnOk result
        (string_bytes text.new ≡ string_bytes text.old ++ shape_text (T.tree tree.now)) }
{
    put_key(text, tree.prefix())?;
    put_mark(text, tree.value())?;
    let [first, others @ ..] = tree.children() else {
        return Ok(());
    };
    text.push('(')?;
    put_shape(text, first)?;
    for child in others {
        text.push(' ')?;
        put_shape(text, child)?;
    }
    text.push(')')
}
