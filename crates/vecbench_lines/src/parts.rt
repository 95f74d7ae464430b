//! The parts of a text, and the words of a line.
use memchr::{memchr, memchr2};

/// What separates two parts of a text.
#[derive(Clone, Copy, Debug, PartialEq, Eq)]
pub enum Separator {
    /// An LF, between lines.
    Newline,
    /// A space or a tab, between words.
    Gap,
    /// A comma, between the members of a list.
    Comma,
}

impl Separator {
    ghost use Rattle.memchr.specs.Find.{IsFirstByte};
    ghost use Rattle.std.specs.Prelude.{◌≡◌, ◌∷◌};
    ghost use Rattle.vecbench_lines.specs.Parts.{parts_at, parts_of, parts_of_rest};

    /// The place of the first separator in `text`.
    fn find(self, text: &[u8]) -> Option<usize>
        ensures { IsFirstByte (parts_at self) text.now result }
    {
        match self {
            Separator::Newline => memchr(b'\n', text),
            Separator::Gap => memchr2(b' ', b'\t', text),
            Separator::Comma => memchr(b',', text),
        }
    }

    /// The first part of `text`, and what is after its separator, if one ends it.
    pub fn cut(self, text: &[u8]) -> (&[u8], Option<&[u8]>)
        ensures { parts_of self text.now ≡ result.0.now ∷ parts_of_rest self result.1 }
    {
        match self.find(text) {
            Some(end) => (&text[..end], Some(&text[end + 1..])),
            None => (text, None),
        }
    }
}

/// The parts of a text from the first one on, also those that are empty. An empty text has one
/// part.
#[derive(Clone, Copy)]
pub struct Parts<'a> {
    separator: Separator,
    rest: Option<&'a [u8]>,
}

impl<'a> Parts<'a> {
    ghost use Rattle.std.specs.Prelude.{◌≡◌};
    ghost use Rattle.vecbench_lines.specs.Parts.{parts_of};
    ghost use Rattle.vecbench_lines.specs.PartsLeft.{parts_left};

    /// The parts of `text`, between its separators.
    pub fn new(separator: Separator, text: &'a [u8]) -> Self
        ensures { parts_left result ≡ parts_of separator text.now }
    {
        Parts {
            separator,
            rest: Some(text),
        }
    }
}

impl<'a> Iterator for Parts<'a> {
    type Item = &'a [u8];

    ghost use Rattle.std.specs.Iterator.{YieldsFirstBy, item_count};
    ghost use Rattle.vecbench_lines.specs.PartsLeft.{parts_left};

    ghost next_gives = { YieldsFirstBy (λ part. part.now) parts_left };

    ghost remaining = { item_count parts_left };

    fn next(&mut self) -> Option<&'a [u8]> {
        let text = self.rest?;
        let (part, rest) = self.separator.cut(text);
        self.rest = rest;
        Some(part)
    }
}

/// The words of a line: its parts between spaces and tabs, without the empty ones.
#[derive(Clone, Copy)]
pub struct Words<'a> {
    parts: Parts<'a>,
}

impl<'a> Words<'a> {
    ghost use Rattle.std.specs.Prelude.{◌≡◌, ◌≢◌, ◌∷◌, [], length, MatchOption};
    ghost use Rattle.vecbench_lines.specs.Parts.{words_of, are_pairs};
    ghost use Rattle.vecbench_lines.specs.PartsLeft.{words_left};

    /// The words of `line`.
    pub fn new(line: &'a [u8]) -> Self
        ensures { words_left result ≡ words_of line.now }
    {
        Words {
            parts: Parts::new(Separator::Gap, line),
        }
    }

    /// Whether the number of words is even.
    pub fn are_pairs(mut self) -> bool
        ensures { result ≡ are_pairs (words_left self.entry) }
    {
        while let Some(_) = self.next() {
            if self.next().is_none() {
                return false;
            }
        }
        true
    }

    /// The word, if there is exactly one.
    pub fn one(mut self) -> Option<&'a [u8]>
        ensures { MatchOption result (length (words_left self.entry) ≢ 1)
            (λ word. words_left self.entry ≡ word.now ∷ []) }
    {
        let word = self.next()?;
        if self.next().is_some() {
            return None;
        }
        Some(word)
    }

    /// The words, if there are exactly two.
    pub fn two(mut self) -> Option<(&'a [u8], &'a [u8])>
        ensures { MatchOption result (length (words_left self.entry) ≢ 2)
            (λ words. words_left self.entry ≡ words.0.now ∷ words.1.now ∷ []) }
    {
        let first = self.next()?;
        let second = self.next()?;
        if self.next().is_some() {
            return None;
        }
        Some((first, second))
    }

    /// The words, if there are exactly three.
    pub fn three(mut self) -> Option<(&'a [u8], &'a [u8], &'a [u8])>
        ensures { MatchOption result (length (words_left self.entry) ≢ 3)
            (λ words. words_left self.entry ≡ words.0.now ∷ words.1.now ∷ words.2.now ∷ []) }
    {
        let first = self.next()?;
        let second = self.next()?;
        let third = self.next()?;
        match self.next() {
            Some(_) => None,
            None => Some((first, second, third)),
        }
    }
}

impl<'a> Iterator for Words<'a> {
    type Item = &'a [u8];

    ghost use Rattle.std.specs.Iterator.{YieldsFirstBy, item_count};
    ghost use Rattle.vecbench_lines.specs.PartsLeft.{words_left};

    ghost next_gives = { YieldsFirstBy (λ word. word.now) words_left };

    ghost remaining = { item_count words_left };

    fn next(&mut self) -> Option<&'a [u8]> {
        while let Some(part) = self.parts.next() {
            if !part.is_empty() {
                return Some(part);
            }
        }
        None
    }
}
