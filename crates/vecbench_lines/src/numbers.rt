//! Numbers and lists of numbers.
ghost use Rattle.std.specs.Prelude.{◌≡◌, ◌+◌, ◌*◌, ◌<◌, ◌^◌, ◌++◌, Some, None, MatchResult, IfOk, OnOk, IsTrue};
ghost use Rattle.std.specs.Option.{SomeIff, option_map_or};
ghost use Rattle.std.specs.Char.{is_ascii_digit, digit_value};
ghost use Rattle.std.specs.String.{string_bytes};
ghost use Rattle.vecbench_lines.specs.Numbers.{number_in, numbers_in, list_text, truth_text};
ghost use Rattle.vecbench_lines.specs.Judged.{fault_in_list, IsFault};
ghost use Rattle.vecbench_lines.specs.declared.fault.Fault.TheVariants.{NotANumberOrKey};

use crate::fault::Fault;
use crate::parts::{Parts, Separator};
use std::alloc::{AllocError, Global};
use std::fmt::Write;
use vec_collections::VecSet2;
use vec_collections::iterators::ascends;

/// A set of numbers, up to two of them inline.
pub type NumberSet = VecSet2<u64>;

/// The number whose digits are those of `value` and one more, if that is a digit and the number
/// fits.
fn append_digit(value: u64, digit: u8) -> Option<u64>
    ensures { SomeIff result (IsTrue (is_ascii_digit digit)
        × (value * 10 + digit_value digit < 2 ^ 64)) (value * 10 + digit_value digit) }
{
    if !digit.is_ascii_digit() {
        return None;
    }
    value.checked_mul(10)?.checked_add(u64::from(digit - b'0'))
}

/// The number that a word means: one or more digits and nothing else, where it fits.
pub fn read_number(word: &[u8]) -> Option<u64>
    ensures { result ≡ number_in word.now }
{
    if word.is_empty() {
        return None;
    }
    let mut value = 0;
    let mut rest = word;
    while let [digit, behind @ ..] = rest {
        value = append_digit(value, *digit)?;
        rest = behind;
    }
    Some(value)
}

/// The numbers of a list in their order, whether or not they ascend: `-` has none, and otherwise
/// commas separate them.
pub fn read_numbers(alloc: Global, word: &[u8]) -> Result<Vec<u64>, Fault>
    ensures { MatchResult result (λ numbers. numbers_in word.now ≡ Some numbers.items)
        (λ fault. IsFault (option_map_or (λ _. None) (numbers_in word.now) (Some NotANumberOrKey))
        fault) }
{
    let mut numbers = Vec::new(alloc);
    if word == b"-".as_slice() {
        return Ok(numbers);
    }
    for part in Parts::new(Separator::Comma, word) {
        let Some(number) = read_number(part) else {
            return Err(Fault::NotANumberOrKey);
        };
        numbers.push(number)?;
    }
    Ok(numbers)
}

/// The set of the numbers of a list. A list with a member that is no number is `NotANumberOrKey`,
/// even where its numbers do not ascend.
pub fn read_set(alloc: Global, word: &[u8]) -> Result<NumberSet, Fault>
    ensures numbers { IfOk result (λ set. numbers_in word.now ≡ Some set) }
    ensures judged { MatchResult result (λ _. fault_in_list word.now ≡ None)
        (λ fault. IsFault (fault_in_list word.now) fault) }
{
    let numbers = read_numbers(alloc, word)?;
    if !ascends(numbers.as_slice()) {
        return Err(Fault::NotAscending);
    }
    Ok(NumberSet::from_vec(alloc, numbers)?)
}

/// Appends the list of `numbers` to `text`, in the form in which lists are read.
pub fn put_numbers(text: &mut String, numbers: &[u64]) -> Result<(), AllocError>
    ensures { OnOk result (string_bytes text.new ≡ string_bytes text.old ++ list_text numbers.now) }
{
    let [first, others @ ..] = numbers else {
        return text.push_str("-");
    };
    write!(text, "{first}")?;
    for number in others {
        write!(text, ",{number}")?;
    }
    Ok(())
}

/// Appends `true` or `false` to `text`.
pub fn put_truth(text: &mut String, holds: bool) -> Result<(), AllocError>
    ensures { OnOk result (string_bytes text.new ≡ string_bytes text.old ++ truth_text holds) }
{
    text.push_str(if holds { "true" } else { "false" })
}
