//! Lists of rules on keys, and the filters of their rules.
ghost use Rattle.std.specs.Prelude.{◌≡◌, List, ℕ, Bool, None, Some, MatchResult, IfOk, OnOk};
ghost use Rattle.std.specs.Option.{option_map};
ghost use Rattle.std.specs.Ordering.{nat_cmp};
ghost use Rattle.vec_collections.specs.Map.{IsInserted};
ghost use Rattle.vec_collections.specs.TreePairs.{IsCollected};
ghost use Rattle.vecbench_lines.specs.Rules.{rule_in, rules_in};
ghost use Rattle.vecbench_lines.specs.Judged.{fault_in_rules, IsFault};

use crate::fault::Fault;
use crate::keys::read_key;
use crate::parts::{Parts, Separator};
use std::alloc::{AllocError, Global};
use vec_collections::path_filter::PathFilter;

/// A filter of keys of letters.
pub type KeyFilter = PathFilter<u8>;

/// The rule that a word means, a key and whether it is allowed: after `!` it is denied.
fn read_rule(word: &[u8]) -> Option<(&[u8], bool)>
    ensures { option_map (λ rule. (rule.0.now, rule.1)) result ≡ rule_in word.now }
{
    match word {
        [b'!', key @ ..] => Some((read_key(key)?, false)),
        _ => Some((read_key(word)?, true)),
    }
}

/// Allows the key, or denies it.
fn put_rule(filter: &mut KeyFilter, key: &[u8], allowed: bool) -> Result<(), AllocError>
    ensures { OnOk result
        (IsInserted nat_cmp (λ v w. v ≡ w) key.now allowed filter.old filter.new) }
{
    if allowed {
        filter.allow(key)
    } else {
        filter.deny(key)
    }
}

/// The filter of the rules of a list, applied in their order: `-` has none, and otherwise commas
/// separate them.
pub fn read_filter(alloc: Global, word: &[u8]) -> Result<KeyFilter, Fault>
    ensures rules { IfOk result (λ filter. (rules : List (List ℕ × Bool))
        × (rules_in word.now ≡ Some rules) × IsCollected nat_cmp rules filter) }
    ensures judged { MatchResult result (λ _. fault_in_rules word.now ≡ None)
        (λ fault. IsFault (fault_in_rules word.now) fault) }
{
    let mut filter = KeyFilter::new(alloc);
    if word == b"-".as_slice() {
        return Ok(filter);
    }
    for part in Parts::new(Separator::Comma, word) {
        let Some((key, allowed)) = read_rule(part) else {
            return Err(Fault::NotANumberOrKey);
        };
        put_rule(&mut filter, key, allowed)?;
    }
    Ok(filter)
}
