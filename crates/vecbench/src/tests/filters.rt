//! Lines that begin with `permit` or `prefix`.
use super::check_lines;
use std::test::Fail;

/// Lines that begin with `permit`.
const PERMITS: &str = "\
permit a,!ab,abcd a,ab,abc,abcd,abcde,b => a,abcd,abcde
permit .,!a a,ab,b => b
permit !a,. b,a,. => .,b
permit - a => -
permit a - => -
permit a,!a a,ab => -
permit !a,a a,ab => a,ab
permit a => line 1: fault 4: wrong count of words
permit a b c => line 1: fault 4: wrong count of words
permit !!a a => line 1: fault 3: not a number or key
permit a,! a => line 1: fault 3: not a number or key
permit !- a => line 1: fault 3: not a number or key
permit a !a => line 1: fault 3: not a number or key
";

/// Lines that begin with `prefix`. In the last two the count of words is checked before the
/// operation, and the operation before the lists.
const PREFIXES: &str = "\
prefix remove a,ab,abc,b a,!ab => ab,abc,b
prefix retain a,ab,abc,b a,!ab => a
prefix remove a,ab,abc,b .,!ab => ab,abc
prefix retain a,ab,abc,b .,!ab => a,b
prefix remove a,ab,abc,b !a,ab => a,b
prefix remove a,ab a,!a => a,ab
prefix remove .,a - => .,a
prefix retain a,ab - => -
prefix retain a !!a => line 1: fault 3: not a number or key
prefix retain !a a => line 1: fault 3: not a number or key
prefix drop a a => line 1: fault 1: unknown command
prefix remove a => line 1: fault 4: wrong count of words
prefix drop a => line 1: fault 4: wrong count of words
prefix drop ! ! => line 1: fault 1: unknown command
";

#[test]
fn answers_what_is_permitted(rt: HostRuntime) -> Result<(), Fail> {
    check_lines(&rt, PERMITS)
}

#[test]
fn answers_what_prefixes_leave(rt: HostRuntime) -> Result<(), Fail> {
    check_lines(&rt, PREFIXES)
}
