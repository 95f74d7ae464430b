//! Lines that begin with `tree`.
use super::check_lines;
use std::test::Fail;

/// Commands on trees, and faults. In the last four the count of words is checked first, and then
/// the words from the left.
const TREES: &str = "\
tree b,a,b => a,b
tree - => -
tree . difference a => .
tree - prepend ab => -
tree aabb,aabbcc difference aabb prepend x => xaabbcc
tree aabbcc,aabb,aabbee filter aab remove aabbc => aabb,aabbee
tree a,ab insert abc union b => a,ab,abc,b
tree a,ab,b retain . => a,ab,b
tree a,ab,b retain ab,b => ab,b
tree a intersection b => -
tree a,b intersection b,c insert . => .,b
tree a leap b => line 1: fault 1: unknown command
tree a insert - => line 1: fault 3: not a number or key
tree a union b, => line 1: fault 3: not a number or key
tree a insert => line 1: fault 4: wrong count of words
tree => line 1: fault 4: wrong count of words
tree ! leap => line 1: fault 4: wrong count of words
tree ! leap b => line 1: fault 3: not a number or key
tree a insert - leap b => line 1: fault 3: not a number or key
tree a leap b insert - => line 1: fault 1: unknown command
";

#[test]
fn answers_what_commands_leave(rt: HostRuntime) -> Result<(), Fail> {
    check_lines(&rt, TREES)
}
