//! Lines that begin with `total`.
use super::check_lines;
use std::test::Fail;

/// Operations on total sets, their tests, and faults, the last of which is that of a `set` line.
const TOTALS: &str = "\
total minus !1 2 => !1,2
total or !1 1 => !-
total and !1 !2 => !1,2
total xor !1 !1,2 => 2
total minus !1 !1,2 => 2
total and 1,3 !3,5 => 1
total or 1,3 !3,5 => !5
total xor - - => -
total disjoint !1 1 => true
total superset !- 7 => true
total subset !- 7 => false
total minus ! 1 => line 1: fault 3: not a number or key
total minus !!1 1 => line 1: fault 3: not a number or key
total minus 1 !2,1 => line 1: fault 2: not ascending
total union 1 2 => line 1: fault 1: unknown command
total minus 1 => line 1: fault 4: wrong count of words
set union !1 2 => line 1: fault 3: not a number or key
";

#[test]
fn answers_each_total_operation(rt: HostRuntime) -> Result<(), Fail> {
    check_lines(&rt, TOTALS)
}
