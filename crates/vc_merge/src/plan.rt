//! How a merge finds its events: by a walk along both lists, or by searches in the longer one.
ghost use Rattle.std.specs.Prelude.{◌≤◌};
ghost use Rattle.vc_merge.specs.Count.{bound};
ghost use Rattle.vc_merge.specs.Plan.{IsPlan, planned};

use crate::searching::{is_walk_shorter, stride_exponent};

/// One of the two lists.
#[derive(Clone, Copy)]
pub enum Side {
    Left,
    Right,
}

/// How a merge finds its events.
#[derive(Clone, Copy)]
pub enum Plan {
    /// It walks along both lists.
    Walk,
    /// It searches for each element of the shorter list in the other one, by strides of two to the
    /// power of `exponent`.
    Search { shorter: Side, exponent: u32 },
}

/// The plan of a merge of lists of these lengths: a walk, unless searches by halves compare less
/// often.
pub fn plan_of(left: usize, right: usize) -> Plan
    ensures plan { IsPlan result }
    ensures planned { planned result left right ≤ bound left right }
{
    if is_walk_shorter(left, right) {
        Plan::Walk
    } else if left <= right {
        Plan::Search {
            shorter: Side::Left,
            exponent: stride_exponent(left, right),
        }
    } else {
        Plan::Search {
            shorter: Side::Right,
            exponent: stride_exponent(right, left),
        }
    }
}
