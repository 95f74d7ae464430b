//! Maps that take in all of another map: the pairs of both are moved, and nothing is cloned.
ghost use Rattle.std.specs.Prelude.{◌≡◌, ◌+◌, ◌≤◌, [], ◌∷◌, ◌++◌, Some, IfOk, IsOk, OnOk, OnErr, length, take, drop};
ghost use Rattle.vc_joins.specs.declared.question.OuterJoinArg.TheVariants as arg;
ghost use Rattle.vc_joins.specs.Entries.{AscendsByKey};
ghost use Rattle.vc_joins.specs.Events.{AnswerAdds};
ghost use Rattle.vc_joins.specs.Join.{IsAsked, IsJoin, MovedKey};
ghost use Rattle.vc_joins.specs.Question.{left_spelling};
ghost use Rattle.vc_maps.specs.Asking.{AtHeads};
ghost use Rattle.vc_maps.specs.Combining.{CanCombine, Combines};
ghost use Rattle.vc_merge.specs.Gathering.{Adds};

use crate::in_place::keep_left;
use crate::join::{JoinOp, JoinState};
use smallvec::SmallVec;
use std::alloc::{AllocError, Allocator};
use std::default::MadeWith;
use vc_joins::question::JoinKind;
use vc_merge::lists::append_moved;
use vc_merge::merge::{MergeFromRight, MergeStateMut, Uncounted, merge};
use vc_merge::parts::{PartsState, open_gap};

/// A closure that combines the two values at a key of both maps, and the allocator of the map. A
/// value of only one map stays.
#[derive(Drop)]
pub struct AskShared<'f, 'c, F, A> {
    combine: &'f F,
    alloc: &'c A,
}

/// Two maps in one list, whose pairs are moved.
impl<'a, 'f, 'c, K: Drop, V: Drop, A: Allocator + Copy, F: Fn(V, V) -> V> JoinState<
    K,
    V,
    V,
    AskShared<'f, 'c, F, A>,
> for PartsState<'a, (K, V)>
where
    (K, V): MadeWith<A>,
{
    ghost use Rattle.vc_merge.specs.PartsViews.{built_items, left_items, right_items, list_name};

    ghost takes = { λ q a. CanCombine (λ v w. F.pre q.combine.now v w) a };

    ghost asks_a = { λ q s n answer t. IsOk answer
        × Adds built_items list_name (λ p. AnswerAdds
        (Combines (λ v w x. F.post q.combine.now v w x)) MovedKey (Some (arg.Left p.0 p.1)))
        (take n (left_items s)) s answer t };

    ghost asks_b = { λ q s n answer t. IsOk answer
        × Adds built_items list_name (λ p. AnswerAdds
        (Combines (λ v w x. F.post q.combine.now v w x)) MovedKey (Some (arg.Right p.0 p.1)))
        (take n (right_items s)) s answer t };

    ghost asks_both = { λ q s answer t. IsOk answer
        × AtHeads (λ p r. Adds built_items list_name
        (λ a. AnswerAdds (Combines (λ v w x. F.post q.combine.now v w x)) MovedKey (Some a))
        (arg.Both p.0 p.1 r.1 ∷ []) s answer t) (left_items s) (right_items s) };

    fn ask_a(&mut self, _question: &AskShared<'f, 'c, F, A>, n: usize) -> Result<bool, AllocError> {
        self.advance_a(n, true)
    }

    fn ask_b(&mut self, _question: &AskShared<'f, 'c, F, A>, n: usize) -> Result<bool, AllocError> {
        self.take_b(n)
    }

    fn ask_both(&mut self, question: &AskShared<'f, 'c, F, A>) -> Result<bool, AllocError> {
        let alloc = *question.alloc;
        let (_, other) = self.replace_right(<(K, V)>::made_with(alloc));
        let (key, value) = self.replace_left(<(K, V)>::made_with(alloc));
        let answer = (question.combine)(value, other);
        keep_left(self, key, Some(answer));
        self.skip_b(1)
    }
}

/// Moves the pairs of two parts of a list to its front, where two with equal keys become one. The
/// parts are its first `end` pairs and those from `next` on. Answers how many pairs remain.
pub fn combine_parts<K: Ord + Drop, V: Drop, A: Allocator + Copy, F: Fn(V, V) -> V>(
    alloc: &A,
    list: &mut [(K, V)],
    end: usize,
    next: usize,
    f: &F,
) -> usize
where
    (K, V): MadeWith<A>,
    requires order { end ≤ next }
    requires within { next ≤ length list.old }
    requires left_ascends { AscendsByKey K.cmp (take end list.old) }
    requires right_ascends { AscendsByKey K.cmp (drop next list.old) }
    requires callable { (k : _) (v : _) (w : _)
        → IsAsked K.cmp JoinKind.Outer left_spelling (take end list.old) (drop next list.old)
        (arg.Both k v w) → F.pre f.now v w }
    ensures { IsJoin K.cmp JoinKind.Outer left_spelling (take end list.old) (drop next list.old)
        (Combines (λ v w x. F.post f.now v w x)) MovedKey (take result list.new) }
{
    let mut state = PartsState::new(list, end, next);
    let question = AskShared { combine: f, alloc };
    let op = JoinOp {
        kind: JoinKind::Outer,
        question: &question,
    };
    let _never_refused = merge(&mut state, &op, &mut Uncounted);
    state.kept()
}

/// Moves the elements of `that` to the end of a list, after a gap. Answers the place of the first
/// of them.
///
/// The only allocation comes before the first move. Where it is refused, the list keeps its
/// elements.
pub fn append_behind<T: MadeWith<A> + Drop, const N: usize, const M: usize, A: Allocator + Copy>(
    list: &mut SmallVec<T, N, A>,
    that: SmallVec<T, M, A>,
) -> Result<usize, AllocError>
    ensures order { IfOk result
        (λ next. (length list.old.items ≤ next) × (next ≤ length list.new.items)) }
    ensures front { OnOk result (take (length list.old.items) list.new.items ≡ list.old.items) }
    ensures behind { IfOk result (λ next. drop next list.new.items ≡ that.items) }
    ensures room { length list.old.items + length that.items ≤ N → IsOk result }
    ensures err { OnErr result (list.new.items ≡ list.old.items) }
{
    open_gap(list, that.len())?;
    let next = list.len();
    append_moved(list, that);
    Ok(next)
}
