//! The merge operation of all joins: at each event it asks a question, if the kind of join asks one
//! there.
ghost use Rattle.std.specs.Prelude.{◌≡◌, ℕ, ◌<◌, ◌≤◌, true, false, take, length};
ghost use Rattle.std.specs.Bool.{MatchBool};
ghost use Rattle.std.specs.List.{AllByRecursion};
ghost use Rattle.std.specs.declared.cmp.Ordering.TheVariants.{Equal};
ghost use Rattle.vc_joins.specs.declared.question.OuterJoinArg.{OuterJoinArg};
ghost use Rattle.vc_joins.specs.declared.question.OuterJoinArg.TheVariants as arg;
ghost use Rattle.vc_joins.specs.Events.{by_key, by_key-total};
ghost use Rattle.vc_joins.specs.Question.{asks_left, asks_right};
ghost use Rattle.vc_maps.specs.Asking.{CanAsk, AtHeads, AsksOne, PassesOne, asks_at, question_at};
ghost use Rattle.vc_merge.specs.Chain.{Answer};
ghost use Rattle.vc_merge.specs.Count.{ticked};
ghost use Rattle.vc_merge.specs.Fronts.{HeadsCompare};
ghost use Rattle.vc_merge.specs.Script.{BothAscend};
ghost use Rattle.vc_merge.specs.Takes.{TakesBoth, TakesLeft, TakesLesser, TakesRight};

use std::alloc::AllocError;
use std::cmp::Ordering;
use vc_joins::question::JoinKind;
use vc_merge::merge::{Count, MergeOperation, MergeStateMut};

/// A state that asks a question `Q` for the pairs that are left of two maps, and builds a map of
/// the answers.
pub trait JoinState<K, V, W, Q>: MergeStateMut<A = (K, V), B = (K, W)> {
    /// Whether the question may be asked with this argument.
    ghost takes: { Q → OuterJoinArg K V W → Type 0 };

    ghost asks_a: { Q → Self → ℕ → Answer → Self → Type 0 };

    ghost asks_b: { Q → Self → ℕ → Answer → Self → Type 0 };

    ghost asks_both: { Q → Self → Answer → Self → Type 0 };

    /// Asks for the first `n` pairs of the left map, whose keys only this map has, and passes them.
    fn ask_a(&mut self, question: &Q, n: usize) -> Result<bool, AllocError>
        requires ready { Self.ready self.old }
        requires within { n ≤ length (Self.left self.old) }
        requires takes { AllByRecursion (λ p. takes question.now (arg.Left p.0 p.1))
            (take n (Self.left self.old)) }
        ensures gives { asks_a question.now self.old n result self.new }
        ensures passes { TakesLeft Self.left Self.right Self.ready n self.old result self.new };

    /// Asks for the first `n` pairs of the right map, whose keys only this map has, and passes
    /// them.
    fn ask_b(&mut self, question: &Q, n: usize) -> Result<bool, AllocError>
        requires ready { Self.ready self.old }
        requires within { n ≤ length (Self.right self.old) }
        requires takes { AllByRecursion (λ p. takes question.now (arg.Right p.0 p.1))
            (take n (Self.right self.old)) }
        ensures gives { asks_b question.now self.old n result self.new }
        ensures passes { TakesRight Self.left Self.right Self.ready n self.old result self.new };

    /// Asks for the first pair of each map, which have equal keys, and passes both.
    fn ask_both(&mut self, question: &Q) -> Result<bool, AllocError>
        requires ready { Self.ready self.old }
        requires takes { AtHeads (λ p q. takes question.now (arg.Both p.0 p.1 q.1))
            (Self.left self.old) (Self.right self.old) }
        ensures gives { asks_both question.now self.old result self.new }
        ensures passes { TakesBoth Self.left Self.right Self.ready self.old result self.new };

    /// Asks for the first pairs, whose keys compare as `heads`, and passes the lesser one, or both.
    #[inline(always)]
    fn ask_heads(&mut self, question: &Q, heads: Ordering) -> Result<bool, AllocError>
        requires ready { Self.ready self.old }
        requires takes { AtHeads (λ p q. takes question.now (question_at heads p q))
            (Self.left self.old) (Self.right self.old) }
        ensures gives { AsksOne (asks_a question.now) (asks_b question.now)
            (asks_both question.now) heads self.old result self.new }
        ensures passes { TakesLesser Self.left Self.right Self.ready heads self.old result
            self.new }
    {
        match heads {
            Ordering::Less => self.ask_a(question, 1),
            Ordering::Greater => self.ask_b(question, 1),
            Ordering::Equal => self.ask_both(question),
        }
    }

    /// Passes the lesser one of the first pairs, for which nothing is asked.
    #[inline(always)]
    fn pass_lesser(&mut self, heads: Ordering) -> Result<bool, AllocError>
        requires ready { Self.ready self.old }
        requires some_left { 0 < length (Self.left self.old) }
        requires some_right { 0 < length (Self.right self.old) }
        requires differ { heads ≡ Equal → ⊥ }
        ensures gives { PassesOne Self.advances_a Self.skips_b heads self.old result self.new }
        ensures passes { TakesLesser Self.left Self.right Self.ready heads self.old result
            self.new }
    {
        if heads.is_le() {
            self.advance_a(1, false)
        } else {
            self.skip_b(1)
        }
    }
}

/// Asks a question for the keys that a kind of join names, in ascending order, and drops all
/// others.
#[derive(Drop)]
pub struct JoinOp<'f, Q> {
    pub kind: JoinKind,
    pub question: &'f Q,
}

impl<
    'f,
    K: Ord,
    V,
    W,
    Q,
    M: JoinState<K, V, W, Q> + MergeStateMut<A = (K, V), B = (K, W)>,
    C: Count,
> MergeOperation<M, C> for JoinOp<'f, Q> {
    ghost order = { λ _. by_key K.cmp };

    ghost ready = { λ op s. M.ready s × BothAscend (by_key K.cmp) (M.left s) (M.right s)
        × CanAsk K.cmp op.kind (M.takes op.question.now) (M.left s) (M.right s) };

    ghost gives = { λ op. record {
      from_a = λ s n answer t.
          MatchBool (asks_left op.kind) (M.asks_a op.question.now s n answer t)
          (M.advances_a s n false answer t);
      from_b = λ s n answer t.
          MatchBool (asks_right op.kind) (M.asks_b op.question.now s n answer t)
          (M.skips_b s n answer t);
      collision = λ s answer t. M.asks_both op.question.now s answer t;
    } };

    ghost total = { λ _. by_key-total K.cmp K.total };

    #[inline(always)]
    fn cmp(&self, a: &(K, V), b: &(K, W), steps: &mut C) -> Ordering {
        compare_keys(&a.0, &b.0, steps)
    }

    #[inline(always)]
    fn from_a(&self, state: &mut M, n: usize) -> Result<bool, AllocError> {
        if self.kind.asks_left() {
            state.ask_a(self.question, n)
        } else {
            state.advance_a(n, false)
        }
    }

    #[inline(always)]
    fn from_b(&self, state: &mut M, n: usize) -> Result<bool, AllocError> {
        if self.kind.asks_right() {
            state.ask_b(self.question, n)
        } else {
            state.skip_b(n)
        }
    }

    #[inline(always)]
    fn collision(&self, state: &mut M) -> Result<bool, AllocError> {
        state.ask_both(self.question)
    }

    #[inline(always)]
    fn event(&self, state: &mut M, heads: Ordering) -> Result<bool, AllocError> {
        if asks_at(self.kind, heads) {
            state.ask_heads(self.question, heads)
        } else {
            state.pass_lesser(heads)
        }
    }

    /// An inner join passes a pair that is in only one map without a branch. Joins that ask there
    /// have to branch on the order anyway, and go by runs.
    #[inline(always)]
    fn chooses(&self) -> bool {
        match self.kind {
            JoinKind::Inner => true,
            JoinKind::Outer | JoinKind::Left | JoinKind::Right => false,
        }
    }
}

/// Whether a join asks for two first pairs whose keys compare as `heads`.
#[inline(always)]
fn asks_at(kind: JoinKind, heads: Ordering) -> bool
    ensures { result ≡ asks_at kind heads }
{
    match kind {
        JoinKind::Outer => true,
        JoinKind::Left => heads.is_le(),
        JoinKind::Right => heads.is_ge(),
        JoinKind::Inner => heads.is_eq(),
    }
}

/// Compares two keys, and counts the comparison.
#[inline(always)]
fn compare_keys<K: Ord, C: Count>(a: &K, b: &K, steps: &mut C) -> Ordering
    ensures value { result ≡ K.cmp a.now b.now }
    ensures ticks { C.counted steps.new ≡ ticked (C.counted steps.old) }
{
    steps.tick();
    a.cmp(b)
}
