//! What changed between two sorted lists: a merge with an operation and a state of this crate's
//! own.
ghost use Rattle.std.specs.Prelude.{◌≡◌, ◌+◌, ◌<◌, ◌≤◌, ◌++◌, ◌∷◌, [], map, length, true, cond, IfOk, OnOk};
ghost use Rattle.std.specs.Ordering.{nat_cmp};
ghost use Rattle.std.proofs.Common.{inl, inr};
ghost use Rattle.vec_collections.specs.Ascending.{Ascends};
ghost use Rattle.vec_collections.specs.Count.{bound, ticked};
ghost use Rattle.vec_collections.specs.Script.{IsScript};
ghost use Rattle.vec_collections_tests.specs.Changes.{by_number, by_number-total, event_of, old_left, new_left, gone, come, first_of_both, Notes, noting};

use std::alloc::{AllocError, Global};
use std::cmp::Ordering;
use vec_collections::merge::{
    Count, MergeFromRight, MergeOperation, MergeState, MergeStateMut, Steps, merge,
};

/// How a number changed.
#[derive(Clone, Copy)]
pub enum Change {
    /// It is only in the old list.
    Gone(u32),
    /// It is only in the new list.
    New(u32),
    /// It is in both, and so are all that are equal to it.
    Kept(u32, u32),
}

/// What is left of the two lists, and the changes so far.
#[derive(Drop)]
pub struct Diff<'a> {
    old: &'a [u32],
    new: &'a [u32],
    changes: Vec<Change>,
}

impl<'a> MergeState for Diff<'a> {
    type A = u32;

    type B = u32;

    ghost left = { old_left };

    ghost right = { new_left };

    fn a_slice(&self) -> &[u32] {
        self.old
    }

    fn b_slice(&self) -> &[u32] {
        self.new
    }
}

impl<'a> MergeStateMut for Diff<'a> {
    ghost ready = { λ _. Unit {0} };

    ghost advances_a = { λ s n take answer t. Notes (cond take (gone s n) []) s answer t };

    ghost skips_b = { λ s n answer t. Notes [] s answer t };

    #[tactic(auto, using(crate::proofs::Noted::gone_and_come))]
    fn advance_a(&mut self, n: usize, take: bool) -> Result<bool, AllocError> {
        if take {
            note_gone(&mut self.changes, &self.old[..n])?;
        }
        self.old = &self.old[n..];
        Ok(true)
    }

    fn skip_b(&mut self, n: usize) -> Result<bool, AllocError> {
        self.new = &self.new[n..];
        Ok(true)
    }
}

impl<'a> MergeFromRight for Diff<'a> {
    ghost takes_b = { λ s n answer t. Notes (come s n) s answer t };

    #[tactic(auto, using(crate::proofs::Noted::gone_and_come))]
    fn take_b(&mut self, n: usize) -> Result<bool, AllocError> {
        note_new(&mut self.changes, &self.new[..n])?;
        self.new = &self.new[n..];
        Ok(true)
    }
}

/// Appends the numbers as gone.
fn note_gone(changes: &mut Vec<Change>, numbers: &[u32]) -> Result<(), AllocError>
    ensures { OnOk result
        (changes.new.items ≡ changes.old.items ++ map (λ x. Change.Gone x) numbers.now) }
{
    for number in numbers {
        changes.push(Change::Gone(*number))?;
    }
    Ok(())
}

/// Appends the numbers as new.
fn note_new(changes: &mut Vec<Change>, numbers: &[u32]) -> Result<(), AllocError>
    ensures { OnOk result
        (changes.new.items ≡ changes.old.items ++ map (λ y. Change.New y) numbers.now) }
{
    for number in numbers {
        changes.push(Change::New(*number))?;
    }
    Ok(())
}

/// The first numbers of the two lists, which are kept.
fn first_kept(old: &[u32], new: &[u32]) -> Change
    requires old { 0 < length old.now }
    requires new { 0 < length new.now }
    ensures { event_of result ∷ [] ≡ first_of_both old.now new.now }
{
    Change::Kept(old[0], new[0])
}

/// Records how each number changed.
pub struct Noting;

impl<'a, C: Count> MergeOperation<Diff<'a>, C> for Noting {
    ghost order = { λ _. by_number };

    ghost ready = { λ _ _. Unit {0} };

    ghost gives = { λ _. noting };

    ghost total = { λ _. by_number-total };

    fn cmp(&self, a: &u32, b: &u32, steps: &mut C) -> Ordering
        ensures value { result ≡ by_number (inl a.now) (inr b.now) }
        ensures ticks { C.counted steps.new ≡ ticked (C.counted steps.old) }
    {
        steps.tick();
        a.cmp(b)
    }

    fn from_a(&self, state: &mut Diff<'a>, n: usize) -> Result<bool, AllocError> {
        state.advance_a(n, true)
    }

    fn from_b(&self, state: &mut Diff<'a>, n: usize) -> Result<bool, AllocError> {
        state.take_b(n)
    }

    fn collision(&self, state: &mut Diff<'a>) -> Result<bool, AllocError> {
        let kept = first_kept(state.a_slice(), state.b_slice());
        state.changes.push(kept)?;
        state.advance_a(1, false)?;
        state.skip_b(1)
    }
}

/// The changes from the old list to the new one, in ascending order, with the comparisons added to
/// `steps`.
pub fn changes<C: Count>(
    alloc: Global,
    old: &[u32],
    new: &[u32],
    steps: &mut C,
) -> Result<Vec<Change>, AllocError>
    requires old_ascends { Ascends nat_cmp old.now }
    requires new_ascends { Ascends nat_cmp new.now }
    ensures changes { IfOk result
        (λ list. IsScript by_number old.now new.now (map event_of list.items)) }
    ensures counted { C.counted steps.new
        ≤ C.counted steps.old + bound (length old.now) (length new.now) }
{
    let mut state = Diff {
        old,
        new,
        changes: Vec::new(alloc),
    };
    merge(&mut state, &Noting, steps)?;
    Ok(state.changes)
}

/// How many comparisons it takes to find the changes.
pub fn cost_of_changes(alloc: Global, old: &[u32], new: &[u32]) -> Result<u128, AllocError>
    requires old_ascends { Ascends nat_cmp old.now }
    requires new_ascends { Ascends nat_cmp new.now }
    ensures { IfOk result (λ cost. cost ≤ bound (length old.now) (length new.now)) }
{
    let mut steps = Steps::new();
    changes(alloc, old, new, &mut steps)?;
    Ok(steps.count())
}
