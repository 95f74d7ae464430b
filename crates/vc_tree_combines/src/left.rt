//! The combine that calls a closure at each key of the left tree.

ghost use Rattle.std.specs.Prelude.{◌<◌, ◌≡◌, List, Option, None, Some, Ok, IfOk, OnOk, false, length};
ghost use Rattle.std.specs.Prelude.{map, refl};
ghost use Rattle.std.specs.Option.{option_copied};
ghost use Rattle.vc_tree_model.specs.Asking.{MayAnswerAt, CanAskAt};
ghost use Rattle.vc_tree_model.specs.Combine.{IsCombined, IsLeftAt};
ghost use Rattle.vc_tree_model.specs.Map.{lookup};
ghost use Rattle.vc_tree_model.specs.Canonical.{IsCanonical};
ghost use Rattle.vc_tree_model.specs.Tree.{shortened};
ghost use Rattle.vc_tree_combines.specs.Making.{IsAdded};

use crate::adding::finish_onto;
use crate::engine::combine_whole;
use crate::operation::Combine;
use std::alloc::{AllocError, Global};
use std::marker::PhantomData;
use vc_merge::states::Uncounted;
use vc_tree_nodes::building::Build;
use vc_tree_nodes::reading::{RadixNode, TKey, TValue};

/// Keeps the keys of the left tree, with the answers of a closure to the value and to what the
/// right tree binds there.
#[derive(Drop)]
struct Left<'f, F, M> {
    answer: &'f F,
    made: PhantomData<M>,
}

impl<
    'f,
    K: TKey,
    V: TValue,
    W: TValue,
    A: RadixNode<K, V>,
    B: RadixNode<K, W>,
    M: Build<K, V>,
    F: Fn(&V, Option<&W>) -> Result<Option<V>, AllocError>,
> Combine<K, V, W, A, B> for Left<'f, F, M> {
    type Made = M;

    ghost says = { λ op. IsLeftAt (λ v w z. MayAnswerAt F.Fn op.answer.now v w (Ok z)) };

    ghost asks = { λ op. CanAskAt F.Fn op.answer.now };

    ghost says_none = { λ op. refl };

    ghost asks_none = { λ op. tt };

    #[inline(always)]
    fn keeps_left(&self) -> bool {
        true
    }

    #[inline(always)]
    fn keeps_right(&self) -> bool {
        false
    }

    fn at_values(&self, v: Option<&V>, w: Option<&W>) -> Result<Option<V>, AllocError> {
        match v {
            Some(v) => (self.answer)(v, w),
            None => Ok(None),
        }
    }

    fn add_left(
        &self,
        alloc: Global,
        tree: &A,
        from: usize,
        made: &mut Vec<M>,
    ) -> Result<(), AllocError> {
        ask_onto(alloc, tree, from, self.answer, made)
    }

    fn add_right(
        &self,
        alloc: Global,
        tree: &B,
        from: usize,
        made: &mut Vec<M>,
    ) -> Result<(), AllocError> {
        Ok(())
    }
}

/// Appends what a closure keeps of a tree where the right tree has none of its keys, without the
/// first `from` components of its prefix. It is called at each value.
#[cycle(asking)]
fn ask_onto<
    K: TKey,
    V: TValue,
    W: TValue,
    A: RadixNode<K, V>,
    M: Build<K, V>,
    F: Fn(&V, Option<&W>) -> Result<Option<V>, AllocError>,
>(alloc: Global, tree: &A, from: usize, answer: &F, made: &mut Vec<M>) -> Result<(), AllocError>
    requires within { from < length (A.tree tree.now).prefix }
    requires asks { (k : List K)
        → CanAskAt F.Fn answer.now (lookup K.cmp (shortened from (A.tree tree.now)) k) None }
    ensures { OnOk result (IsAdded K.cmp
        (IsLeftAt (λ v w z. MayAnswerAt F.Fn answer.now v w (Ok z)))
        (Some (shortened from (A.tree tree.now))) None (map M.tree made.old.items)
        (map M.tree made.new.items)) }
{
    let prefix = tree.prefix();
    let value = ask_value(tree.value(), answer)?;
    let trees = tree.children();
    let mut kids = Vec::with_capacity(alloc, trees.len())?;
    let mut rest = trees;
    while let Some((child, others)) = rest.split_first() {
        ask_onto(alloc, child, 0, answer, &mut kids)?;
        rest = others;
    }
    finish_onto(alloc, &prefix[from..], value, kids, made)
}

/// The answer of a closure to a value whose key the right tree does not bind.
fn ask_value<'b, V, W, F: Fn(&V, Option<&W>) -> Result<Option<V>, AllocError>>(
    value: Option<&V>,
    answer: &F,
) -> Result<Option<V>, AllocError>
where
    W: 'b,
    requires { CanAskAt F.Fn answer.now (option_copied value) None }
    ensures { IfOk result (IsLeftAt (λ v w z. MayAnswerAt F.Fn answer.now v w (Ok z))
        (option_copied value.entry) None) }
{
    match value {
        Some(value) => {
            let none: Option<&'b W> = None;
            answer(value, none)
        }
        None => Ok(None),
    }
}

/// The tree of the keys of the left tree, with the answers of the closure to the value there and to
/// what the right tree binds, if anything.
pub fn left_combine<
    K: TKey,
    V: TValue,
    W: TValue,
    A: RadixNode<K, V>,
    B: RadixNode<K, W>,
    M: Build<K, V>,
    F: Fn(&V, Option<&W>) -> Result<Option<V>, AllocError>,
>(this: &A, that: &B, f: &F) -> Result<M, AllocError>
    requires asks { (k : List K) → CanAskAt F.Fn f.now (lookup K.cmp (A.tree this.now) k)
        (lookup K.cmp (B.tree that.now) k) }
    ensures made { IfOk result (λ made.
        IsCombined K.cmp (IsLeftAt (λ v w z. MayAnswerAt F.Fn f.now v w (Ok z)))
        (A.tree this.now) (B.tree that.now) (M.tree made)) }
    ensures canonical { IfOk result (λ made. IsCanonical K.cmp (M.tree made)) }
{
    let op: Left<'_, F, M> = Left {
        answer: f,
        made: PhantomData,
    };
    combine_whole(this, that, &op, &mut Uncounted)
}
