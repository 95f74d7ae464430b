//! Closures of joins, through one trait.
ghost use Rattle.std.specs.Prelude.{◌≡◌, true, Option, Result};
ghost use Rattle.std.specs.declared.alloc.AllocError.{AllocError};
ghost use Rattle.vc_joins.specs.declared.question.OuterJoinArg.{OuterJoinArg};
ghost use Rattle.vc_joins.specs.declared.question.JoinKind.TheVariants as kind;
ghost use Rattle.vc_joins.specs.Answers.{seen, seen_left, seen_right, seen_inner, MayAnswer, MayAnswerLeft, MayAnswerRight, MayAnswerInner};
ghost use Rattle.vc_joins.specs.Question.{asks};

use crate::question::{JoinKind, OuterJoinArg};
use std::alloc::AllocError;

/// What a join asks about the references of two maps.
pub trait Question<K, V, W, X> {
    /// Whether it may be asked with this argument.
    ghost takes: { Self → OuterJoinArg K V W → Type 0 };

    /// Whether it may give this answer.
    ghost may: { Self → OuterJoinArg K V W → Result (Option X) AllocError → Type 0 };

    /// The answer at a key: the value that the result has there, if any.
    fn ask(&self, arg: OuterJoinArg<&K, &V, &W>) -> Result<Option<X>, AllocError>
        requires { takes self.now (seen arg) }
        ensures { may self.now (seen arg.entry) result };
}

/// The closure of an outer join.
#[derive(Drop)]
pub struct AskOuter<'f, F>(pub &'f F);

/// The closure of a left join.
#[derive(Drop)]
pub struct AskLeft<'f, F>(pub &'f F);

/// The closure of a right join.
#[derive(Drop)]
pub struct AskRight<'f, F>(pub &'f F);

/// The closure of an inner join.
#[derive(Drop)]
pub struct AskInner<'f, F>(pub &'f F);

impl<'f, K, V, W, X, F: Fn(OuterJoinArg<&K, &V, &W>) -> Result<Option<X>, AllocError>> Question<
    K,
    V,
    W,
    X,
> for AskOuter<'f, F> {
    ghost takes = { λ q a. (shown : _) → seen shown ≡ a → F.pre q.0.now shown };

    ghost may = { λ q a r. MayAnswer F.Fn q.0.now a r };

    fn ask(&self, arg: OuterJoinArg<&K, &V, &W>) -> Result<Option<X>, AllocError> {
        (self.0)(arg)
    }
}

impl<'f, K, V, W, X, F: Fn(&K, &V, Option<&W>) -> Result<Option<X>, AllocError>> Question<
    K,
    V,
    W,
    X,
> for AskLeft<'f, F> {
    ghost takes = { λ q a. (asks kind.Left a ≡ true)
        × ((k : _) (v : _) (w : _) → seen_left k v w ≡ a → F.pre q.0.now k v w) };

    ghost may = { λ q a r. MayAnswerLeft F.Fn q.0.now a r };

    fn ask(&self, arg: OuterJoinArg<&K, &V, &W>) -> Result<Option<X>, AllocError> {
        match arg {
            OuterJoinArg::Left(key, value) => ask_left(self.0, key, value, None),
            OuterJoinArg::Both(key, value, other) => ask_left(self.0, key, value, Some(other)),
            OuterJoinArg::Right(_, _) => Ok(None),
        }
    }
}

/// Asks with one lifetime for all references, since a side without a value has no reference to take
/// it from. `X` is all that the closure answers.
fn ask_left<'a, K, V, W, X, F: Fn(&K, &V, Option<&W>) -> X>(
    f: &F,
    key: &'a K,
    value: &'a V,
    other: Option<&'a W>,
) -> X
    requires { F.pre f.now key value other }
    ensures { MayAnswerLeft F.Fn f.now (seen_left key.entry value.entry other.entry) result }
{
    f(key, value, other)
}

impl<'f, K, V, W, X, F: Fn(&K, Option<&V>, &W) -> Result<Option<X>, AllocError>> Question<
    K,
    V,
    W,
    X,
> for AskRight<'f, F> {
    ghost takes = { λ q a. (asks kind.Right a ≡ true)
        × ((k : _) (v : _) (w : _) → seen_right k v w ≡ a → F.pre q.0.now k v w) };

    ghost may = { λ q a r. MayAnswerRight F.Fn q.0.now a r };

    fn ask(&self, arg: OuterJoinArg<&K, &V, &W>) -> Result<Option<X>, AllocError> {
        match arg {
            OuterJoinArg::Right(key, other) => ask_right(self.0, key, None, other),
            OuterJoinArg::Both(key, value, other) => ask_right(self.0, key, Some(value), other),
            OuterJoinArg::Left(_, _) => Ok(None),
        }
    }
}

/// Asks with one lifetime for all references, since a side without a value has no reference to take
/// it from. `X` is all that the closure answers.
fn ask_right<'a, K, V, W, X, F: Fn(&K, Option<&V>, &W) -> X>(
    f: &F,
    key: &'a K,
    value: Option<&'a V>,
    other: &'a W,
) -> X
    requires { F.pre f.now key value other }
    ensures { MayAnswerRight F.Fn f.now (seen_right key.entry value.entry other.entry) result }
{
    f(key, value, other)
}

impl<'f, K, V, W, X, F: Fn(&K, &V, &W) -> Result<Option<X>, AllocError>> Question<K, V, W, X>
    for AskInner<'f, F> {
    ghost takes = { λ q a. (asks kind.Inner a ≡ true)
        × ((k : _) (v : _) (w : _) → seen_inner k v w ≡ a → F.pre q.0.now k v w) };

    ghost may = { λ q a r. MayAnswerInner F.Fn q.0.now a r };

    fn ask(&self, arg: OuterJoinArg<&K, &V, &W>) -> Result<Option<X>, AllocError> {
        match arg {
            OuterJoinArg::Both(key, value, other) => (self.0)(key, value, other),
            OuterJoinArg::Left(_, _) => Ok(None),
            OuterJoinArg::Right(_, _) => Ok(None),
        }
    }
}
