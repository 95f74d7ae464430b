//! Closures of joins in place, through one trait: they take the value of the left map and return
//! the one to keep.
ghost use Rattle.std.specs.Prelude.{◌≡◌, true, Option};
ghost use Rattle.vc_joins.specs.declared.question.OuterJoinArg.{OuterJoinArg};
ghost use Rattle.vc_joins.specs.declared.question.JoinKind.TheVariants as kind;
ghost use Rattle.vc_joins.specs.InPlace.{handed, handed_left, handed_right, handed_inner, MayTurn, MayTurnLeft, MayTurnRight, MayTurnInner};
ghost use Rattle.vc_joins.specs.Question.{asks};

use crate::answers::{AskInner, AskLeft, AskOuter, AskRight};
use crate::question::{JoinKind, OuterJoinArg};

/// The closure of a join in place. It gets the value of the left map by value, and the key and the
/// right value by reference, and returns the value that stays, if any.
pub trait Turn<K, V, W> {
    /// Whether the closure may be called with this argument.
    ghost takes: { Self → OuterJoinArg K V W → Type 0 };

    /// Whether it may return this value.
    ghost may: { Self → OuterJoinArg K V W → Option V → Type 0 };

    /// The value that the result has at the key of `arg`, if any.
    fn turn(&self, arg: OuterJoinArg<&K, V, &W>) -> Option<V>
        requires { takes self.now (handed arg) }
        ensures { may self.now (handed arg.entry) result };
}

impl<'f, K, V, W, F: Fn(OuterJoinArg<&K, V, &W>) -> Option<V>> Turn<K, V, W> for AskOuter<'f, F> {
    ghost takes = { λ q a. (given : _) → handed given ≡ a → F.pre q.0.now given };

    ghost may = { λ q a r. MayTurn F.Fn q.0.now a r };

    fn turn(&self, arg: OuterJoinArg<&K, V, &W>) -> Option<V>
        requires { (given : _) → handed given ≡ handed arg → F.pre self.now.0.now given }
        ensures { MayTurn F.Fn self.now.0.now (handed arg.entry) result }
    {
        (self.0)(arg)
    }
}

impl<'f, K, V: Drop, W, F: Fn(&K, V, Option<&W>) -> Option<V>> Turn<K, V, W> for AskLeft<'f, F> {
    ghost takes = { λ q a. (asks kind.Left a ≡ true)
        × ((k : _) (v : _) (w : _) → handed_left k v w ≡ a → F.pre q.0.now k v w) };

    ghost may = { λ q a r. MayTurnLeft F.Fn q.0.now a r };

    fn turn(&self, arg: OuterJoinArg<&K, V, &W>) -> Option<V>
        requires { (asks kind.Left (handed arg) ≡ true)
            × ((k : _) (v : _) (w : _) → handed_left k v w ≡ handed arg
            → F.pre self.now.0.now k v w) }
        ensures { MayTurnLeft F.Fn self.now.0.now (handed arg.entry) result }
    {
        match arg {
            OuterJoinArg::Left(key, value) => turn_left(self.0, key, value, None),
            OuterJoinArg::Both(key, value, other) => turn_left(self.0, key, value, Some(other)),
            OuterJoinArg::Right(_, _) => None,
        }
    }
}

/// Asks with one lifetime for all references, since a side without a value has no reference to take
/// it from.
fn turn_left<'a, K, V, W, F: Fn(&K, V, Option<&W>) -> Option<V>>(
    f: &F,
    key: &'a K,
    value: V,
    other: Option<&'a W>,
) -> Option<V>
    requires { F.pre f.now key value other }
    ensures { MayTurnLeft F.Fn f.now (handed_left key.entry value other.entry) result }
{
    f(key, value, other)
}

impl<'f, K, V: Drop, W, F: Fn(&K, Option<V>, &W) -> Option<V>> Turn<K, V, W> for AskRight<'f, F> {
    ghost takes = { λ q a. (asks kind.Right a ≡ true)
        × ((k : _) (v : _) (w : _) → handed_right k v w ≡ a → F.pre q.0.now k v w) };

    ghost may = { λ q a r. MayTurnRight F.Fn q.0.now a r };

    fn turn(&self, arg: OuterJoinArg<&K, V, &W>) -> Option<V>
        requires { (asks kind.Right (handed arg) ≡ true)
            × ((k : _) (v : _) (w : _) → handed_right k v w ≡ handed arg
            → F.pre self.now.0.now k v w) }
        ensures { MayTurnRight F.Fn self.now.0.now (handed arg.entry) result }
    {
        match arg {
            OuterJoinArg::Right(key, other) => (self.0)(key, None, other),
            OuterJoinArg::Both(key, value, other) => (self.0)(key, Some(value), other),
            OuterJoinArg::Left(_, _) => None,
        }
    }
}

impl<'f, K, V: Drop, W, F: Fn(&K, V, &W) -> Option<V>> Turn<K, V, W> for AskInner<'f, F> {
    ghost takes = { λ q a. (asks kind.Inner a ≡ true)
        × ((k : _) (v : _) (w : _) → handed_inner k v w ≡ a → F.pre q.0.now k v w) };

    ghost may = { λ q a r. MayTurnInner F.Fn q.0.now a r };

    fn turn(&self, arg: OuterJoinArg<&K, V, &W>) -> Option<V>
        requires { (asks kind.Inner (handed arg) ≡ true)
            × ((k : _) (v : _) (w : _) → handed_inner k v w ≡ handed arg
            → F.pre self.now.0.now k v w) }
        ensures { MayTurnInner F.Fn self.now.0.now (handed arg.entry) result }
    {
        match arg {
            OuterJoinArg::Both(key, value, other) => (self.0)(key, value, other),
            OuterJoinArg::Left(_, _) => None,
            OuterJoinArg::Right(_, _) => None,
        }
    }
}
