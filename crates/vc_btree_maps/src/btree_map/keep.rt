//! Closures that decide in place which values of a map stay, through one trait.
ghost use Rattle.std.specs.Prelude.{◌≡◌, Option};
ghost use Rattle.std.specs.Option.{option_copied};
ghost use Rattle.vc_joins.specs.declared.question.OuterJoinArg.{OuterJoinArg};
ghost use Rattle.vc_joins.specs.declared.question.OuterJoinArg.TheVariants as arg;
ghost use Rattle.vc_btree_maps.specs.Keeping.{at_pair, if_kept, MayLeave, MayLeaveShared, OrDropped, OrSharedStays, AtAlone};

/// Decides whether a value stays, and may change it first.
pub trait Keep<K, V, W> {
    /// Whether it may be asked with this argument.
    ghost takes: { Self → OuterJoinArg K V W → Type 0 };

    /// What may stay.
    ghost may: { Self → OuterJoinArg K V W → Option V → Type 0 };

    /// Whether the value stays at a key of the map, where the other map has the value `other`, if
    /// any.
    fn keep(&self, key: &K, value: &mut V, other: Option<&W>) -> bool
        requires { takes self.now (at_pair key.now value.old (option_copied other)) }
        ensures { may self.now (at_pair key.entry.now value.old (option_copied other.entry))
            (if_kept result value.new) };
}

/// A closure that is called at each key of the map.
#[derive(Drop)]
pub struct KeepEach<'f, F>(pub &'f F);

/// A closure that is called at the keys of both maps. No other value stays.
#[derive(Drop)]
pub struct KeepShared<'f, F>(pub &'f F);

/// A decision for the keys of only this map. At the keys of both, each value is unchanged.
#[derive(Drop)]
pub struct KeepAlone<'j, J>(pub &'j J);

impl<'f, K, V, W, F: Fn(&K, &mut V, Option<&W>) -> bool> Keep<K, V, W> for KeepEach<'f, F> {
    ghost takes = { λ q a. (k : _) (v : _) (w : _) → at_pair k.now v.now (option_copied w) ≡ a
        → F.pre q.0.now k v w };

    ghost may = { λ q a r. MayLeave F.Fn q.0.now a r };

    fn keep(&self, key: &K, value: &mut V, other: Option<&W>) -> bool {
        (self.0)(key, value, other)
    }
}

impl<'f, K, V, W, F: Fn(&K, &mut V, &W) -> bool> Keep<K, V, W> for KeepShared<'f, F> {
    ghost takes = { λ q a. (k : _) (v : _) (w : _) → arg.Both k.now v.now w.now ≡ a
        → F.pre q.0.now k v w };

    ghost may = { λ q a r. OrDropped (MayLeaveShared F.Fn q.0.now) a r };

    fn keep(&self, key: &K, value: &mut V, other: Option<&W>) -> bool {
        match other {
            Some(other) => (self.0)(key, value, other),
            None => false,
        }
    }
}

impl<'j, K, V, W, J: Keep<K, V, W>> Keep<K, V, W> for KeepAlone<'j, J> {
    ghost takes = { λ q a. AtAlone (J.takes q.0.now) a };

    ghost may = { λ q a r. OrSharedStays (J.may q.0.now) a r };

    fn keep(&self, key: &K, value: &mut V, other: Option<&W>) -> bool {
        other.is_some() || self.0.keep(key, value, other)
    }
}
