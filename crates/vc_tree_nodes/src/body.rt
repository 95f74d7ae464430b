//! The value and the children of a node of a shared tree.

ghost use Rattle.std.specs.Prelude.{◌≡◌};
ghost use Rattle.std.specs.Option.{option_copied};
ghost use Rattle.vc_tree_nodes.specs.Body.{body_value, body_children};

/// A value, children, both or neither. The tag takes one word, where an `Option` of each would take
/// two.
#[derive(Drop)]
pub enum Body<V, C> {
    Neither,
    Value(V),
    Children(C),
    Both(V, C),
}

impl<V: Drop, C: Drop> Body<V, C> {
    /// The body with these parts.
    pub fn of(value: Option<V>, children: Option<C>) -> Self
        ensures value { body_value result ≡ value }
        ensures children { body_children result ≡ children }
    {
        match (value, children) {
            (None, None) => Body::Neither,
            (Some(value), None) => Body::Value(value),
            (None, Some(children)) => Body::Children(children),
            (Some(value), Some(children)) => Body::Both(value, children),
        }
    }

    /// The parts.
    pub fn into_parts(self) -> (Option<V>, Option<C>)
        ensures value { result.0 ≡ body_value self }
        ensures children { result.1 ≡ body_children self }
    {
        match self {
            Body::Neither => (None, None),
            Body::Value(value) => (Some(value), None),
            Body::Children(children) => (None, Some(children)),
            Body::Both(value, children) => (Some(value), Some(children)),
        }
    }
}

impl<V, C> Body<V, C> {
    /// The value, if there is one.
    #[inline]
    pub fn value(&self) -> Option<&V>
        ensures { option_copied result ≡ body_value self.now }
    {
        match self {
            Body::Value(value) | Body::Both(value, _) => Some(value),
            _ => None,
        }
    }

    /// The children, if there are some.
    #[inline]
    pub fn children(&self) -> Option<&C>
        ensures { option_copied result ≡ body_children self.now }
    {
        match self {
            Body::Children(children) | Body::Both(_, children) => Some(children),
            _ => None,
        }
    }
}
