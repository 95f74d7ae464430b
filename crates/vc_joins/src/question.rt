//! What a join asks at a key, and at which keys it asks.
ghost use Rattle.std.specs.Prelude.{◌≡◌};
ghost use Rattle.vc_joins.specs.Question.{asks_left, asks_right};

/// What is at a key of two maps that are joined: the key, and the value of each side that has it.
#[derive(Drop)]
pub enum OuterJoinArg<K, A, B> {
    /// Only the left map has the key.
    Left(K, A),
    /// Only the right map has the key.
    Right(K, B),
    /// Both maps have the key.
    Both(K, A, B),
}

/// The keys at which a join asks. All other keys are dropped.
#[derive(Clone, Copy)]
pub enum JoinKind {
    /// At the keys of either map.
    Outer,
    /// At the keys of the left map.
    Left,
    /// At the keys of the right map.
    Right,
    /// At the keys of both.
    Inner,
}

impl JoinKind {
    /// Whether a join of this kind asks at the keys of only the left map.
    pub fn asks_left(self) -> bool
        ensures { result ≡ asks_left self }
    {
        match self {
            JoinKind::Outer | JoinKind::Left => true,
            JoinKind::Right | JoinKind::Inner => false,
        }
    }

    /// Whether a join of this kind asks at the keys of only the right map.
    pub fn asks_right(self) -> bool
        ensures { result ≡ asks_right self }
    {
        match self {
            JoinKind::Outer | JoinKind::Right => true,
            JoinKind::Left | JoinKind::Inner => false,
        }
    }
}
