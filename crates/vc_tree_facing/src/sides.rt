//! The sides on which the trees of an event are.

/// Where the trees of an event are.
#[derive(Clone, Copy, Debug)]
pub enum EventSide {
    /// A tree of the left list continues with a component with which no tree of the right one does.
    Left,
    /// A tree of the right list continues with a component with which no tree of the left one does.
    Right,
    /// A tree of each list continues with the same component.
    Both,
}
