//! What one step of a walk finds.

/// What one step of a walk found.
#[derive(Drop)]
pub(crate) enum WalkStep<I> {
    /// The next item.
    Item(I),
    /// No item: the walk continues.
    Moved,
    /// Nothing is left.
    Done,
}
