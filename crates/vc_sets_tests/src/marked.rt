//! An element with a part that does not count in comparisons.

/// A number with a mark that does not count in comparisons.
#[derive(Clone, Copy)]
#[derive_where(Debug, PartialEq, Eq, PartialOrd, Ord)]
pub struct Marked {
    pub number: u32,
    #[derive_where(skip)]
    pub mark: char,
}

impl Default for Marked {
    fn default() -> Marked {
        Marked {
            number: 0,
            mark: ' ',
        }
    }
}
