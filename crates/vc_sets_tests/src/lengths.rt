//! The lengths of lists by which comparisons are counted, and the numbers of such lists.

/// The lengths of a short list and a long one, and the most comparisons of an operation on them.
///
/// With the places below, a merge goes each way that it can. It searches in the longer list, by
/// strides of one element and more. It makes single events, in one block and in several. It goes by
/// runs, from the first element on and after blocks of only one list.
pub const LENGTHS: [(u32, u32, u128); 17] = [
    (0, 5, 0),
    (1, 1, 1),
    (1, 3, 2),
    (1, 1000, 10),
    (2, 4, 6),
    (2, 7, 6),
    (3, 7, 9),
    (4, 100, 28),
    (5, 16, 21),
    (7, 12, 19),
    (8, 8, 16),
    (20, 2500, 240),
    (40, 45, 85),
    (100, 400, 500),
    (100, 1300, 1100),
    (150, 1300, 1450),
    (200, 300, 500),
];

/// The lengths of lists, and the most comparisons of a look-up there: less than `1.5 * log2(n) +
/// 4`.
pub const LOOK_UPS: [(u32, u128); 13] = [
    (0, 0),
    (1, 1),
    (2, 2),
    (3, 3),
    (4, 4),
    (5, 5),
    (7, 7),
    (8, 5),
    (16, 7),
    (19, 10),
    (67, 13),
    (100, 13),
    (300, 15),
];

/// The first number of the long list; the others follow two by two.
const FIRST: u32 = 2000;

/// Greater than each number of the long list.
const END: u32 = 8000;

/// How the numbers of the short list compare with those of the long one, which are `Among`
/// themselves.
#[derive(Clone, Copy, Debug)]
pub enum Place {
    /// All are less.
    Before,
    /// Each is between two of them.
    Between,
    /// Each is one of them.
    Among,
    /// All are greater.
    Behind,
    /// All are in its second half, alternately one of them and between two of them.
    Late,
}

/// Each place once.
pub const PLACES: [Place; 5] = [
    Place::Before,
    Place::Between,
    Place::Among,
    Place::Behind,
    Place::Late,
];

impl Place {
    /// The number at that index of a list of `few` numbers, with one of `many`.
    pub fn number(self, index: u32, few: u32, many: u32) -> u32 {
        let step = (many / few.max(1)).saturating_mul(2);
        let even = index.saturating_mul(step).saturating_add(FIRST);
        match self {
            Place::Before => index,
            Place::Between => even.saturating_add(1),
            Place::Among => even,
            Place::Behind => index.saturating_add(END),
            Place::Late => late(index, few, many),
        }
    }
}

/// The number at that index of a list whose numbers are late in one of `many`.
fn late(index: u32, few: u32, many: u32) -> u32 {
    let step = (many / 2 / few.max(1)).max(1).saturating_mul(2);
    let even = index.saturating_mul(step).saturating_add(FIRST);
    even.saturating_add((many / 2).saturating_mul(2))
        .saturating_add(index % 2)
}
