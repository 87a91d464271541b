// Places on rows of columns.
ghost use Rattle.std.specs.Prelude.{◌≡◌};
ghost use Rattle.layout.specs.Positions.{comparison, TotallyOrdered};

use std::cmp::Ordering;

// A place: the leftmost column and the highest row are 0. Rows count before columns.
#[derive(Clone, Copy, Debug, PartialEq, Eq, PartialOrd, Ord)]
pub struct Position {
    pub row: u16,
    pub col: u16,
}

impl Position {
    // Which of two places comes first: rows count before columns.
    pub fn compare(self, other: Position) -> Ordering
        ensures value { result ≡ comparison self other }
        ensures order { TotallyOrdered }
    {
        self.cmp(&other)
    }
}
