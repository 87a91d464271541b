// Layouts, made in one place.
ghost use Rattle.std.specs.Prelude.{◌≡◌, false};
ghost use Rattle.layout.specs.Laying.{Ends, LaidAs, Lays, Moves, corner};

use crate::block::Layout;
use crate::layout::Position;
use crate::measure::Walk;

// Windows have at most so many rows.
const MAX_ROWS: u16 = 200;

// And at most so many columns.
const MAX_COLS: u16 = 500;

impl Layout {
    // Nothing is drawn yet: all three places are row 0, column 0.
    pub fn origin() -> Layout
        ensures { LaidAs 1 corner corner corner result }
    {
        let corner = Position { col: 0, row: 0 };
        Layout {
            prompt_size: corner,
            cursor: corner,
            end: corner,
            full: false,
        }
    }

    // The layout of three places that a walk has reached, the last one the block's end: none where the window does not
    // hold them in this order.
    // No struct is plainer: the places are the layout's own fields, and the size is a type of a crate above this one.
    pub fn new(
        prompt_size: Position,
        cursor: Position,
        end: Position,
        cols: u16,
        rows: u16,
    ) -> Option<Layout>
        ensures { Lays cols rows prompt_size cursor end result }
    {
        let full = end.col == cols;
        let prompt_size = Walk::start(prompt_size).place(cols)?;
        let cursor = Walk::start(cursor).place(cols)?;
        let end = Walk::start(end).place(cols)?;
        if end.row >= rows || end.row >= MAX_ROWS || cursor.col >= MAX_COLS {
            return None;
        }
        if prompt_size.row > cursor.row || cursor.row > end.row {
            return None;
        }
        Some(Layout {
            prompt_size,
            cursor,
            end,
            full,
        })
    }

    // The same layout with another cursor: none below the block's end or past the last column.
    pub fn with_cursor(self, cursor: Position) -> Option<Layout>
        ensures { Moves self cursor result }
    {
        if cursor.row > self.end.row || cursor.col >= MAX_COLS {
            return None;
        }
        Some(Layout {
            prompt_size: self.prompt_size,
            cursor,
            end: self.end,
            full: self.full,
        })
    }

    // The layout of a block that ends with the cursor behind it, on a row that is not full: none outside any window.
    pub fn ending_at(self, place: Position) -> Option<Layout>
        ensures { Ends self place result }
    {
        if place.row >= MAX_ROWS || place.col >= MAX_COLS {
            return None;
        }
        Some(Layout {
            prompt_size: self.prompt_size,
            cursor: place,
            end: place,
            full: false,
        })
    }

    // Where the prompt ends.
    pub fn prompt_size(&self) -> Position
        ensures { result ≡ self.now.prompt_size }
    {
        self.prompt_size
    }

    // Where the cursor belongs.
    pub fn cursor(&self) -> Position
        ensures { result ≡ self.now.cursor }
    {
        self.cursor
    }

    // Where the block ends.
    pub fn end(&self) -> Position
        ensures { result ≡ self.now.end }
    {
        self.end
    }

    // Whether the block's text ends on a full row.
    pub fn full(&self) -> bool
        ensures { result ≡ self.now.full }
    {
        self.full
    }
}
