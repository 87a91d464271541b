// Where a text ends on rows of columns: tabs, wrapping and escape sequences.
ghost use Rattle.std.specs.Prelude.{◌≡◌, ◌<◌};
ghost use Rattle.layout.specs.Measuring.{next_row, behind, tabbed, sequence_after, columns_in, step_over, at_end, in_rows, starting, has_room, Advances, in_range, Measures};

use crate::layout::Position;
use std::str::from_utf8;
use text::refusal::Refusal;
use widths::clusters::{ClusterAt, Clusters};
use widths::tables::WidthTable;

// Rows of so many columns, with a tab stop every so many columns.
#[derive(Clone, Copy)]
pub struct Rows {
    pub cols: u16,
    pub tab_stop: u16,
}

// How far an escape sequence has come.
#[derive(Clone, Copy)]
pub enum EscapeSequence {
    Outside,
    Begun,
    Inside,
}

// A walk over text: the place that it has reached, and how far an escape sequence has come there.
#[derive(Clone, Copy)]
pub struct Walk {
    pub position: Position,
    pub escape: EscapeSequence,
}

// That the row is below 65,535 is asked of each step alone: a type for such rows would be taken apart at every step.
impl Position {
    // Column 0 of the next row.
    fn next_row(self) -> Position
        requires { self.row < 65535 }
        ensures { result ≡ next_row self }
    {
        Position {
            col: 0,
            row: self.row + 1,
        }
    }

    // The place behind `width` columns, on the next row where they would pass the last column.
    fn behind(self, width: u8, cols: u16) -> Position
        requires { self.row < 65535 }
        ensures { result ≡ behind cols width self }
    {
        let width = u16::from(width);
        if u32::from(self.col) + u32::from(width) > u32::from(cols) {
            return Position {
                col: width,
                row: self.row + 1,
            };
        }
        Position {
            col: self.col + width,
            ..self
        }
    }

    // The next tab stop, at most the last column; from there on a tab stays put.
    fn tabbed(self, rows: Rows) -> Position
        requires { 0 < rows.tab_stop }
        ensures { result ≡ tabbed rows.cols rows.tab_stop self }
    {
        let last = rows.cols.saturating_sub(1);
        if self.col >= last {
            return self;
        }
        let step = rows.tab_stop - self.col % rows.tab_stop;
        Position {
            col: self.col + step.min(last - self.col),
            ..self
        }
    }

    // The place at the end of a text: a full row counts as column 0 of the next.
    fn at_end(self, cols: u16) -> Position
        requires { self.col ≡ cols → self.row < 65535 }
        ensures { result ≡ at_end cols self }
    {
        if self.col == cols {
            self.next_row()
        } else {
            self
        }
    }
}

impl EscapeSequence {
    // How far the sequence has come behind a cluster other than LF and TAB.
    fn after(self, cluster: ClusterAt) -> EscapeSequence
        ensures { result ≡ sequence_after self cluster.first cluster.bare }
    {
        match self {
            EscapeSequence::Outside if cluster.first == '\x1b' => EscapeSequence::Begun,
            EscapeSequence::Begun if cluster.first == '[' && cluster.bare => EscapeSequence::Inside,
            EscapeSequence::Inside if matches!(cluster.first, '0'..='?') => EscapeSequence::Inside,
            _ => EscapeSequence::Outside,
        }
    }

    // The columns that a cluster takes: none in a sequence.
    fn columns(self, cluster: ClusterAt) -> u8
        ensures { result ≡ columns_in self cluster.width }
    {
        match self {
            EscapeSequence::Outside => cluster.width,
            EscapeSequence::Begun | EscapeSequence::Inside => 0,
        }
    }
}

impl Walk {
    // A walk that begins at a place, in no sequence.
    pub fn start(origin: Position) -> Walk
        ensures { result ≡ starting origin }
    {
        Walk {
            position: origin,
            escape: EscapeSequence::Outside,
        }
    }

    // One cluster further.
    fn step(self, cluster: ClusterAt, rows: Rows) -> Walk
        requires { (self.position.row < 65535) × (0 < rows.tab_stop) }
        ensures { result ≡ step_over rows.cols rows.tab_stop cluster.first cluster.bare cluster.width self }
    {
        match cluster.first {
            '\n' => Walk {
                position: self.position.next_row(),
                ..self
            },
            '\t' => Walk {
                position: self.position.tabbed(rows),
                ..self
            },
            _ => Walk {
                position: self
                    .position
                    .behind(self.escape.columns(cluster), rows.cols),
                escape: self.escape.after(cluster),
            },
        }
    }

    // Whether rows cannot run out over so many bytes.
    fn has_room(self, len: usize, rows: Rows) -> bool
        ensures { result ≡ has_room len rows.tab_stop self }
    {
        rows.tab_stop >= 1 && len <= usize::from(u16::MAX - self.position.row)
    }

    // The walk behind a text: none where rows could run out, the tab stop is 0, or the text is no UTF-8.
    pub fn advance<W: WidthTable>(self, text: &[u8], rows: Rows) -> Option<Walk>
        ensures { Advances W.WidthTable.columns text.now rows.cols rows.tab_stop self result }
    {
        if !self.has_room(text.len(), rows) {
            return None;
        }
        let mut walk = self;
        for cluster in Clusters::<W>::new(text) {
            walk = walk.step(cluster.ok()?, rows);
        }
        Some(walk)
    }

    // The place that the walk has come to, a full row counting as column 0 of the next: none below row 65,535.
    pub fn place(self, cols: u16) -> Option<Position>
        ensures { result ≡ in_rows (at_end cols self.position) }
    {
        if self.position.col == cols && self.position.row == u16::MAX {
            None
        } else {
            Some(self.position.at_end(cols))
        }
    }
}

// The longest text that is measured, in bytes.
const MAX_TEXT: usize = 4096;

impl Rows {
    // Whether columns, tab stop and an origin are in range.
    fn in_range(self, origin: Position) -> bool
        ensures { result ≡ in_range self.cols self.tab_stop origin }
    {
        (2..=500).contains(&self.cols)
            && (1..=32).contains(&self.tab_stop)
            && origin.row <= 60_000
            && origin.col <= 500
    }
}

// The place where a text ends that is drawn from an origin.
pub fn calculate_position<W: WidthTable>(
    text: &[u8],
    rows: Rows,
    origin: Position,
) -> Result<Position, Refusal>
    ensures { Measures W.WidthTable.columns text.now rows.cols rows.tab_stop origin result }
{
    if !rows.in_range(origin) {
        return Err(Refusal::Size);
    }
    if text.len() > MAX_TEXT {
        from_utf8(text).map_err(|_| Refusal::Text)?;
        return Err(Refusal::Long);
    }
    let walk = Walk::start(origin)
        .advance::<W>(text, rows)
        .ok_or(Refusal::Text)?;
    Ok(walk.position.at_end(rows.cols))
}
