// Measured texts and brackets, a case a line.
use crate::answers::{Lit, Measured};
use highlight::brackets::check_bracket;
use highlight::highlight::{CmdKind, Highlighter};
use highlight::matching::MatchingBracketHighlighter;
use layout::layout::Position;
use layout::measure::{Rows, calculate_position};
use script::escape::read_quoted;
use std::alloc::Global;
use widths::tables::{Eastern, Latin, Table};

// The number before the next blank, and what stands behind that.
fn split_number(text: &str) -> Option<(u16, &str)> {
    let (word, rest) = text.split_once(' ')?;
    let number = word.parse::<u16>().ok()?;
    Some((number, rest))
}

// The string at a text's front, and what stands behind it.
fn split_string(heap: Global, text: &[u8]) -> Option<(Vec<u8>, &[u8])> {
    let inner = text.strip_prefix(b"\"")?;
    let quoted = read_quoted(heap, inner).ok()?;
    Some((quoted.bytes, &inner[quoted.len..]))
}

// A text to be measured.
#[derive(Drop)]
pub(crate) struct PlaceCase {
    table: Table,
    rows: Rows,
    origin: Position,
    text: Vec<u8>,
}

impl PlaceCase {
    // The case that a line says: columns, tab stop, table, the origin's column and row, and the text.
    pub(crate) fn read(heap: Global, line: &str) -> Option<PlaceCase> {
        let (cols, rest) = split_number(line)?;
        let (tab_stop, rest) = split_number(rest)?;
        let (name, rest) = rest.split_once(' ')?;
        let table = name.parse::<Table>().ok()?;
        let (col, rest) = split_number(rest)?;
        let (row, rest) = split_number(rest)?;
        let (text, _) = split_string(heap, rest.as_bytes())?;
        Some(PlaceCase {
            table,
            rows: Rows { cols, tab_stop },
            origin: Position { col, row },
            text,
        })
    }

    // Where the text ends.
    pub(crate) fn measured(&self) -> Measured {
        let text = self.text.as_slice();
        let place = match self.table {
            Table::Latin => calculate_position::<Latin>(text, self.rows, self.origin),
            Table::Eastern => calculate_position::<Eastern>(text, self.rows, self.origin),
        };
        Measured { place }
    }
}

// A line and a position, at which a bracket may stand.
#[derive(Drop)]
pub(crate) struct BracketCase {
    line: Vec<u8>,
    pos: u16,
}

impl BracketCase {
    // The case that a line says: the line in quotation marks, and the position.
    pub(crate) fn read(heap: Global, line: &str) -> Option<BracketCase> {
        let (line, rest) = split_string(heap, line.as_bytes())?;
        let word = std::str::from_utf8(rest).ok()?;
        let pos = word.trim().parse::<u16>().ok()?;
        Some(BracketCase { line, pos })
    }

    // What a new highlighter finds there; none where the line is too long for the place.
    pub(crate) fn lit<'a>(&self, out: &'a mut [u8]) -> Option<Lit<'a>> {
        let line = self.line.as_slice();
        let pos = usize::from(self.pos);
        let mut highlighter = MatchingBracketHighlighter::new();
        let heeds = highlighter.highlight_char(line, pos, CmdKind::Other);
        let len = highlighter.highlight(line, pos, out)?;
        Some(Lit {
            bracket: check_bracket(line, pos),
            heeds,
            line: out.get(..len)?,
        })
    }
}
