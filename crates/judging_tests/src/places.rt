// Where the parts of a block end.
use layout::block::Layout;
use layout::layout::Position;
use measuring::measuring::{
    LineEnds, Window, measure_insert, measure_line, walk_repeated, walk_text,
};
use std::test::Fail;
use terminal::size::Size;
use widths::tables::{Eastern, Latin};

// The place in a column and a row.
pub(crate) fn place(at: (u16, u16)) -> Position {
    let (col, row) = at;
    Position { col, row }
}

// The column and the row of a place.
pub(crate) fn at(place: Position) -> (u16, u16) {
    (place.col, place.row)
}

// Columns and rows of the edit position's place and of the end.
fn both(ends: LineEnds) -> ((u16, u16), (u16, u16)) {
    (at(ends.cursor), at(ends.end))
}

// What is measured of a text in 5 columns: a line behind a prompt that ends at (2, row 0), with its edit position, also by the Eastern
// table; the line `ad` with the text inserted at a position so many times; the text walked over from a place; the text walked over
// so many times from (0, 0), by the Eastern table.
enum Measure {
    Line(usize),
    LineWide(usize),
    Insert(usize, u16),
    Walk((u16, u16)),
    WalkWide(u16),
}

// Where the edit position, or the beginning of a walk, and the end come to stand.
fn measured(measure: &Measure, text: &[u8]) -> Option<LineEnds> {
    let prompt = place((2, 0));
    let (cursor, end) = match *measure {
        Measure::Line(pos) => return measure_line::<Latin>(prompt, text, pos, 5),
        Measure::LineWide(pos) => return measure_line::<Eastern>(prompt, text, pos, 5),
        Measure::Insert(pos, count) => {
            return measure_insert::<Latin>(prompt, b"ad", pos, text, count, 5);
        }
        Measure::Walk(from) => (place(from), walk_text::<Latin>(place(from), text, 5)?),
        Measure::WalkWide(count) => {
            let corner = place((0, 0));
            (corner, walk_repeated::<Eastern>(corner, text, count, 5)?)
        }
    };
    Some(LineEnds { cursor, end })
}

// What is expected is none for a position that is none and for bad text. A full row does not count as the next here.
type Measured = (Measure, &'static [u8], Option<((u16, u16), (u16, u16))>);

// Lines and inserts by `oracle place 5 8 latin 2 0 TEXT` for the text up to the position and for the whole, or `eastern`, but for the
// full rows, which it counts as (0, next row).
const MEASURES: [Measured; 32] = [
    (Measure::Line(0), b"", Some(((2, 0), (2, 0)))),
    (Measure::Line(1), b"ab", Some(((3, 0), (4, 0)))),
    (Measure::Line(3), b"abc", Some(((5, 0), (5, 0)))),
    (Measure::Line(2), b"abc", Some(((4, 0), (5, 0)))),
    (Measure::Line(0), b"abcd", Some(((2, 0), (1, 1)))),
    (Measure::Line(3), b"abcd", Some(((5, 0), (1, 1)))),
    (Measure::Line(3), b"abc\nd", Some(((5, 0), (1, 1)))),
    (Measure::Line(4), b"abc\nd", Some(((0, 1), (1, 1)))),
    (Measure::Line(1), b"\n", Some(((0, 1), (0, 1)))),
    (Measure::Line(1), b"e\xcc\x81f", Some(((3, 0), (4, 0)))),
    (Measure::Line(3), b"e\xcc\x81f", Some(((3, 0), (4, 0)))),
    (Measure::Line(5), b"ab\xe4\xb8\xad", Some(((5, 0), (5, 0)))),
    (Measure::Line(3), b"ab", None),
    (Measure::Line(1), b"\xc3\xa9", None),
    // a wide character does not stand across the row's end
    (
        Measure::LineWide(2),
        b"ab\xe4\xb8\xad",
        Some(((4, 0), (2, 1))),
    ),
    (Measure::Insert(1, 0), b"b", Some(((3, 0), (4, 0)))),
    (Measure::Insert(1, 1), b"b", Some(((4, 0), (5, 0)))),
    (Measure::Insert(1, 2), b"b", Some(((5, 0), (1, 1)))),
    (Measure::Insert(1, 7), b"b", Some(((5, 1), (1, 2)))),
    (Measure::Insert(1, 3), b"\n", Some(((0, 3), (1, 3)))),
    (Measure::Insert(1, 9), b"\xcc\x81", Some(((3, 0), (4, 0)))),
    (Measure::Insert(3, 1), b"b", None),
    // a full row waits for what comes: a character without a column stays on it, another begins the next row, an LF ends it
    (Measure::Walk((5, 3)), b"", Some(((5, 3), (5, 3)))),
    (Measure::Walk((5, 3)), b"\xcc\x81", Some(((5, 3), (5, 3)))),
    (Measure::Walk((5, 3)), b"a", Some(((5, 3), (1, 4)))),
    (Measure::Walk((5, 3)), b"\n", Some(((5, 3), (0, 4)))),
    (Measure::Walk((0, 0)), b"\xff", None),
    // two wide characters fill four of five columns, three take a row more
    (
        Measure::WalkWide(0),
        b"\xe4\xb8\xad",
        Some(((0, 0), (0, 0))),
    ),
    (
        Measure::WalkWide(1),
        b"\xe4\xb8\xad",
        Some(((0, 0), (2, 0))),
    ),
    (
        Measure::WalkWide(2),
        b"\xe4\xb8\xad",
        Some(((0, 0), (4, 0))),
    ),
    (
        Measure::WalkWide(3),
        b"\xe4\xb8\xad",
        Some(((0, 0), (2, 1))),
    ),
    (
        Measure::WalkWide(5),
        b"\xe4\xb8\xad",
        Some(((0, 0), (2, 2))),
    ),
];

// A window of 5 columns and 2 rows, with the prompt's end at (2, row 0).
pub(crate) fn window() -> Result<Window, Fail> {
    Ok(Window {
        size: Size::new(5, 2)?,
        prompt: place((2, 0)),
    })
}

// The edit position's place, the end, and whether the text ends on a full row.
pub(crate) type Laid = ((u16, u16), (u16, u16), bool);

pub(crate) fn laid(layout: Layout) -> Laid {
    (at(layout.cursor()), at(layout.end()), layout.full())
}

// Where the line ends, the note behind it, and what is laid out, or none where that is higher than the window: a full row counts as
// column 0 of the next, and a full last row is too high. By the rules (docs/PAGE.md, "Places and height").
type LaidOut = ((u16, u16), Option<&'static [u8]>, Option<Laid>);

const LAYOUTS: [LaidOut; 9] = [
    ((4, 0), None, Some(((3, 0), (4, 0), false))),
    ((5, 0), None, Some(((3, 0), (0, 1), true))),
    ((4, 1), None, Some(((3, 0), (4, 1), false))),
    ((5, 1), None, None),
    ((4, 0), Some(b""), Some(((3, 0), (4, 0), false))),
    ((4, 0), Some(b"x"), Some(((3, 0), (0, 1), true))),
    ((4, 0), Some(b"x\n"), Some(((3, 0), (0, 1), false))),
    ((4, 1), Some(b"x"), None),
    ((0, 1), Some(b"\n"), None),
];

// Whether a line and a note are laid out so, and so is the line alone where there is no note.
fn lays(window: Window, end: (u16, u16), note: Option<&[u8]>, expected: Option<Laid>) -> bool {
    let ends = LineEnds {
        cursor: place((3, 0)),
        end: place(end),
    };
    let alone = note.is_some() || window.line_layout::<Latin>(ends).map(laid) == expected;
    alone && window.compute_layout::<Latin>(ends, note).map(laid) == expected
}

#[test]
fn places(rt: HostRuntime) -> Result<(), Fail> {
    for (measure, text, expected) in MEASURES.iter() {
        assert!(rt; measured(measure, text).map(both) == *expected);
    }
    let window = window()?;
    for (end, note, expected) in LAYOUTS {
        assert!(rt; lays(window, end, note, expected));
    }
    Ok(())
}
