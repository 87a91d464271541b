// Places of a line's parts behind a prompt.
ghost use Rattle.std.specs.Prelude.{◌≡◌, ◌<◌, None};
ghost use Rattle.layout.specs.Drawing.{step_place};
ghost use Rattle.measuring.specs.Measured.{Computes, Inserts, Measures, Repeats, Walks};
ghost use Rattle.std.specs.Option.{option_map};

use layout::block::Layout;
use layout::layout::Position;
use std::str::from_utf8;
use terminal::size::Size;
use widths::tables::WidthTable;

// Where a line ends behind its prompt, up to the edit position and as a whole; a full row does not count as the next.
#[derive(Clone, Copy)]
pub struct LineEnds {
    pub cursor: Position,
    pub end: Position,
}

// Where a character ends that is drawn from a place.
fn step_place<W: WidthTable>(place: Position, c: char, cols: u16) -> Position
    requires { place.row < 65535 }
    ensures { result ≡ step_place cols W.WidthTable.columns c place }
{
    if c == '\n' {
        return Position {
            col: 0,
            row: place.row + 1,
        };
    }
    let width = u16::from(W::width(c));
    if u32::from(place.col) + u32::from(width) > u32::from(cols) {
        return Position {
            col: width,
            row: place.row + 1,
        };
    }
    Position {
        col: place.col + width,
        ..place
    }
}

// Where a text ends that is drawn from a place. A struct for place and columns is no plainer: each call has another place.
// Nor is a `Window` for these functions: its size would ask more of a caller than columns do.
pub fn walk_text<W: WidthTable>(from: Position, text: &[u8], cols: u16) -> Option<Position>
    ensures { Walks W.WidthTable.columns cols from text.now result }
{
    if text.len() > usize::from(u16::MAX - from.row) {
        return None;
    }
    let Ok(text) = from_utf8(text) else {
        return None;
    };
    let mut place = from;
    for c in text.chars() {
        place = step_place::<W>(place, c, cols);
    }
    Some(place)
}

// Where a text ends that is drawn so many times.
pub fn walk_repeated<W: WidthTable>(
    from: Position,
    text: &[u8],
    count: u16,
    cols: u16,
) -> Option<Position>
    ensures { Repeats W.WidthTable.columns cols from text.now count result }
{
    let mut place = from;
    for _ in 0..count {
        place = walk_text::<W>(place, text, cols)?;
    }
    Some(place)
}

// Measures a line with an edit position behind a prompt that ends at a place.
pub fn measure_line<W: WidthTable>(
    prompt: Position,
    line: &[u8],
    pos: usize,
    cols: u16,
) -> Option<LineEnds>
    ensures { Measures W.WidthTable.columns cols prompt line.now pos result }
{
    // as with a space put in no times
    measure_insert::<W>(prompt, line, pos, b" ", 0, cols)
}

// Measures a line into which a character is put so many times before the edit position.
pub fn measure_insert<W: WidthTable>(
    prompt: Position,
    line: &[u8],
    pos: usize,
    text: &[u8],
    count: u16,
    cols: u16,
) -> Option<LineEnds>
    ensures { Inserts W.WidthTable.columns cols prompt line.now pos text.now count result }
{
    if pos > line.len() {
        return None;
    }
    let front = walk_text::<W>(prompt, &line[..pos], cols)?;
    let cursor = walk_repeated::<W>(front, text, count, cols)?;
    let end = walk_text::<W>(cursor, &line[pos..], cols)?;
    Some(LineEnds { cursor, end })
}

// A window, and where the prompt ends in it, counted from the block's start.
#[derive(Clone, Copy)]
pub struct Window {
    pub size: Size,
    pub prompt: Position,
}

impl Window {
    // The layout of a prompt and a line without a note: none where the window does not hold them.
    pub fn line_layout<W: WidthTable>(self, line: LineEnds) -> Option<Layout>
        ensures { Computes W.WidthTable.columns self.size self.prompt line None result }
    {
        self.compute_layout::<W>(line, None)
    }

    // The layout of a prompt, a line and a note, if there is one: none where the window does not hold them.
    pub fn compute_layout<W: WidthTable>(
        self,
        line: LineEnds,
        note: Option<&[u8]>,
    ) -> Option<Layout>
        ensures { Computes W.WidthTable.columns self.size self.prompt line (option_map (λ x. x.now) note.entry) result }
    {
        let cols = self.size.cols();
        let end = match note {
            Some(text) => walk_text::<W>(line.end, text, cols)?,
            None => line.end,
        };
        Layout::new(self.prompt, line.cursor, end, cols, self.size.rows())
    }
}
