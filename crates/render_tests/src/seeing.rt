// Places, layouts and records for the tests, and what a record took.
use layout::block::Layout;
use layout::layout::Position;
use std::alloc::Global;
use std::test::Fail;
use terminal::record::Record;
use terminal::size::Size;
use widths::tables::Latin;

// The place in a column and a row.
pub(crate) fn place(at: (u16, u16)) -> Position {
    let (col, row) = at;
    Position { col, row }
}

// A record of a window of 500 columns and 200 rows.
pub(crate) fn record(heap: Global) -> Result<Record<Latin>, Fail> {
    let size = Size::new(500, 200)?;
    Ok(Record::new(Latin, vec![in heap; 0; 8192]?, size))
}

// The layout of a block whose prompt, line before the edit position and text end at such places.
pub(crate) fn layout(
    prompt: (u16, u16),
    cursor: (u16, u16),
    end: (u16, u16),
    cols: u16,
) -> Result<Layout, Fail> {
    let made = Layout::new(place(prompt), place(cursor), place(end), cols, 200);
    Ok(made.ok_or("no window holds the places")?)
}

// Whether bytes are these parts, one behind the other, and nothing else.
pub(crate) fn are_parts(bytes: &[u8], parts: &[&[u8]]) -> bool {
    let mut rest = bytes;
    for part in parts {
        let Some(behind) = rest.strip_prefix(*part) else {
            return false;
        };
        rest = behind;
    }
    rest.is_empty()
}
