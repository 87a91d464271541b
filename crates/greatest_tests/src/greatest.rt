// The greatest drawing.
use crate::verbose::{PADDING, Verbose};
use layout::block::Layout;
use layout::layout::Position;
use lines::line_buffer::LineBuffer;
use lines::note::Note;
use lines::prompt::Prompt;
use render::block::Block;
use render::renderer::PosixRenderer;
use std::test::Fail;
use terminal::record::Record;
use terminal::size::Size;
use widths::tables::Latin;

const PROMPT: [u8; 512] = [b'p'; 512];

const LINE: [u8; 4096] = [b'l'; 4096];

const NOTE: [u8; 1024] = [b'n'; 1024];

// The layout of a text that ends in a place of a window of 500 columns and 200 rows, with the cursor in a column of row 0.
fn layout(col: u16, end: Position) -> Option<Layout> {
    let corner = Position { col: 0, row: 0 };
    Layout::new(corner, Position { col, row: 0 }, end, 500, 200)
}

// From row 0 down to the last of 200 rows, 199 rows erased and the first one, prompt, line and note with 256 bytes more each, an LF
// behind the full row, and back to row 0 and the last of 500 columns: 6 + 199 * 7 + 4 + 768 + 4,352 + 1,280 + 1 + 6 + 7 = 7,817
// bytes. The layouts are given and not those of the texts: the renderer draws by what it is given.
#[test]
fn greatest(rt: HostRuntime) -> Result<(), Fail> {
    let mut line = LineBuffer::new();
    line.update(&LINE, 0)?;
    let mut note = Note::new();
    note.set(&NOTE)?;
    let old = layout(0, Position { col: 3, row: 199 }).ok_or("none")?;
    let block = Block {
        prompt: &Prompt::plain(&PROMPT)?,
        line: &line,
        note: &note,
        layout: &layout(499, Position { col: 500, row: 198 }).ok_or("none")?,
    };
    let mut renderer = PosixRenderer::new();
    let memory = vec![in rt.alloc(); 0; 7817]?;
    let mut log = Record::new(Latin, memory, Size::new(500, 200)?);
    let drawn = renderer.refresh_line(&mut log, &block, Some(&old), Some(&Verbose), false);
    assert!(rt; drawn.is_ok());
    let mut expected = Vec::from_slice(rt.alloc(), b"\x1b[199B")?;
    for _ in 0..199 {
        expected.extend_from_slice(b"\r\x1b[K\x1b[A")?;
    }
    expected.extend_from_slice(b"\r\x1b[K")?;
    for text in [PROMPT.as_slice(), LINE.as_slice(), NOTE.as_slice()] {
        expected.extend_from_slice(&PADDING)?;
        expected.extend_from_slice(text)?;
    }
    expected.extend_from_slice(b"\n\x1b[199A\r\x1b[499C")?;
    assert_eq!(rt; expected.len(), 7817);
    assert!(rt; log.bytes() == expected.as_slice());
    Ok(())
}
