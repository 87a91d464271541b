// Moves of the cursor, and blocks erased.
use crate::seeing::{are_parts, layout, place, record};
use render::renderer::PosixRenderer;
use std::test::Fail;

// From a place to another, each its column and row: the bytes.
type Move = ((u16, u16), (u16, u16), &'static [u8]);

// oracle acts --gate < oracle/render_tests/moves.acts; there an offset up to 199 is in column 0 of the row of that number, and
// one from 199 on in row 199; the first and the last follow from the rule (docs/PAGE.md, "Parts")
const MOVES: [Move; 23] = [
    ((3, 2), (3, 2), b""),
    ((499, 199), (0, 0), b"\x1b[199A\x1b[499D"),
    ((0, 0), (0, 1), b"\x1b[B"),
    ((0, 1), (0, 0), b"\x1b[A"),
    ((0, 0), (0, 9), b"\x1b[9B"),
    ((0, 9), (0, 0), b"\x1b[9A"),
    ((0, 0), (0, 10), b"\x1b[10B"),
    ((0, 10), (0, 109), b"\x1b[99B"),
    ((0, 109), (0, 9), b"\x1b[100A"),
    ((0, 9), (0, 199), b"\x1b[190B"),
    ((0, 199), (1, 199), b"\x1b[C"),
    ((1, 199), (0, 199), b"\x1b[D"),
    ((0, 199), (9, 199), b"\x1b[9C"),
    ((9, 199), (19, 199), b"\x1b[10C"),
    ((19, 199), (118, 199), b"\x1b[99C"),
    ((118, 199), (18, 199), b"\x1b[100D"),
    ((18, 199), (499, 199), b"\x1b[481C"),
    ((499, 199), (0, 0), b"\x1b[199A\x1b[499D"),
    ((0, 0), (2, 199), b"\x1b[199B\x1b[2C"),
    ((2, 199), (0, 1), b"\x1b[198A\x1b[2D"),
    ((0, 1), (499, 199), b"\x1b[198B\x1b[499C"),
    ((499, 199), (0, 10), b"\x1b[189A\x1b[499D"),
    ((1, 1), (2, 2), b"\x1b[B\x1b[C"),
];

// The block's last row, the cursor's row, and what brings the cursor down to the block's last row. What is expected follows from
// the rule: down to the last row, then each row from there up to the first.
type Block = (u16, u16, &'static [u8]);

const BLOCKS: [Block; 14] = [
    (0, 0, b""),
    (1, 1, b""),
    (1, 0, b"\x1b[1B"),
    (9, 0, b"\x1b[9B"),
    (10, 0, b"\x1b[10B"),
    (10, 9, b"\x1b[1B"),
    (99, 0, b"\x1b[99B"),
    (99, 99, b""),
    (100, 0, b"\x1b[100B"),
    (100, 1, b"\x1b[99B"),
    (199, 199, b""),
    (199, 100, b"\x1b[99B"),
    (199, 99, b"\x1b[100B"),
    (199, 0, b"\x1b[199B"),
];

// Rows come before columns, and a move by one has no number. `clear_rows` writes what brings the cursor down, and then the rows
// erased one above the other, in one write.
#[test]
fn moves_and_erases(rt: HostRuntime) -> Result<(), Fail> {
    let mut renderer = PosixRenderer::new();
    for (old, new, bytes) in MOVES {
        let mut log = record(rt.alloc())?;
        let moved = renderer.move_cursor(&mut log, place(old), place(new));
        assert!(rt; moved.is_ok() && log.bytes() == bytes && renderer.contents() == bytes);
    }
    for (last, row, down) in BLOCKS {
        let old = layout((0, 0), (4, row), (3, last), 5)?;
        let mut log = record(rt.alloc())?;
        let erased = renderer.clear_rows(&mut log, &old);
        let is_same = log.bytes() == renderer.contents();
        assert!(rt; erased.is_ok() && is_same && are_rows(log.bytes(), down, last));
    }
    Ok(())
}

// Whether bytes bring the cursor down so, erase so many rows with a move up behind each, and then one more.
fn are_rows(bytes: &[u8], down: &[u8], last: u16) -> bool {
    let Some(rows) = bytes.strip_prefix(down) else {
        return false;
    };
    let (above, first) = rows.as_chunks::<7>();
    above.len() == usize::from(last)
        && first == b"\r\x1b[K".as_slice()
        && above.iter().all(|row| row == b"\r\x1b[K\x1b[A")
}
