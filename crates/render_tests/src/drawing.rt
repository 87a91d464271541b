// Blocks drawn.
use crate::seeing::{are_parts, layout, place, record};
use highlight::highlight::{CmdKind, Highlighter};
use highlight::matching::MatchingBracketHighlighter;
use layout::block::Layout;
use lines::line_buffer::LineBuffer;
use lines::note::Note;
use lines::prompt::Prompt;
use render::block::Block;
use render::renderer::PosixRenderer;
use std::test::Fail;
use terminal::record::Record;
use widths::tables::Latin;

// The block that is drawn over: none, that of an empty text, or one with such a last row and such a row of the cursor.
#[derive(Clone, Copy)]
enum Old {
    Nothing,
    Origin,
    Rows(u16, u16),
}

// The prompt's two forms, a line and its edit position, a note or none, whether its brackets are lit, where prompt, line before
// the position and text end, the columns, and the old block; and the bytes.
#[derive(Clone, Copy)]
struct Case {
    prompt: (&'static [u8], &'static [u8]),
    line: &'static [u8],
    pos: usize,
    note: Option<&'static [u8]>,
    is_lit: bool,
    ends: [(u16, u16); 3],
    cols: u16,
    old: Old,
    bytes: &'static [u8],
}

const PLAIN: (&[u8], &[u8]) = (b"> ", b"> ");

const BOLD: (&[u8], &[u8]) = (b"> ", b"\x1b[1m>\x1b[0m ");

// By the crate's own text, as a part of what `oracle acts --gate` writes for oracle/sample/worked.acts (the first three),
// parts.acts, marks.acts, and brackets.acts and colours_off.acts (the last two); where the text ends with LF, by the rule that
// only a full row has a closing LF (docs/DIFFERENCES.md, L).
const CASES: [Case; 8] = [
    // the text ends on a full row
    Case {
        prompt: PLAIN,
        line: b"abc",
        pos: 3,
        note: None,
        is_lit: false,
        ends: [(2, 0), (5, 0), (5, 0)],
        cols: 5,
        old: Old::Rows(0, 0),
        bytes: b"\r\x1b[K> abc\n\r",
    },
    // another block in the place of one of two rows, with its cursor in the first; a redraw's move by one has its number
    Case {
        prompt: PLAIN,
        line: b"abcd",
        pos: 0,
        note: None,
        is_lit: false,
        ends: [(2, 0), (2, 0), (1, 1)],
        cols: 5,
        old: Old::Rows(1, 0),
        bytes: b"\x1b[1B\r\x1b[K\x1b[A\r\x1b[K> abcd\x1b[1A\r\x1b[2C",
    },
    // nothing to draw but the prompt
    Case {
        prompt: PLAIN,
        line: b"",
        pos: 0,
        note: None,
        is_lit: false,
        ends: [(2, 0), (2, 0), (2, 0)],
        cols: 5,
        old: Old::Rows(0, 0),
        bytes: b"\r\x1b[K> \r\x1b[2C",
    },
    // a note behind the line
    Case {
        prompt: PLAIN,
        line: b"ab",
        pos: 1,
        note: Some(b"mn"),
        is_lit: false,
        ends: [(2, 0), (3, 0), (1, 1)],
        cols: 5,
        old: Old::Rows(0, 0),
        bytes: b"\r\x1b[K> abmn\x1b[1A\r\x1b[3C",
    },
    // a zero-width character behind a full row
    Case {
        prompt: PLAIN,
        line: b"abc\xcc\x81",
        pos: 5,
        note: None,
        is_lit: false,
        ends: [(2, 0), (5, 0), (5, 0)],
        cols: 5,
        old: Old::Rows(1, 1),
        bytes: b"\r\x1b[K\x1b[A\r\x1b[K> abc\xcc\x81\n\r",
    },
    // an LF at the end, and an empty note
    Case {
        prompt: PLAIN,
        line: b"a\n",
        pos: 2,
        note: Some(b""),
        is_lit: false,
        ends: [(2, 0), (0, 1), (0, 1)],
        cols: 5,
        old: Old::Rows(0, 0),
        bytes: b"\r\x1b[K> a\n\r",
    },
    // with colours the styled prompt and the highlighter's answers are drawn
    Case {
        prompt: BOLD,
        line: b"(a)b",
        pos: 3,
        note: None,
        is_lit: true,
        ends: [(2, 0), (5, 0), (6, 0)],
        cols: 20,
        old: Old::Origin,
        bytes: b"\r\x1b[K\x1b[1m>\x1b[0m \x1b[1;34m(\x1b[0ma)b\r\x1b[5C",
    },
    // without them the raw prompt and the plain texts
    Case {
        prompt: BOLD,
        line: b"(a)b",
        pos: 3,
        note: None,
        is_lit: false,
        ends: [(2, 0), (5, 0), (6, 0)],
        cols: 20,
        old: Old::Origin,
        bytes: b"\r\x1b[K> (a)b\r\x1b[5C",
    },
];

// How many rows the cursor goes up, its column, and the bytes.
type Climb = (u16, u16, &'static [u8]);

// From the text's end up to the cursor's row, to column 0, and right to its column: nothing for 0, and every number in digits.
const CLIMBS: [Climb; 9] = [
    (0, 0, b"\r"),
    (1, 1, b"\x1b[1A\r\x1b[1C"),
    (9, 9, b"\x1b[9A\r\x1b[9C"),
    (10, 10, b"\x1b[10A\r\x1b[10C"),
    (99, 99, b"\x1b[99A\r\x1b[99C"),
    (100, 100, b"\x1b[100A\r\x1b[100C"),
    (199, 199, b"\x1b[199A\r\x1b[199C"),
    (199, 499, b"\x1b[199A\r\x1b[499C"),
    (109, 0, b"\x1b[109A\r"),
];

// The case of a climb: nothing is drawn, with no old block.
fn climb((up, col, bytes): Climb) -> Case {
    Case {
        prompt: (b"", b""),
        line: b"",
        pos: 0,
        note: None,
        is_lit: false,
        ends: [(0, 0), (col, 0), (3, up)],
        cols: 500,
        old: Old::Nothing,
        bytes,
    }
}

#[test]
fn draws(rt: HostRuntime) -> Result<(), Fail> {
    for case in CASES {
        assert!(rt; is_drawn(&case, record(rt.alloc())?)?);
    }
    for case in CLIMBS {
        assert!(rt; is_drawn(&climb(case), record(rt.alloc())?)?);
    }
    assert!(rt; layouts()?);
    Ok(())
}

// Makes the case's block, and tells whether it is drawn so.
fn is_drawn(case: &Case, log: Record<Latin>) -> Result<bool, Fail> {
    let (raw, styled) = case.prompt;
    let mut line = LineBuffer::new();
    line.update(case.line, case.pos)?;
    let mut note = Note::new();
    if let Some(bytes) = case.note {
        note.set(bytes)?;
    }
    let [prompt, cursor, end] = case.ends;
    let block = Block {
        prompt: &Prompt::new(raw, styled)?,
        line: &line,
        note: &note,
        layout: &layout(prompt, cursor, end, case.cols)?,
    };
    let old = match case.old {
        Old::Nothing => None,
        Old::Origin => Some(Layout::origin()),
        Old::Rows(last, row) => Some(layout((2, 0), (2, row), (1, last), case.cols)?),
    };
    let mut brackets = MatchingBracketHighlighter::new();
    let is_lit = case.is_lit && brackets.highlight_char(line.line(), line.pos(), CmdKind::Other);
    let lit = if is_lit { Some(&brackets) } else { None };
    Ok(is_written(log, &block, old.as_ref(), lit, case.bytes))
}

// Each block is drawn by one write; with a hold it stands between the hold and the release, and with no old block nothing is erased.
fn is_written(
    mut log: Record<Latin>,
    block: &Block,
    old: Option<&Layout>,
    lit: Option<&MatchingBracketHighlighter>,
    bytes: &[u8],
) -> bool {
    let mut renderer = PosixRenderer::new();
    let erased = renderer.compose_line(block, old, lit);
    let Some((_, drawing)) = bytes.split_at_checked(erased) else {
        return false;
    };
    renderer
        .refresh_line(&mut log, block, old, lit, false)
        .is_ok()
        && renderer
            .refresh_line(&mut log, block, old, lit, true)
            .is_ok()
        && renderer.draw_line(&mut log, block, None, lit).is_ok()
        && are_parts(
            log.bytes(),
            &[bytes, b"\x1b[?2026h", bytes, b"\x1b[?2026l", drawing],
        )
}

// A layout counts a full row as column 0 of the next, and one that no window holds is none.
fn layouts() -> Result<bool, Fail> {
    let full = layout((2, 0), (5, 0), (5, 198), 5)?;
    let too_low = Layout::new(place((2, 0)), place((5, 0)), place((5, 199)), 5, 200);
    let upwards = Layout::new(place((2, 0)), place((2, 1)), place((2, 0)), 5, 200);
    Ok(
        full.cursor() == place((0, 1))
            && full.end() == place((0, 199))
            && full.full()
            && too_low.is_none()
            && upwards.is_none(),
    )
}
