// Notices, held updates and plain writes. What is expected follows from the rules (docs/PAGE.md, "The bytes").
use crate::seeing::{layout, record};
use highlight::plain::PlainHighlighter;
use lines::line_buffer::LineBuffer;
use lines::note::Note;
use lines::prompt::Prompt;
use page::outcome::BrokenAct;
use render::block::Block;
use render::renderer::PosixRenderer;
use render::update::{
    abandon_synchronized_update, begin_synchronized_update, end_synchronized_update,
    write_synchronized,
};
use render::writing::{clear_screen, write_and_flush, write_next};
use std::alloc::Global;
use std::test::Fail;
use terminal::record::Record;
use terminal::size::Size;
use terminal::terminal::WriteError;
use terminal::writing::{BrokenWrite, WriteFault};
use widths::tables::Latin;

// A notice, held or not, and what is written: the old block of two rows erased, the text, an LF where it has none, the new block.
const NOTICES: [(&[u8], bool, &[u8]); 5] = [
    (b"n", false, b"\x1b[1B\r\x1b[K\x1b[A\r\x1b[Kn\n> \r\x1b[2C"),
    (
        b"n\n",
        false,
        b"\x1b[1B\r\x1b[K\x1b[A\r\x1b[Kn\n> \r\x1b[2C",
    ),
    (
        b"n\n\n",
        false,
        b"\x1b[1B\r\x1b[K\x1b[A\r\x1b[Kn\n\n> \r\x1b[2C",
    ),
    (b"", false, b"\x1b[1B\r\x1b[K\x1b[A\r\x1b[K\n> \r\x1b[2C"),
    (
        b"a\nb",
        true,
        b"\x1b[?2026h\x1b[1B\r\x1b[K\x1b[A\r\x1b[Ka\nb\n> \r\x1b[2C\x1b[?2026l",
    ),
];

// Whether an update is held, whether it is ended or abandoned, and what is written when it has begun, and then in all: a held
// update is ended by its token; an abandoned one, and one that is not held, writes nothing more.
const UPDATES: [(bool, bool, &[u8], &[u8]); 3] = [
    (true, true, b"\x1b[?2026h", b"\x1b[?2026h\x1b[?2026l"),
    (true, false, b"\x1b[?2026h", b"\x1b[?2026h"),
    (false, true, b"", b""),
];

#[test]
fn notices_and_updates(rt: HostRuntime) -> Result<(), Fail> {
    let mut renderer = PosixRenderer::new();
    for (text, holds, bytes) in NOTICES {
        let mut log = record(rt.alloc())?;
        assert!(rt; prints(&mut renderer, &mut log, text, holds)? && log.bytes() == bytes);
    }
    for (holds, ends, begun, bytes) in UPDATES {
        let mut log = record(rt.alloc())?;
        assert!(rt; updates(&mut log, holds, ends, begun) && log.bytes() == bytes);
    }
    let mut log = record(rt.alloc())?;
    assert!(rt; writes(&mut log) && breaks(rt.alloc())?);
    Ok(())
}

// Prints a notice over a block of two rows, and tells whether nothing broke.
fn prints(
    renderer: &mut PosixRenderer,
    log: &mut Record<Latin>,
    text: &[u8],
    holds: bool,
) -> Result<bool, Fail> {
    let lit: Option<&PlainHighlighter> = None;
    let old = layout((2, 0), (2, 0), (1, 1), 5)?;
    let block = Block {
        prompt: &Prompt::plain(b"> ")?,
        line: &LineBuffer::new(),
        note: &Note::new(),
        layout: &layout((2, 0), (2, 0), (2, 0), 5)?,
    };
    let printed = renderer.print_notice(log, text, &block, &old, lit, holds);
    Ok(printed.is_ok())
}

// Begins an update, and ends or abandons it; tells whether nothing broke and this was written when it had begun.
fn updates(log: &mut Record<Latin>, holds: bool, ends: bool, begun: &[u8]) -> bool {
    let Ok(update) = begin_synchronized_update(log, holds) else {
        return false;
    };
    let has_begun = log.bytes() == begun;
    if ends {
        return end_synchronized_update(update, log).is_ok() && has_begun;
    }
    abandon_synchronized_update(update);
    has_begun
}

// Plain writes, and the clear of the window.
fn writes(log: &mut Record<Latin>) -> bool {
    clear_screen(log).is_ok()
        && write_and_flush(log, b"ab").is_ok()
        && write_synchronized(log, b"cd", true).is_ok()
        && log.bytes() == b"\x1b[H\x1b[Jab\x1b[?2026hcd\x1b[?2026l".as_slice()
}

// What a record of 10 bytes, which is then down, says of the write that broke: its number in the act, and the bytes taken of it.
fn breaks(heap: Global) -> Result<bool, Fail> {
    let size = Size::new(5, 24)?;
    // the hold is the first write, and leaves two bytes of room
    let mut log = Record::new(Latin, vec![in heap; 0; 10]?, size);
    // an empty write has a number: behind it the release is the third
    let mut less = Record::new(Latin, vec![in heap; 0; 9]?, size);
    Ok(
        write_synchronized(&mut log, b"abc", true) == broken(1, 2)
            && write_synchronized(&mut log, b"abc", false) == broken(0, 0)
            && write_synchronized(&mut log, b"", true) == broken(0, 0)
            && write_next(&mut log, b"abc", 7) == broken(7, 0)
            && write_next(&mut log, b"", 7) == Ok(())
            && write_synchronized(&mut less, b"", true) == broken(2, 1),
    )
}

// A write that broke with the record down.
fn broken(number: usize, taken: usize) -> Result<(), BrokenAct> {
    Err(BrokenAct {
        number,
        write: BrokenWrite {
            fault: WriteFault::Down,
            taken,
            answer: Err(WriteError::Down),
        },
    })
}
