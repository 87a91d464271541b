// Characters, marks and controls.
use crate::seeing::{Case, all_draw};
use std::test::Fail;

// A character that would pass the last column first goes to the next row; a full row waits for it.
#[test]
fn wraps(rt: HostRuntime) -> Result<(), Fail> {
    all_draw(&rt, rt.alloc(), &WRAPS)
}

const WRAPS: [Case; 5] = [
    (b"abc", "0,3,0 |abc..|.....|.....|....."),
    (b"abcde", "0,5,0 |abcde|.....|.....|....."),
    (b"abcdef", "1,1,0 |abcde|f....|.....|....."),
    // a wide character just fits, and does not
    (b"abc\xe4\xb8\xad", "0,5,0 |abc中>|.....|.....|....."),
    (b"abcd\xe4\xb8\xad", "1,2,0 |abcd.|中>...|.....|....."),
];

// LF goes to column 0 of the next row, and below the last row the window moves down; CR goes to column 0.
#[test]
fn new_rows(rt: HostRuntime) -> Result<(), Fail> {
    all_draw(&rt, rt.alloc(), &NEW_ROWS)
}

const NEW_ROWS: [Case; 4] = [
    (b"ab\ncd", "1,2,0 |ab...|cd...|.....|....."),
    (b"ab\rc", "0,1,0 |cb...|.....|.....|....."),
    (b"a\n\n\nb", "3,1,1 |a....|.....|.....|b...."),
    // the wrap moves the window too
    (b"\n\nabcdef", "3,1,1 |.....|.....|abcde|f...."),
];

// Other controls do nothing, those from U+0080 on too, but end the joining.
#[test]
fn other_controls(rt: HostRuntime) -> Result<(), Fail> {
    all_draw(&rt, rt.alloc(), &OTHER_CONTROLS)
}

const OTHER_CONTROLS: [Case; 4] = [
    (b"a\x07\x7f\tb", "0,2,0 |ab...|.....|.....|....."),
    (b"a\xc2\x80\xc2\x9fb", "0,2,0 |ab...|.....|.....|....."),
    (b"a\x07\xcc\x81", "0,1,0 |a....|.....|.....|....."),
    (b"a\xc2\x85\xcc\x81", "0,1,0 |a....|.....|.....|....."),
];

// Touching half of a wide character blanks the other half.
#[test]
fn halves(rt: HostRuntime) -> Result<(), Fail> {
    all_draw(&rt, rt.alloc(), &HALVES)
}

const HALVES: [Case; 7] = [
    // its left half, its right half
    (b"\xe4\xb8\xad\rx", "0,1,0 |x....|.....|.....|....."),
    (b"\xe4\xb8\xad\r\x1b[Cx", "0,2,0 |.x...|.....|.....|....."),
    // a wide character over the left half of one, and between two
    (
        b"a\xe4\xb8\xadb\r\xe4\xb8\xad",
        "0,2,0 |中>.b.|.....|.....|.....",
    ),
    (
        b"\xe4\xb8\xad\xe4\xb8\xad\r\x1b[C\xe4\xb8\xad",
        "0,3,0 |.中>..|.....|.....|.....",
    ),
    // erasing from the right half on, from the left half on, and downwards
    (
        b"\xe4\xb8\xadb\r\x1b[C\x1b[K",
        "0,1,0 |.....|.....|.....|.....",
    ),
    (
        b"a\xe4\xb8\xad\x1b[2D\x1b[K",
        "0,1,0 |a....|.....|.....|.....",
    ),
    (
        b"\xe4\xb8\xad\x1b[D\x1b[J",
        "0,1,0 |.....|.....|.....|.....",
    ),
];

// A mark is put on the cell last taken, in place of one there; of a wide character that is its left half.
#[test]
fn marks(rt: HostRuntime) -> Result<(), Fail> {
    all_draw(&rt, rt.alloc(), &MARKS)
}

const MARKS: [Case; 8] = [
    (b"a\xcc\x81", "0,1,0 |a\u{301}....|.....|.....|....."),
    (
        b"a\xcc\x81\xcc\x82",
        "0,1,0 |a\u{302}....|.....|.....|.....",
    ),
    (b"a\xe2\x80\x8db", "0,2,0 |a\u{200d}b...|.....|.....|....."),
    (
        b"\xe4\xb8\xad\xcc\x81",
        "0,2,0 |中\u{301}>...|.....|.....|.....",
    ),
    // the row stays full
    (b"abcde\xcc\x81f", "1,1,0 |abcde\u{301}|f....|.....|....."),
    // nothing to join: at the start, after LF and after CR
    (b"\xcc\x81", "0,0,0 |.....|.....|.....|....."),
    (b"a\n\xcc\x81", "1,0,0 |a....|.....|.....|....."),
    (b"a\r\xcc\x81", "0,0,0 |a....|.....|.....|....."),
];

// Sequences with the final m keep the joining, whatever their parameters; all others end it.
#[test]
fn marks_after_sequences(rt: HostRuntime) -> Result<(), Fail> {
    all_draw(&rt, rt.alloc(), &MARKS_AFTER_SEQUENCES)
}

const MARKS_AFTER_SEQUENCES: [Case; 8] = [
    (b"a\x1b[m\xcc\x81", "0,1,0 |a\u{301}....|.....|.....|....."),
    (
        b"a\x1b[1;31m\x1b[?9m\xcc\x81",
        "0,1,0 |a\u{301}....|.....|.....|.....",
    ),
    (b"a\x1b[C\x1b[D\xcc\x81", "0,1,0 |a....|.....|.....|....."),
    (b"a\x1b[K\xcc\x81", "0,1,0 |a....|.....|.....|....."),
    (b"a\x1b[Z\xcc\x81", "0,1,0 |a....|.....|.....|....."),
    (b"a\x1b[?2026l\xcc\x81", "0,1,0 |a....|.....|.....|....."),
    // a sequence that is dropped, and bytes that begin nothing
    (b"a\x1b[3\xcc\x81\xcc\x82", "0,1,0 |a....|.....|.....|....."),
    (b"a\xff\xcc\x81", "0,1,0 |a....|.....|.....|....."),
];
