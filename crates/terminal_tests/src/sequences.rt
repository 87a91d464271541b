// Control sequences.
use crate::seeing::{Case, all_draw};
use std::test::Fail;

// A, B, C and D move by the first number and stop at the window's edges.
#[test]
fn moves(rt: HostRuntime) -> Result<(), Fail> {
    all_draw(&rt, rt.alloc(), &MOVES)
}

const MOVES: [Case; 9] = [
    (b"\n\x1b[A", "0,0,0 |.....|.....|.....|....."),
    (b"\x1b[B", "1,0,0 |.....|.....|.....|....."),
    (b"\x1b[C", "0,1,0 |.....|.....|.....|....."),
    (b"ab\x1b[D", "0,1,0 |ab...|.....|.....|....."),
    (b"\n\n\x1b[9A", "0,0,0 |.....|.....|.....|....."),
    (b"\x1b[9B", "2,0,0 |.....|.....|.....|....."),
    (b"\x1b[9C", "0,4,0 |.....|.....|.....|....."),
    (b"ab\x1b[9D", "0,0,0 |ab...|.....|.....|....."),
    // the window stands at row 1
    (b"\n\n\n\x1b[9A", "1,0,1 |.....|.....|.....|....."),
];

// An absent number or 0 means 1, above 9,999 means 9,999; other parameters do nothing.
#[test]
fn numbers(rt: HostRuntime) -> Result<(), Fail> {
    all_draw(&rt, rt.alloc(), &NUMBERS)
}

const NUMBERS: [Case; 8] = [
    (b"\x1b[0C", "0,1,0 |.....|.....|.....|....."),
    (b"\x1b[;5C", "0,1,0 |.....|.....|.....|....."),
    (b"\x1b[2;9C", "0,2,0 |.....|.....|.....|....."),
    (b"\x1b[0000003C", "0,3,0 |.....|.....|.....|....."),
    (b"\x1b[9999C", "0,4,0 |.....|.....|.....|....."),
    (b"\x1b[10000C", "0,4,0 |.....|.....|.....|....."),
    (b"\x1b[65537C", "0,4,0 |.....|.....|.....|....."),
    (b"\x1b[?2C\x1b[2?C\x1b[<C", "0,0,0 |.....|.....|.....|....."),
];

// A full row counts as its last column; J and K leave the cursor where it is.
#[test]
fn full_rows(rt: HostRuntime) -> Result<(), Fail> {
    all_draw(&rt, rt.alloc(), &FULL_ROWS)
}

const FULL_ROWS: [Case; 7] = [
    (b"\nabcde\x1b[A", "0,4,0 |.....|abcde|.....|....."),
    (b"abcde\x1b[B", "1,4,0 |abcde|.....|.....|....."),
    (b"abcde\x1b[C", "0,4,0 |abcde|.....|.....|....."),
    (b"abcde\x1b[D", "0,3,0 |abcde|.....|.....|....."),
    (b"abcde\x1b[K", "0,5,0 |abcd.|.....|.....|....."),
    (b"abcde\x1b[J", "0,5,0 |abcd.|.....|.....|....."),
    (b"abcde\x1b[Kf", "1,1,0 |abcd.|f....|.....|....."),
];

// Bare H goes to the window's top left, bare J blanks to the window's end, bare K to the row's; with parameters they do nothing.
#[test]
fn erases(rt: HostRuntime) -> Result<(), Fail> {
    all_draw(&rt, rt.alloc(), &ERASES)
}

const ERASES: [Case; 8] = [
    (b"ab\ncd\x1b[H", "0,0,0 |ab...|cd...|.....|....."),
    (b"a\n\n\n\x1b[H", "1,0,1 |a....|.....|.....|....."),
    (b"abcd\x1b[2D\x1b[K", "0,2,0 |ab...|.....|.....|....."),
    (
        b"ab\ncd\nef\x1b[2A\x1b[D\x1b[J",
        "0,1,0 |a....|.....|.....|.....",
    ),
    (b"a\nb\nc\nd\x1b[H\x1b[J", "1,0,1 |a....|.....|.....|....."),
    (b"ab\x1b[D\x1b[1K\x1b[2J", "0,1,0 |ab...|.....|.....|....."),
    (b"ab\x1b[1H\x1b[;H", "0,2,0 |ab...|.....|.....|....."),
    // other finals, the first and the last
    (
        b"ab\x1b[@\x1b[~\x1b[1;2Xc",
        "0,3,0 |abc..|.....|.....|.....",
    ),
];

// ESC starts a sequence, whatever is unfinished; before anything but `[` it is dropped with that byte.
#[test]
fn escapes(rt: HostRuntime) -> Result<(), Fail> {
    all_draw(&rt, rt.alloc(), &ESCAPES)
}

const ESCAPES: [Case; 10] = [
    (b"\x1b\x1b[C", "0,1,0 |.....|.....|.....|....."),
    (b"\x1b[3\x1b[C", "0,1,0 |.....|.....|.....|....."),
    (b"\xe4\xb8\x1b[Ca", "0,2,0 |.a...|.....|.....|....."),
    (b"\x1bca", "0,1,0 |a....|.....|.....|....."),
    // another byte drops the sequence and itself: LF, CR, one from 0x80 on
    (b"a\x1b[3\nb", "0,2,0 |ab...|.....|.....|....."),
    (b"a\x1b[3\rb", "0,2,0 |ab...|.....|.....|....."),
    (b"a\x1b[3\xc3b", "0,2,0 |ab...|.....|.....|....."),
    // what ESC drops ends the joining
    (b"a\xc3\x1b[m\xcc\x81", "0,1,0 |a....|.....|.....|....."),
    (b"a\x1b\x1b[m\xcc\x81", "0,1,0 |a....|.....|.....|....."),
    (b"a\x1b[1\x1b[m\xcc\x81", "0,1,0 |a....|.....|.....|....."),
];

// `?2026h` sets the held mark, `?2026l` clears it, and nothing like them does.
#[test]
fn holds(rt: HostRuntime) -> Result<(), Fail> {
    all_draw(&rt, rt.alloc(), &HOLDS)
}

const HOLDS: [Case; 6] = [
    (b"\x1b[?2026h", "0,0,0 held |.....|.....|.....|....."),
    (b"\x1b[?2026h\x1b[?2026l", "0,0,0 |.....|.....|.....|....."),
    (
        b"\x1b[?2026h\x1b[?2026;1l",
        "0,0,0 held |.....|.....|.....|.....",
    ),
    (b"\x1b[?2026;1h", "0,0,0 |.....|.....|.....|....."),
    (
        b"\x1b[?2025h\x1b[?202h\x1b[?20266h",
        "0,0,0 |.....|.....|.....|.....",
    ),
    (b"\x1b[2026h\x1b[??2026h", "0,0,0 |.....|.....|.....|....."),
];
