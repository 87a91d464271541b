// Bytes that are no UTF-8.
use crate::seeing::{Case, all_draw};
use std::test::Fail;

// Bytes that can begin nothing do nothing.
#[test]
fn strays(rt: HostRuntime) -> Result<(), Fail> {
    all_draw(&rt, rt.alloc(), &STRAYS)
}

const STRAYS: [Case; 3] = [
    (b"\x80\xbfa", "0,1,0 |a....|.....|.....|....."),
    (b"\xc0\x80\xc1\xbfa", "0,1,0 |a....|.....|.....|....."),
    (b"\xf5\x80\xffa", "0,1,0 |a....|.....|.....|....."),
];

// A byte that cannot continue a character drops it and counts for itself.
#[test]
fn cut_short(rt: HostRuntime) -> Result<(), Fail> {
    all_draw(&rt, rt.alloc(), &CUT_SHORT)
}

const CUT_SHORT: [Case; 7] = [
    (b"\xc3a", "0,1,0 |a....|.....|.....|....."),
    (b"\xe4a", "0,1,0 |a....|.....|.....|....."),
    (b"\xe4\xb8a", "0,1,0 |a....|.....|.....|....."),
    (b"\xf0\x9fa\xf0\x9f\x98b", "0,2,0 |ab...|.....|.....|....."),
    (b"\xe4\n\xc3\ra", "1,1,0 |.....|a....|.....|....."),
    (
        b"\xe4\xb8\xe4\xb8\xad",
        "0,2,0 |\u{4e2d}>...|.....|.....|.....",
    ),
    // the character dropped ends the joining
    (b"a\xc3\xcc\x81", "0,1,0 |a....|.....|.....|....."),
];

// Too long a form, a surrogate, and a number past the last: the second byte cannot continue the first, and begins nothing.
#[test]
fn out_of_range(rt: HostRuntime) -> Result<(), Fail> {
    all_draw(&rt, rt.alloc(), &OUT_OF_RANGE)
}

const OUT_OF_RANGE: [Case; 9] = [
    (b"\xe0\x9f\xbfa", "0,1,0 |a....|.....|.....|....."),
    (b"\xed\xa0\x80a", "0,1,0 |a....|.....|.....|....."),
    (b"\xf0\x8f\xbf\xbfa", "0,1,0 |a....|.....|.....|....."),
    (b"\xf4\x90\x80\x80a", "0,1,0 |a....|.....|.....|....."),
    // and the neighbours that are characters
    (b"\xe0\xa0\x80a", "0,2,0 |\u{800}a...|.....|.....|....."),
    (b"\xed\x9f\xbfa", "0,2,0 |\u{d7ff}a...|.....|.....|....."),
    (b"\xee\x80\x80a", "0,2,0 |\u{e000}a...|.....|.....|....."),
    (
        b"\xf0\x90\x80\x80a",
        "0,2,0 |\u{10000}a...|.....|.....|.....",
    ),
    (
        b"\xf4\x8f\xbf\xbfa",
        "0,2,0 |\u{10ffff}a...|.....|.....|.....",
    ),
];
