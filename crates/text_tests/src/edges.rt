// The first and the last character of each range, the places between characters, and the refusals.
use std::alloc::{AllocError, Global};
use std::test::Fail;
use text::decode::{char_at, is_control, is_good};
use text::refusal::Refusal;
use text::texts::{check_text, is_boundary};

// Characters with their bytes, and whether they are controls.
const EDGES: [(char, &[u8], bool); 16] = [
    ('\0', b"\x00", true),
    ('\n', b"\x0a", true),
    ('\u{1f}', b"\x1f", true),
    (' ', b"\x20", false),
    ('~', b"\x7e", false),
    ('\u{7f}', b"\x7f", true),
    ('\u{80}', b"\xc2\x80", true),
    ('\u{9f}', b"\xc2\x9f", true),
    ('\u{a0}', b"\xc2\xa0", false),
    ('\u{7ff}', b"\xdf\xbf", false),
    ('\u{800}', b"\xe0\xa0\x80", false),
    ('\u{d7ff}', b"\xed\x9f\xbf", false),
    ('\u{e000}', b"\xee\x80\x80", false),
    ('\u{ffff}', b"\xef\xbf\xbf", false),
    ('\u{10000}', b"\xf0\x90\x80\x80", false),
    ('\u{10ffff}', b"\xf4\x8f\xbf\xbf", false),
];

// Each refusal with its number and its word.
const REFUSALS: [(Refusal, u8, &str); 7] = [
    (Refusal::Size, 1, "size"),
    (Refusal::Prompt, 2, "prompt"),
    (Refusal::Text, 3, "text"),
    (Refusal::Long, 4, "long"),
    (Refusal::Place, 5, "place"),
    (Refusal::Tall, 6, "tall"),
    (Refusal::Torn, 7, "torn"),
];

#[test]
fn edges_are_read(rt: HostRuntime) -> Result<(), Fail> {
    for (code, bytes, control) in EDGES {
        assert!(rt; is_read(code, bytes, control));
    }
    for (refusal, number, word) in REFUSALS {
        assert!(rt; is_shown(rt.alloc(), refusal, number, word)?);
    }
    assert!(rt; places());
    Ok(())
}

fn is_read(code: char, bytes: &[u8], control: bool) -> bool {
    let good = code == '\n' || !control;
    let is_found = char_at(bytes, 0).is_some_and(|it| it.code == code && it.len == bytes.len());
    is_control(code) == control
        && is_good(code) == good
        && check_text(bytes).is_ok() == good
        && is_found
}

fn is_shown(heap: Global, refusal: Refusal, number: u8, word: &str) -> Result<bool, AllocError> {
    let shown = format!(in heap; "{refusal}")?;
    let expected = format!(in heap; "{number} {word}")?;
    Ok(u8::from(refusal) == number && refusal.word() == word && shown == expected)
}

// The empty text is good. In another stands one character of each length, from one byte to four: it may be cut at 0, 1, 3, 6 and 10.
fn places() -> bool {
    let text = b"a\xc3\xa9\xe2\x82\xac\xf0\x9f\x98\x80";
    let ends = [0, 1, 3, 6, 10];
    check_text(b"").is_ok()
        && char_at(b"", 0).is_none()
        && is_boundary(b"", 0)
        && (0..12).all(|at| is_boundary(text, at) == ends.contains(&at))
}
