// Style sequences and visible text.
use text::refusal::Refusal;
use text::styled::{check_styled, visible_prompt, visible_text};

// Good styled texts, and what each shows.
const GOOD: [(&[u8], &[u8]); 7] = [
    (b"", b""),
    (b"\x1b[m", b""),
    (b"\x1b[1;34m", b""),
    (b"\x1b[;;0123456789m", b""),
    (b"\x1b[1m\x1b[m", b""),
    (b"a\x1b[1;34mm\x1b[m\n", b"am\n"),
    (
        b"\xc3\xa9\x1b[7m\xe2\x82\xac\x1b[mz",
        b"\xc3\xa9\xe2\x82\xacz",
    ),
];

// Unfinished sequences, other sequences, and a control or damaged bytes after a good one.
const BAD: [&[u8]; 10] = [
    b"\x1b",
    b"a\x1b",
    b"\x1b[",
    b"\x1b[1",
    b"\x1b[1x",
    b"\x1b[?1m",
    b"\x1b\x1b[m",
    b"\x1bm",
    b"\x1b[m\x07",
    b"\x1b[m\xc3",
];

#[test]
fn styled_texts_show(rt: HostRuntime) {
    for (bytes, shows) in GOOD {
        assert!(rt; is_shown(bytes, shows));
    }
    for bytes in BAD {
        assert!(rt; is_refused(bytes));
    }
    assert!(rt; has_room() && prompts());
}

fn is_shown(bytes: &[u8], shows: &[u8]) -> bool {
    let mut out = [b'.'; 16];
    let answer = Ok(shows.len());
    check_styled(bytes) == answer
        && visible_text(bytes, &mut out) == answer
        && out.starts_with(shows)
}

fn is_refused(bytes: &[u8]) -> bool {
    let answer = Err(Refusal::Text);
    check_styled(bytes) == answer
        && leaves(bytes, answer, *b"....")
        && visible_text(bytes, &mut []) == answer
}

// Whether the answer for a visible text comes, and what held dots is left so.
fn leaves<const N: usize>(bytes: &[u8], answer: Result<usize, Refusal>, left: [u8; N]) -> bool {
    let mut out = [b'.'; N];
    visible_text(bytes, &mut out) == answer && out == left
}

// A visible text of three bytes, and room for one less, as many and one more.
fn has_room() -> bool {
    let bytes = b"\x1b[1m\xc3\xa9\x1b[m!";
    leaves(bytes, Err(Refusal::Long), *b"..")
        && leaves(bytes, Ok(3), *b"\xc3\xa9!")
        && leaves(bytes, Ok(3), *b"\xc3\xa9!.")
}

// A prompt is no longer than the place for what it shows, so that one byte more is refused.
fn prompts() -> bool {
    let mut out = [b'.'; 4];
    let answer = Err(Refusal::Prompt);
    visible_prompt(b"\x1b[m>", &mut out) == Ok(1)
        && out == *b">..."
        && visible_prompt(b"\x1b[m>>", &mut out) == answer
        && visible_prompt(b"\x1b[m\x07", &mut out) == answer
        && visible_prompt(b"\t", &mut out) == answer
        && out == *b">..."
}
