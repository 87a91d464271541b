// Lines, and texts of at most so many bytes.
use text::lines::Lines;
use text::refusal::Refusal;
use text::texts::check_text_within;

// Texts, and their lines.
const LINES: [(&[u8], &[&[u8]]); 8] = [
    (b"", &[]),
    (b"\n", &[b""]),
    (b"a", &[b"a"]),
    (b"a\n", &[b"a"]),
    (b"a\nb", &[b"a", b"b"]),
    (b"\nb\n", &[b"", b"b"]),
    (b"a\n\nb", &[b"a", b"", b"b"]),
    (b"a\n\n", &[b"a", b""]),
];

// Texts, and the answer on at most so many bytes: a text is refused as text before it is refused as too long.
const LENGTHS: [(&[u8], usize, Result<(), Refusal>); 5] = [
    (b"abc", 3, Ok(())),
    (b"abc", 2, Err(Refusal::Long)),
    (b"ab\t", 2, Err(Refusal::Text)),
    (b"ab\t", 3, Err(Refusal::Text)),
    (b"", 0, Ok(())),
];

// Lines end at LF.
#[test]
fn lines_and_lengths(rt: HostRuntime) {
    for (bytes, lines) in LINES {
        let count = Lines::new(bytes).count();
        assert!(rt; count == lines.len() && Lines::new(bytes).eq(lines.iter().copied()));
    }
    for (bytes, most, answer) in LENGTHS {
        assert!(rt; check_text_within(bytes, most) == answer);
    }
}
