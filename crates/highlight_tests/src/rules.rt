// What follows from the rules: brackets remembered from another line, room for the answer, the plain highlighter.
use highlight::brackets::{Bracket, find_matching_bracket};
use highlight::highlight::{CmdKind, Highlighter};
use highlight::matching::MatchingBracketHighlighter;
use highlight::plain::PlainHighlighter;

// Whether a line is answered with certain bytes.
fn answers<H: Highlighter>(highlighter: &H, line: &[u8], expected: &[u8]) -> bool {
    let mut out = [0u8; 300];
    let n = highlighter.highlight(line, 0, &mut out);
    n.is_some_and(|n| out.get(..n) == Some(expected))
}

// A bracket that was remembered from a longer line: an opening one is looked from only within the line, a closing one also from its end.
#[test]
fn memory_of_another_line(rt: HostRuntime) {
    let mut opening = MatchingBracketHighlighter::new();
    assert!(rt; opening.highlight_char(b"abc(d", 3, CmdKind::Other));
    assert!(rt; answers(&opening, b"ab", b"ab"));
    let mut closing = MatchingBracketHighlighter::new();
    assert!(rt; closing.highlight_char(b"ab)", 3, CmdKind::Other));
    assert!(rt; answers(&closing, b"((", b"(\x1b[1;34m(\x1b[0m"));
    assert!(rt; answers(&closing, b"(", b"("));
    assert!(rt; !closing.highlight_char(b"ab)", 3, CmdKind::ForcedRefresh));
    assert!(rt; answers(&closing, b"((", b"(("));
}

// The search begins behind an opening bracket and before a closing one; another byte has no partner.
#[test]
fn partners(rt: HostRuntime) {
    assert_eq!(rt;
        find_matching_bracket(b"((", 2, b')'),
        Some(Bracket { byte: b'(', at: 1 })
    );
    assert_eq!(rt; find_matching_bracket(b"((", 3, b')'), None);
    assert_eq!(rt; find_matching_bracket(b"))", 1, b'('), None);
    assert_eq!(rt; find_matching_bracket(b"))", 2, b'('), None);
    assert_eq!(rt; find_matching_bracket(b"aa", 1, b'a'), None);
}

// An answer may be 256 bytes longer than its text, and less room is refused.
#[test]
fn room(rt: HostRuntime) {
    let mut small = [7u8; 258];
    assert!(rt; PlainHighlighter.highlight(b"abc", 3, &mut small).is_none());
    assert!(rt; small == [7u8; 258]);
    let mut large = [7u8; 259];
    assert_eq!(rt;
        PlainHighlighter.highlight_hint(b"abc", &mut large),
        Some(3)
    );
    assert!(rt; &large[..5] == b"abc\x07\x07".as_slice());
}

#[test]
fn plain(rt: HostRuntime) {
    let mut plain = PlainHighlighter;
    assert!(rt; !plain.highlight_char(b"()", 0, CmdKind::Other));
    assert!(rt; answers(&plain, b"()", b"()"));
    let mut out = [0u8; 300];
    assert_eq!(rt;
        plain.highlight_prompt(b"\x1b[1m> ", true, &mut out),
        Some(6)
    );
    assert!(rt; &out[..6] == b"\x1b[1m> ".as_slice());
}
