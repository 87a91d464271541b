// Hints from a script of captions.
use hint::hint::{Hinter, MAX_HINT, NoHinter};
use hint::script::ScriptHinter;

// A control in a caption, and an empty line; the last caption has no LF.
const CAPTIONS: &[u8] = b"hello world\nhello there\n\nbad\x01\nbadger\ncaf\xc3\xa9 noir";

// Whether a hinter has a certain hint, which leaves the rest of the place as it was.
fn hints<N: Hinter>(hinter: &N, line: &[u8], pos: usize, expected: &[u8]) -> bool {
    let mut out = [7u8; MAX_HINT];
    let n = hinter.hint(line, pos, &mut out);
    n.is_some_and(|n| out.get(..n) == Some(expected) && out.get(n) == Some(&7))
}

// Whether a hinter has no hint, and leaves the place as it was.
fn has_none<N: Hinter>(hinter: &N, line: &[u8], pos: usize) -> bool {
    let mut out = [7u8; MAX_HINT];
    hinter.hint(line, pos, &mut out).is_none() && out == [7u8; MAX_HINT]
}

// The first caption that is good, longer than the line and begins with it.
#[test]
fn first_caption(rt: HostRuntime) {
    let script = ScriptHinter::new(CAPTIONS);
    assert!(rt; hints(&script, b"h", 1, b"ello world"));
    assert!(rt; hints(&script, b"hello t", 7, b"here"));
    assert!(rt; hints(&script, b"bad", 3, b"ger"));
    assert!(rt; hints(&script, b"caf", 3, b"\xc3\xa9 noir"));
    assert!(rt; has_none(&script, b"hello world", 11));
    assert!(rt; has_none(&script, b"hi", 2));
    assert!(rt; has_none(&script, b"hello there\n", 12));
}

// An empty line, a position that is not at the end, and a line that ends inside a character have no hint.
#[test]
fn no_hint(rt: HostRuntime) {
    let script = ScriptHinter::new(CAPTIONS);
    assert!(rt; has_none(&script, b"", 0));
    assert!(rt; has_none(&script, b"hello", 4));
    assert!(rt; has_none(&script, b"hello", 6));
    assert!(rt; has_none(&script, b"caf\xc3", 4));
    assert!(rt; has_none(&ScriptHinter::new(b""), b"h", 1));
    assert!(rt; has_none(&NoHinter, b"h", 1));
}

// A rest of 1,024 bytes is a hint. A longer one is none, and later captions are not tried.
#[test]
fn long_rest(rt: HostRuntime) {
    let mut captions = [b'a'; 1030];
    captions[1025] = b'\n';
    let mut out = [7u8; MAX_HINT];
    assert_eq!(rt;
        ScriptHinter::new(&captions).hint(b"a", 1, &mut out),
        Some(1024)
    );
    assert!(rt; out == [b'a'; MAX_HINT]);
    captions[1025] = b'a';
    captions[1026] = b'\n';
    assert!(rt; has_none(&ScriptHinter::new(&captions), b"a", 1));
    assert!(rt; hints(&ScriptHinter::new(&captions[1026..]), b"a", 1, b"aa"));
}
