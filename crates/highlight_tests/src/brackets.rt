// Brackets and their partners, against rustyline.
use highlight::brackets::{Bracket, check_bracket};
use highlight::highlight::{CmdKind, Highlighter};
use highlight::matching::MatchingBracketHighlighter;
use std::process::Abort;

// A line; for each position from 0 to one past its end, the index of the bracket that is found, as a digit, or `-`; and likewise the index of the bracket
// that is lit. Each line of up to three bytes of `(`, `)` and `a`, and some longer ones.
// The answers are rustyline's: its source was compiled as it is, and a small program called `check_bracket`, `highlight_char` and `highlight`
// of a new `MatchingBracketHighlighter` for each line and position.
const ROWS: [(&[u8], &[u8], &[u8]); 53] = [
    (b"", b"--", b"--"),
    (b"(", b"---", b"---"),
    (b")", b"-00", b"---"),
    (b"a", b"---", b"---"),
    (b"((", b"0---", b"----"),
    (b"()", b"0111", b"1000"),
    (b"(a", b"00--", b"----"),
    (b")(", b"----", b"----"),
    (b"))", b"-111", b"----"),
    (b")a", b"----", b"----"),
    (b"a(", b"----", b"----"),
    (b"a)", b"-111", b"----"),
    (b"aa", b"----", b"----"),
    (b"(((", b"01---", b"-----"),
    (b"(()", b"01222", b"-2111"),
    (b"((a", b"011--", b"-----"),
    (b"()(", b"01---", b"10---"),
    (b"())", b"01222", b"10---"),
    (b"()a", b"011--", b"100--"),
    (b"(a(", b"00---", b"-----"),
    (b"(a)", b"00222", b"22000"),
    (b"(aa", b"00---", b"-----"),
    (b")((", b"-1---", b"-----"),
    (b")()", b"-1222", b"-2111"),
    (b")(a", b"-11--", b"-----"),
    (b"))(", b"-1---", b"-----"),
    (b")))", b"-1222", b"-----"),
    (b"))a", b"-11--", b"-----"),
    (b")a(", b"-----", b"-----"),
    (b")a)", b"--222", b"-----"),
    (b")aa", b"-----", b"-----"),
    (b"a((", b"-1---", b"-----"),
    (b"a()", b"-1222", b"-2111"),
    (b"a(a", b"-11--", b"-----"),
    (b"a)(", b"-1---", b"-----"),
    (b"a))", b"-1222", b"-----"),
    (b"a)a", b"-11--", b"-----"),
    (b"aa(", b"-----", b"-----"),
    (b"aa)", b"--222", b"-----"),
    (b"aaa", b"-----", b"-----"),
    (b"(a)(", b"002---", b"220---"),
    (b"([)]", b"012333", b"230111"),
    (b"[{}]", b"012333", b"321000"),
    (b"{(})", b"012333", b"230111"),
    (b"[a]b", b"0022--", b"2200--"),
    (b"()()", b"012333", b"103222"),
    (b"((a)", b"011333", b"-33111"),
    (b"(a))", b"002333", b"220---"),
    (b"(())", b"012333", b"321000"),
    (b"[(])", b"012333", b"230111"),
    (b"}a{", b"-----", b"-----"),
    (b"\xc3\xa9)", b"--222", b"-----"),
    (b"(\xc3\xa9)", b"00-333", b"33-000"),
];

// The index that a digit of a row gives.
fn index_of(digit: u8) -> Option<usize> {
    char::from(digit).to_digit(10).map(|index| index as usize)
}

// Whether an answer is the line with the byte at an index lit; none where it is another before the end.
fn is_lit(answer: &[u8], line: &[u8], at: usize) -> Option<bool> {
    let (front, back) = line.split_at_checked(at)?;
    let (byte, back) = back.split_first()?;
    let rest = answer
        .strip_prefix(front)?
        .strip_prefix(b"\x1b[1;34m")?
        .strip_prefix(&[*byte])?
        .strip_prefix(b"\x1b[0m")?;
    Some(rest == back)
}

// Whether the bracket that is found is the one at an index of the line.
fn is_found(found: Option<Bracket>, line: &[u8], at: Option<usize>) -> bool {
    match (found, at) {
        (None, None) => true,
        (Some(bracket), Some(i)) => bracket.at == i && line.get(i) == Some(&bracket.byte),
        _ => false,
    }
}

// Whether a line is answered as its row says at a position.
fn is_answered(line: &[u8], pos: usize, at: Option<usize>, lit: Option<usize>) -> bool {
    let mut highlighter = MatchingBracketHighlighter::new();
    let yes = highlighter.highlight_char(line, pos, CmdKind::MoveCursor);
    if yes != at.is_some() || !is_found(check_bracket(line, pos), line, at) {
        return false;
    }
    let mut out = [0u8; 300];
    let Some(n) = highlighter.highlight(line, pos, &mut out) else {
        return false;
    };
    out.get(..n).is_some_and(|answer| match lit {
        Some(i) => is_lit(answer, line, i) == Some(true),
        None => answer == line,
    })
}

// Checks each position of each row.
fn check_rows(rt: &impl Abort, rows: &[(&[u8], &[u8], &[u8])]) {
    for (line, checks, lights) in rows {
        for (pos, (check, light)) in checks.iter().zip(*lights).enumerate() {
            assert!(rt; is_answered(line, pos, index_of(*check), index_of(*light)));
        }
    }
}

#[test]
fn rows_are_answered(rt: HostRuntime) {
    check_rows(&rt, &ROWS);
}
