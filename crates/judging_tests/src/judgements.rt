// Which refusal comes first, and which hints fit. What is expected follows from the rules (docs/REFUSALS.md): 3, 4, 5, 6.
use crate::places::{Laid, at, laid, place, window};
use judging::hints::fit_hint;
use judging::judging::{Placed, judge_insert, judge_line, judge_message, judge_set};
use lines::line_buffer::LineBuffer;
use lines::note::Note;
use measuring::measuring::Window;
use std::test::Fail;
use terminal::size::Size;
use text::refusal::Refusal;
use widths::tables::{Eastern, Latin};

const LONG: [u8; 4097] = [b'a'; 4097];

// What is done with a text behind `> ` in a window of 5 columns and 2 rows: it is set with its edit position, also by the Eastern
// table, inserted so many times at position 2 of `12345`, shown as a message below that line, or judged as a line is, with its
// position and in so many rows.
#[derive(Drop)]
enum Deed {
    Set(usize),
    SetWide(usize),
    Insert(u16),
    Message,
    Line(usize, u16),
}

// A line with its edit position, judged in 5 columns and so many rows.
fn judged(text: &[u8], pos: usize, rows: u16) -> Result<Result<Placed, Refusal>, Fail> {
    let mut line = LineBuffer::new();
    line.update(text, pos)?;
    let window = Window {
        size: Size::new(5, rows)?,
        prompt: place((2, 0)),
    };
    Ok(judge_line::<Latin>(window, &line))
}

// Whether a deed with a text is refused as expected, or is not where nothing is expected.
fn answers(deed: &Deed, text: &[u8], expected: Option<Refusal>) -> Result<bool, Fail> {
    let window = window()?;
    let mut line = LineBuffer::new();
    line.update(b"12345", 2)?;
    let refusal = match *deed {
        Deed::Set(pos) => judge_set::<Latin>(window, text, pos).err(),
        Deed::SetWide(pos) => judge_set::<Eastern>(window, text, pos).err(),
        Deed::Insert(count) => judge_insert::<Latin>(window, &line, text, count).err(),
        Deed::Message => judge_message::<Latin>(window, &line, text).err(),
        Deed::Line(pos, rows) => judged(text, pos, rows)?.err(),
    };
    Ok(refusal == expected)
}

const SHORT_TEXTS: [(Deed, &[u8], Option<Refusal>); 22] = [
    (Deed::Set(8), b"1234567\xc3\xa9", Some(Refusal::Place)),
    (Deed::Set(0), b"12345678", Some(Refusal::Tall)),
    (Deed::Set(7), b"1234567", None),
    (Deed::Set(6), b"123\n\xc3\xa9", None),
    (Deed::SetWide(0), b"12\xe4\xb8\xad3", None),
    (Deed::SetWide(0), b"12\xe4\xb8\xad345", Some(Refusal::Tall)),
    (Deed::Insert(0), b"\t", Some(Refusal::Text)),
    (Deed::Insert(65535), b"ab", Some(Refusal::Text)),
    (Deed::Insert(1), b"", Some(Refusal::Text)),
    (Deed::Insert(4092), b"a", Some(Refusal::Long)),
    (Deed::Insert(4091), b"a", Some(Refusal::Tall)),
    (Deed::Insert(3), b"a", Some(Refusal::Tall)),
    (Deed::Insert(2), b"a", None),
    (Deed::Insert(0), b"a", None),
    (Deed::Insert(2000), b"\xcc\x81", None),
    (Deed::Message, b"678", Some(Refusal::Tall)),
    (Deed::Message, b"\n", Some(Refusal::Tall)),
    (Deed::Message, b"67", None),
    (Deed::Message, b"", None),
    (Deed::Line(2, 2), b"12345", None),
    (Deed::Line(0, 2), b"12345678", Some(Refusal::Tall)),
    (Deed::Line(3, 1), b"123", Some(Refusal::Tall)),
];

// A set and an insert are judged with the line that they make, a message with the line above it.
#[test]
fn refusals(rt: HostRuntime) -> Result<(), Fail> {
    for (deed, text, expected) in SHORT_TEXTS.iter() {
        assert!(rt; answers(deed, text, *expected)?);
    }
    let mut bad = LONG;
    bad[4096] = 7;
    let mut message = LONG;
    message[1024] = 7;
    let long_texts: [(Deed, &[u8], Option<Refusal>); 7] = [
        (Deed::Set(9999), &bad, Some(Refusal::Text)),
        (Deed::Set(9999), &LONG, Some(Refusal::Long)),
        (Deed::Set(4097), &LONG[..4096], Some(Refusal::Place)),
        (Deed::Set(4096), &LONG[..4096], Some(Refusal::Tall)),
        (Deed::Message, &message, Some(Refusal::Text)),
        (Deed::Message, &LONG[..1025], Some(Refusal::Long)),
        (Deed::Message, &LONG[..1024], Some(Refusal::Tall)),
    ];
    for (deed, text, expected) in long_texts.iter() {
        assert!(rt; answers(deed, text, *expected)?);
    }
    Ok(())
}

// A line with its edit position at the end; where it ends, what is laid out, and where the prompt ends.
const LINES: [(&[u8], (u16, u16), Laid); 2] = [
    (b"a", (3, 0), ((3, 0), (3, 0), false)),
    (b"123", (5, 0), ((0, 1), (0, 1), true)),
];

// Whether a judged line comes with its places and its layout.
fn comes(text: &[u8], end: (u16, u16), expected: Laid) -> Result<bool, Fail> {
    let line = judged(text, text.len(), 2)??;
    let prompt = at(line.layout.prompt_size());
    Ok(at(line.ends.end) == end && laid(line.layout) == expected && prompt == (2, 0))
}

// A hint behind the line `a`, or none; where the block ends if the hint is kept.
const HINTS: [(Option<&[u8]>, Option<(u16, u16)>); 6] = [
    (Some(b"b"), Some((4, 0))),
    (Some(b"bc"), Some((0, 1))),
    (Some(b"bcdefg"), Some((4, 1))),
    (Some(b"bcdefgh"), None),
    (Some(b"b\n\n"), None),
    (None, None),
];

// Whether a hint is kept and ends the block where expected, or is dropped where nothing is expected.
fn fits(text: Option<&[u8]>, expected: Option<(u16, u16)>) -> Result<bool, Fail> {
    let line = judged(b"a", 1, 2)??;
    let mut hint = Note::new();
    if let Some(text) = text {
        hint.set(text)?;
    }
    let layout = fit_hint::<Latin>(window()?, line, &mut hint);
    let kept = if expected.is_some() { text } else { None };
    let end = at(layout.end()) == expected.unwrap_or((3, 0));
    Ok(end && at(layout.cursor()) == (3, 0) && hint.get() == kept)
}

// In a layout alone a full row counts as the next. A hint that the window holds stays, and the block ends behind it; one that it does
// not hold is dropped.
#[test]
fn lines_and_hints(rt: HostRuntime) -> Result<(), Fail> {
    for (text, end, expected) in LINES {
        assert!(rt; comes(text, end, expected)?);
    }
    for (text, expected) in HINTS {
        assert!(rt; fits(text, expected)?);
    }
    Ok(())
}
