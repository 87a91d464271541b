// Damaged UTF-8, and counts over all short byte strings.
use text::decode::char_at;
use text::refusal::Refusal;
use text::styled::check_styled;
use text::texts::check_text;

// Byte strings at whose front no character stands.
const DAMAGED: [&[u8]; 20] = [
    // a continuation byte alone, the first and the last
    b"\x80",
    b"\xbf",
    // characters of two, three and four bytes, cut short
    b"\xc3",
    b"\xe2\x82",
    b"\xe2",
    b"\xf0\x9f\x98",
    // another byte where a continuation byte has to stand
    b"\xc3A",
    b"\xe2A\x80",
    b"\xf0\x9f\x98A",
    // U+0000, U+007F, U+0000, U+07FF, U+0000 and U+FFFF in more bytes than they need
    b"\xc0\x80",
    b"\xc1\xbf",
    b"\xe0\x80\x80",
    b"\xe0\x9f\xbf",
    b"\xf0\x80\x80\x80",
    b"\xf0\x8f\xbf\xbf",
    // the first and the last surrogate
    b"\xed\xa0\x80",
    b"\xed\xbf\xbf",
    // U+110000 and beyond, and a byte that begins nothing
    b"\xf4\x90\x80\x80",
    b"\xf5\x80\x80\x80",
    b"\xff",
];

// What is asked of the strings that are counted.
#[derive(Clone, Copy)]
enum Question {
    Text,
    Styled,
    Character,
}

// How many strings of one byte or two are texts, styled texts, or have a character at their front.
// One byte: LF and the 95 characters from U+0020 to U+007E are texts, and the 128 bytes of ASCII are characters.
// Two bytes: two of the 96 texts of one byte, or one of the 2,048 - 160 characters from U+00A0 to U+07FF: 9,216 + 1,888 texts, also as styled texts, since a
// style sequence has three bytes. A character at the front: 128 ASCII bytes before any byte, or one of the 2,048 - 128 characters of two bytes.
const COUNTS: [(Question, usize, usize); 5] = [
    (Question::Text, 1, 96),
    (Question::Character, 1, 128),
    (Question::Text, 2, 11_104),
    (Question::Styled, 2, 11_104),
    (Question::Character, 2, 34_688),
];

#[test]
fn damage_is_found(rt: HostRuntime) {
    for bytes in DAMAGED {
        assert!(rt; is_damaged(bytes));
    }
    for (question, len, count) in COUNTS {
        assert!(rt; count_of(question, len) == count);
    }
    assert!(rt; is_found_at_the_end());
}

fn is_damaged(bytes: &[u8]) -> bool {
    char_at(bytes, 0).is_none()
        && check_text(bytes) == Err(Refusal::Text)
        && check_styled(bytes) == Err(Refusal::Text)
}

// What stands before damaged bytes does not make them good.
fn is_found_at_the_end() -> bool {
    check_text(b"ab\xc3") == Err(Refusal::Text)
        && char_at(b"ab\xc3", 2).is_none()
        && char_at(b"ab", 2).is_none()
        && char_at(b"ab", 3).is_none()
}

fn count_of(question: Question, len: usize) -> usize {
    let last = if len == 1 { 0xff } else { u16::MAX };
    (0..=last)
        .filter(|number| is_so(question, &number.to_be_bytes(), len))
        .count()
}

// The answer for the last bytes of two.
fn is_so(question: Question, pair: &[u8; 2], len: usize) -> bool {
    let [_, byte] = *pair;
    let one = [byte];
    let bytes = if len == 1 {
        one.as_slice()
    } else {
        pair.as_slice()
    };
    match question {
        Question::Text => check_text(bytes).is_ok(),
        Question::Styled => check_styled(bytes).is_ok(),
        Question::Character => char_at(bytes, 0).is_some(),
    }
}
