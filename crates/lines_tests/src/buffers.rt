// Lines and their edit positions.
use lines::line_buffer::{LineBuffer, MAX_LINE};
use text::refusal::Refusal;

// What is done with a buffer: a line is set with its position, a position is set, a text is inserted so often, each of them also only
// checked, or the line is cleared.
enum Deed {
    Update(&'static [u8], usize),
    CheckUpdate(&'static [u8], usize),
    Pos(usize),
    CheckPos(usize),
    Insert(&'static [u8], u16),
    CheckInsert(&'static [u8], u16),
    Clear,
}

// The refusal of a deed, if it is refused.
fn refusal(buffer: &mut LineBuffer, deed: &Deed) -> Option<Refusal> {
    let done = match *deed {
        Deed::Update(line, pos) => buffer.update(line, pos),
        Deed::CheckUpdate(line, pos) => LineBuffer::check_update(line, pos),
        Deed::Pos(pos) => buffer.set_pos(pos),
        Deed::CheckPos(pos) => buffer.check_pos(pos),
        Deed::Insert(text, count) => buffer.insert(text, count),
        Deed::CheckInsert(text, count) => buffer.check_insert(text, count),
        Deed::Clear => {
            buffer.clear();
            Ok(())
        }
    };
    done.err()
}

// A deed, its refusal, and the line after it, in two parts around the edit position.
type Step = (Deed, Option<Refusal>, &'static [u8], &'static [u8]);

const FULL: [u8; MAX_LINE] = [b'a'; MAX_LINE];

const LONG: [u8; MAX_LINE + 1] = [b'a'; MAX_LINE + 1];

const STEPS: [Step; 34] = [
    // A check answers by the rule of its change, in the rule's order; expected is the first need that fails: 3, 4, then 5.
    (Deed::CheckUpdate(b"caf\xc3\xa9", 5), None, b"", b""),
    (Deed::CheckUpdate(&FULL, MAX_LINE), None, b"", b""),
    (
        Deed::CheckUpdate(b"a\x1b", 9),
        Some(Refusal::Text),
        b"",
        b"",
    ),
    (
        Deed::CheckUpdate(&LONG, 9999),
        Some(Refusal::Long),
        b"",
        b"",
    ),
    (
        Deed::CheckUpdate(b"caf\xc3\xa9", 4),
        Some(Refusal::Place),
        b"",
        b"",
    ),
    (Deed::Update(b"caf\xc3\xa9", 3), None, b"caf", b"\xc3\xa9"),
    (Deed::CheckPos(5), None, b"caf", b"\xc3\xa9"),
    (Deed::CheckPos(4), Some(Refusal::Place), b"caf", b"\xc3\xa9"),
    (Deed::CheckPos(6), Some(Refusal::Place), b"caf", b"\xc3\xa9"),
    (
        Deed::CheckInsert(b"\xc3\xa9", 2045),
        None,
        b"caf",
        b"\xc3\xa9",
    ),
    (
        Deed::CheckInsert(b"\xc3\xa9", 2046),
        Some(Refusal::Long),
        b"caf",
        b"\xc3\xa9",
    ),
    (
        Deed::CheckInsert(b"ab", 9999),
        Some(Refusal::Text),
        b"caf",
        b"\xc3\xa9",
    ),
    // Bad text is refusal 3, a long line 4, a position past the line or inside a character 5; the buffer stays.
    (Deed::Update(b"\xc3\xa9", 2), None, b"\xc3\xa9", b""),
    (
        Deed::Update(b"a\x1b", 9),
        Some(Refusal::Text),
        b"\xc3\xa9",
        b"",
    ),
    (
        Deed::Update(b"\xc3", 0),
        Some(Refusal::Text),
        b"\xc3\xa9",
        b"",
    ),
    (
        Deed::Update(&LONG, 9999),
        Some(Refusal::Long),
        b"\xc3\xa9",
        b"",
    ),
    (
        Deed::Update(b"ab", 3),
        Some(Refusal::Place),
        b"\xc3\xa9",
        b"",
    ),
    (Deed::Pos(1), Some(Refusal::Place), b"\xc3\xa9", b""),
    (Deed::Pos(3), Some(Refusal::Place), b"\xc3\xa9", b""),
    (Deed::Insert(b"", 1), Some(Refusal::Text), b"\xc3\xa9", b""),
    (
        Deed::Insert(b"ab", 1),
        Some(Refusal::Text),
        b"\xc3\xa9",
        b"",
    ),
    (
        Deed::Insert(b"\t", 0),
        Some(Refusal::Text),
        b"\xc3\xa9",
        b"",
    ),
    (
        Deed::Insert(b"a", 4095),
        Some(Refusal::Long),
        b"\xc3\xa9",
        b"",
    ),
    // A cleared line is empty, and takes another.
    (Deed::Update(b"caf\xc3\xa9", 3), None, b"caf", b"\xc3\xa9"),
    (Deed::Clear, None, b"", b""),
    (Deed::Insert(b"x", 2), None, b"xx", b""),
    // A line of 4,096 bytes is taken, and one that an insert makes so long; then nothing goes in.
    (Deed::Update(&FULL, MAX_LINE), None, &FULL, b""),
    (Deed::Insert(b"b", 1), Some(Refusal::Long), &FULL, b""),
    (Deed::Update(b"", 0), None, b"", b""),
    (Deed::Insert(b"a", 4096), None, &FULL, b""),
    // A line is taken with its position, and a character goes in before the position, as often as told.
    (
        Deed::Update(b"caf\xc3\xa9 noir", 3),
        None,
        b"caf",
        b"\xc3\xa9 noir",
    ),
    (Deed::Pos(5), None, b"caf\xc3\xa9", b" noir"),
    (
        Deed::Insert(b"\xc3\xbc", 2),
        None,
        b"caf\xc3\xa9\xc3\xbc\xc3\xbc",
        b" noir",
    ),
    (
        Deed::Insert(b"x", 0),
        None,
        b"caf\xc3\xa9\xc3\xbc\xc3\xbc",
        b" noir",
    ),
];

// Whether a buffer has a certain line, in two parts around the edit position.
fn holds(buffer: &LineBuffer, front: &[u8], rest: &[u8]) -> bool {
    buffer.front() == front && buffer.rest() == rest && buffer.pos() == front.len()
}

#[test]
fn changes(rt: HostRuntime) {
    let mut buffer = LineBuffer::new();
    for (deed, expected, front, rest) in STEPS.iter() {
        let refused = refusal(&mut buffer, deed);
        assert!(rt; refused == *expected && holds(&buffer, front, rest));
    }
    assert!(rt; buffer.line() == b"caf\xc3\xa9\xc3\xbc\xc3\xbc noir".as_slice());
}
