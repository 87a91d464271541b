// Measured texts. The expected places of LATIN and EASTERN were printed by rustyline's own `calculate_position`, compiled
// with these width tables and clusters in place of its libraries; those of DIFFERENT follow from our rules, where it answers otherwise.
use layout::layout::Position;
use layout::measure::{Rows, Walk, calculate_position};
use std::cmp::Ordering;
use std::process::Abort;
use std::test::Fail;
use text::refusal::Refusal;
use widths::tables::{Eastern, Latin, WidthTable};

// A text, the columns, the tab stop, the origin, and where the text ends; a place is its column and row.
#[derive(Clone, Copy)]
struct Case(&'static [u8], u16, u16, (u16, u16), (u16, u16));

// By rustyline, Latin table.
const LATIN: [Case; 30] = [
    Case(b"abc", 5, 8, (2, 0), (0, 1)),
    Case(b"abcd", 5, 8, (2, 0), (1, 1)),
    Case(b"> ab\xe4\xb8\xad", 5, 8, (0, 0), (0, 1)),
    Case(b"> abc\nd", 5, 8, (0, 0), (1, 1)),
    Case(b"", 5, 8, (5, 0), (0, 1)),
    Case(b"", 5, 8, (6, 0), (6, 0)),
    Case(b"\x07", 5, 8, (6, 0), (0, 1)),
    Case(b"a", 5, 8, (6, 0), (1, 1)),
    Case(b"\n", 5, 8, (6, 3), (0, 4)),
    Case(b"a\tb", 80, 8, (0, 0), (9, 0)),
    Case(b"\t", 80, 4, (3, 0), (4, 0)),
    Case(b"\t", 80, 4, (4, 0), (8, 0)),
    Case(b"\x1b[1;34mab\x1b[0m", 80, 8, (0, 0), (2, 0)),
    Case(b"\x1b[Ax", 80, 8, (0, 0), (1, 0)),
    Case(b"\x1bcx", 80, 8, (0, 0), (1, 0)),
    Case(b"\x1b\na", 80, 8, (0, 0), (0, 1)),
    Case(b"\x1b[1\n2ma", 80, 8, (0, 0), (1, 1)),
    Case(b"\x1b\x1b[1m", 80, 8, (0, 0), (3, 0)),
    Case(b"\x1b[1\x1b[1m", 80, 8, (0, 0), (3, 0)),
    Case(b"\x1b[\xcc\x811", 80, 8, (0, 0), (1, 0)),
    Case(b"\x1b[1\xcc\x812ma", 80, 8, (0, 0), (1, 0)),
    Case(b"\x1b\xcc\x81[1m", 80, 8, (0, 0), (3, 0)),
    Case(b"a\xcc\x81\xcc\x81b\xcc\x81", 80, 8, (0, 0), (2, 0)),
    Case(b"\n\xcc\x81a", 80, 8, (0, 0), (1, 1)),
    Case(b"abc\xcc\x81", 2, 8, (0, 0), (1, 1)),
    Case(b"ab\xcc\x81", 2, 8, (0, 0), (0, 1)),
    Case(b"\xc2\x9b1m", 80, 8, (0, 0), (2, 0)),
    Case(b"\r\x7fa", 80, 8, (0, 0), (1, 0)),
    Case(b"x", 500, 1, (500, 60000), (1, 60001)),
    Case(b"x", 500, 32, (499, 60000), (0, 60001)),
];

// By rustyline, Eastern table.
const EASTERN: [Case; 6] = [
    Case(b"> ab\xe4\xb8\xad", 5, 8, (0, 0), (2, 1)),
    Case(b"\xe4\xb8\xad\xe4\xb8\xad", 2, 8, (0, 0), (0, 2)),
    Case(b"\xe4\xb8\xad\xe4\xb8\xad", 3, 8, (0, 0), (2, 1)),
    Case(b"\xe4\xb8\xad", 2, 8, (1, 0), (0, 2)),
    Case(b"\xe4\xb8\xad\xcc\x81a", 80, 8, (0, 0), (3, 0)),
    Case(b"\x1b[0m\xe4\xb8\xad", 80, 8, (0, 0), (2, 0)),
];

// Where rustyline answers otherwise: other bytes than digits and `;` in a sequence, marks there, and tabs near the last column.
const DIFFERENT: [Case; 8] = [
    Case(b"\x1b[?25l", 80, 8, (0, 0), (0, 0)),
    Case(b"\x1b[;\xcc\x811m", 80, 8, (0, 0), (0, 0)),
    Case(b"\t", 5, 8, (0, 0), (4, 0)),
    Case(b"\t", 8, 8, (0, 0), (7, 0)),
    Case(b"\t", 5, 8, (4, 0), (4, 0)),
    Case(b"abcde\t", 5, 8, (0, 0), (0, 1)),
    Case(b"\t", 5, 8, (10, 0), (10, 0)),
    Case(b"\t\x07", 5, 8, (0, 0), (4, 0)),
];

// Measures by a table.
fn measured<W: WidthTable>(
    text: &[u8],
    cols: u16,
    tab_stop: u16,
    origin: (u16, u16),
) -> Result<Position, Refusal> {
    let (col, row) = origin;
    calculate_position::<W>(text, Rows { cols, tab_stop }, Position { col, row })
}

// Whether each case ends where it should.
fn all_end<W: WidthTable>(rt: &impl Abort, cases: &[Case]) {
    for (number, case) in cases.iter().enumerate() {
        let Case(text, cols, tab_stop, origin, (col, row)) = *case;
        let place = measured::<W>(text, cols, tab_stop, origin);
        assert_eq!(rt; place, Ok(Position { col, row }), "{}", number);
    }
}

#[test]
fn places(rt: HostRuntime) {
    all_end::<Latin>(&rt, &LATIN);
    all_end::<Eastern>(&rt, &EASTERN);
    all_end::<Latin>(&rt, &DIFFERENT);
}

// Columns, tab stop and origin, and whether they are refused.
const SIZES: [(u16, u16, (u16, u16), Option<Refusal>); 12] = [
    (1, 8, (0, 0), Some(Refusal::Size)),
    (2, 8, (0, 0), None),
    (500, 8, (0, 0), None),
    (501, 8, (0, 0), Some(Refusal::Size)),
    (80, 0, (0, 0), Some(Refusal::Size)),
    (80, 1, (0, 0), None),
    (80, 32, (0, 0), None),
    (80, 33, (0, 0), Some(Refusal::Size)),
    (80, 8, (0, 60_000), None),
    (80, 8, (0, 60_001), Some(Refusal::Size)),
    (80, 8, (500, 0), None),
    (80, 8, (501, 0), Some(Refusal::Size)),
];

#[test]
fn sizes(rt: HostRuntime) {
    for (number, (cols, tab_stop, origin, refusal)) in SIZES.into_iter().enumerate() {
        let place = measured::<Latin>(b"a", cols, tab_stop, origin);
        assert_eq!(rt; place.err(), refusal, "{}", number);
    }
}

#[test]
fn texts(rt: HostRuntime) {
    let letters = [b'a'; 4097];
    let bad = [0xff; 4097];
    assert!(rt; measured::<Latin>(&letters[..4096], 500, 8, (0, 60_000)).is_ok());
    assert_eq!(rt;
        measured::<Latin>(&letters, 500, 8, (0, 0)),
        Err(Refusal::Long)
    );
    assert_eq!(rt;
        measured::<Latin>(&bad[..1], 500, 8, (0, 0)),
        Err(Refusal::Text)
    );
    assert_eq!(rt; measured::<Latin>(&bad, 500, 8, (0, 0)), Err(Refusal::Text));
    assert_eq!(rt; measured::<Latin>(&bad, 501, 8, (0, 0)), Err(Refusal::Size));
}

#[test]
fn walks(rt: HostRuntime) -> Result<(), Fail> {
    let rows = Rows {
        cols: 5,
        tab_stop: 8,
    };
    let start = Walk::start(Position { col: 0, row: 0 });
    let prompt = start.advance::<Latin>(b"> \x1b[1", rows).ok_or("prompt")?;
    let line = prompt.advance::<Latin>(b"mabc", rows).ok_or("line")?;
    let end = line.place(5).ok_or("end")?;
    assert_eq!(rt; end, Position { col: 0, row: 1 });
    assert_eq!(rt; prompt.position.compare(end), Ordering::Less);
    assert!(rt;
        start
            .advance::<Latin>(
                b"a",
                Rows {
                    tab_stop: 0,
                    ..rows
                }
            )
            .is_none()
    );
    assert!(rt;
        Walk::start(Position {
            col: 5,
            row: 65_535,
        })
        .place(5)
        .is_none()
    );
    Ok(())
}
