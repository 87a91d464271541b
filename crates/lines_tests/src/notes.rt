// Notes.
use hint::hint::NoHinter;
use hint::script::ScriptHinter;
use lines::note::{MAX_NOTE, Note};
use lines::notice::{MAX_NOTICE, check_notice};
use text::refusal::Refusal;

// What is done with a note: a text is set, or only checked, or checked as a notice; the note is cleared; it becomes the copy of another
// note, to which a text is set, or none; it takes the answer of a hinter with a script, or of none, behind `good`.
enum Deed {
    Set(&'static [u8]),
    Check(&'static [u8]),
    CheckNotice(&'static [u8]),
    Clear,
    Copy(Option<&'static [u8]>),
    Fill(Option<&'static [u8]>),
}

// Makes a note the copy of another that has a text or none.
fn copy(note: &mut Note, other: &mut Note, text: Option<&[u8]>) -> Result<(), Refusal> {
    match text {
        Some(text) => other.set(text)?,
        None => other.clear(),
    }
    note.copy_from(other);
    Ok(())
}

// Fills a note with the answer of a hinter.
fn fill(note: &mut Note, script: Option<&[u8]>) {
    match script {
        Some(script) => note.fill(&ScriptHinter::new(script), b"good", 4),
        None => note.fill(&NoHinter, b"good", 4),
    }
}

// The refusal of a deed, if it is refused.
fn refusal(note: &mut Note, other: &mut Note, deed: &Deed) -> Option<Refusal> {
    let done = match *deed {
        Deed::Set(text) => note.set(text),
        Deed::Check(text) => Note::check(text),
        Deed::CheckNotice(text) => check_notice(text),
        Deed::Clear => {
            note.clear();
            Ok(())
        }
        Deed::Copy(text) => copy(note, other, text),
        Deed::Fill(script) => {
            fill(note, script);
            Ok(())
        }
    };
    done.err()
}

// A deed, its refusal, and the note after it.
type Step = (Deed, Option<Refusal>, Option<&'static [u8]>);

const FULL: [u8; MAX_NOTE] = [b'a'; MAX_NOTE];

const LONG: [u8; MAX_NOTE + 1] = [b'a'; MAX_NOTE + 1];

const BAD: [u8; MAX_NOTE + 1] = [7; MAX_NOTE + 1];

const FULL_NOTICE: [u8; MAX_NOTICE] = [b'a'; MAX_NOTICE];

const LONG_NOTICE: [u8; MAX_NOTICE + 1] = [b'a'; MAX_NOTICE + 1];

const STEPS: [Step; 20] = [
    // A note and a notice are good texts, of at most 1,024 and 4,096 bytes: bad text is refusal 3, a long one 4.
    (Deed::Check(b""), None, None),
    (Deed::Check(&FULL), None, None),
    (Deed::Check(&LONG), Some(Refusal::Long), None),
    (Deed::Check(&BAD), Some(Refusal::Text), None),
    (Deed::CheckNotice(b"on air\n"), None, None),
    (Deed::CheckNotice(&FULL_NOTICE), None, None),
    (Deed::CheckNotice(&LONG_NOTICE), Some(Refusal::Long), None),
    (Deed::CheckNotice(b"\xc3"), Some(Refusal::Text), None),
    // A note is none until it is set; a refused text leaves it as it was.
    (Deed::Set(b"on air"), None, Some(b"on air")),
    (Deed::Set(b"\x07"), Some(Refusal::Text), Some(b"on air")),
    (Deed::Set(&LONG), Some(Refusal::Long), Some(b"on air")),
    (Deed::Set(&FULL), None, Some(&FULL)),
    (Deed::Set(b""), None, Some(b"")),
    (Deed::Clear, None, None),
    // A copy holds what the other note holds, whatever it held before: longer, shorter or none.
    (Deed::Set(b"on air in five"), None, Some(b"on air in five")),
    (Deed::Copy(Some(b"on air")), None, Some(b"on air")),
    (Deed::Copy(Some(b"")), None, Some(b"")),
    (Deed::Copy(None), None, None),
    // A hinter's answer takes the place of the note, also when it is none.
    (Deed::Fill(Some(b"good evening\n")), None, Some(b" evening")),
    (Deed::Fill(None), None, None),
];

#[test]
fn changes(rt: HostRuntime) {
    let mut note = Note::new();
    let mut other = Note::new();
    for (deed, expected, left) in STEPS.iter() {
        let refused = refusal(&mut note, &mut other, deed);
        assert!(rt; refused == *expected && note.get() == *left);
    }
}
