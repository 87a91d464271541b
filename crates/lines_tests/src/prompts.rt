// Prompts.
use lines::prompt::{MAX_PROMPT, Prompt};
use text::refusal::Refusal;

const FULL: [u8; MAX_PROMPT] = [b'a'; MAX_PROMPT];

const LONG: [u8; MAX_PROMPT + 1] = [b'a'; MAX_PROMPT + 1];

// The plain form, the styled form, and what they show, if they are taken.
type Forms = (&'static [u8], &'static [u8], Option<&'static [u8]>);

// Refused are forms that show different texts, that are no good styled text, or that are too long.
const FORMS: [Forms; 6] = [
    (b"> ", b"\x1b[1;32m>\x1b[0m ", Some(b"> ")),
    (b"> ", b"\x1b[1m>\x1b[0m", None),
    (b"> \x1b[K", b"> ", None),
    (b"> ", b"> \x1b[1", None),
    (b"\xff", b"\xff", None),
    (&LONG, &LONG, None),
];

// Whether both forms are kept as they are, and what they show, or the prompt is refused where nothing is shown.
fn keeps(raw: &[u8], styled: &[u8], shown: Option<&[u8]>) -> bool {
    match Prompt::new(raw, styled) {
        Ok(prompt) => {
            let both = prompt.raw() == raw && prompt.styled() == styled;
            both && shown == Some(prompt.visible())
        }
        Err(refusal) => refusal == Refusal::Prompt && shown.is_none(),
    }
}

// Whether a plain prompt is taken, and its copy has the same forms while the prompt stays.
fn copies(form: &[u8]) -> bool {
    let Ok(prompt) = Prompt::plain(form) else {
        return false;
    };
    let table = [prompt; 2];
    table[1].raw() == prompt.raw() && table[1].visible() == form
}

#[test]
fn prompts(rt: HostRuntime) {
    for (raw, styled, shown) in FORMS {
        assert!(rt; keeps(raw, styled, shown));
    }
    for form in [b"> ".as_slice(), &FULL, b""] {
        assert!(rt; copies(form));
    }
}
