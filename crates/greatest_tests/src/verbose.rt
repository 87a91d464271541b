// A highlighter whose every answer is as long as one may be.
ghost use Rattle.std.specs.Prelude.{◌≡◌, ◌+◌, ◌≤◌, false, ◌++◌, length, take, drop};
ghost use Rattle.highlight.specs.Answers.{Answers};
ghost use Rattle.text.proofs.Styling.{spells-styled};
ghost use Rattle.greatest_tests.specs.Padding.{padded};
ghost use Rattle.greatest_tests.specs.Padded.{padded-shown};

use highlight::highlight::{CmdKind, Highlighter};

// One style sequence of 256 bytes: ESC, `[`, 253 zeros and `m`.
pub(crate) const PADDING: [u8; 256] =
    *b"\x1b[0000000000000000000000000000000000000000000000000000000000000000000000000000000000000000000000000000000000000000000000000000000000000000000000000000000000000000000000000000000000000000000000000000000000000000000000000000000000000000000000000000000000000m";

// Puts bytes at an index of a place.
fn put(out: &mut [u8], at: usize, bytes: &[u8])
    requires { at + length bytes.now ≤ length out.old }
    ensures front { take (at + length bytes.now) out.new ≡ take at out.old ++ bytes.now }
    ensures rest { drop (at + length bytes.now) out.new ≡ drop (at + length bytes.now) out.old }
    ensures long { length out.new ≡ length out.old }
{
    let end = at + bytes.len();
    out[at..end].copy_from_slice(bytes);
}

// Answers a text with the sequence before it.
fn answer(text: &[u8], out: &mut [u8]) -> Option<usize>
    ensures { Answers (λ lit. lit ≡ padded text.now) text.now out.old result out.new }
{
    if text.len() + PADDING.len() > out.len() {
        return None;
    }
    put(out, 0, &PADDING);
    put(out, PADDING.len(), text);
    Some(text.len() + PADDING.len())
}

// It puts the sequence before each text.
#[derive(Clone, Copy)]
pub(crate) struct Verbose;

impl Highlighter for Verbose {
    ghost lights = { λ _ line _ lit. lit ≡ padded line };

    ghost lights_prompt = { λ _ prompt _ lit. lit ≡ padded prompt };

    ghost lights_hint = { λ _ hint lit. lit ≡ padded hint };

    ghost heeds = { λ h _ _ _ yes k. (yes ≡ false) × (k ≡ h) };

    ghost line_shown = { λ h line cs lit pos s e. padded-shown (spells-styled line cs s) e };

    ghost prompt_shown = { λ h prompt cs lit standard s e. padded-shown s e };

    ghost hint_shown = { λ h hint cs lit s e. padded-shown (spells-styled hint cs s) e };

    fn highlight(&self, line: &[u8], _pos: usize, out: &mut [u8]) -> Option<usize> {
        answer(line, out)
    }

    fn highlight_prompt(&self, prompt: &[u8], _default: bool, out: &mut [u8]) -> Option<usize> {
        answer(prompt, out)
    }

    fn highlight_hint(&self, hint: &[u8], out: &mut [u8]) -> Option<usize> {
        answer(hint, out)
    }

    fn highlight_char(&mut self, _line: &[u8], _pos: usize, _kind: CmdKind) -> bool {
        false
    }
}
