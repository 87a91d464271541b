// The highlighter that lights nothing.
ghost use Rattle.std.specs.Prelude.{◌≡◌, false};
ghost use Rattle.highlight.specs.Shown.{same-shown};
ghost use Rattle.text.proofs.Styling.{spells-styled};

use crate::answer::answer_plain;
use crate::highlight::{CmdKind, Highlighter};

// Answers each text as it is.
#[derive(Clone, Copy)]
pub struct PlainHighlighter;

impl Highlighter for PlainHighlighter {
    ghost lights = { λ _ line _ lit. lit ≡ line };

    ghost lights_prompt = { λ _ prompt _ lit. lit ≡ prompt };

    ghost lights_hint = { λ _ hint lit. lit ≡ hint };

    ghost heeds = { λ h _ _ _ yes k. (yes ≡ false) × (k ≡ h) };

    ghost line_shown = { λ h line cs lit pos s e. same-shown (spells-styled line cs s) e };

    ghost prompt_shown = { λ h prompt cs lit standard s e. same-shown s e };

    ghost hint_shown = { λ h hint cs lit s e. same-shown (spells-styled hint cs s) e };

    fn highlight(&self, line: &[u8], _pos: usize, out: &mut [u8]) -> Option<usize> {
        answer_plain(line, out)
    }

    // not a body of the trait's: tried, and its proof knows nothing of what an impl may answer
    fn highlight_prompt(&self, prompt: &[u8], _default: bool, out: &mut [u8]) -> Option<usize> {
        answer_plain(prompt, out)
    }

    // not a body of the trait's, as above
    fn highlight_hint(&self, hint: &[u8], out: &mut [u8]) -> Option<usize> {
        answer_plain(hint, out)
    }

    fn highlight_char(&mut self, _line: &[u8], _pos: usize, _kind: CmdKind) -> bool {
        false
    }
}
