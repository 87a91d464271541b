// The highlighter that lights matching brackets.
ghost use Rattle.std.specs.Prelude.{◌≡◌, is_some, None};
ghost use Rattle.highlight.specs.Lighting.{lit, to_light, remembered};
ghost use Rattle.highlight.specs.Shown.{memory-shown, same-shown};
ghost use Rattle.text.proofs.Styling.{spells-styled};

use crate::answer::{answer_lit, answer_plain};
use crate::brackets::{Bracket, bracket_to_light, check_bracket};
use crate::highlight::{CmdKind, Highlighter};

// Lights the partner of the bracket at the cursor.
#[derive(Clone, Copy)]
pub struct MatchingBracketHighlighter {
    // the bracket whose partner is looked for
    bracket: Option<Bracket>,
}

impl MatchingBracketHighlighter {
    // Remembers no bracket yet.
    pub fn new() -> Self
        ensures { result.bracket ≡ None }
    {
        MatchingBracketHighlighter { bracket: None }
    }
}

impl Highlighter for MatchingBracketHighlighter {
    ghost lights = { λ h line _ answer. answer ≡ lit line (to_light h.bracket line) };

    ghost lights_prompt = { λ _ prompt _ answer. answer ≡ prompt };

    ghost lights_hint = { λ _ hint answer. answer ≡ hint };

    ghost heeds = { λ _ line pos kind yes k. (k.bracket ≡ remembered kind line pos) × (yes ≡ is_some (remembered kind line pos)) };

    ghost line_shown = { λ h line cs lit pos s e. memory-shown h.bracket line cs lit s e };

    ghost prompt_shown = { λ h prompt cs lit standard s e. same-shown s e };

    ghost hint_shown = { λ h hint cs lit s e. same-shown (spells-styled hint cs s) e };

    fn highlight(&self, line: &[u8], _pos: usize, out: &mut [u8]) -> Option<usize> {
        match bracket_to_light(line, self.bracket) {
            Some(bracket) => answer_lit(line, bracket, out),
            None => answer_plain(line, out),
        }
    }

    // not a body of the trait's: tried, and its proof knows nothing of what an impl may answer
    fn highlight_prompt(&self, prompt: &[u8], _default: bool, out: &mut [u8]) -> Option<usize> {
        answer_plain(prompt, out)
    }

    // not a body of the trait's, as above
    fn highlight_hint(&self, hint: &[u8], out: &mut [u8]) -> Option<usize> {
        answer_plain(hint, out)
    }

    fn highlight_char(&mut self, line: &[u8], pos: usize, kind: CmdKind) -> bool {
        if kind == CmdKind::ForcedRefresh {
            self.bracket = None;
            return false;
        }
        self.bracket = check_bracket(line, pos);
        self.bracket.is_some()
    }
}
