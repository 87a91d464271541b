// What a highlighter is.
ghost use Rattle.std.specs.Prelude.{ℕ, Bool, List};
ghost use Rattle.text.specs.Texts.{Spells, Styled};
ghost use Rattle.highlight.specs.Answers.{Answers, Shows};
ghost use Rattle.highlight.specs.declared.highlight.CmdKind.{CmdKind};

// What asks whether the line is to be drawn anew.
#[derive(Clone, Copy, PartialEq, Eq, Debug)]
pub enum CmdKind {
    // the cursor moved
    MoveCursor,
    // another act
    Other,
    // a last drawing, with no bracket lit
    ForcedRefresh,
}

// A highlighter answers a text with a styled text that shows the same and is at most 256 bytes longer.
// The caller lends the place for the answer, since there is no heap.
pub trait Highlighter {
    // what it may answer for a line and a position
    ghost lights: { Self → List ℕ → ℕ → List ℕ → Type 0 };

    // what it may answer for a prompt, which may be styled, and whether that is the default one
    ghost lights_prompt: { Self → List ℕ → Bool → List ℕ → Type 0 };

    // what it may answer for a hint
    ghost lights_hint: { Self → List ℕ → List ℕ → Type 0 };

    // whether it may want the line drawn anew, and what it then is
    ghost heeds: { Self → List ℕ → ℕ → CmdKind → Bool → Self → Type 0 };

    // Writes the line's answer to the front of `out`: its length, or none if `out` is shorter than the line and 256 bytes.
    fn highlight(&self, line: &[u8], pos: usize, out: &mut [u8]) -> Option<usize>
        ensures { Answers (lights self.now line.now pos) line.now out.old result out.new };

    // Writes the prompt's answer, as `highlight` does.
    fn highlight_prompt(&self, prompt: &[u8], default: bool, out: &mut [u8]) -> Option<usize>
        ensures { Answers (lights_prompt self.now prompt.now default) prompt.now out.old result out.new };

    // Writes the hint's answer, as `highlight` does.
    fn highlight_hint(&self, hint: &[u8], out: &mut [u8]) -> Option<usize>
        ensures { Answers (lights_hint self.now hint.now) hint.now out.old result out.new };

    // Whether the line is to be drawn anew, now that the cursor stands at `pos`.
    fn highlight_char(&mut self, line: &[u8], pos: usize, kind: CmdKind) -> bool
        ensures { heeds self.old line.now pos kind result self.new };

    ghost line_shown: { (h : Self) (line cs lit : List ℕ) (pos : ℕ) → Spells line cs → lights h line pos lit → Shows cs line lit };

    ghost prompt_shown: { (h : Self) (prompt cs lit : List ℕ) (standard : Bool) → Styled prompt cs → lights_prompt h prompt standard lit → Shows cs prompt lit };

    ghost hint_shown: { (h : Self) (hint cs lit : List ℕ) → Spells hint cs → lights_hint h hint lit → Shows cs hint lit };
}
