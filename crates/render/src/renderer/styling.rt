// Texts composed, as they are or as a highlighter answers them.
ghost use Rattle.std.specs.Prelude.{◌+◌, ◌≤◌, true, length};
ghost use Rattle.lines.specs.Lines.{line_of};
ghost use Rattle.lines.specs.Notes.{note_of};
ghost use Rattle.lines.specs.Prompts.{styled_of};
ghost use Rattle.render.specs.Composing.{composed};
ghost use Rattle.render.specs.Drawing.{Appends, AppendsTexts, Coloured, NoteLit, StyledTexts, Uncoloured, block_texts, now_of};

use crate::block::Block;
use crate::renderer::PosixRenderer;
use highlight::highlight::Highlighter;
use lines::line_buffer::LineBuffer;
use lines::note::Note;
use lines::prompt::Prompt;

impl PosixRenderer {
    // Puts a block's texts behind what is composed, with colours as a highlighter answers them.
    pub(crate) fn push_styled_texts<H: Highlighter>(
        &mut self,
        block: &Block<'_>,
        highlighter: Option<&H>,
    )
        requires { length (composed self.old) + 6400 ≤ 8192 }
        ensures { AppendsTexts (StyledTexts H.Highlighter (now_of highlighter.entry) (block_texts block.now)) 6400 (composed self.old) (composed self.new) }
    {
        match highlighter {
            Some(lit) => self.push_lit_texts(block, lit),
            None => self.push_texts(block),
        }
    }

    // Puts a block's texts behind what is composed, as they are.
    fn push_texts(&mut self, block: &Block<'_>)
        requires { length (composed self.old) + 6400 ≤ 8192 }
        ensures { AppendsTexts (Uncoloured (block_texts block.now)) 6400 (composed self.old) (composed self.new) }
    {
        self.push(block.prompt.raw());
        self.push(block.line.line());
        if let Some(text) = block.note.get() {
            self.push(text);
        }
    }

    // Puts a block's texts behind what is composed, as a highlighter answers them.
    fn push_lit_texts<H: Highlighter>(&mut self, block: &Block<'_>, highlighter: &H)
        requires { length (composed self.old) + 6400 ≤ 8192 }
        ensures { AppendsTexts (Coloured H.Highlighter highlighter.now (block_texts block.now)) 6400 (composed self.old) (composed self.new) }
    {
        self.push_lit_prompt(block.prompt, highlighter);
        self.push_lit_line(block.line, highlighter);
        self.push_lit_note(block.note, highlighter);
    }

    // Puts a highlighter's answer for a prompt behind what is composed.
    fn push_lit_prompt<H: Highlighter>(&mut self, prompt: &Prompt, highlighter: &H)
        requires { length (composed self.old) + 768 ≤ 8192 }
        ensures { Appends (H.Highlighter.lights_prompt highlighter.now (styled_of prompt.now) true) 768 (composed self.old) (composed self.new) }
    {
        let form = prompt.styled();
        self.buffer
            .extend_with(|room| highlighter.highlight_prompt(form, true, room))
            .unwrap();
    }

    // Puts a highlighter's answer for a line behind what is composed.
    fn push_lit_line<H: Highlighter>(&mut self, line: &LineBuffer, highlighter: &H)
        requires { length (composed self.old) + 4352 ≤ 8192 }
        ensures { Appends (H.Highlighter.lights highlighter.now (line_of line.now) line.now.pos) 4352 (composed self.old) (composed self.new) }
    {
        let text = line.line();
        let pos = line.pos();
        self.buffer
            .extend_with(|room| highlighter.highlight(text, pos, room))
            .unwrap();
    }

    // Puts a highlighter's answer for a note, if there is one, behind what is composed.
    fn push_lit_note<H: Highlighter>(&mut self, note: &Note, highlighter: &H)
        requires { length (composed self.old) + 1280 ≤ 8192 }
        ensures { Appends (NoteLit (H.Highlighter.lights_hint highlighter.now) (note_of note.now)) 1280 (composed self.old) (composed self.new) }
    {
        let Some(text) = note.get() else {
            return;
        };
        self.buffer
            .extend_with(|room| highlighter.highlight_hint(text, room))
            .unwrap();
    }
}
