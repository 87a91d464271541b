// The tables of a session: its texts and the draw buffer, lent to each act.
ghost use Rattle.std.specs.Prelude.{◌≡◌};
ghost use Rattle.lines.specs.Lines.{line_of};
ghost use Rattle.session.specs.Tabled.{Begins, Empty};

use lines::line_buffer::LineBuffer;
use lines::note::Note;
use lines::prompt::Prompt;
use render::renderer::PosixRenderer;

// The prompt, the line with its edit position, the note that stands behind the line, the hint last answered, and the
// draw buffer.
#[derive(Drop)]
pub struct Tables {
    pub(crate) prompt: Prompt,
    pub(crate) line: LineBuffer,
    pub(crate) note: Note,
    pub(crate) hint: Note,
    pub(crate) renderer: PosixRenderer,
}

impl Tables {
    // Tables with nothing in them.
    pub fn new() -> Tables
        ensures { Empty result }
    {
        Tables {
            prompt: Prompt::plain(b"").unwrap(),
            line: LineBuffer::new(),
            note: Note::new(),
            hint: Note::new(),
            renderer: PosixRenderer::new(),
        }
    }

    // The line.
    pub fn line(&self) -> &[u8]
        ensures { result.now ≡ line_of self.now.line }
    {
        self.line.line()
    }

    // The edit position: how many bytes of the line stand before it.
    pub fn pos(&self) -> usize
        ensures { result ≡ self.now.line.pos }
    {
        self.line.pos()
    }

    // Takes a prompt, and empties line, note and hint.
    pub(crate) fn begin(&mut self, prompt: &Prompt)
        ensures { Begins prompt.now self.old self.new }
    {
        self.prompt = *prompt;
        self.line.clear();
        self.note.clear();
        self.hint.clear();
    }
}
