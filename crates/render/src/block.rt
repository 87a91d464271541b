// What is drawn.
use layout::block::Layout;
use lines::line_buffer::LineBuffer;
use lines::note::Note;
use lines::prompt::Prompt;

// A block: the prompt, the line and the note behind it, and where they stand.
#[derive(Clone, Copy)]
pub struct Block<'a> {
    pub prompt: &'a Prompt,
    pub line: &'a LineBuffer,
    pub note: &'a Note,
    pub layout: &'a Layout,
}
