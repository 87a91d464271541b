// What a line buffer can be asked.
ghost use Rattle.std.specs.Prelude.{◌≡◌, take, drop};
ghost use Rattle.lines.specs.Lines.{line_of};

use crate::line_buffer::LineBuffer;

impl LineBuffer {
    // The line's bytes.
    pub fn line(&self) -> &[u8]
        ensures { result.now ≡ line_of self.now }
    {
        self.line.as_slice()
    }

    // The edit position.
    pub fn pos(&self) -> usize
        ensures { result ≡ self.now.pos }
    {
        self.pos
    }

    // The bytes before the edit position.
    pub fn front(&self) -> &[u8]
        ensures { result.now ≡ take self.now.pos (line_of self.now) }
    {
        &self.line()[..self.pos]
    }

    // The bytes behind the edit position.
    pub fn rest(&self) -> &[u8]
        ensures { result.now ≡ drop self.now.pos (line_of self.now) }
    {
        &self.line()[self.pos..]
    }
}
