// Changes of a line and its edit position.
ghost use Rattle.std.specs.Prelude.{◌+◌, ◌*◌, [], ◌++◌, length, take, drop};
ghost use Rattle.lines.specs.Lines.{Changes, Holds, InsertRule, line_of, PlaceRule, UpdateRule};
ghost use Rattle.page.specs.Acts.{times};

use crate::line_buffer::LineBuffer;
use buffer::buffer::Buffer;
use text::refusal::Refusal;

impl LineBuffer {
    // An empty line.
    #[tactic(auto, using(crate::proofs::Buffers::nothing_good))]
    pub fn new() -> LineBuffer
        ensures { Holds [] 0 result }
    {
        LineBuffer {
            line: Buffer::new(),
            pos: 0,
        }
    }

    // Empties the line.
    #[tactic(auto, using(crate::proofs::Buffers::nothing_good))]
    pub fn clear(&mut self)
        ensures { Holds [] 0 self.new }
    {
        self.line.clear();
        self.pos = 0;
    }

    // Takes another line and position, unless the text is not good, too long, or has no character at the position.
    pub fn update(&mut self, line: &[u8], pos: usize) -> Result<(), Refusal>
        ensures { Changes (UpdateRule line.now pos) line.now pos self.old result self.new }
    {
        LineBuffer::check_update(line, pos)?;
        self.line.set(line).unwrap();
        self.pos = pos;
        Ok(())
    }

    // Takes another position, unless the line has no character there.
    pub fn set_pos(&mut self, pos: usize) -> Result<(), Refusal>
        ensures { Changes (PlaceRule (line_of self.old) pos) (line_of self.old) pos self.old result self.new }
    {
        self.check_pos(pos)?;
        self.pos = pos;
        Ok(())
    }

    // Puts a character so many times before the edit position, unless it is not one good character or the line gets too long.
    pub fn insert(&mut self, text: &[u8], count: u16) -> Result<(), Refusal>
        ensures { Changes (InsertRule (line_of self.old) text.now count) (take self.old.pos (line_of self.old) ++ (times count text.now ++ drop self.old.pos (line_of self.old))) (self.old.pos + count * length text.now) self.old result self.new }
    {
        self.check_insert(text, count)?;
        self.line.insert_repeated(self.pos, text, count).unwrap();
        self.pos += usize::from(count) * text.len();
        Ok(())
    }
}
