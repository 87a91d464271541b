// Acts as numbers.
use running::act::Act;

// An act: its kind, its count, its position, and where its text begins in the texts and how long that is.
#[repr(C)]
#[derive(Clone, Copy)]
pub struct Deed {
    pub kind: u16,
    pub count: u16,
    pub pos: usize,
    pub from: usize,
    pub len: usize,
}

impl Deed {
    // The act's text: an empty one where the texts hold none there.
    fn text(self, texts: &[u8]) -> &[u8] {
        let rest = texts.get(self.from..).unwrap_or(&[]);
        rest.get(..self.len).unwrap_or(&[])
    }

    // The act: a refresh for an unknown kind.
    pub(crate) fn act(self, texts: &[u8]) -> Act<'_> {
        let text = self.text(texts);
        match self.kind {
            0 => Act::Insert(text, self.count),
            1 => Act::Set(text, self.pos),
            2 => Act::Go(self.pos),
            4 => Act::Message(text),
            5 => Act::Notice(text),
            6 => Act::Clear,
            7 => Act::Finish,
            _ => Act::Refresh,
        }
    }
}
