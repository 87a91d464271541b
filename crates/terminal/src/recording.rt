// What a record keeps, and the record as a terminal.
ghost use Rattle.std.specs.Prelude.{◌≡◌, ◌+◌, length, take};
ghost use Rattle.std.proofs.Common.{ap, ◌∙◌, arith, rules};
ghost use Rattle.terminal.specs.Recording.{Fresh, Kept, contents, replayed};
ghost use Rattle.terminal.specs.Windows.{geometry};
ghost use Rattle.terminal.specs.Insides.{inside-blank};
ghost use Prim.Native.Nat;
ghost use Rattle.screen.specs.Screen.{blank_screen};
ghost use Rattle.screen.specs.Bytes.{feed};
ghost use Rattle.terminal.specs.Answers.{taken};
ghost use Rattle.terminal.specs.Recording;
ghost use Rattle.screen.proofs.Sequences.{feed-append};
ghost use Rattle.terminal.specs.Feeds.{taken-within};

use crate::record::Record;
use crate::size::Size;
use crate::terminal::{Terminal, WriteAnswer, WriteError};
use widths::tables::WidthTable;

impl<W> Record<W> {
    // A record with nothing kept yet; it can keep as many bytes as the memory has.
    pub fn new(widths: W, memory: Vec<u8>, size: Size) -> Record<W>
        ensures { Fresh memory size result }
    {
        Record {
            memory,
            len: 0,
            size,
            widths,
        }
    }

    // The bytes kept.
    pub fn bytes(&self) -> &[u8]
        ensures { result.now ≡ contents self.now }
    {
        &self.memory[..self.len]
    }
}

impl<W: Drop> Record<W> {
    // Gives the memory back, the bytes kept at its front.
    pub fn into_memory(self) -> Vec<u8>
        ensures { result ≡ self.memory }
    {
        let Record {
            memory,
            len: _,
            size: _,
            widths: _,
        } = self;
        memory
    }
}

impl<W: WidthTable> Terminal for Record<W> {
    type Widths = W;

    ghost screen = { λ r. replayed W.WidthTable.columns r };

    ghost extent = { λ r. r.size };

    ghost answered = { λ r bytes a q. Kept r bytes a q };

    ghost inside = { λ r. inside-blank (geometry W.WidthTable.columns r.size) r.size.wide W.WidthTable.narrow r.size.high (contents r) };

    ghost works = { λ s t bytes a h.
        let w = W.WidthTable.columns in
        record {
          within = taken-within (length bytes) (Nat.min (length bytes) (Recording.room s)) a (omega arith) h.answer;
          drawn = ap (λ z. feed (geometry w z) (contents t) blank_screen) h.size ∙ ap (λ l. feed (geometry w s.size) l blank_screen) h.kept ∙ feed-append (geometry w s.size) (contents s) (take (taken a) bytes) blank_screen;
        } };

    ghost fixed = { first_of (Prim.search rules, Prim.grind (arith, Self.row.coded.inj)) };

    fn size(&self) -> Size {
        self.size
    }

    fn write(&mut self, bytes: &[u8]) -> WriteAnswer {
        if bytes.is_empty() {
            return Ok(0);
        }
        let at = self.len;
        let room = self.memory.len() - at;
        if room == 0 {
            return Err(WriteError::Down);
        }
        let count = bytes.len().min(room);
        self.memory[at..at + count].copy_from_slice(&bytes[..count]);
        self.len = at + count;
        Ok(count)
    }
}
