// A grid as a terminal.
ghost use Rattle.std.specs.Prelude.{◌≡◌, length, take};
ghost use Rattle.screen.specs.Bytes.{feed};
ghost use Rattle.grid.specs.Fitting.{fitting, Fitted};
ghost use Rattle.grid.specs.Meaning.{area, shown};
ghost use Rattle.grid.specs.Steps.{Does};
ghost use Rattle.terminal.specs.Feeds.{taken-within};
ghost use Rattle.grid.specs.Takings.{fitting-within};
ghost use Rattle.std.proofs.Common.{rules, arith};

use crate::full::Full;
use crate::grid::Grid;
use terminal::size::Size;
use terminal::terminal::{Terminal, WriteAnswer, WriteError};
use widths::tables::WidthTable;

impl<W: WidthTable> Grid<W> {
    // Takes the bytes that fit, up to the first that does not, and counts them.
    fn take_fitting(&mut self, bytes: &[u8]) -> usize
        ensures count { result ≡ fitting (area W.WidthTable.columns self.old) self.old.depth bytes.now (shown self.old) }
        ensures drawn { Does (feed (area W.WidthTable.columns self.old) (take result bytes.now)) self.old self.new }
    {
        // a loop: tried `position`, whose closure changes the grid while it searches; the proof did not close
        for (i, byte) in bytes.iter().enumerate() {
            if let Err(Full) = self.step(*byte) {
                return i;
            }
        }
        bytes.len()
    }
}

impl<W: WidthTable> Terminal for Grid<W> {
    type Widths = W;

    ghost screen = { shown };

    ghost extent = { λ g. g.size };

    ghost answered = { λ g bytes a h. Fitted W.WidthTable.columns g bytes a h };

    ghost inside = { first_of (Prim.search rules, Prim.grind (arith, Self.row.coded.inj)) };

    ghost works = { λ s t bytes a h.
        let d = area W.WidthTable.columns s in
        record { within = taken-within (length bytes) (fitting d s.depth bytes (shown s)) a (fitting-within d s.depth bytes (shown s)) h.answer; drawn = h.drawn } };

    ghost fixed = { first_of (Prim.search rules, Prim.grind (arith, Self.row.coded.inj)) };

    fn size(&self) -> Size {
        self.size
    }

    fn write(&mut self, bytes: &[u8]) -> WriteAnswer {
        let count = self.take_fitting(bytes);
        if !bytes.is_empty() && count == 0 {
            Err(WriteError::Down)
        } else {
            Ok(count)
        }
    }
}
