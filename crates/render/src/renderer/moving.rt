// Moves of the cursor.
ghost use Rattle.std.specs.Prelude.{◌≡◌, ◌+◌, ◌≤◌, [], ◌∷◌, ◌++◌, length};
ghost use Rattle.page.specs.Law.{Written};
ghost use Rattle.render.specs.Composing.{composed};
ghost use Rattle.screen.specs.Output.{move_bytes, shift_by, shift_from};

use crate::renderer::PosixRenderer;
use crate::writing::write_and_flush;
use layout::layout::Position;
use page::outcome::BrokenAct;
use terminal::terminal::Terminal;

impl PosixRenderer {
    // Moves the cursor from a place to another, rows first.
    pub fn move_cursor<T: Terminal>(
        &mut self,
        terminal: &mut T,
        old: Position,
        new: Position,
    ) -> Result<(), BrokenAct>
        ensures written { Written T.Terminal.answered terminal.old (move_bytes old.row old.col new.row new.col ∷ []) result terminal.new }
        ensures bytes { composed self.new ≡ move_bytes old.row old.col new.row new.col }
    {
        self.clear();
        self.push_shift_from(b'B', b'A', old.row, new.row);
        self.push_shift_from(b'C', b'D', old.col, new.col);
        write_and_flush(terminal, self.contents())
    }

    // Puts a move from a number to another behind what is composed, by the final bytes for more and for less.
    fn push_shift_from(&mut self, more: u8, less: u8, from: u16, to: u16)
        requires { length (composed self.old) + 8 ≤ 8192 }
        ensures bytes { composed self.new ≡ composed self.old ++ shift_from more less from to }
        ensures short { length (shift_from more less from to) ≤ 8 }
    {
        if from < to {
            self.push_shift(more, to - from);
        } else {
            self.push_shift(less, from - to);
        }
    }

    // Puts a move behind what is composed, a single one without its number.
    fn push_shift(&mut self, final_byte: u8, n: u16)
        requires { length (composed self.old) + 8 ≤ 8192 }
        ensures { composed self.new ≡ composed self.old ++ shift_by final_byte n }
    {
        if n == 1 {
            self.push(&[0x1b, b'[', final_byte]);
        } else if n > 1 {
            self.push_move(final_byte, n);
        }
    }
}
