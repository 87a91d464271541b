// Blocks erased.
ghost use Rattle.std.specs.Prelude.{◌≡◌, ◌+◌, ◌*◌, ◌≤◌, [], ◌∷◌, ◌++◌, length};
ghost use Rattle.page.specs.Law.{Written};
ghost use Rattle.render.specs.Composing.{composed};
ghost use Rattle.render.specs.Drawing.{erase_layout};
ghost use Rattle.screen.specs.Output.{rows_up};

use crate::renderer::PosixRenderer;
use crate::writing::write_and_flush;
use layout::block::Layout;
use page::outcome::BrokenAct;
use terminal::terminal::Terminal;

impl PosixRenderer {
    // Erases a block from its cursor, which then stands at the start of the block's first row.
    pub fn clear_rows<T: Terminal>(
        &mut self,
        terminal: &mut T,
        layout: &Layout,
    ) -> Result<(), BrokenAct>
        ensures written { Written T.Terminal.answered terminal.old (erase_layout layout.now ∷ []) result terminal.new }
        ensures bytes { composed self.new ≡ erase_layout layout.now }
    {
        self.clear();
        self.clear_old_rows(layout);
        write_and_flush(terminal, self.contents())
    }

    // Puts what erases a block behind what is composed.
    pub(crate) fn clear_old_rows(&mut self, layout: &Layout)
        requires { length (composed self.old) + 1403 ≤ 8192 }
        ensures { composed self.new ≡ composed self.old ++ erase_layout layout.now }
    {
        let old_rows = layout.end().row;
        let current_row = layout.cursor().row;
        self.push_some_move(b'B', old_rows - current_row);
        self.push_rows_up(old_rows);
    }

    // Puts behind what is composed: so many rows erased from below, and the row above them.
    fn push_rows_up(&mut self, n: u16)
        requires { length (composed self.old) + (n * 7 + 4) ≤ 8192 }
        ensures { composed self.new ≡ composed self.old ++ rows_up n }
    {
        self.buffer.extend_repeated(b"\r\x1b[K\x1b[A", n).unwrap();
        self.push(b"\r\x1b[K");
    }
}
