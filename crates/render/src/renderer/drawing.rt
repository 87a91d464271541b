// Blocks drawn.
ghost use Rattle.std.specs.Prelude.{◌≡◌, ◌+◌, ◌≤◌, false, ◌++◌, length};
ghost use Rattle.render.specs.Composing.{composed};
ghost use Rattle.render.specs.Drawing.{Composes, Drew, StyledTexts, block_texts, now_of, old_rows, place_layout};
ghost use Rattle.screen.specs.Output.{closing};

use crate::block::Block;
use crate::renderer::PosixRenderer;
use crate::update::write_synchronized;
use highlight::highlight::Highlighter;
use layout::block::Layout;
use page::outcome::BrokenAct;
use terminal::terminal::Terminal;

impl PosixRenderer {
    // Composes the drawing of a block in the place of an old one, and tells how many bytes erase that.
    pub fn compose_line<H: Highlighter>(
        &mut self,
        block: &Block<'_>,
        old: Option<&Layout>,
        highlighter: Option<&H>,
    ) -> usize
        ensures { Composes (StyledTexts H.Highlighter (now_of highlighter.entry) (block_texts block.now)) (now_of old.entry) block.now.layout.now result (composed self.new) }
    {
        self.clear();
        self.push_old_rows(old);
        let erased = self.buffer.len();
        self.push_styled_texts(block, highlighter);
        self.push_place(block.layout);
        erased
    }

    // Draws a block in the place of an old one.
    pub fn draw_line<T: Terminal, H: Highlighter>(
        &mut self,
        terminal: &mut T,
        block: &Block<'_>,
        old: Option<&Layout>,
        highlighter: Option<&H>,
    ) -> Result<(), BrokenAct>
        ensures { Drew T.Terminal.answered (StyledTexts H.Highlighter (now_of highlighter.entry) (block_texts block.now)) (now_of old.entry) block.now.layout.now false terminal.old result terminal.new (composed self.new) }
    {
        self.refresh_line(terminal, block, old, highlighter, false)
    }

    // Draws a block in the place of an old one, in an update of its own on a terminal that holds updates.
    pub fn refresh_line<T: Terminal, H: Highlighter>(
        &mut self,
        terminal: &mut T,
        block: &Block<'_>,
        old: Option<&Layout>,
        highlighter: Option<&H>,
        holds: bool,
    ) -> Result<(), BrokenAct>
        ensures { Drew T.Terminal.answered (StyledTexts H.Highlighter (now_of highlighter.entry) (block_texts block.now)) (now_of old.entry) block.now.layout.now holds terminal.old result terminal.new (composed self.new) }
    {
        self.compose_line(block, old, highlighter);
        write_synchronized(terminal, self.contents(), holds)
    }

    // Puts what erases an old block, if there is one, behind what is composed.
    fn push_old_rows(&mut self, old: Option<&Layout>)
        requires { length (composed self.old) + 1403 ≤ 8192 }
        ensures { composed self.new ≡ composed self.old ++ old_rows (now_of old.entry) }
    {
        if let Some(layout) = old {
            self.clear_old_rows(layout);
        }
    }

    // Puts what brings the cursor from behind a block's text to its place behind what is composed.
    fn push_place(&mut self, layout: &Layout)
        requires { length (composed self.old) + 14 ≤ 8192 }
        ensures { composed self.new ≡ composed self.old ++ place_layout layout.now }
    {
        let end = layout.end();
        let cursor = layout.cursor();
        self.push_closing(layout.full());
        self.push_some_move(b'A', end.row - cursor.row);
        self.push(b"\r");
        self.push_some_move(b'C', cursor.col);
    }

    // Puts an LF behind what is composed, if that ends on a full row.
    fn push_closing(&mut self, full: bool)
        requires { length (composed self.old) + 1 ≤ 8192 }
        ensures { composed self.new ≡ composed self.old ++ closing full }
    {
        if full {
            self.push(b"\n");
        }
    }
}
