// Notices printed above a block.
ghost use Rattle.render.specs.Composing.{composed};
ghost use Rattle.render.specs.Drawing.{StyledTexts, block_texts, now_of};
ghost use Rattle.render.specs.Notices.{Printed};

use crate::block::Block;
use crate::notice::write_notice;
use crate::renderer::PosixRenderer;
use highlight::highlight::Highlighter;
use layout::block::Layout;
use page::outcome::BrokenAct;
use terminal::terminal::Terminal;

impl PosixRenderer {
    // Erases a block, writes a notice in its place, and draws a block below that, in an update of its own on a terminal
    // that holds updates.
    pub fn print_notice<T: Terminal, H: Highlighter>(
        &mut self,
        terminal: &mut T,
        text: &[u8],
        block: &Block<'_>,
        old: &Layout,
        highlighter: Option<&H>,
        holds: bool,
    ) -> Result<(), BrokenAct>
        ensures { Printed T.Terminal.answered (StyledTexts H.Highlighter (now_of highlighter.entry) (block_texts block.now)) old.now block.now.layout.now text.now holds terminal.old result terminal.new (composed self.new) }
    {
        let erased = self.compose_line(block, Some(old), highlighter);
        let (erasing, drawing) = self.contents().split_at(erased);
        write_notice(terminal, erasing, text, drawing, holds)
    }
}
