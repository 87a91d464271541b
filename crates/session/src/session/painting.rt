// The line drawn anew.
ghost use Rattle.std.specs.Prelude.{◌≡◌};
ghost use Rattle.session.specs.Painting.{Painted, drawn_to};

use crate::session::Session;
use crate::standing::Standing;
use crate::tables::Tables;
use highlight::highlight::Highlighter;
use layout::block::Layout;
use page::outcome::BrokenAct;
use render::block::Block;
use terminal::terminal::Terminal;

impl Session {
    // Has a layout once the writes that draw it are taken; a broken write tears the session and leaves it the old one.
    pub(crate) fn settle(&mut self, layout: Layout, written: Result<(), BrokenAct>)
        ensures { self.new ≡ drawn_to layout self.old written }
    {
        match written {
            Ok(()) => {
                self.layout = layout;
                self.standing = Standing::Open;
            }
            Err(_) => self.standing = Standing::Torn,
        }
    }

    // Erases the block by the layout that it has and draws the line by another, which it has from then on; a broken
    // write tears it.
    pub(crate) fn paint<T: Terminal, H: Highlighter>(
        &mut self,
        tables: &mut Tables,
        terminal: &mut T,
        highlighter: &H,
        layout: Layout,
    ) -> Result<(), BrokenAct>
        ensures { Painted T.Terminal.answered (H.Highlighter.lights highlighter.now) (H.Highlighter.lights_prompt highlighter.now) (H.Highlighter.lights_hint highlighter.now) layout self.old tables.old terminal.old result self.new tables.new terminal.new }
    {
        let block = Block {
            prompt: &tables.prompt,
            line: &tables.line,
            note: &tables.note,
            layout: &layout,
        };
        let renderer = &mut tables.renderer;
        let old = self.layout;
        let lit = self.colours.then_some(highlighter);
        let drawn = renderer.refresh_line(terminal, &block, Some(&old), lit, self.holds);
        self.settle(layout, drawn);
        drawn
    }
}
