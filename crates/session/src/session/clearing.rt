// A clear: the window is blanked, and the line drawn from its first place.
ghost use Rattle.std.specs.Prelude.{◌≡◌, ◌+◌, ◌^◌, ◌<◌, ◌&&◌, Err};
ghost use Rattle.page.specs.Acts.{clear as clearing};
ghost use Rattle.page.specs.Law.{Written};
ghost use Rattle.page.specs.declared.outcome.BrokenAct.{BrokenAct as Broken};
ghost use Rattle.render.specs.Numbering.{shifted};
ghost use Rattle.session.specs.Acting.{Acted, state_of, world_of};
ghost use Rattle.session.specs.Clearing.{Cleared, DrawnCleared, cleared_by, wiped};
ghost use Rattle.session.specs.Sessions.{is_torn};

use crate::session::Session;
use crate::session::refreshing::outcome_of;
use crate::standing::Standing;
use crate::tables::Tables;
use highlight::highlight::Highlighter;
use hint::hint::Hinter;
use judging::judging::Placed;
use layout::block::Layout;
use page::outcome::{BrokenAct, Rejection};
use render::block::Block;
use render::update::write_synchronized;
use render::writing::{clear_screen, write_and_flush};
use terminal::terminal::Terminal;

impl Session {
    // Blanks the window and draws the line from its first place, which mends a torn session.
    pub fn clear<T: Terminal, H: Highlighter, N: Hinter>(
        &mut self,
        tables: &mut Tables,
        terminal: &mut T,
        highlighter: &mut H,
        hinter: &N,
    ) -> Result<(), Rejection>
        ensures { Acted (world_of T.Terminal.screen T.Terminal.extent T.Terminal.answered T.Widths.WidthTable.columns H.Highlighter.lights H.Highlighter.lights_prompt H.Highlighter.lights_hint H.Highlighter.heeds (N.Hinter.hints hinter.now)) (state_of terminal.old highlighter.old self.old tables.old) clearing result (state_of terminal.new highlighter.new self.new tables.new) }
    {
        let placed = self.judge_clear(tables, terminal)?;
        outcome_of(self.clear_line(tables, terminal, highlighter, hinter, placed))
    }

    // Asks hinter and highlighter, blanks the window, and draws the line from its first place.
    fn clear_line<T: Terminal, H: Highlighter, N: Hinter>(
        &mut self,
        tables: &mut Tables,
        terminal: &mut T,
        highlighter: &mut H,
        hinter: &N,
        placed: Placed,
    ) -> Result<(), BrokenAct>
        ensures { Cleared (world_of T.Terminal.screen T.Terminal.extent T.Terminal.answered T.Widths.WidthTable.columns H.Highlighter.lights H.Highlighter.lights_prompt H.Highlighter.lights_hint H.Highlighter.heeds (N.Hinter.hints hinter.now)) placed (state_of terminal.old highlighter.old self.old tables.old) result (state_of terminal.new highlighter.new self.new tables.new) }
    {
        let release = self.may_hold();
        self.layout = Layout::origin();
        self.standing = Standing::Torn;
        let layout = self.prepare::<T, H, N>(tables, highlighter, hinter, placed);
        self.paint_cleared(tables, terminal, highlighter, layout, release)
    }

    // Composes the line by a layout before anything is written, blanks the window, and draws it; a broken write tears
    // the session.
    fn paint_cleared<T: Terminal, H: Highlighter>(
        &mut self,
        tables: &mut Tables,
        terminal: &mut T,
        highlighter: &H,
        layout: Layout,
        release: bool,
    ) -> Result<(), BrokenAct>
        ensures { DrawnCleared T.Terminal.answered (H.Highlighter.lights highlighter.now) (H.Highlighter.lights_prompt highlighter.now) (H.Highlighter.lights_hint highlighter.now) release layout self.old tables.old terminal.old result self.new tables.new terminal.new }
    {
        let block = Block {
            prompt: &tables.prompt,
            line: &tables.line,
            note: &tables.note,
            layout: &layout,
        };
        let renderer = &mut tables.renderer;
        let old = self.layout;
        let lit = self.colours.then_some(highlighter);
        renderer.compose_line(&block, Some(&old), lit);
        let drawn = write_cleared(terminal, renderer.contents(), self.holds, release);
        self.settle(layout, drawn);
        drawn
    }

    // Whether the terminal may still hold an update back.
    fn may_hold(&self) -> bool
        ensures { result ≡ (is_torn self.now.standing && self.now.holds) }
    {
        self.is_torn() && self.holds
    }
}

// Blanks the window and writes some bytes, in an update of their own on a terminal that holds updates.
fn write_cleared<T: Terminal>(
    terminal: &mut T,
    bytes: &[u8],
    holds: bool,
    release: bool,
) -> Result<(), BrokenAct>
    ensures { Written T.Terminal.answered terminal.old (cleared_by release holds bytes.now) result terminal.new }
{
    wipe(terminal, release)?;
    let before = usize::from(release) + 1;
    renumber(write_synchronized(terminal, bytes, holds), before)
}

// Lets go of an update that may be held, and blanks the window.
fn wipe<T: Terminal>(terminal: &mut T, release: bool) -> Result<(), BrokenAct>
    ensures { Written T.Terminal.answered terminal.old (wiped release) result terminal.new }
{
    if release {
        write_and_flush(terminal, b"\x1b[?2026l")?;
        return renumber(clear_screen(terminal), 1);
    }
    clear_screen(terminal)
}

// The end of some writes, with so many writes before them.
fn renumber(written: Result<(), BrokenAct>, before: usize) -> Result<(), BrokenAct>
    requires { (b : Broken) → written ≡ Err b → before + b.number < 2 ^ 64 }
    ensures { result ≡ shifted before written }
{
    match written {
        Ok(()) => Ok(()),
        Err(broken) => Err(BrokenAct {
            number: before + broken.number,
            write: broken.write,
        }),
    }
}
