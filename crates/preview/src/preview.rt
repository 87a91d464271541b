// Previews of captions.
ghost use Rattle.std.specs.Prelude.{◌≡◌, ℕ, ◌≤◌};
ghost use Rattle.terminal.specs.Windows.{geometry};
ghost use Rattle.preview.specs.Previewing.{Previews, Plans, Draws, EndsAt, numbered};

use highlight::brackets::{Bracket, bracket_to_light, check_bracket};
use layout::layout::Position;
use layout::measure::{Rows, Walk};
use page::outcome::{BrokenAct, Rejection};
use terminal::size::Size;
use terminal::terminal::Terminal;
use terminal::writing::{BrokenWrite, write_all};
use text::refusal::Refusal;
use text::styled::visible_prompt;
use text::texts::check_text_within;
use widths::tables::WidthTable;

const MAX_PROMPT: usize = 512;

const MAX_LINE: usize = 4096;
// good texts hold no tab, so any stop does
const TAB_STOP: u16 = 8;

// Where a caption ends behind its prompt, and the bracket that lights with the cursor there.
#[derive(Clone, Copy)]
pub struct Preview {
    pub end: Position,
    pub bracket: Option<Bracket>,
}

// Where two texts end, one behind the other.
fn end_of<W: WidthTable>(first: &[u8], second: &[u8], cols: u16) -> Option<Position>
    requires { 2 ≤ cols }
    ensures { EndsAt W.WidthTable.columns cols first.now second.now result }
{
    let rows = Rows {
        cols,
        tab_stop: TAB_STOP,
    };
    let start = Walk::start(Position { col: 0, row: 0 });
    let behind = start.advance::<W>(first, rows)?;
    let end = behind.advance::<W>(second, rows)?;
    end.place(cols)
}

// A caption behind its prompt.
#[derive(Clone, Copy)]
struct Block<'a> {
    prompt: &'a [u8],
    caption: &'a [u8],
}

impl Block<'_> {
    // How the block would stand in a window.
    fn plan<W: WidthTable>(&self, size: Size) -> Result<Preview, Refusal>
        ensures { Plans (geometry W.WidthTable.columns size) self.now.prompt.now self.now.caption.now result }
    {
        // a place and a count, since there is no heap here; a `Prompt` of the crate `lines` would show it twice
        let mut visible = [0; MAX_PROMPT];
        let count = visible_prompt(self.prompt, &mut visible)?;
        check_text_within(self.caption, MAX_LINE)?;
        let end = end_of::<W>(&visible[0..count], self.caption, size.cols()).unwrap();
        if end.row >= size.rows() {
            return Err(Refusal::Tall);
        }
        let behind = check_bracket(self.caption, self.caption.len());
        let bracket = bracket_to_light(self.caption, behind);
        Ok(Preview { end, bracket })
    }

    // Writes prompt and caption, one behind the other.
    fn draw<T: Terminal>(&self, terminal: &mut T) -> Result<(), BrokenAct>
        ensures { Draws T.Terminal.answered T.Terminal.screen (geometry T.Widths.WidthTable.columns (T.Terminal.extent terminal.old)) self.now.prompt.now self.now.caption.now terminal.old result terminal.new }
    {
        numbered(0, write_all(terminal, self.prompt))?;
        numbered(1, write_all(terminal, self.caption))
    }
}

// How a write ends, with its number where it breaks an act.
// One `map_err`, so no plainer by way of the crate `render`, which numbers its writes so too.
fn numbered(number: usize, ended: Result<(), BrokenWrite>) -> Result<(), BrokenAct>
    ensures { result ≡ numbered number ended }
{
    ended.map_err(|write| BrokenAct { number, write })
}

// Draws prompt and caption on a terminal by their bytes, and tells where they end; refused, nothing is written.
pub fn draw_caption<T: Terminal>(
    terminal: &mut T,
    prompt: &[u8],
    caption: &[u8],
) -> Result<Preview, Rejection>
    ensures { Previews T.Terminal.answered T.Terminal.screen (geometry T.Widths.WidthTable.columns (T.Terminal.extent terminal.old)) prompt.now caption.now terminal.old result terminal.new }
{
    let block = Block { prompt, caption };
    let planned = block.plan::<T::Widths>(terminal.size())?;
    block.draw(terminal)?;
    Ok(planned)
}
