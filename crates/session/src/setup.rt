// What a session is created from.
ghost use Rattle.std.specs.Prelude.{◌≡◌, [], Decides};
ghost use Rattle.judging.specs.Judgements.{Behind, Low};
ghost use Rattle.lines.specs.Prompts.{visible_of};
ghost use Rattle.session.specs.Checking.{Checks};
ghost use Rattle.std.specs.Str.{chars};
ghost use Rattle.terminal.specs.Windows.{geometry};

use layout::layout::Position;
use lines::prompt::Prompt;
use measuring::measuring::{LineEnds, Window, walk_text};
use terminal::size::Size;
use text::refusal::Refusal;
use widths::tables::WidthTable;

// A size, a prompt, colours on or off, and updates held or not, as a check has accepted them.
#[derive(Clone, Copy)]
pub struct Setup {
    pub(crate) size: Size,
    pub(crate) prompt: Prompt,
    pub(crate) colours: bool,
    pub(crate) holds: bool,
}

impl Setup {
    // Refuses a size that is out of range, then a prompt whose two forms do not show one good text, then a prompt that
    // is higher than the window by a width table.
    pub fn check<W: WidthTable>(
        cols: u16,
        rows: u16,
        raw: &[u8],
        styled: &[u8],
        colours: bool,
        holds: bool,
    ) -> Result<Setup, Refusal>
        ensures { Checks W.WidthTable.columns cols rows raw.now styled.now colours holds result }
    {
        let size = Size::new(cols, rows)?;
        let prompt = Prompt::new(raw, styled)?;
        if !fits::<W>(&prompt, size) {
            return Err(Refusal::Tall);
        }
        Ok(Setup {
            size,
            prompt,
            colours,
            holds,
        })
    }
}

// Whether a prompt alone is not higher than the window.
fn fits<W: WidthTable>(prompt: &Prompt, size: Size) -> bool
    ensures { Decides result (Low (geometry W.WidthTable.columns size) (chars (visible_of prompt.now)) [] []) }
{
    let end = prompt_end::<W>(prompt, size);
    let ends = LineEnds { cursor: end, end };
    let window = Window { size, prompt: end };
    window.line_layout::<W>(ends).is_some()
}

// Where a prompt ends, a full row not counting as the next.
pub(crate) fn prompt_end<W: WidthTable>(prompt: &Prompt, size: Size) -> Position
    ensures { Behind W.WidthTable.columns size (chars (visible_of prompt.now)) result }
{
    let corner = Position { col: 0, row: 0 };
    walk_text::<W>(corner, prompt.visible(), size.cols()).unwrap()
}
