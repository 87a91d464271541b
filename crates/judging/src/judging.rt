// Whether a line, an insert or a message can stand in a window.
ghost use Rattle.std.specs.Prelude.{◌≡◌};
ghost use Rattle.judging.specs.Judgements.{Holding, JudgesInsert, JudgesLine, JudgesMessage, JudgesSet};
ghost use Rattle.lines.specs.Lines.{line_of};

use layout::block::Layout;
use lines::line_buffer::LineBuffer;
use lines::note::Note;
use measuring::measuring::{LineEnds, Window, measure_insert, measure_line};
use text::refusal::Refusal;
use widths::tables::WidthTable;

// A line that a window holds behind its prompt: where it ends, and its layout without a note.
#[derive(Clone, Copy)]
pub struct Placed {
    pub ends: LineEnds,
    pub layout: Layout,
}

// A line that the window holds with its prompt, by where it ends; else a refusal.
fn held<W: WidthTable>(window: Window, ends: Option<LineEnds>) -> Result<Placed, Refusal>
    ensures { Holding W.WidthTable.columns window.prompt window.size ends result }
{
    let ends = ends.ok_or(Refusal::Tall)?;
    let layout = window.line_layout::<W>(ends).ok_or(Refusal::Tall)?;
    Ok(Placed { ends, layout })
}

// The line as it is.
pub fn judge_line<W: WidthTable>(window: Window, buffer: &LineBuffer) -> Result<Placed, Refusal>
    ensures { JudgesLine W.WidthTable.columns window.prompt window.size (line_of buffer.now) buffer.now.pos result }
{
    let cols = window.size.cols();
    let ends = measure_line::<W>(window.prompt, buffer.line(), buffer.pos(), cols);
    held::<W>(window, ends)
}

// Another line and position.
pub fn judge_set<W: WidthTable>(window: Window, line: &[u8], pos: usize) -> Result<Placed, Refusal>
    ensures { JudgesSet W.WidthTable.columns window.prompt window.size line.now pos result }
{
    LineBuffer::check_update(line, pos)?;
    let ends = measure_line::<W>(window.prompt, line, pos, window.size.cols());
    held::<W>(window, ends)
}

// A character put so many times before the edit position.
pub fn judge_insert<W: WidthTable>(
    window: Window,
    buffer: &LineBuffer,
    text: &[u8],
    count: u16,
) -> Result<Placed, Refusal>
    ensures { JudgesInsert W.WidthTable.columns window.prompt window.size (line_of buffer.now) buffer.now.pos text.now count result }
{
    buffer.check_insert(text, count)?;
    let ends = measure_insert::<W>(
        window.prompt,
        buffer.line(),
        buffer.pos(),
        text,
        count,
        window.size.cols(),
    );
    held::<W>(window, ends)
}

// A message below the line: the layout with it.
pub fn judge_message<W: WidthTable>(
    window: Window,
    buffer: &LineBuffer,
    text: &[u8],
) -> Result<Layout, Refusal>
    ensures { JudgesMessage W.WidthTable.columns window.prompt window.size (line_of buffer.now) buffer.now.pos text.now result }
{
    Note::check(text)?;
    let cols = window.size.cols();
    let ends = measure_line::<W>(window.prompt, buffer.line(), buffer.pos(), cols).ok_or(
        Refusal::Tall,
    )?;
    window
        .compute_layout::<W>(ends, Some(text))
        .ok_or(Refusal::Tall)
}
