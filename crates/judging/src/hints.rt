// Hints that the window holds, and the layout with them.
ghost use Rattle.judging.specs.Fitting.{FitsHint};
ghost use Rattle.lines.specs.Notes.{note_of};

use crate::judging::Placed;
use layout::block::Layout;
use lines::note::Note;
use measuring::measuring::Window;
use widths::tables::WidthTable;

// Drops a hint that the window does not hold behind the line, and gives the layout with what is left.
pub fn fit_hint<W: WidthTable>(window: Window, line: Placed, hint: &mut Note) -> Layout
    ensures { FitsHint W.WidthTable.columns window.prompt window.size line (note_of hint.old) result (note_of hint.new) }
{
    let Some(text) = hint.get() else {
        return line.layout;
    };
    // a match, since its second arm alters the hint: no plainer with a closure
    match window.compute_layout::<W>(line.ends, Some(text)) {
        Some(layout) => layout,
        None => {
            hint.clear();
            line.layout
        }
    }
}
