// The layout of a block: where its parts end.
ghost use Rattle.std.specs.Prelude.{◌≤◌};

use crate::layout::Position;

mod laying;

// The places where prompt, line before the edit position, and the whole text end, counted from the block's start, and
// whether the text ends on a full row.
#[derive(Clone, Copy)]
pub struct Layout {
    prompt_size: Position,
    cursor: Position,
    end: Position,
    full: bool,
    ghost low: { end.row ≤ 199 },
    ghost ordered: { cursor.row ≤ end.row },
    ghost within: { cursor.col ≤ 499 },
}
