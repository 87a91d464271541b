// A live session: plain numbers; its texts stand in tables.
use crate::standing::Standing;
use layout::block::Layout;
use layout::layout::Position;
use terminal::size::Size;

mod admitting;
mod asking;
mod clearing;
mod creating;
mod finishing;
mod going;
mod locating;
mod messaging;
mod noticing;
mod painting;
mod permitting;
mod preparing;
mod reading;
mod refreshing;
mod typing;

// The checked size, the size of the terminal at create, whether texts are coloured and updates held, how it stands,
// whether the highlighter last wanted the line drawn anew, where the prompt ends (a full row not counting as the next),
// and the layout of the block on the screen.
#[derive(Drop)]
pub struct Session {
    size: Size,
    begun: Size,
    colours: bool,
    holds: bool,
    standing: Standing,
    lit: bool,
    prompt: Position,
    layout: Layout,
}
