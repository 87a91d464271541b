// The acts of a session after its create.

// An act: its texts are lent.
#[derive(Drop)]
pub enum Act<'a> {
    // a character, so many times before the edit position
    Insert(&'a [u8], u16),
    // another line, and an edit position in it
    Set(&'a [u8], usize),
    // another edit position
    Go(usize),
    Refresh,
    // a text behind the line, until the next drawing
    Message(&'a [u8]),
    // a text above the block
    Notice(&'a [u8]),
    Clear,
    Finish,
}
