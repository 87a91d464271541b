// A note: the hint or message behind a line.
ghost use Rattle.std.specs.Prelude.{◌≡◌, true};
ghost use Rattle.lines.specs.Stored.{stores_good};

mod checking;
mod storing;

// The most bytes of a note.
pub const MAX_NOTE: usize = 1024;

// A good text at the front of a memory, or none.
// The memory is there also where no text is: a hinter writes to it, and nothing is blanked or copied for that.
#[derive(Drop)]
pub struct Note {
    memory: [u8; MAX_NOTE],
    len: Option<usize>,
    ghost good: { stores_good memory len ≡ true },
}
