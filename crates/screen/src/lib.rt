//! What bytes do to a screen: definitions and laws.
#![tactic(auto)]

pub mod cells;

ghost use Rattle.screen.specs.Laws.{AlwaysKept, Clears, Draws, Erases, Feeds, Moves, Style, Utf};
ghost use Rattle.screen.specs.Pages.{Inserts, Refreshes};
ghost use Rattle.screen.specs.Places.{Places};
ghost use Rattle.screen.specs.Sequences.{Reads};

// A style sequence changes nothing on a screen, not even whether a mark still joins.
pub fn style()
    ensures { Style }
{}

// The bytes of a character other than ESC do what the character does, and leave nothing unfinished.
pub fn utf()
    ensures { Utf }
{}

// A text drawn where all is blank leaves the rows above as they were, shows its block below them, and moves the window just enough.
pub fn draws()
    ensures { Draws }
{}

// The bytes that erase a block blank its rows, leave those above as they were, and end at the start of its first row.
pub fn erases()
    ensures { Erases }
{}

// The bytes of a styled text do what its visible characters do.
pub fn feeds()
    ensures { Feeds }
{}

// A move to a place inside the window goes exactly there.
pub fn moves()
    ensures { Moves }
{}

// The bytes of a refresh put a new page in the place of the old one, the cursor at its place, whatever styles the new text has.
pub fn refreshes()
    ensures { Refreshes }
{}

// A character at the end of a page, written by itself, makes the page with that character, if it stays within its row.
pub fn inserts()
    ensures { Inserts }
{}

// Home and erase blank the window from any state, unfinished bytes too, and leave the rows above it as they were.
pub fn clears()
    ensures { Clears }
{}

// Whatever bytes come, the cursor stays inside the window, nothing stands below it, and each row stays formed: right halves behind wide characters, marks on characters.
pub fn keeps()
    ensures { AlwaysKept }
{}

// The visible text of a styled text is measured to end where drawing the styled text ends.
pub fn places()
    ensures { Places }
{}

// A control sequence does what its parameter bytes and its final byte say, and a byte that cannot continue it drops it.
pub fn reads()
    ensures { Reads }
{}
