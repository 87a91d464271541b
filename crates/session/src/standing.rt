// How a session stands.

// What becomes of the next act.
#[derive(Clone, Copy, PartialEq, Eq)]
pub enum Standing {
    // its prompt alone is higher than the window: every act is refused
    Tall,
    // what the screen shows is known
    Open,
    // a write broke: what the screen shows is not known until it is cleared
    Torn,
}
