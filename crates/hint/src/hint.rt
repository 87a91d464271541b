// What a hinter is.
ghost use Rattle.std.specs.Prelude.{ℕ, List, None, Option as Maybe};
ghost use Rattle.hint.specs.Hints.{Hinted};

// The most bytes of a hint.
pub const MAX_HINT: usize = 1024;

// A hinter answers a good text of 1 to 1,024 bytes or none, always alike for a line and a position.
// The caller lends the place for the answer, since there is no heap.
pub trait Hinter {
    // what it answers for a line and a position
    ghost hints: { Self → List ℕ → ℕ → Maybe (List ℕ) };

    // Writes the hint to the front of `out`, and answers its length; none leaves `out` as it was.
    fn hint(&self, line: &[u8], pos: usize, out: &mut [u8; MAX_HINT]) -> Option<usize>
        ensures { Hinted (hints self.now line.now pos) out.old result out.new };
}

// Has no hint for any line.
#[derive(Clone, Copy)]
pub struct NoHinter;

impl Hinter for NoHinter {
    ghost hints = { λ _ _ _. None };

    fn hint(&self, _line: &[u8], _pos: usize, _out: &mut [u8; MAX_HINT]) -> Option<usize> {
        None
    }
}
