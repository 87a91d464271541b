// Answers that are written to a place lent for them.
ghost use Rattle.std.specs.Prelude.{◌≡◌, ℕ, ◌+◌, ◌<◌, ◌≤◌, List, ◌++◌, length, take, drop, Some, nat_le};
ghost use Rattle.highlight.specs.Answers.{Answers};
ghost use Rattle.highlight.specs.Lighting.{lit};

use crate::brackets::Bracket;

// How much longer than its text an answer may be.
const ALLOWANCE: usize = 256;

// Whether a place is long enough for every answer to a text.
fn has_room(text: &[u8], out: &[u8]) -> bool
    ensures { result ≡ nat_le (length text.now + 256) (length out.now) }
{
    text.len() + ALLOWANCE <= out.len()
}

// An answer that grows from the front of the place that is lent for it.
// A length stands beside that place, since there is no heap and the caller lends it.
#[derive(Drop)]
struct Answer<'a> {
    out: &'a mut [u8],
    len: usize,
}

impl Answer<'_> {
    // Adds bytes to the answer's end.
    fn push(&mut self, bytes: &[u8])
        requires { self.old.len + length bytes.now ≤ length self.old.out.now }
        ensures same_place { self.new.out.ghost_name ≡ self.old.out.ghost_name }
        ensures len { self.new.len ≡ self.old.len + length bytes.now }
        ensures front { take self.new.len self.new.out.now ≡ take self.old.len self.old.out.now ++ bytes.now }
        ensures rest { drop self.new.len self.new.out.now ≡ drop self.new.len self.old.out.now }
        ensures long { length self.new.out.now ≡ length self.old.out.now }
    {
        let end = self.len + bytes.len();
        self.out[self.len..end].copy_from_slice(bytes);
        self.len = end;
    }
}

// Answers a text as it is.
pub(crate) fn answer_plain(text: &[u8], out: &mut [u8]) -> Option<usize>
    ensures { Answers (λ answer. answer ≡ text.now) text.now out.old result out.new }
{
    if !has_room(text, out) {
        return None;
    }
    out[..text.len()].copy_from_slice(text);
    Some(text.len())
}

// Answers a text with the bracket at an index of it lit.
pub(crate) fn answer_lit(text: &[u8], bracket: Bracket, out: &mut [u8]) -> Option<usize>
    requires { bracket.at < length text.now }
    ensures { Answers (λ answer. answer ≡ lit text.now (Some bracket)) text.now out.old result out.new }
{
    if !has_room(text, out) {
        return None;
    }
    let mut answer = Answer { out, len: 0 };
    answer.push(&text[..bracket.at]);
    answer.push(b"\x1b[1;34m");
    answer.push(&[bracket.byte]);
    answer.push(b"\x1b[0m");
    answer.push(&text[bracket.at + 1..]);
    Some(answer.len)
}
