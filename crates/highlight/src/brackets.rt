// Brackets of a line, and their partners.
ghost use Rattle.std.specs.Prelude.{◌≡◌, ℕ, ◌+◌, ◌-◌, ◌<◌, ◌≤◌, ◌==◌, true, length};
ghost use Rattle.highlight.specs.Brackets.{bracket_number, bracket_kind, is_open, is_close, partner, checked, last_closing, partner_ahead, partner_before, matching, Matched};
ghost use Rattle.highlight.specs.Balances.{left_behind};
ghost use Rattle.highlight.specs.Lighting.{to_light};

// What a bracket does to the bytes that follow it.
#[derive(Clone, Copy, PartialEq, Eq, Debug)]
pub enum BracketKind {
    // its partner stands behind it
    Opening,
    // its partner stands before it
    Closing,
}

impl BracketKind {
    // The kind of a byte, if it is a bracket.
    pub fn of(byte: u8) -> Option<Self>
        ensures { result ≡ bracket_kind byte }
    {
        match byte {
            b'{' | b'[' | b'(' => Some(BracketKind::Opening),
            b'}' | b']' | b')' => Some(BracketKind::Closing),
            _ => None,
        }
    }
}

// A bracket and its index in a line.
#[derive(Clone, Copy, PartialEq, Eq, Debug)]
pub struct Bracket {
    pub byte: u8,
    pub at: usize,
}

// The bracket's number: 1 opening, 2 closing, 0 another byte.
impl From<Bracket> for u8 {
    ghost from_gives = { λ bracket number. number ≡ bracket_number bracket };

    fn from(bracket: Bracket) -> u8 {
        match BracketKind::of(bracket.byte) {
            Some(BracketKind::Opening) => 1,
            Some(BracketKind::Closing) => 2,
            None => 0,
        }
    }
}

// The bracket that goes with a bracket; another byte goes with itself.
fn matching_bracket(bracket: u8) -> u8
    ensures { result ≡ partner bracket }
{
    match bracket {
        b'{' => b'}',
        b'}' => b'{',
        b'[' => b']',
        b']' => b'[',
        b'(' => b')',
        b')' => b'(',
        b => b,
    }
}

// The last byte of a line, if it is a closing bracket.
fn last_closing(line: &[u8]) -> Option<Bracket>
    ensures { result ≡ last_closing line.now }
{
    let (&byte, front) = line.split_last()?;
    let at = front.len();
    match BracketKind::of(byte) {
        Some(BracketKind::Closing) => Some(Bracket { byte, at }),
        _ => None,
    }
}

// The bracket under a position or one byte before it; at the end of the line or past it, a closing one that ends the line.
// The project's form for this search is a loop that yields its answer by `break`.
pub fn check_bracket(line: &[u8], pos: usize) -> Option<Bracket>
    ensures { result ≡ checked line.now pos }
{
    if pos >= line.len() {
        return last_closing(line);
    }
    let mut at = pos;
    loop {
        let byte = line[at];
        match BracketKind::of(byte) {
            Some(BracketKind::Closing) => break (at > 0).then_some(Bracket { byte, at }),
            Some(BracketKind::Opening) => {
                break (at + 1 < line.len()).then_some(Bracket { byte, at });
            }
            None if at < pos || at == 0 => break None,
            None => at -= 1,
        }
    }
}

// How many brackets of a kind have no partner yet in a search.
#[derive(Clone, Copy)]
struct Unmatched {
    bracket: u8,
    counterpart: u8,
    count: usize,
    ghost goes_with: { counterpart ≡ partner bracket },
}

impl Unmatched {
    // The one bracket whose partner is looked for.
    fn new(bracket: u8) -> Self
        ensures bracket { result.bracket ≡ bracket }
        ensures one { result.count ≡ 1 }
    {
        let counterpart = matching_bracket(bracket);
        Unmatched {
            bracket,
            counterpart,
            count: 1,
        }
    }

    // Counts one more byte, its own kind up and the partner down: whether none is left, which only a partner can make so.
    #[inline]
    fn meets(&mut self, byte: u8) -> bool
        requires some { 0 < self.old.count }
        requires few { self.old.count < usize.MAX }
        ensures bracket { self.new.bracket ≡ self.old.bracket }
        ensures count { self.new.count ≡ left_behind self.old.bracket self.old.count byte }
        ensures none { result ≡ (self.new.count == 0) }
    {
        if byte == self.counterpart {
            self.count -= 1;
            return self.count == 0;
        }
        if byte == self.bracket {
            self.count += 1;
        }
        false
    }
}

// The partner of the opening bracket at `pos`, looked for towards the end of the line.
// The project's form for this search walks the bytes of the rest of the line with their index.
fn find_forward(line: &[u8], pos: usize, bracket: u8) -> Option<Bracket>
    requires within { pos < length line.now }
    requires opening { is_open bracket ≡ true }
    ensures { result ≡ partner_ahead line.now pos bracket }
{
    let mut unmatched = Unmatched::new(bracket);
    for (i, b) in line[pos + 1..].iter().enumerate() {
        if unmatched.meets(*b) {
            return Some(Bracket {
                byte: *b,
                at: pos + 1 + i,
            });
        }
    }
    None
}

// The partner of the closing bracket at `pos`, looked for towards the start of the line.
// Not one function with `find_forward`, over any iterator of bytes: its contract would have to say what the iterator gives.
fn find_backward(line: &[u8], pos: usize, bracket: u8) -> Option<Bracket>
    requires within { pos ≤ length line.now }
    requires closing { is_close bracket ≡ true }
    ensures { result ≡ partner_before line.now pos bracket }
{
    let mut unmatched = Unmatched::new(bracket);
    for (at, b) in line[..pos].iter().enumerate().rev() {
        if unmatched.meets(*b) {
            return Some(Bracket { byte: *b, at });
        }
    }
    None
}

// The partner of a bracket at `pos`; none of another byte, and where the search would begin past the line.
pub fn find_matching_bracket(line: &[u8], pos: usize, bracket: u8) -> Option<Bracket>
    ensures value { result ≡ matching line.now pos bracket }
    ensures matched { Matched line.now pos bracket result }
{
    match BracketKind::of(bracket) {
        Some(BracketKind::Opening) if pos < line.len() => find_forward(line, pos, bracket),
        Some(BracketKind::Closing) if pos <= line.len() => find_backward(line, pos, bracket),
        _ => None,
    }
}

// The bracket to light in a line: the partner of the remembered one; none in a line of one byte or none.
pub fn bracket_to_light(line: &[u8], remembered: Option<Bracket>) -> Option<Bracket>
    ensures { result ≡ to_light remembered line.now }
{
    if line.len() <= 1 {
        return None;
    }
    let bracket = remembered?;
    find_matching_bracket(line, bracket.at, bracket.byte)
}
