// Good styled texts: good characters, with style sequences between them.
ghost use Rattle.std.specs.Prelude.{◌≡◌, length, not, position};
ghost use Rattle.text.specs.Checks.{ChecksStyled, GivesVisible, ShowsPrompt};
ghost use Rattle.text.specs.Pieces.{NextPiece, StyleFront, VisibleFits};
ghost use Rattle.text.specs.Texts.{is_plain};

use crate::refusal::Refusal;
use crate::texts::good_char;

// The byte that begins a style sequence.
const ESC: u8 = 27;

// Accepts a good styled text and gives the length of its visible text, and refuses any other.
pub fn check_styled(bytes: &[u8]) -> Result<usize, Refusal>
    ensures { ChecksStyled bytes.now result }
{
    let mut len = 0;
    for shown in Pieces(bytes) {
        len += shown?.len();
    }
    Ok(len)
}

// Writes the visible text of a good styled text to the front of `out`, and gives its length.
// A place with a length beside it: no heap below the programs, so the caller lends the place.
pub fn visible_text(bytes: &[u8], out: &mut [u8]) -> Result<usize, Refusal>
    ensures { GivesVisible bytes.now out.old out.new result }
{
    let len = check_styled(bytes)?;
    if out.len() < len {
        return Err(Refusal::Long);
    }
    copy_visible(bytes, out)
}

// Writes the visible text of a prompt to the front of `out`, and gives its length. A prompt is a good styled text that is no longer than `out`.
pub fn visible_prompt<const N: usize>(form: &[u8], out: &mut [u8; N]) -> Result<usize, Refusal>
    ensures { ShowsPrompt N form.now out.old out.new result }
{
    if form.len() > N {
        return Err(Refusal::Prompt);
    }
    visible_text(form, out).or(Err(Refusal::Prompt))
}

// Copies the visible text of a good styled text for which there is room, and gives its length.
fn copy_visible(bytes: &[u8], out: &mut [u8]) -> Result<usize, Refusal>
    requires { VisibleFits bytes.now (length out.old) }
    ensures { GivesVisible bytes.now out.old out.new result }
{
    let mut filled = 0;
    for shown in Pieces(bytes) {
        let shown = shown?;
        let end = filled + shown.len();
        out[filled..end].copy_from_slice(shown);
        filled = end;
    }
    Ok(filled)
}

// What each character and each style sequence of a styled text shows; last a refusal, where they end before the text does.
#[derive(Drop)]
struct Pieces<'a>(&'a [u8]);

impl<'a> Iterator for Pieces<'a> {
    ghost use Rattle.std.specs.Iterator.{at_most};
    ghost use Rattle.text.specs.Pieces.{TakesPiece};

    type Item = Result<&'a [u8], Refusal>;

    ghost next_gives = { λ s r t. TakesPiece s.0.now r t.0.now };

    ghost remaining = { λ s. at_most (length s.0.now) };

    #[inline(always)]
    fn next(&mut self) -> Option<Result<&'a [u8], Refusal>> {
        if self.0.is_empty() {
            return None;
        }
        match split_piece(self.0) {
            Some((shown, rest)) => {
                self.0 = rest;
                Some(Ok(shown))
            }
            None => {
                self.0 = &[];
                Some(Err(Refusal::Text))
            }
        }
    }
}

// What the first character or style sequence shows, and what stands behind it.
#[inline(always)]
fn split_piece(bytes: &[u8]) -> Option<(&[u8], &[u8])>
    ensures { NextPiece bytes.now result }
{
    // most pieces are characters, and no character that a text may hold begins a style sequence
    if let Some(found) = good_char(bytes) {
        return Some(bytes.split_at(found.len));
    }
    Some((&[], past_style(bytes)?))
}

// What stands behind the style sequence that begins the bytes. Not inlined, so that the walk over characters stays short.
#[inline(never)]
fn past_style(bytes: &[u8]) -> Option<&[u8]>
    ensures { StyleFront bytes.now result }
{
    if bytes.len() < 2 || bytes[0] != ESC || bytes[1] != b'[' {
        return None;
    }
    let parameters = &bytes[2..];
    let end = plain_end(parameters)?;
    if parameters[end] != b'm' {
        return None;
    }
    Some(&parameters[end + 1..])
}

// The index of the first byte that is no digit and no semicolon.
fn plain_end(bytes: &[u8]) -> Option<usize>
    ensures { result ≡ position (λ b. not (is_plain b)) bytes.now }
{
    bytes.iter().position(|byte| !is_plain(*byte))
}

// Whether a byte is a digit or a semicolon.
fn is_plain(byte: u8) -> bool
    ensures { result ≡ is_plain byte }
{
    byte.is_ascii_digit() || byte == b';'
}
