// Good texts: UTF-8 with no control but LF.
ghost use Rattle.std.specs.Prelude.{◌≡◌, ◌≤◌, true, length, take, IsUtf8, Decides};
ghost use Rattle.std.specs.Str.{IsCharBoundary};
ghost use Rattle.text.specs.Checks.{ChecksText, ChecksWithin};
ghost use Rattle.text.specs.Pieces.{EndsPiece, GoodFront};
ghost use Rattle.text.specs.Simple.{Simple};
ghost use Rattle.text.specs.Texts.{GoodText};

use crate::decode::{Decoded, first_char, is_continuation, is_good};
use crate::refusal::Refusal;
use std::str::from_utf8;

// Whether a byte is an ASCII character that a text may hold.
fn is_simple(byte: u8) -> bool
    ensures { result ≡ true → Simple byte }
{
    byte == b'\n' || (0x20 <= byte && byte < 0x7f)
}

// Whether all bytes are such characters, which takes no decoding to say.
// The walk goes on behind a byte that is none: without a way out it takes many bytes at once.
fn all_simple(bytes: &[u8]) -> bool
    ensures { result ≡ true → GoodText bytes.now }
{
    let mut simple = true;
    for byte in bytes {
        simple &= is_simple(*byte);
    }
    simple
}

// The most bytes that are looked at together.
const PIECE: usize = 512;

// How many bytes of the front are looked at together, so that no character is cut: none where one is cut at every place.
fn piece_len(bytes: &[u8]) -> usize
    ensures { EndsPiece bytes.now result }
{
    let most = bytes.len().min(PIECE);
    for len in (1..=most).rev() {
        if is_boundary(bytes, len) {
            return len;
        }
    }
    0
}

// Accepts a good text, and refuses any other, at the piece where the fault is.
pub fn check_text(bytes: &[u8]) -> Result<(), Refusal>
    ensures { ChecksText bytes.now result }
{
    let mut rest = bytes;
    while !rest.is_empty() {
        let (piece, behind) = rest.split_at(piece_len(rest));
        if piece.is_empty() {
            return Err(Refusal::Text);
        }
        check_piece(piece)?;
        rest = behind;
    }
    Ok(())
}

// Accepts a good text, and refuses any other, when all of it is read.
fn check_piece(bytes: &[u8]) -> Result<(), Refusal>
    ensures { ChecksText bytes.now result }
{
    if all_simple(bytes) {
        return Ok(());
    }
    match from_utf8(bytes) {
        Ok(text) if text.chars().all(is_good) => Ok(()),
        _ => Err(Refusal::Text),
    }
}

// Accepts a good text of at most `max` bytes; refuses one that is not good before it refuses one that is too long.
pub fn check_text_within(bytes: &[u8], max: usize) -> Result<(), Refusal>
    ensures { ChecksWithin bytes.now max result }
{
    check_text(bytes)?;
    if bytes.len() > max {
        return Err(Refusal::Long);
    }
    Ok(())
}

// Whether a position is within the bytes and no continuation byte stands there: in UTF-8, where whole characters end.
pub fn is_boundary(bytes: &[u8], at: usize) -> bool
    ensures place { Decides result (IsCharBoundary bytes.now at) }
    ensures characters { IsUtf8 bytes.now → Decides result ((at ≤ length bytes.now) × IsUtf8 (take at bytes.now)) }
{
    match bytes.get(at) {
        Some(&byte) => !is_continuation(byte),
        None => at == bytes.len(),
    }
}

// The character that begins the bytes, if it is one that a text may hold.
#[inline(always)]
pub(crate) fn good_char(bytes: &[u8]) -> Option<Decoded>
    ensures { GoodFront bytes.now result }
{
    let found = first_char(bytes)?;
    is_good(found.code).then_some(found)
}
