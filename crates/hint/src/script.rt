// The hinter that has a script of captions.
ghost use Rattle.std.specs.Prelude.{◌≡◌, ◌≤◌, length, take, drop, IfSome, Decides};
ghost use Rattle.std.specs.Option.{option_map};
ghost use Rattle.hint.specs.Hints.{GoodHint};
ghost use Rattle.hint.specs.Scripts.{captions_of, Continues, goes_on, first_continuing, script_hint};

use crate::hint::{Hinter, MAX_HINT};
use text::texts::{check_text, is_boundary};

// Whether a caption goes on from a line: it is a good text, begins with the line, and has a rest that is a good text.
fn continues(caption: &[u8], line: &[u8]) -> bool
    ensures rule { Decides result (Continues line.now caption.now) }
    ensures value { result ≡ goes_on line.now caption.now }
{
    let Some(rest) = caption.strip_prefix(line) else {
        return false;
    };
    if rest.is_empty() || !is_boundary(caption, line.len()) {
        return false;
    }
    // a good text that is cut where a character ends has a good rest, so it is walked once
    check_text(caption).is_ok()
}

// The first caption of a script that goes on from a line.
fn first_continuing<'a>(script: &'a [u8], line: &[u8]) -> Option<&'a [u8]>
    ensures { option_map (λ x. x.now) result ≡ first_continuing line.now (captions_of script.now) }
{
    script
        .split(|byte| *byte == b'\n')
        .find(|caption| continues(caption, line))
}

// What a script has for a line whose end is the position: the rest of the first caption that goes on from it.
fn script_hint<'a>(script: &'a [u8], line: &[u8], pos: usize) -> Option<&'a [u8]>
    ensures value { option_map (λ x. x.now) result ≡ script_hint script.now line.now pos }
    ensures good { IfSome result (λ hint. GoodHint hint.now) }
{
    if line.is_empty() || pos != line.len() {
        return None;
    }
    let rest = first_continuing(script, line)?.strip_prefix(line)?;
    (rest.len() <= MAX_HINT).then_some(rest)
}

// Writes a hint to the front of a place, and answers its length.
fn write_hint(hint: &[u8], out: &mut [u8; MAX_HINT]) -> usize
    requires { length hint.now ≤ 1024 }
    ensures len { result ≡ length hint.now }
    ensures front { take result out.new ≡ hint.now }
    ensures rest { drop result out.new ≡ drop result out.old }
{
    out[..hint.len()].copy_from_slice(hint);
    hint.len()
}

// Offers the rest of the first caption that goes on from the line.
#[derive(Clone, Copy)]
pub struct ScriptHinter<'a> {
    // captions with LF between them
    captions: &'a [u8],
}

impl<'a> ScriptHinter<'a> {
    // Takes captions, one a line.
    pub fn new(captions: &'a [u8]) -> Self
        ensures { result.captions.now ≡ captions.now }
    {
        ScriptHinter { captions }
    }
}

impl Hinter for ScriptHinter<'_> {
    ghost hints = { λ h line pos. script_hint h.captions.now line pos };

    fn hint(&self, line: &[u8], pos: usize, out: &mut [u8; MAX_HINT]) -> Option<usize> {
        let hint = script_hint(self.captions, line, pos)?;
        Some(write_hint(hint, out))
    }
}
