// A script, read line by line.
ghost use Rattle.std.specs.Prelude.{◌≡◌, IfOk, IsOkUnless};
ghost use Rattle.script.specs.Scripts.{said_by, with_line, Adds, Means};

use crate::act::{ScriptAct, ScriptLine, Verb};
use crate::error::{ScriptError, Wrong};
use crate::fields::Fields;
use crate::settings::{Setting, Settings};
use std::alloc::Global;
use text::lines::Lines;

// The settings, the acts up to the first line that cannot be read, and what is wrong there.
#[derive(Drop)]
pub struct Script {
    pub settings: Settings,
    pub acts: Vec<ScriptLine>,
    pub error: Option<ScriptError>,
}

impl Script {
    // One line.
    fn read_line(&mut self, line: usize, mut fields: Fields<'_>) -> Result<(), Wrong>
        ensures adds { Adds (with_line line fields.entry.rest.now (said_by self.old)) self.old self.new result }
        ensures error { self.new.error ≡ self.old.error }
    {
        let word = fields.word();
        if word.is_empty() || word[0] == b'#' {
            return Ok(());
        }
        let name = std::str::from_utf8(word)?;
        if let Some(verb) = Verb::named(name) {
            let act = ScriptAct::read(verb, &mut fields)?;
            self.acts.push(ScriptLine { line, act })?;
            return Ok(());
        }
        let Some(setting) = Setting::named(name) else {
            return Err(Wrong::UnknownWord(String::from_str(fields.heap, name)?));
        };
        if !self.acts.is_empty() {
            return Err(Wrong::LateSetting);
        }
        self.settings.set(setting, &mut fields)
    }
}

// Reads a script up to its end, or to the first line that cannot be read.
pub fn read_script(heap: Global, bytes: &[u8]) -> Result<Script, Wrong>
    ensures memory { IsOkUnless result Wrong.Memory }
    ensures means { IfOk result (λ script. Means bytes.now script script.error) }
{
    let mut script = Script {
        settings: Settings::new(heap)?,
        acts: Vec::new(heap),
        error: None,
    };
    let mut lines = Lines::new(bytes);
    let mut line = 1;
    // not a `for` over a `zip`: its items have no contract that tells a line's number
    while let Some(text) = lines.next() {
        if let Err(wrong) = script.read_line(line, Fields::new(heap, text)) {
            script.error = Some(ScriptError { line, wrong });
            return Ok(script);
        }
        line += 1;
    }
    Ok(script)
}
