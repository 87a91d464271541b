// The acts of a script.
ghost use Rattle.std.specs.Prelude.{◌≡◌, Some, None, MatchResult, ◌⊎◌};
ghost use Rattle.script.specs.Acts.{act_of, deed_of};
ghost use Rattle.script.specs.Scripts.{verb_of};
ghost use Rattle.script.specs.declared.error.Wrong.TheVariants.{Memory};

use crate::error::Wrong;
use crate::fields::Fields;

#[derive(Drop)]
pub enum ScriptAct {
    Create,
    // a text that should be one character, and how often
    Insert(Vec<u8>, u16),
    // a line and a position in it
    Set(Vec<u8>, usize),
    Go(usize),
    Refresh,
    Message(Vec<u8>),
    Notice(Vec<u8>),
    Clear,
    Finish,
}

// An act, and the line in which it stands, from 1.
#[derive(Drop)]
pub struct ScriptLine {
    pub line: usize,
    pub act: ScriptAct,
}

// The words that say an act.
#[derive(Clone, Copy)]
pub(crate) enum Verb {
    Create,
    Insert,
    Set,
    Go,
    Refresh,
    Message,
    Notice,
    Clear,
    Finish,
}

impl Verb {
    // The verb that a word is. No `FromStr`: an error would say no more than `None`.
    pub(crate) fn named(name: &str) -> Option<Verb>
        ensures { result ≡ verb_of name.now }
    {
        Some(match name {
            "create" => Verb::Create,
            "insert" => Verb::Insert,
            "set" => Verb::Set,
            "go" => Verb::Go,
            "refresh" => Verb::Refresh,
            "message" => Verb::Message,
            "notice" => Verb::Notice,
            "clear" => Verb::Clear,
            "finish" => Verb::Finish,
            _ => return None,
        })
    }
}

impl ScriptAct {
    // The act that a verb and the fields behind it say.
    pub(crate) fn read(verb: Verb, fields: &mut Fields<'_>) -> Result<ScriptAct, Wrong>
        ensures { MatchResult result (λ act. act_of verb fields.old.rest.now ≡ Some (deed_of act)) (λ wrong. (wrong ≡ Memory) ⊎ (act_of verb fields.old.rest.now ≡ None)) }
    {
        match verb {
            Verb::Create => {
                fields.end()?;
                Ok(ScriptAct::Create)
            }
            Verb::Insert => {
                let text = fields.string()?;
                let times = fields.last_small()?;
                Ok(ScriptAct::Insert(text, times))
            }
            Verb::Set => {
                let line = fields.string()?;
                let pos = fields.last_number()?;
                Ok(ScriptAct::Set(line, pos))
            }
            Verb::Go => Ok(ScriptAct::Go(fields.last_number()?)),
            Verb::Refresh => {
                fields.end()?;
                Ok(ScriptAct::Refresh)
            }
            Verb::Message => Ok(ScriptAct::Message(fields.last_string()?)),
            Verb::Notice => Ok(ScriptAct::Notice(fields.last_string()?)),
            Verb::Clear => {
                fields.end()?;
                Ok(ScriptAct::Clear)
            }
            Verb::Finish => {
                fields.end()?;
                Ok(ScriptAct::Finish)
            }
        }
    }
}
