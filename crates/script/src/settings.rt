// The settings of a script.
ghost use Rattle.std.specs.Prelude.{◌≡◌, IfOk, IsOkUnless};
ghost use Rattle.std.specs.Result.{result_ok};
ghost use Rattle.script.specs.declared.settings.Setting.TheVariants as words;
ghost use Rattle.script.specs.Settings.{answer_of, change_of, setup_of, Changes};
ghost use Rattle.script.specs.Scripts.{setting_of};

use crate::error::Wrong;
use crate::fields::Fields;
use crate::number::read_number;
use faults::fault::Fault;
use std::alloc::Global;
use terminal::terminal::{WriteAnswer, WriteError};
use widths::tables::Table;

// The highlighters.
#[derive(Clone, Copy)]
pub enum Highlighting {
    Plain,
    Brackets,
}

// How sessions and their terminal are set up.
#[derive(Drop)]
pub struct Settings {
    pub cols: u16,
    pub rows: u16,
    pub table: Table,
    pub raw: Vec<u8>,
    pub styled: Vec<u8>,
    pub colours: bool,
    pub holds: bool,
    pub highlighting: Highlighting,
    // the prepared captions, each ended by LF
    pub captions: Vec<u8>,
    // how many pacers stand between session and terminal
    pub pace: usize,
    // rows of paper
    pub paper: usize,
    pub faults: Vec<Fault>,
}

const PAPER: usize = 10_000;

// The settings, as a script names them.
#[derive(Clone, Copy)]
pub(crate) enum Setting {
    Size,
    Table,
    Prompt,
    Colours,
    Holds,
    Highlighter,
    Caption,
    Pace,
    Paper,
    Fault,
}

impl Setting {
    // The setting of that name. No `FromStr`: an error would say no more than `None`.
    pub(crate) fn named(name: &str) -> Option<Setting>
        ensures { result ≡ setting_of name.now }
    {
        Some(match name {
            "size" => Setting::Size,
            "table" => Setting::Table,
            "prompt" => Setting::Prompt,
            "colours" => Setting::Colours,
            "holds" => Setting::Holds,
            "highlighter" => Setting::Highlighter,
            "caption" => Setting::Caption,
            "pace" => Setting::Pace,
            "paper" => Setting::Paper,
            "fault" => Setting::Fault,
            _ => return None,
        })
    }
}

// How a call goes wrong: `down`, `interrupted`, or how many bytes it takes.
fn read_answer(word: &str) -> Result<WriteAnswer, Wrong>
    ensures { result_ok result ≡ answer_of word.now }
{
    match word {
        "down" => Ok(Err(WriteError::Down)),
        "interrupted" => Ok(Err(WriteError::Interrupted)),
        _ => {
            let taken = read_number(word.as_bytes())?;
            Ok(Ok(taken))
        }
    }
}

impl Settings {
    ghost use Rattle.script.specs.Defaults.{IsDefault};

    // The settings of a script that says none.
    pub fn new(heap: Global) -> Result<Settings, Wrong>
        ensures ok { IfOk result IsDefault }
        ensures err { IsOkUnless result Wrong.Memory }
    {
        Ok(Settings {
            cols: 80,
            rows: 24,
            table: Table::Latin,
            raw: Vec::from_slice(heap, b"> ")?,
            styled: Vec::from_slice(heap, b"> ")?,
            colours: false,
            holds: false,
            highlighting: Highlighting::Plain,
            captions: Vec::new(heap),
            pace: 0,
            paper: PAPER,
            faults: Vec::new(heap),
        })
    }

    fn set_size(&mut self, fields: &mut Fields<'_>) -> Result<(), Wrong>
        ensures { Changes (change_of words.Size fields.old.rest.now (setup_of self.old)) self.old self.new result }
    {
        let cols = fields.small()?;
        let rows = fields.last_small()?;
        self.cols = cols;
        self.rows = rows;
        Ok(())
    }

    fn set_prompt(&mut self, fields: &mut Fields<'_>) -> Result<(), Wrong>
        ensures { Changes (change_of words.Prompt fields.old.rest.now (setup_of self.old)) self.old self.new result }
    {
        let raw = fields.string()?;
        let styled = if fields.is_empty() {
            raw.clone()?
        } else {
            fields.last_string()?
        };
        self.raw = raw;
        self.styled = styled;
        Ok(())
    }

    fn add_caption(&mut self, fields: &mut Fields<'_>) -> Result<(), Wrong>
        ensures { Changes (change_of words.Caption fields.old.rest.now (setup_of self.old)) self.old self.new result }
    {
        let mut caption = fields.last_string()?;
        caption.push(b'\n')?;
        self.captions.extend_from_slice(caption.as_slice())?;
        Ok(())
    }

    fn add_fault(&mut self, fields: &mut Fields<'_>) -> Result<(), Wrong>
        ensures { Changes (change_of words.Fault fields.old.rest.now (setup_of self.old)) self.old self.new result }
    {
        let call = fields.number()?;
        let word = fields.name()?;
        let answer = read_answer(word)?;
        fields.end()?;
        self.faults.push(Fault { call, answer })?;
        Ok(())
    }

    // Takes a setting; where it cannot be read, nothing has changed.
    pub(crate) fn set(&mut self, setting: Setting, fields: &mut Fields<'_>) -> Result<(), Wrong>
        ensures { Changes (change_of setting fields.old.rest.now (setup_of self.old)) self.old self.new result }
    {
        match setting {
            Setting::Size => self.set_size(fields),
            Setting::Table => {
                self.table = fields.last_table()?;
                Ok(())
            }
            Setting::Prompt => self.set_prompt(fields),
            Setting::Colours => {
                self.colours = fields.last_switch()?;
                Ok(())
            }
            Setting::Holds => {
                self.holds = fields.last_switch()?;
                Ok(())
            }
            Setting::Highlighter => {
                self.highlighting = fields.last_highlighting()?;
                Ok(())
            }
            Setting::Caption => self.add_caption(fields),
            Setting::Pace => {
                self.pace = fields.last_number()?;
                Ok(())
            }
            Setting::Paper => {
                self.paper = fields.last_number()?;
                Ok(())
            }
            Setting::Fault => self.add_fault(fields),
        }
    }
}
