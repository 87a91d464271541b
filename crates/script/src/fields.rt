// The fields of a line: words, numbers and quoted strings, with blanks between them.
ghost use Rattle.std.specs.Prelude.{◌≡◌, ◌<◌, ◌==◌, true, [], length, MatchResult, Some, None, vec_items, codes, ◌⊎◌};
ghost use Rattle.std.specs.Result.{result_ok};
ghost use Rattle.script.specs.Acts.{number_at, small_at, string_at, ended, last_number_at, last_small_at, last_string_at};
ghost use Rattle.script.specs.declared.error.Wrong.TheVariants.{BadWord, Memory, More};
ghost use Rattle.script.specs.Settings.{last_choice_at, last_table_at, last_highlighting_at};
ghost use Rattle.script.specs.Fields.{is_blank, run_of, behind_run, first_word, behind_word};

use crate::error::Wrong;
use crate::escape::read_quoted;
use crate::number::read_number;
use crate::settings::Highlighting;
use std::alloc::Global;
use widths::tables::Table;

// Space, tab and CR.
fn is_blank(byte: u8) -> bool
    ensures { result ≡ is_blank byte }
{
    byte == b' ' || byte == b'\t' || byte == b'\r'
}

// The bytes at a text's front that are blanks, or that are none, as is asked; and what stands behind them.
fn split_run(text: &[u8], blank: bool) -> (&[u8], &[u8])
    ensures run { result.0.now ≡ run_of blank text.now }
    ensures behind { result.1.now ≡ behind_run blank text.now }
{
    text.split_at(run_len(text, blank))
}

// How many bytes at a text's front are blanks, or are none, as is asked: a closure for that would be called with one of two.
fn run_len(text: &[u8], blank: bool) -> usize
    ensures { result ≡ length (run_of blank text.now) }
{
    text.iter()
        .take_while(|byte| is_blank(**byte) == blank)
        .count()
}

// What is left to read of a line, and where its strings are kept.
#[derive(Drop)]
pub(crate) struct Fields<'a> {
    pub(crate) heap: Global,
    pub(crate) rest: &'a [u8],
}

impl<'a> Fields<'a> {
    // The fields of a whole line.
    pub(crate) fn new(heap: Global, line: &'a [u8]) -> Fields<'a>
        ensures { result.rest.now ≡ line.now }
    {
        Fields { heap, rest: line }
    }

    // The word that comes next, empty where there is none.
    pub(crate) fn word(&mut self) -> &'a [u8]
        ensures word { result.now ≡ first_word self.old.rest.now }
        ensures rest { self.new.rest.now ≡ behind_word self.old.rest.now }
    {
        let (_, behind) = split_run(self.rest, true);
        let (word, rest) = split_run(behind, false);
        self.rest = rest;
        word
    }

    // The word that comes next, as text.
    pub(crate) fn name(&mut self) -> Result<&'a str, Wrong>
        ensures value { MatchResult result (λ name. name.now ≡ first_word self.old.rest.now) (λ wrong. wrong ≡ BadWord) }
        ensures rest { self.new.rest.now ≡ behind_word self.old.rest.now }
    {
        let word = self.word();
        Ok(std::str::from_utf8(word)?)
    }

    // The number that comes next.
    pub(crate) fn number(&mut self) -> Result<usize, Wrong>
        ensures value { result_ok result ≡ number_at self.old.rest.now }
        ensures rest { self.new.rest.now ≡ behind_word self.old.rest.now }
    {
        Ok(read_number(self.word())?)
    }

    // The number that comes next, at most 65,535.
    pub(crate) fn small(&mut self) -> Result<u16, Wrong>
        ensures value { result_ok result ≡ small_at self.old.rest.now }
        ensures rest { self.new.rest.now ≡ behind_word self.old.rest.now }
    {
        u16::try_from(self.number()?).map_err(|_| Wrong::Range)
    }

    // The bytes of the quoted string that comes next.
    pub(crate) fn string(&mut self) -> Result<Vec<u8>, Wrong>
        ensures { MatchResult result (λ bytes. string_at self.old.rest.now ≡ Some (vec_items bytes, self.new.rest.now)) (λ wrong. (wrong ≡ Memory) ⊎ (string_at self.old.rest.now ≡ None)) }
    {
        let (_, behind) = split_run(self.rest, true);
        let inner = behind.strip_prefix(b"\"").ok_or(Wrong::NoString)?;
        let quoted = read_quoted(self.heap, inner)?;
        self.rest = &inner[quoted.len..];
        Ok(quoted.bytes)
    }

    // Whether only blanks are left.
    pub(crate) fn is_empty(&self) -> bool
        ensures { result ≡ (length (behind_run true self.now.rest.now) == 0) }
    {
        let (_, behind) = split_run(self.rest, true);
        behind.is_empty()
    }

    // Refuses a line on which more is left.
    pub(crate) fn end(&self) -> Result<(), Wrong>
        ensures { MatchResult result (λ _. behind_run true self.now.rest.now ≡ []) (λ wrong. (wrong ≡ More) × (0 < length (behind_run true self.now.rest.now))) }
    {
        if self.is_empty() {
            Ok(())
        } else {
            Err(Wrong::More)
        }
    }

    // The one number that is left.
    pub(crate) fn last_number(&mut self) -> Result<usize, Wrong>
        ensures { result_ok result ≡ last_number_at self.old.rest.now }
    {
        let number = self.number()?;
        self.end()?;
        Ok(number)
    }

    // The one number that is left, at most 65,535.
    pub(crate) fn last_small(&mut self) -> Result<u16, Wrong>
        ensures { result_ok result ≡ last_small_at self.old.rest.now }
    {
        let number = self.small()?;
        self.end()?;
        Ok(number)
    }

    // The one string that is left.
    pub(crate) fn last_string(&mut self) -> Result<Vec<u8>, Wrong>
        ensures { MatchResult result (λ bytes. last_string_at self.old.rest.now ≡ Some (vec_items bytes)) (λ wrong. (wrong ≡ Memory) ⊎ (last_string_at self.old.rest.now ≡ None)) }
    {
        let string = self.string()?;
        self.end()?;
        Ok(string)
    }

    // The one word that is left, as text.
    pub(crate) fn last_name(&mut self) -> Result<&'a str, Wrong>
        ensures { MatchResult result (λ name. ended (first_word self.old.rest.now) (behind_word self.old.rest.now) ≡ Some name.now) (λ wrong. (wrong ≡ BadWord) ⊎ (ended (first_word self.old.rest.now) (behind_word self.old.rest.now) ≡ None)) }
    {
        let name = self.name()?;
        self.end()?;
        Ok(name)
    }

    // Whether the one word that is left is the first of two.
    pub(crate) fn last_choice(
        &mut self,
        one: &'static str,
        other: &'static str,
    ) -> Result<bool, Wrong>
        ensures { MatchResult result (λ x. last_choice_at one.now other.now self.old.rest.now ≡ Some x) (λ wrong. (wrong ≡ BadWord) ⊎ (last_choice_at one.now other.now self.old.rest.now ≡ None)) }
    {
        let name = self.last_name()?;
        if name == one {
            return Ok(true);
        }
        if name == other {
            return Ok(false);
        }
        Err(Wrong::Choice(one, other))
    }

    // `on` or `off`.
    pub(crate) fn last_switch(&mut self) -> Result<bool, Wrong>
        ensures { MatchResult result (λ x. last_choice_at (codes "on") (codes "off") self.old.rest.now ≡ Some x) (λ wrong. (wrong ≡ BadWord) ⊎ (last_choice_at (codes "on") (codes "off") self.old.rest.now ≡ None)) }
    {
        self.last_choice("on", "off")
    }

    // The width table of that name.
    pub(crate) fn last_table(&mut self) -> Result<Table, Wrong>
        ensures { MatchResult result (λ x. last_table_at self.old.rest.now ≡ Some x) (λ wrong. (wrong ≡ BadWord) ⊎ (last_table_at self.old.rest.now ≡ None)) }
    {
        let latin = self.last_choice("latin", "eastern")?;
        if latin {
            Ok(Table::Latin)
        } else {
            Ok(Table::Eastern)
        }
    }

    // The highlighter of that name.
    pub(crate) fn last_highlighting(&mut self) -> Result<Highlighting, Wrong>
        ensures { MatchResult result (λ x. last_highlighting_at self.old.rest.now ≡ Some x) (λ wrong. (wrong ≡ BadWord) ⊎ (last_highlighting_at self.old.rest.now ≡ None)) }
    {
        let plain = self.last_choice("plain", "brackets")?;
        if plain {
            Ok(Highlighting::Plain)
        } else {
            Ok(Highlighting::Brackets)
        }
    }
}
