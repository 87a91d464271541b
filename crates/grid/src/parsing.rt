// What one byte does to a grid.
ghost use Rattle.std.specs.Prelude.{◌≡◌, ◌≤◌, true};
ghost use Rattle.screen.specs.Bytes.{begin, continue, dropped, escaped, starts, step, step_in};
ghost use Rattle.screen.specs.declared.cells.Parser.TheVariants.{Ground, Escape, Sequence, Character};
ghost use Rattle.grid.specs.Bounds.{sure};
ghost use Rattle.grid.specs.Meaning.{area};
ghost use Rattle.grid.specs.Steps.{Does, Tries};

use crate::acting::with_parameter;
use crate::full::Full;
use crate::grid::Grid;
use screen::cells::{Parameters, Parser, Partial};
use widths::tables::WidthTable;

// A character begun, of which any bytes to come make a character.
#[derive(Clone, Copy)]
struct Begun {
    partial: Partial,
    ghost sure: { sure partial ≡ true },
}

impl<W: WidthTable> Grid<W> {
    // A character of several bytes begins. (Its four numbers go no further together, so no struct is plainer.)
    fn start(&mut self, value: u8, left: u8, low: u8, high: u8)
        requires { sure (record { value = value; left = left; low = low; high = high }) ≡ true }
        ensures { Does (starts value left low high) self.old self.new }
    {
        self.parser = Parser::Character(Partial {
            value: u32::from(value),
            left,
            low,
            high,
        });
    }

    // A byte from 128 on where nothing is unfinished.
    #[tactic(auto, unfolding(screen::specs::Bytes::begin))]
    fn begin_character(&mut self, byte: u8)
        requires { 128 ≤ byte }
        ensures { Does (begin (area W.WidthTable.columns self.old) byte) self.old self.new }
    {
        match byte {
            0xc2..=0xdf => self.start(byte - 0xc0, 1, 0x80, 0xbf),
            0xe0 => self.start(0, 2, 0xa0, 0xbf),
            0xed => self.start(13, 2, 0x80, 0x9f),
            0xe1..=0xef => self.start(byte - 0xe0, 2, 0x80, 0xbf),
            0xf0 => self.start(0, 3, 0x90, 0xbf),
            0xf1..=0xf3 => self.start(byte - 0xf0, 3, 0x80, 0xbf),
            0xf4 => self.start(4, 3, 0x80, 0x8f),
            _ => self.drop_unfinished(),
        }
    }
}

impl<W: WidthTable> Grid<W> {
    // A byte where nothing is unfinished.
    #[tactic(auto, unfolding(screen::specs::Bytes::begin, screen::specs::Bytes::step_in))]
    fn on_ground(&mut self, byte: u8) -> Result<(), Full>
        ensures { Tries (step_in (area W.WidthTable.columns self.old) Ground byte) self.old self.new result }
    {
        if byte < 128 {
            return self.put(char::from(byte));
        }
        self.begin_character(byte);
        Ok(())
    }

    // One more byte of a character.
    fn continue_character(&mut self, begun: Begun, byte: u8) -> Result<(), Full>
        requires low { begun.partial.low ≤ byte }
        requires high { byte ≤ begun.partial.high }
        ensures { Tries (continue (area W.WidthTable.columns self.old) begun.partial byte) self.old self.new result }
    {
        let partial = begun.partial;
        let value = partial.value * 64 + u32::from(byte - 0x80);
        if partial.left < 2 {
            return self.put(char::from_u32(value).unwrap());
        }
        self.parser = Parser::Character(Partial {
            value,
            left: partial.left - 1,
            low: 0x80,
            high: 0xbf,
        });
        Ok(())
    }
}

impl<W: WidthTable> Grid<W> {
    // A byte that does not continue the character begun.
    fn begin_anew(&mut self, byte: u8) -> Result<(), Full>
        ensures { Tries (λ s. step_in (area W.WidthTable.columns self.old) Ground byte (dropped s)) self.old self.new result }
    {
        let parser = self.parser;
        let join = self.join;
        self.drop_unfinished();
        let taken = self.on_ground(byte);
        if taken.is_err() {
            self.parser = parser;
            self.join = join;
        }
        taken
    }

    // A byte inside a character: it continues it, or drops it and counts for itself.
    #[tactic(auto, unfolding(screen::specs::Bytes::step_in))]
    fn in_character(&mut self, begun: Begun, byte: u8) -> Result<(), Full>
        ensures { Tries (step_in (area W.WidthTable.columns self.old) (Character begun.partial) byte) self.old self.new result }
    {
        if (begun.partial.low..=begun.partial.high).contains(&byte) {
            self.continue_character(begun, byte)
        } else {
            self.begin_anew(byte)
        }
    }

    // A byte after `ESC[` and parameters.
    #[tactic(auto, unfolding(screen::specs::Bytes::step_in))]
    fn in_sequence(&mut self, parameters: Parameters, byte: u8)
        ensures { Does (step_in (area W.WidthTable.columns self.old) (Sequence parameters) byte) self.old self.new }
    {
        match byte {
            0x30..=0x3f => self.parser = Parser::Sequence(with_parameter(parameters, byte)),
            0x40..=0x7e => self.finish(parameters, byte),
            _ => self.drop_unfinished(),
        }
    }

    // A byte after ESC.
    #[tactic(auto, unfolding(screen::specs::Bytes::step_in))]
    fn after_escape(&mut self, byte: u8)
        ensures { Does (step_in (area W.WidthTable.columns self.old) Escape byte) self.old self.new }
    {
        if byte == b'[' {
            self.parser = Parser::Sequence(Parameters::Bare);
        } else {
            self.drop_unfinished();
        }
    }

    // ESC: what is unfinished is dropped, and that ends the joining.
    fn escape(&mut self)
        ensures { Does escaped self.old self.new }
    {
        match self.parser {
            Parser::Ground => {}
            _ => self.join = None,
        }
        self.parser = Parser::Escape;
    }

    // One byte.
    pub(crate) fn step(&mut self, byte: u8) -> Result<(), Full>
        ensures { Tries (step (area W.WidthTable.columns self.old) byte) self.old self.new result }
    {
        match (self.parser, byte) {
            (_, 27) => {
                self.escape();
                Ok(())
            }
            (Parser::Ground, _) => self.on_ground(byte),
            (Parser::Escape, _) => {
                self.after_escape(byte);
                Ok(())
            }
            (Parser::Sequence(parameters), _) => {
                self.in_sequence(parameters, byte);
                Ok(())
            }
            (Parser::Character(partial), _) => self.in_character(Begun { partial }, byte),
        }
    }
}
