// The program's arguments.
use crate::fault::Fault;
use std::alloc::Global;
use std::{env, fmt};
use terminal::size::Size;
use text::styled::visible_prompt;
use widths::tables::Table;

// How captions are previewed.
#[derive(Drop)]
pub(crate) struct Options {
    columns: u16,
    rows: u16,
    pub(crate) table: Table,
    pub(crate) prompt: String,
    pub(crate) brackets: bool,
}

// What the program is asked for.
#[derive(Drop)]
pub(crate) enum Command {
    Help,
    PreviewHelp,
    RunHelp,
    // a window and the other options
    Preview(Size, Options),
    Run,
}

// The options that have a value.
#[derive(Clone, Copy)]
pub(crate) enum Valued {
    Columns,
    Rows,
    Table,
    Prompt,
}

impl Valued {
    // The option that an argument names. No `FromStr`: an error would say no more than `None`.
    fn named(name: &str) -> Option<Valued> {
        Some(match name {
            "--columns" => Valued::Columns,
            "--rows" => Valued::Rows,
            "--table" => Valued::Table,
            "--prompt" => Valued::Prompt,
            _ => return None,
        })
    }
}

impl fmt::Display for Valued {
    fn fmt<W: fmt::Write>(&self, f: &mut fmt::Formatter<W>) -> fmt::Result {
        f.write_str(match self {
            Valued::Columns => "--columns",
            Valued::Rows => "--rows",
            Valued::Table => "--table",
            Valued::Prompt => "--prompt",
        })
    }
}

const MAX_PROMPT: usize = 512;

// The number that an option's value says.
fn number_of(option: Valued, value: String) -> Result<u16, Fault> {
    value
        .parse::<u16>()
        .map_err(|_| Fault::Number(option, value))
}

// The table that an option's value says.
fn table_of(value: String) -> Result<Table, Fault> {
    value.parse::<Table>().map_err(|_| Fault::Table(value))
}

impl Options {
    fn new(heap: Global) -> Result<Options, Fault> {
        Ok(Options {
            columns: 40,
            rows: 6,
            table: Table::Latin,
            prompt: String::from_str(heap, "> ")?,
            brackets: false,
        })
    }

    // One option that has a value.
    fn set(&mut self, option: Valued, value: String) -> Result<(), Fault> {
        match option {
            Valued::Columns => self.columns = number_of(option, value)?,
            Valued::Rows => self.rows = number_of(option, value)?,
            Valued::Table => self.table = table_of(value)?,
            Valued::Prompt => self.prompt = value,
        }
        Ok(())
    }

    // The window, once size and prompt are found possible.
    fn window(&self) -> Result<Size, Fault> {
        let size = Size::new(self.columns, self.rows).map_err(|_| Fault::Size(
            self.columns,
            self.rows,
        ))?;
        visible_prompt(self.prompt.as_bytes(), &mut [0; MAX_PROMPT]).map_err(|_| Fault::Prompt)?;
        Ok(size)
    }
}

// What the options behind `preview` ask for.
fn read_options(heap: Global, args: env::Args) -> Result<Command, Fault> {
    let mut options = Options::new(heap)?;
    let mut waiting: Option<Valued> = None;
    for arg in args {
        if let Some(option) = waiting.take() {
            options.set(option, arg)?;
            continue;
        }
        waiting = Valued::named(arg.as_str());
        if waiting.is_none() {
            match arg.as_str() {
                "--help" => return Ok(Command::PreviewHelp),
                "--brackets" => options.brackets = true,
                _ => return Err(Fault::UnknownOption(arg)),
            }
        }
    }
    if let Some(option) = waiting {
        return Err(Fault::MissingValue(option));
    }
    Ok(Command::Preview(options.window()?, options))
}

// What the options behind `run` ask for.
fn read_run_options(mut args: env::Args) -> Result<Command, Fault> {
    let Some(option) = args.next() else {
        return Ok(Command::Run);
    };
    match option.as_str() {
        "--help" => Ok(Command::RunHelp),
        _ => Err(Fault::UnknownRunOption(option)),
    }
}

// The command that the arguments say.
pub(crate) fn read_command(rt: &HostRuntime) -> Result<Command, Fault> {
    let mut args = env::args(rt)?;
    let _ = args.next();
    let command = args.next().ok_or(Fault::Command)?;
    match command.as_str() {
        "--help" => Ok(Command::Help),
        "preview" => read_options(rt.alloc(), args),
        "run" => read_run_options(args),
        _ => Err(Fault::Command),
    }
}
