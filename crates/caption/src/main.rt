//! `caption`: prepared captions held against the screen that they will be typed on, and scripts of acts played on a grid.
#![tactic(auto)]

mod fault;
mod help;
mod options;
mod report;

use fault::Fault;
use options::{Command, read_command};
use player::fault::PlayFault;
use player::play::play_script;
use report::preview_script;
use std::io::Read;
use std::process::ExitCode;
use widths::tables::{Eastern, Latin, Table};

// Reads the whole script from standard input.
fn read_bytes(rt: &HostRuntime) -> Result<Vec<u8>, Fault> {
    let mut script = Vec::new(rt.alloc());
    rt.stdin().read_to_end(&mut script)?;
    Ok(script)
}

fn run(rt: &HostRuntime) -> Result<(), Fault> {
    match read_command(rt)? {
        Command::Help => rt.print(help::TEXT)?,
        Command::PreviewHelp => rt.print(help::PREVIEW)?,
        Command::RunHelp => rt.print(help::RUN)?,
        Command::Run => {
            let script = read_bytes(rt)?;
            play_script(rt, script.as_slice())?;
        }
        Command::Preview(size, options) => {
            let script = read_bytes(rt)?;
            match options.table {
                Table::Latin => preview_script(rt, Latin, size, &options, script.as_slice())?,
                Table::Eastern => preview_script(rt, Eastern, size, &options, script.as_slice())?,
            }
        }
    }
    Ok(())
}

fn main(rt: HostRuntime) -> ExitCode {
    match run(&rt) {
        Ok(()) => ExitCode::SUCCESS,
        Err(fault) => {
            // what is wrong in a script is told by its line alone
            let _ = match &fault {
                Fault::Play(PlayFault::Script(error)) => eprintln!(rt; "{error}"),
                _ => eprintln!(rt; "caption: {fault}"),
            };
            ExitCode::FAILURE
        }
    }
}
