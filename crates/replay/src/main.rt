//! `replay`: a sample of the oracle's answers, held against ours.
#![tactic(auto)]

mod answers;
mod cases;
mod fault;
mod holder;
mod sample;
mod tally;

use fault::Fault;
use sample::replay;
use std::io::Read;
use std::process::ExitCode;

// Replays the sample on standard input, and says whether every answer is equal.
fn run(rt: &HostRuntime) -> Result<bool, Fault> {
    let mut bytes = Vec::new(rt.alloc());
    rt.stdin().read_to_end(&mut bytes)?;
    let tally = replay(rt, bytes.as_slice())?;
    println!(rt; "{tally}")?;
    Ok(tally.different == 0)
}

fn main(rt: HostRuntime) -> ExitCode {
    match run(&rt) {
        Ok(true) => ExitCode::SUCCESS,
        Ok(false) => ExitCode::FAILURE,
        Err(fault) => {
            let _ = eprintln!(rt; "replay: {fault}");
            ExitCode::FAILURE
        }
    }
}
