//! `play_acts`: what `caption run` does, by itself, so that its report is compared too.
#![tactic(auto)]

use player::play::play_script;
use std::io::Read;
use std::process::ExitCode;

fn main(rt: HostRuntime) -> ExitCode {
    let mut script = Vec::new(rt.alloc());
    if rt.stdin().read_to_end(&mut script).is_err() {
        return ExitCode::FAILURE;
    }
    match play_script(&rt, script.as_slice()) {
        Ok(()) => ExitCode::SUCCESS,
        Err(fault) => {
            let _ = eprintln!(rt; "{fault}");
            ExitCode::FAILURE
        }
    }
}
