//! Runs and debugs distributed programs with time limits: the command line.
#![tactic(auto)]

use pilgrim_top::status_of_command;
use std::process::ExitCode;

fn main(rt: HostRuntime) -> ExitCode {
    ExitCode::from(status_of_command(&rt))
}
