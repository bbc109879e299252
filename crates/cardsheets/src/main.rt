// Prints the day sheets of a card. The body is in the crate programs.
#![tactic(auto)]

use mains::cardsheets_main;
use std::process::ExitCode;

fn main(rt: HostRuntime) -> ExitCode {
    ExitCode::from(cardsheets_main(&rt))
}
