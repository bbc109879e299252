// Checks a card. The body is in the crate programs.
#![tactic(auto)]

use mains::cardcheck_main;
use std::process::ExitCode;

fn main(rt: HostRuntime) -> ExitCode {
    ExitCode::from(cardcheck_main(&rt))
}
