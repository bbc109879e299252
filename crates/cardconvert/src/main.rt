// Converts a card into the other edition. The body is in the crate programs.
#![tactic(auto)]

use mains::cardconvert_main;
use std::process::ExitCode;

fn main(rt: HostRuntime) -> ExitCode {
    ExitCode::from(cardconvert_main(&rt))
}
