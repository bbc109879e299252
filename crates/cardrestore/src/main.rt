// Restores a card. The body is in the crate programs.
#![tactic(auto)]

use mains::cardrestore_main;
use std::process::ExitCode;

fn main(rt: HostRuntime) -> ExitCode {
    ExitCode::from(cardrestore_main(&rt))
}
