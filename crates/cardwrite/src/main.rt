// Makes a card of day sheets. The body is in the crate programs.
#![tactic(auto)]

use mains::cardwrite_main;
use std::process::ExitCode;

fn main(rt: HostRuntime) -> ExitCode {
    ExitCode::from(cardwrite_main(&rt))
}
