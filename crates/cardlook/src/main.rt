// Shows one record of a card. The body is in the crate programs.
#![tactic(auto)]

use mains::cardlook_main;
use std::process::ExitCode;

fn main(rt: HostRuntime) -> ExitCode {
    ExitCode::from(cardlook_main(&rt))
}
