// Lists the records of a card. The body is in the crate programs.
#![tactic(auto)]

use mains::cardlist_main;
use std::process::ExitCode;

fn main(rt: HostRuntime) -> ExitCode {
    ExitCode::from(cardlist_main(&rt))
}
