// Reports the starts of each pump over a card. The body is in the crate programs.
#![tactic(auto)]

use mains::cardstarts_main;
use std::process::ExitCode;

fn main(rt: HostRuntime) -> ExitCode {
    ExitCode::from(cardstarts_main(&rt))
}
