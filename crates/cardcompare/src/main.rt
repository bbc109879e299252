// Compares two day sheets of one pump and date. The body is in the crate programs.
#![tactic(auto)]

use mains::cardcompare_main;
use std::process::ExitCode;

fn main(rt: HostRuntime) -> ExitCode {
    ExitCode::from(cardcompare_main(&rt))
}
