// Reads a tile file from standard input, and prints its lowest cheapest grid.
#![tactic(auto)]

mod answering;
mod options;
mod running;
#[cfg(test)]
mod tests;

use running::run;
use std::process::ExitCode;

fn main(rt: HostRuntime) -> anyhow::Result<ExitCode> {
    run(&rt)
}
