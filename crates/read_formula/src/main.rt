// Reads `formula.qdm` in the current folder, and prints what was read or why it is refused.
#![tactic(auto)]

use std::io;

fn main(rt: HostRuntime) -> io::Result<()> {
    report::run_formula(&rt)
}
