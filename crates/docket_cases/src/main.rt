// Plays scripts of calls on dockets, and compares each answer with the one that the script expects.
#![tactic(auto)]

mod play;
mod script;

use script::Script;
use std::{env, fs, io};

// How often each script is played for its time; 0 where no argument says so.
fn rounds(rt: &HostRuntime) -> io::Result<u32> {
    let word = env::args(rt)?.nth(1);
    Ok(word.map_or(0, |word| word.as_str().parse().unwrap_or(0)))
}

fn main(rt: HostRuntime) -> io::Result<()> {
    let rounds = rounds(&rt)?;
    let scripts = fs::read_to_string(&rt, "scripts.txt")?;
    // a blank line ends a script
    for block in scripts.as_str().split("\n\n") {
        match Script::read(rt.alloc(), block) {
            Ok(script) => play::run(&rt, &script, rounds)?,
            Err(error) => println!(rt; "{error}: {block}")?,
        }
    }
    Ok(())
}
