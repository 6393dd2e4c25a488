// Replays scenarios, each by its name on a line of the input: the commands of NAME.in must give the answers of NAME.out.
#![tactic(auto)]

mod lines;
mod replay;

use crate::replay::replay;
use std::{fs, io};

// Replays one, and says whether it agrees.
fn run(rt: &HostRuntime, name: &str) -> io::Result<bool> {
    let heap = rt.alloc();
    let commands = fs::read(rt, format!(in heap; "{name}.in")?)?;
    let expected = fs::read(rt, format!(in heap; "{name}.out")?)?;
    match replay(&commands, &expected) {
        Some(seen) if seen.agrees => {
            println!(rt; "{name}: agrees, {} lines", seen.lines)?;
            Ok(true)
        }
        _ => {
            println!(rt; "{name}: differs")?;
            Ok(false)
        }
    }
}

fn main(rt: HostRuntime) -> io::Result<()> {
    let mut agreed = 0u64;
    let mut differed = 0u64;
    for name in rt.lines(rt.alloc()) {
        if run(&rt, &name?)? {
            agreed = agreed.saturating_add(1);
        } else {
            differed = differed.saturating_add(1);
        }
    }
    println!(rt; "{agreed} agree, {differed} differ")?;
    if differed > 0 {
        return Err(io::Error::other("a scenario differs"));
    }
    Ok(())
}
