// Reads a model sheet and then a plan sheet from standard input, and prints the verdict in one line.
#![tactic(auto)]

use input::read_input;
use verdict::judge::judge;

fn main(rt: HostRuntime) -> anyhow::Result<()> {
    let input = read_input(rt.alloc(), &mut rt.stdin())?;
    let verdict = judge(rt.alloc(), input.as_slice())?;
    println!(rt; "{verdict}")?;
    Ok(())
}
