// Reads a model sheet and then a day sheet from standard input, and prints a line for each call of the day.
#![tactic(auto)]

use day::day::run_day;
use input::read_input;

fn main(rt: HostRuntime) -> anyhow::Result<()> {
    let input = read_input(rt.alloc(), &mut rt.stdin())?;
    let lines = run_day(rt.alloc(), input.as_slice())?;
    print!(rt; "{lines}")?;
    Ok(())
}
