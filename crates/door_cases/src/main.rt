#![tactic(auto)]

// Prints what the door prints for the tables and scripts in the file `cases`, a line for each, its lines joined by `|`.
use cases::Pairs;
use door_print::print_rehearsal;
use std::fs;

fn run(rt: &HostRuntime) -> anyhow::Result<()> {
    let cases = fs::read(rt, "cases")?;
    for (table, script) in Pairs(cases.as_slice()) {
        print_rehearsal(rt, table, script, "|")?;
    }
    Ok(())
}

fn main(rt: HostRuntime) -> anyhow::Result<()> {
    run(&rt)
}
