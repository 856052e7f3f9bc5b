#![tactic(auto)]

// Rehearses two cycles of the sheet in the file `table` above the words in the file `script`, and prints the mark of each
// row; or the refusal.
use door_print::print_rehearsal;
use std::fs;

fn run(rt: &HostRuntime) -> anyhow::Result<()> {
    let table = fs::read(rt, "table")?;
    let script = fs::read(rt, "script")?;
    print_rehearsal(rt, table.as_slice(), script.as_slice(), "\n")
}

fn main(rt: HostRuntime) -> anyhow::Result<()> {
    run(&rt)
}
