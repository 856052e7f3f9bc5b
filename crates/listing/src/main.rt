#![tactic(auto)]

// Prints the sheet in the file `table` for a person: the head, a line for each row, what was found, and the programs of
// an accepted sheet with a line for each step.
use netcode::{Layout, Step, line_program, station_of};
use sheet::Row;
use stages::{Accepted, Draft};
use std::fs;
use step_text::{ProgramLine, Role, StepLine};
use text::{FoundLine, HeadLine, RefusedLine, RowLine};
use translate::translate;

fn print_rows(rt: &HostRuntime, rows: &[Row]) -> anyhow::Result<()> {
    for (number, row) in rows.iter().enumerate() {
        rt.println(RowLine { number, row: *row })?;
    }
    Ok(())
}

// The steps of one program, each with its address.
fn print_steps(rt: &HostRuntime, steps: &[Step]) -> anyhow::Result<()> {
    for (address, step) in steps.iter().enumerate() {
        rt.println(StepLine {
            address,
            step: *step,
        })?;
    }
    Ok(())
}

// The line above a program.
fn heading(program: usize) -> ProgramLine {
    let station = station_of(program);
    let is_line = u32::try_from(station).is_ok_and(|station| program == line_program(station));
    let role = if is_line { Role::Line } else { Role::Work };
    ProgramLine {
        program,
        station,
        role,
    }
}

// All programs, one after the other.
fn print_programs(rt: &HostRuntime, layout: &Layout, steps: &[Step]) -> anyhow::Result<()> {
    for (program, own) in layout.programs(steps).enumerate() {
        rt.println(heading(program))?;
        print_steps(rt, own)?;
    }
    Ok(())
}

fn print_accepted(rt: &HostRuntime, sheet: Accepted) -> anyhow::Result<()> {
    rt.println("accepted")?;
    let steps = vec![in rt.alloc(); Step::Halt; 32768]?;
    match translate(sheet, steps) {
        Ok(translated) => print_programs(rt, &translated.layout(), translated.steps()),
        Err((_, _, fault)) => Ok(rt.println(RefusedLine(fault.carried()))?),
    }
}

fn list(rt: &HostRuntime, bytes: &[u8]) -> anyhow::Result<()> {
    let rows = vec![in rt.alloc(); Row::default(); 128]?;
    let draft = match Draft::read(bytes, rows) {
        Ok(draft) => draft,
        Err((_, fault)) => return Ok(rt.println(RefusedLine(fault.carried()))?),
    };
    let head = draft.head();
    rt.println(HeadLine(head))?;
    print_rows(rt, draft.rows())?;
    rt.println(FoundLine {
        rows: head.rows,
        bytes: bytes.len(),
    })?;
    match draft.accept() {
        Ok(sheet) => print_accepted(rt, sheet),
        Err((_, fault)) => Ok(rt.println(RefusedLine(fault.carried()))?),
    }
}

fn run(rt: &HostRuntime) -> anyhow::Result<()> {
    let bytes = fs::read(rt, "table")?;
    list(rt, bytes.as_slice())
}

fn main(rt: HostRuntime) -> anyhow::Result<()> {
    run(&rt)
}
