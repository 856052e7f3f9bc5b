#![tactic(auto)]

// What the door prints, for the programs that print it. It reads nothing: table and script are handed in as bytes.
use bench::Run;
use mark_text::MarkLine;
use netcode::Step;
use plant::Script;
use rehearsal::run_sheet;
use semantics::{Reply, Request};
use sheet::Row;
use stages::{Accepted, Draft};
use text::RefusedLine;

fn print_marks(rt: &HostRuntime, run: &Run, rows: u32, between: &str) -> anyhow::Result<()> {
    rt.print("row count tick read read given")?;
    // A run tells its marks by number, one at a time.
    for row in 0..rows {
        if let Ok(mark) = run.mark_at(row) {
            rt.print(between)?;
            rt.print(MarkLine {
                row: row as usize,
                mark,
            })?;
        }
    }
    rt.println("")?;
    Ok(())
}

fn rehearse(
    rt: &HostRuntime,
    sheet: Accepted,
    mut script: Script,
    between: &str,
) -> anyhow::Result<()> {
    let head = sheet.head();
    let steps = vec![in rt.alloc(); Step::Halt; 32768]?;
    let requests = [Request::Rehearse(head.cycle.saturating_mul(2))];
    let mut replies = [Reply::Granted];
    match run_sheet(sheet, steps, &mut script, &requests, &mut replies) {
        Ok(run) => print_marks(rt, &run, head.rows, between),
        Err(kept) => Ok(rt.println(RefusedLine(kept.fault))?),
    }
}

// Rehearses two cycles of the sheet in the table above the words of the script, and prints the heading and the mark of
// each row, with `between` between the lines; or the refusal, of the table's bytes, the script's bytes, the judge or fit.
pub fn print_rehearsal(
    rt: &HostRuntime,
    table: &[u8],
    script: &[u8],
    between: &str,
) -> anyhow::Result<()> {
    let rows = vec![in rt.alloc(); Row::default(); 128]?;
    let draft = match Draft::read(table, rows) {
        Ok(draft) => draft,
        Err((_, fault)) => return Ok(rt.println(RefusedLine(fault.carried()))?),
    };
    let words = match Script::read(script) {
        Ok(words) => words,
        Err(fault) => return Ok(rt.println(RefusedLine(fault.carried()))?),
    };
    match draft.accept() {
        Ok(sheet) => rehearse(rt, sheet, words, between),
        Err((_, fault)) => Ok(rt.println(RefusedLine(fault.carried()))?),
    }
}
