#![tactic(auto)]

// Translates the sheets in the file `cases`, each of which is followed by the program file expected of it. A line for
// each: `same`, or `differs`.
use cases::Pairs;
use netcode::Step;
use sheet::Row;
use stages::Draft;
use std::fs;
use translate::translate;

// Whether the sheet is accepted, and its programs are written as just these bytes.
fn same(rt: &HostRuntime, table: &[u8], file: &[u8]) -> anyhow::Result<bool> {
    let rows = vec![in rt.alloc(); Row::default(); 128]?;
    let Ok(draft) = Draft::read(table, rows) else {
        return Ok(false);
    };
    let Ok(sheet) = draft.accept() else {
        return Ok(false);
    };
    let steps = vec![in rt.alloc(); Step::Halt; 32768]?;
    let Ok(translated) = translate(sheet, steps) else {
        return Ok(false);
    };
    let mut out = vec![in rt.alloc(); 0u8; 65536]?;
    let end = programs::write(&translated.layout(), translated.steps(), out.as_mut_slice());
    Ok(end.is_ok_and(|end| end == file.len()) && out.as_slice().starts_with(file))
}

fn run(rt: &HostRuntime) -> anyhow::Result<()> {
    let cases = fs::read(rt, "cases")?;
    for (table, file) in Pairs(cases.as_slice()) {
        rt.println(if same(rt, table, file)? {
            "same"
        } else {
            "differs"
        })?;
    }
    Ok(())
}

fn main(rt: HostRuntime) -> anyhow::Result<()> {
    run(&rt)
}
