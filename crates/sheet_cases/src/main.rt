#![tactic(auto)]

// Judges the sheets in the file `cases`, one after the other: each is its length, two bytes, and its bytes.
// A line for each: `accepted` or its refusal; `differs` where it is read and not written back unchanged.
use cases::Parts;
use sheet::Row;
use stages::Draft;
use std::fs;
use text::RefusedLine;

// Whether the draft is written as just these bytes.
fn written_back(rt: &HostRuntime, draft: &Draft, bytes: &[u8]) -> anyhow::Result<bool> {
    let mut out = vec![in rt.alloc(); 0u8; 16384]?;
    let end = draft.write(out.as_mut_slice());
    Ok(end.is_ok_and(|end| end == bytes.len()) && out.as_slice().starts_with(bytes))
}

fn judge_case(rt: &HostRuntime, bytes: &[u8]) -> anyhow::Result<()> {
    let rows = vec![in rt.alloc(); Row::default(); 128]?;
    let draft = match Draft::read(bytes, rows) {
        Ok(draft) => draft,
        Err((_, fault)) => return Ok(rt.println(RefusedLine(fault.carried()))?),
    };
    if !written_back(rt, &draft, bytes)? {
        rt.println("differs")?;
    }
    if let Err((_, fault)) = draft.accept() {
        return Ok(rt.println(RefusedLine(fault.carried()))?);
    }
    rt.println("accepted")?;
    Ok(())
}

fn run(rt: &HostRuntime) -> anyhow::Result<()> {
    let cases = fs::read(rt, "cases")?;
    for case in Parts(cases.as_slice()) {
        judge_case(rt, case)?;
    }
    Ok(())
}

fn main(rt: HostRuntime) -> anyhow::Result<()> {
    run(&rt)
}
