use netcode::Step;
use plant::Script;
use rehearsal::run_sheet;
use semantics::{Reply, Request};
use sheet::Row;
use stages::{Accepted, Draft};
use std::test::Fail;

// The sheet of two keys: 3 rows, a cycle of 10 ticks.
const TABLE: [u8; 32] = [
    1, 2, 2, 10, 3, 1, 0, 20, 0, 0, 0, 3, 0, 2, 0, 0, 2, 3, 2, 0, 1, 1, 1, 1, 0, 1, 5, 4, 1, 0, 0,
    1,
];

fn accepted(rt: &HostRuntime) -> Result<Accepted, Fail> {
    let rows = vec![in rt.alloc(); Row::default(); 3]?;
    let Ok(draft) = Draft::read(&TABLE, rows) else {
        return Err(Fail::new("not read"));
    };
    let Ok(sheet) = draft.accept() else {
        return Err(Fail::new("not accepted"));
    };
    Ok(sheet)
}

#[test]
fn two_cycles_are_run(rt: HostRuntime) -> Result<(), Fail> {
    let sheet = accepted(&rt)?;
    let Ok(mut words) = Script::read(&[1, 0, 1]) else {
        return Err(Fail::new("no script"));
    };
    let steps = vec![in rt.alloc(); Step::Halt; 29]?;
    let mut replies = [Reply::Granted; 2];
    let requests = [Request::Rehearse(20), Request::MarkAt { row: 2 }];
    assert!(rt; run_sheet(sheet, steps, &mut words, &requests, &mut replies).is_ok());
    assert!(rt;
        matches!(
            replies[0],
            Reply::Made {
                count: 20,
                ended: None
            }
        )
    );
    match replies[1] {
        Reply::Mark(mark) => {
            assert!(rt; mark.count == 1 && mark.tick == 5);
            Ok(())
        },
        _ => Err(Fail::new("no mark")),
    }
}

#[test]
fn too_few_steps_are_refused(rt: HostRuntime) -> Result<(), Fail> {
    let sheet = accepted(&rt)?;
    let Ok(mut words) = Script::read(&[0]) else {
        return Err(Fail::new("no script"));
    };
    let steps = vec![in rt.alloc(); Step::Halt; 28]?;
    let mut replies = [Reply::Granted; 1];
    match run_sheet(sheet, steps, &mut words, &[Request::Tick], &mut replies) {
        Ok(_) => Err(Fail::new("run")),
        Err(kept) => {
            assert!(rt; kept.fault.refusal.number() == 4 && kept.steps.len() == 28);
            Ok(())
        },
    }
}
