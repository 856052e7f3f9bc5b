use crate::translate;
use fault::BytesPlace;
use netcode::Step;
use sheet::{Call, Condition, Head, Inputs, Relation, Row, Send, Test};
use stages::{Accepted, Draft};
use std::test::Fail;

const HEAD: Head = Head {
    stations: 2,
    variables: 2,
    cycle: 10,
    rows: 3,
};

const CALL: Row = Row::Call(Call {
    station: 0,
    work: 20,
    inputs: Inputs::Nothing,
    output: 0,
    date: 0,
    duration: 3,
    condition: Condition::Always,
});

const SEND: Row = Row::Send(Send {
    station: 0,
    variable: 0,
    listeners: 2,
    date: 3,
    duration: 2,
    condition: Condition::Always,
});

const REPLY: Row = Row::Call(Call {
    station: 1,
    work: 1,
    inputs: Inputs::Single(0),
    output: 1,
    date: 5,
    duration: 4,
    condition: Condition::One(Test {
        variable: 0,
        relation: Relation::Equal,
        word: 1,
    }),
});

fn accepted(rt: &HostRuntime) -> Result<Accepted, Fail> {
    let rows = [CALL, SEND, REPLY].to_vec(rt.alloc())?;
    let Ok(draft) = Draft::of(HEAD, rows) else {
        return Err(Fail::new("not a sheet"));
    };
    let Ok(sheet) = draft.accept() else {
        return Err(Fail::new("not accepted"));
    };
    Ok(sheet)
}

#[test]
fn a_sheet_is_translated(rt: HostRuntime) -> Result<(), Fail> {
    let steps = [Step::Clear; 30].to_vec(rt.alloc())?;
    let Ok(programs) = translate(accepted(&rt)?, steps) else {
        return Err(Fail::new("the list is long enough"));
    };
    let lengths = programs.layout().lengths;
    assert_eq!(rt; lengths[0], 6);
    assert_eq!(rt; lengths[1], 7);
    assert_eq!(rt; lengths[2], 9);
    assert_eq!(rt; lengths[3], 7);
    assert_eq!(rt; lengths[4], 0);
    assert_eq!(rt; programs.steps().len(), 30);
    assert_eq!(rt; programs.rows().len(), 3);
    let (draft, steps) = programs.close();
    assert_eq!(rt; draft.close().len(), 3);
    assert_eq!(rt; steps.len(), 30);
    Ok(())
}

#[test]
fn a_short_list_leaves_the_sheet_accepted(rt: HostRuntime) -> Result<(), Fail> {
    let steps = [Step::Clear; 28].to_vec(rt.alloc())?;
    let Err((sheet, steps, fault)) = translate(accepted(&rt)?, steps) else {
        return Err(Fail::new("the list is too short"));
    };
    assert_eq!(rt; fault.refusal.number(), 4);
    assert!(rt; matches!(fault.place, BytesPlace::Needed(29)));
    assert_eq!(rt; steps.len(), 28);
    assert_eq!(rt; sheet.head().rows, 3);
    Ok(())
}
