use crate::Draft;
use fault::{BytesPlace, RowPlace};
use sheet::{Call, Condition, Head, Inputs, Row};
use std::test::Fail;

const HEAD: Head = Head {
    stations: 1,
    variables: 2,
    cycle: 10,
    rows: 2,
};

fn call(output: u32, date: u32) -> Row {
    Row::Call(Call {
        station: 0,
        work: 5,
        inputs: Inputs::Nothing,
        output,
        date,
        duration: 2,
        condition: Condition::Always,
    })
}

// A list of three rows, one more than the sheet has.
fn list(rt: &HostRuntime) -> Result<Vec<Row>, Fail> {
    let rows = [call(0, 0), call(1, 2), call(0, 0)].to_vec(rt.alloc())?;
    Ok(rows)
}

#[test]
fn a_draft_is_accepted_and_reopened(rt: HostRuntime) -> Result<(), Fail> {
    let Ok(draft) = Draft::of(HEAD, list(&rt)?) else {
        return Err(Fail::new("not a sheet"));
    };
    assert_eq!(rt; draft.rows().len(), 2);
    let Ok(sheet) = draft.accept() else {
        return Err(Fail::new("not accepted"));
    };
    let mut draft = sheet.reopen();
    assert!(rt; draft.put(1, call(0, 2)).is_ok());
    let Err((mut draft, fault)) = draft.accept() else {
        return Err(Fail::new("two writers accepted"));
    };
    assert_eq!(rt; fault.refusal.number(), 9);
    let Err(fault) = draft.put(2, call(1, 2)) else {
        return Err(Fail::new("put beyond the sheet"));
    };
    assert_eq!(rt; fault.refusal.number(), 7);
    assert!(rt; matches!(fault.place, RowPlace::Row(2)));
    assert_eq!(rt; draft.close().len(), 3);
    Ok(())
}

#[test]
fn a_short_list_or_a_bad_head_is_no_draft(rt: HostRuntime) -> Result<(), Fail> {
    let Err((rows, fault)) = Draft::of(Head { rows: 4, ..HEAD }, list(&rt)?) else {
        return Err(Fail::new("the list is too short"));
    };
    assert!(rt; matches!(fault.place, BytesPlace::Needed(4)));
    let Err((rows, fault)) = Draft::of(Head { cycle: 0, ..HEAD }, rows) else {
        return Err(Fail::new("the head is outside"));
    };
    assert_eq!(rt; fault.refusal.number(), 6);
    assert_eq!(rt; rows.len(), 3);
    Ok(())
}

#[test]
fn a_draft_is_read_from_bytes(rt: HostRuntime) -> Result<(), Fail> {
    let bytes = [1, 1, 2, 10, 1, 1, 0, 5, 0, 0, 0, 2, 0, 9];
    let Err((rows, fault)) = Draft::read(&bytes, list(&rt)?) else {
        return Err(Fail::new("a byte follows the sheet"));
    };
    assert_eq!(rt; fault.refusal.number(), 5);
    let Ok(draft) = Draft::read(&bytes[..13], rows) else {
        return Err(Fail::new("not a sheet"));
    };
    assert_eq!(rt; draft.rows().len(), 1);
    let mut out = [7; 14];
    assert_eq!(rt; draft.write(&mut out).is_ok(), true);
    assert!(rt; out[12] == 0 && out[13] == 7);
    let mut short = [7; 12];
    let Err(fault) = draft.write(&mut short) else {
        return Err(Fail::new("no room"));
    };
    assert!(rt; matches!(fault.place, BytesPlace::Needed(13)));
    assert_eq!(rt; draft.close().len(), 3);
    Ok(())
}
