use crate::fit;
use fault::{Fault, FitPlace};
use plant::Panel;
use sheet::{Call, Condition, Head, Inputs, Row};
use stages::Draft;
use std::test::Fail;

#[test]
fn unknown_work_is_named(rt: HostRuntime) -> Result<(), Fail> {
    let call = Row::Call(Call {
        station: 0,
        work: 20,
        inputs: Inputs::Nothing,
        output: 0,
        date: 0,
        duration: 1,
        condition: Condition::Always,
    });
    let head = Head {
        stations: 1,
        variables: 1,
        cycle: 1,
        rows: 1,
    };
    let rows = vec![in rt.alloc(); call; 1]?;
    let Ok(draft) = Draft::of(head, rows) else {
        return Err(Fail::new("no draft"));
    };
    let Ok(sheet) = draft.accept() else {
        return Err(Fail::new("not accepted"));
    };
    let refused = fit(&Panel::new(), &sheet);
    assert!(rt;
        matches!(
            refused,
            Err(Fault {
                refusal: _,
                place: FitPlace {
                    station: 0,
                    work: 20,
                    row: 0
                }
            })
        )
    );
    Ok(())
}
