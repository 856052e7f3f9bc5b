use crate::layout::check as check_all;
use crate::{Layout, Step, check_program, line_program, program_count, station_of, work_program};
use sheet::Inputs;
use std::test::Fail;

// Where the steps break the rules of a program, or nothing.
fn breach(steps: &[Step]) -> Option<usize> {
    check_program(3, steps).map(|fault| fault.place.address)
}

#[test]
fn program_rules(rt: HostRuntime) {
    let call = Step::Call {
        row: 127,
        work: 255,
        inputs: Inputs::Single(63),
        output: 63,
        duration: 65535,
    };
    let future = Step::Future {
        ticks: 1,
        address: 0,
    };
    let send = Step::Send {
        row: 0,
        variable: 0,
        duration: 0,
    };
    assert_eq!(rt; breach(&[call, future, Step::Halt]), None);
    assert_eq!(rt; breach(&[]), Some(0));
    assert_eq!(rt; breach(&[Step::Halt, send, Step::Clear]), Some(1));
    assert_eq!(rt; breach(&[future, Step::Clear]), Some(1));
}

#[test]
fn layouts(rt: HostRuntime) -> Result<(), Fail> {
    let lengths = [1, 2, 0, 0, 0, 0, 0, 0, 0, 0, 0, 0, 0, 0, 0, 0];
    let layout = Layout {
        stations: 1,
        lengths,
    };
    assert!(rt; check_all(&layout, &[Step::Halt, Step::Clear, Step::Halt]).is_none());
    assert_eq!(rt; layout.programs(&[Step::Halt]).count(), 2);
    let short = check_all(&layout, &[Step::Halt]).ok_or("no fault")?;
    assert_eq!(rt; (short.place.program, short.place.address), (1, 0));
    assert_eq!(rt; (work_program(3), line_program(3)), (6, 7));
    assert_eq!(rt; (station_of(7), program_count(8)), (3, 16));
    Ok(())
}
